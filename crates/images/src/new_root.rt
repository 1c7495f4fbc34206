//! What a new root makes of the slots and of the log.

ghost use Rattle.std.specs.Prelude.{ℕ, ◌≡◌, ◌+◌, ◌<◌, ◌^◌, List, []};
ghost use Rattle.layout.specs.Log.{LogHolds};
ghost use Rattle.layout.specs.Opens.{HoldsRoot, IsNewest};
ghost use Rattle.layout.specs.Root.{IsRoot, root_bytes};
ghost use Rattle.layout.specs.declared.root.Root.{Root};

/// A root of a later generation, written beside the old one, is the newest. It does nothing.
pub fn later_roots_are_newest()
    ensures second { (r new : Root) (a : List ℕ) → HoldsRoot a r → IsRoot new
        → r.generation < new.generation → new.geometry ≡ r.geometry
        → IsNewest new a (root_bytes new) }
    ensures first { (r new : Root) (b : List ℕ) → HoldsRoot b r → IsRoot new
        → r.generation < new.generation → new.geometry ≡ r.geometry
        → IsNewest new (root_bytes new) b }
{}

/// A root whose generation is that of an epoch covers the epoch's records: over it the log holds
/// those behind them. It does nothing.
pub fn roots_cover_epochs()
    ensures one { (half g : ℕ) (nvram : List ℕ) (bodies : List (List ℕ)) → g + 3 < 2 ^ 64
        → (log : LogHolds half g nvram bodies) → LogHolds half (g + 1) nvram log.second }
    ensures both { (half g : ℕ) (nvram : List ℕ) (bodies : List (List ℕ)) → g + 4 < 2 ^ 64
        → LogHolds half g nvram bodies → LogHolds half (g + 2) nvram [] }
{}
