//! What a cut may leave of a consistency point.

ghost use Rattle.std.specs.Prelude.{ℕ, ◌+◌, ◌≤◌, List};
ghost use Rattle.layout.specs.StateLimits.{limits_of};
ghost use Rattle.layout.specs.Opens.{IsNewest};
ghost use Rattle.layout.specs.Places.{Blocks, blocks_of};
ghost use Rattle.layout.specs.Root.{IsRoot, root_bytes};
ghost use Rattle.layout.specs.declared.TheConstants.{SLOT_A, SLOT_B};
ghost use Rattle.layout.specs.declared.root.Root.{Root};
ghost use Rattle.model.specs.Records.{Change, Replays, pledged_for};
ghost use Rattle.layout.specs.StateLimits.{fixed_of};
ghost use Rattle.model.specs.States.{Forgets, State};
ghost use Rattle.model.specs.Volumes.{Volume};
ghost use Rattle.images.specs.Cuts.{AreFree, HasRootWritten, IsOfDisk, IsOtherSlot, IsPointWith, LeavesFree, LosesSlot, PlansOn, StaysOutsideWrites, Write};
ghost use Rattle.images.specs.Contents.{tree_contents};
ghost use Rattle.images.specs.Room.{free_under};
ghost use Rattle.images.specs.Roots.{Needs, whole};
ghost use Rattle.images.specs.SnapshotSteps.{SnapshotStep, kept_after, unchanged};
ghost use Rattle.images.specs.States.{Holds, IsSound, LogHoldsChanges, Opens, OpensBy, state_of};

/// What a root in its grammar needs are blocks of its disk, none of the two that hold the roots. It
/// does nothing.
pub fn needed_blocks_are_of_the_disk()
    ensures { (d : Blocks) (r : Root) (b : ℕ) → IsRoot r → IsSound r (whole d r)
        → Needs r (whole d r) b → IsOfDisk r.geometry.blocks b }
{}

/// Before its root is written, a consistency point leaves images that open as before, by the same
/// records. It does nothing.
pub fn unfinished_points_open_as_before()
    ensures { (sectors : ℕ) (d e : ℕ → List ℕ) (nvram : List ℕ) (s : State) (writes : List Write)
        → (o : Opens sectors d nvram s) → AreFree o.root d writes → StaysOutsideWrites writes d e
        → OpensBy sectors e nvram s o.changes }
{}

/// Where the sector that its root goes to can't be read afterwards, a consistency point leaves
/// images that open as before, by the same records: the newest root stands in the other slot. It
/// does nothing.
pub fn lost_slots_open_as_before()
    ensures { (sectors : ℕ) (d e : ℕ → List ℕ) (nvram : List ℕ) (s : State) (writes : List Write)
        (sector : ℕ) → (o : Opens sectors d nvram s) → AreFree o.root d writes
        → IsOtherSlot o.root d sector → LosesSlot writes sector d e
        → OpensBy sectors e nvram s o.changes }
{}

/// Once its root is written, that is the newest one, and it holds the planned volume and the same
/// snapshots, but for one that it takes or deletes. As many blocks are free as was planned. It does
/// nothing.
pub fn finished_points_hold()
    ensures newest { (sectors : ℕ) (d e : ℕ → List ℕ) (nvram : List ℕ) (s : State)
        (writes : List Write) (sector : ℕ) (new : Root) (v : Volume) (step : SnapshotStep)
        → (o : Opens sectors d nvram s) → IsPointWith step o.root d writes sector new v
        → HasRootWritten writes sector (root_bytes new) d e → IsNewest new (e SLOT_A) (e SLOT_B) }
    ensures holds { (sectors : ℕ) (d e : ℕ → List ℕ) (nvram : List ℕ) (s : State)
        (writes : List Write) (sector : ℕ) (new : Root) (v : Volume) (step : SnapshotStep)
        → (o : Opens sectors d nvram s) → IsPointWith step o.root d writes sector new v
        → HasRootWritten writes sector (root_bytes new) d e
        → Holds new (whole (blocks_of e) new) v (kept_after step o.first o.snapshots) }
    ensures free { (sectors : ℕ) (d e : ℕ → List ℕ) (nvram : List ℕ) (s : State)
        (writes : List Write) (sector : ℕ) (new : Root) (v : Volume) (step : SnapshotStep)
        (spent : ℕ) → (o : Opens sectors d nvram s)
        → IsPointWith step o.root d writes sector new v
        → HasRootWritten writes sector (root_bytes new) d e
        → LeavesFree spent o.root (blocks_of d) writes new
        → free_under (whole (blocks_of d) o.root).active o.root.geometry.blocks
        ≤ free_under (whole (blocks_of e) new).active o.root.geometry.blocks + spent }
{}

/// And where the point leaves room for the records that the new root doesn't cover, the images open
/// by these, to what they lead to from the planned volume and to the snapshots as before, but for
/// one that it takes or deletes. It does nothing.
pub fn finished_points_open()
    ensures { (sectors : ℕ) (d e : ℕ → List ℕ) (nvram : List ℕ) (s : State)
        (writes : List Write) (sector : ℕ) (new : Root) (v : Volume) (step : SnapshotStep)
        (rest : List Change) (last : Volume)
        → (o : Opens sectors d nvram s) → IsPointWith step o.root d writes sector new v
        → HasRootWritten writes sector (root_bytes new) d e → LogHoldsChanges new nvram rest
        → Replays (limits_of o.root.geometry) v rest last
        → (t : State)
        → Forgets t (state_of (limits_of o.root.geometry) last (kept_after step o.first o.snapshots))
        → (spent : ℕ)
        → LeavesFree spent o.root (blocks_of d) writes new
        → pledged_for (limits_of o.root.geometry) v rest + fixed_of o.root.geometry.blocks + spent
        ≤ free_under (whole (blocks_of d) o.root).active o.root.geometry.blocks
        → OpensBy sectors e nvram t rest }
{}

/// A point that changes nothing but the generation can be planned: what is asked of a plan can be
/// met. It does nothing.
pub fn nothing_can_be_planned()
    ensures { (d : Blocks) (r : Root) (generation : ℕ) → IsSound r (whole d r)
        → PlansOn unchanged d r d (record r { generation = generation }) (tree_contents (whole d r).active) }
{}
