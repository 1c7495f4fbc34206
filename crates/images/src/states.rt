//! Images stand for one state at most.

ghost use Rattle.std.specs.Prelude.{◌≡◌, ◌^◌, ◌≤◌, ◌<◌, ◌⊎◌, ℕ, List, IsSome};
ghost use Rattle.layout.specs.Places.{Blocks, blocks_of};
ghost use Rattle.layout.specs.Record.{Change};
ghost use Rattle.layout.specs.Root.{IsRoot};
ghost use Rattle.layout.specs.declared.root.Root.{Root};
ghost use Rattle.model.specs.States.{Forgets, State};
ghost use Rattle.model.specs.Volumes.{IsGraph, Volume};
ghost use Rattle.model.specs.declared.limits.TheConstants.{FIRST_NUMBER, ROOT_NUMBER};
ghost use Rattle.images.specs.Contents.{Content, HoldsVolume, tree_contents};
ghost use Rattle.images.specs.Faults.{HasNoFault, HasRoots, IsFaultless, IsFaultlessUnder};
ghost use Rattle.images.specs.Roots.{whole};
ghost use Rattle.images.specs.Sizes.{HoldsVolumeIn};
ghost use Rattle.images.specs.Soundness.{by_sizes};
ghost use Rattle.images.specs.States.{Opens, OpensBy, SameButFree};

/// Files hold one volume at most. It does nothing.
pub fn files_hold_one_volume()
    ensures { (inodes : ℕ) (files : ℕ → Content) (v w : Volume) → inodes ≤ 2 ^ 32
        → HoldsVolume inodes files v → HoldsVolume inodes files w → v ≡ w }
{}

/// No images open to two states: what they open to is one state, once its open files are forgotten.
/// It does nothing.
pub fn images_open_to_one_state()
    ensures { (sectors : ℕ) (disk : ℕ → List ℕ) (nvram : List ℕ) (s t : State)
        → Opens sectors disk nvram s → Opens sectors disk nvram t
        → (u : State) × Forgets s u × Forgets t u }
{}

/// Free blocks are no matter: disks that differ in sectors of blocks alone whose entries are 0 open
/// to the same states, by the same records. It does nothing.
pub fn free_blocks_are_no_matter()
    ensures { (sectors : ℕ) (d e : ℕ → List ℕ) (nvram : List ℕ) (s : State)
        → (o : Opens sectors d nvram s) → SameButFree o.root d e
        → OpensBy sectors e nvram s o.changes }
{}

/// None of the nine faults stands in images that open to a state. It does nothing.
pub fn images_that_open_have_no_fault()
    ensures under { (sectors : ℕ) (disk : ℕ → List ℕ) (nvram : List ℕ) (s : State)
        → (o : Opens sectors disk nvram s) → HasRoots o.root sectors disk nvram
        × IsFaultlessUnder o.root (whole (blocks_of disk) o.root) nvram o.changes }
    ensures all { (sectors : ℕ) (disk : ℕ → List ℕ) (nvram : List ℕ) (s : State)
        → Opens sectors disk nvram s → HasNoFault sectors disk nvram }
{}

/// A tree without a fault holds a volume by the sizes of its files; the names of each that it holds
/// so are a graph, and of its numbers only ordinary ones and the root directory's are in use. It
/// does nothing.
pub fn faultless_trees_hold_graphs()
    ensures holds { (d : Blocks) (r : Root) → IsFaultless r.geometry (whole d r).active
        → (v : Volume) × HoldsVolumeIn by_sizes r.geometry.inodes (tree_contents (whole d r).active) v }
    ensures graph { (d : Blocks) (r : Root) (v : Volume) → IsRoot r
        → IsFaultless r.geometry (whole d r).active
        → HoldsVolumeIn by_sizes r.geometry.inodes (tree_contents (whole d r).active) v → IsGraph v }
    ensures numbers { (d : Blocks) (r : Root) (v : Volume) → IsRoot r
        → IsFaultless r.geometry (whole d r).active
        → HoldsVolumeIn by_sizes r.geometry.inodes (tree_contents (whole d r).active) v → (n : ℕ) → IsSome (v n)
        → (n ≡ ROOT_NUMBER) ⊎ ((FIRST_NUMBER ≤ n) × (n < r.geometry.inodes)) }
{}

/// Of one root, the volume and the records are one: so what is told of the images without faults is
/// told of the same. It does nothing.
pub fn faultless_images_have_one_root()
    ensures { (sectors : ℕ) (disk : ℕ → List ℕ) (nvram : List ℕ) (r : Root)
        → HasNoFault sectors disk nvram → HasRoots r sectors disk nvram
        → (changes : List Change)
        × IsFaultlessUnder r (whole (blocks_of disk) r) nvram changes }
{}
