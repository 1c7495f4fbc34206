//! What a consistency point that was planned comes to.

ghost use Rattle.std.specs.Prelude.{ℕ, ◌≡◌, ◌≢◌, ◌<◌, ◌≤◌, ◌⊎◌, Bool, List, true};
ghost use Rattle.layout.specs.StateLimits.{limits_of};
ghost use Rattle.layout.specs.Places.{Blocks};
ghost use Rattle.layout.specs.Root.{IsRoot};
ghost use Rattle.layout.specs.declared.inode.Inode.{Inode};
ghost use Rattle.layout.specs.declared.root.Root.{Root};
ghost use Rattle.layout.specs.declared.version.TheConstants.{VERSION};
ghost use Rattle.model.specs.Paths.{Name};
ghost use Rattle.model.specs.Trees.{Tree};
ghost use Rattle.model.specs.Volumes.{IsVolume, Volume};
ghost use Rattle.images.specs.Nodes.{Agrees, Held, IsOnce, Names, held};
ghost use Rattle.images.specs.Roots.{HeldTree, Needs, whole};
ghost use Rattle.images.specs.BlockMap.{IsExact, NamesOnce, entry};
ghost use Rattle.images.specs.Contents.{Content, content_of};
ghost use Rattle.images.specs.Overlays.{IsInline, LaysOut, Overlay, overlaid_content};
ghost use Rattle.images.specs.Points.{HoldObjects, IsBase, IsPlannedOn, IsUnderNewRoot};
ghost use Rattle.images.specs.Points.{IsSoundPlan};
ghost use Rattle.images.specs.Room.{StoresOwn};
ghost use Rattle.images.specs.SnapshotSteps.{CanStep, HasHead, SnapshotStep, StepsSlots, base_plane, base_tree, kept_after};
ghost use Rattle.images.specs.Soundness.{IsSoundTree};
ghost use Rattle.images.specs.States.{Holds, IsSound};

/// A block whose entry is 0 is none that the root needs. It does nothing.
pub fn free_blocks_are_unneeded()
    ensures { (d : Blocks) (r : Root) (b : ℕ) → IsRoot r → IsExact r (whole d r)
        → entry (whole d r).active b ≡ 0 → Needs r (whole d r) b → ⊥ }
{}

/// A consistency point may start from the active tree, or from a snapshot's: so from that of each
/// step that may be made. It does nothing.
pub fn trees_are_bases()
    ensures active { (d : Blocks) (r : Root) → IsExact r (whole d r) → NamesOnce (whole d r).active
        → IsBase d r (whole d r).active 0 }
    ensures frozen { (d : Blocks) (r : Root) (k : ℕ) → 1 ≤ k → k ≢ 31 → IsExact r (whole d r)
        → NamesOnce ((whole d r).frozen k) → IsBase d r ((whole d r).frozen k) k }
    ensures steps { (d : Blocks) (r : Root) (step : SnapshotStep) → IsSound r (whole d r)
        → CanStep step r (whole d r)
        → IsBase d r (base_tree step (whole d r)) (base_plane step) }
    ensures sound { (d : Blocks) (r : Root) (step : SnapshotStep) → IsSound r (whole d r)
        → CanStep step r (whole d r)
        → IsSoundTree r.geometry (base_tree step (whole d r)) }
{}

/// A changed file that is laid out reads as it is in memory, and its blocks are the settled file's
/// or were taken. It does nothing.
pub fn files_stand_as_laid()
    ensures content { (d e : Blocks) (old : Inode) (c : Overlay) (f : Inode) (taken : ℕ → Bool)
        → LaysOut d e old c f taken → content_of (held e f) ≡ overlaid_content (held d old) c }
    ensures comes { (d e : Blocks) (old : Inode) (c : Overlay) (f : Inode) (taken : ℕ → Bool)
        (b : ℕ) → LaysOut d e old c f taken → Names (held e f) b
        → Names (held d old) b ⊎ (taken b ≡ true) }
    ensures once { (d e : Blocks) (old : Inode) (c : Overlay) (f : Inode) (taken : ℕ → Bool)
        → LaysOut d e old c f taken → IsOnce (held d old) → IsOnce (held e f) }
{}

/// A changed file whose inode has the bytes itself reads as it is in memory, and names no block. It
/// does nothing.
pub fn files_stand_inline()
    ensures content { (e : Blocks) (h : Held) (c : Overlay) (f : Inode)
        → IsInline h c f → content_of (held e f) ≡ overlaid_content h c }
    ensures names { (e : Blocks) (h : Held) (c : Overlay) (f : Inode) (b : ℕ)
        → IsInline h c f → Names (held e f) b → ⊥ }
{}

/// On any disk that has the planned blocks and those that the old root needs, the new root holds
/// what was planned: the changed contents, a map that is exact, and the frozen trees. It does
/// nothing.
pub fn planned_points_settle()
    ensures { (d e : Blocks) (r new : Root) (t : HeldTree) (plane : ℕ) (files : ℕ → Content)
        → IsRoot r → IsExact r (whole d r) → IsBase d r t plane
        → Agrees (Needs r (whole d r)) d e → IsPlannedOn (whole d r) t plane r e new files
        → IsUnderNewRoot r new (whole d r) (whole e new) files }
{}

/// Where the old root held a volume, and what was planned of the tree that the step starts from is
/// in its grammar, the new root holds the planned volume, and the same snapshots but for one that
/// is taken or deleted: the tree of a snapshot that is taken is that of the old root's volume,
/// without the files that have no name. It does nothing.
pub fn planned_points_hold()
    ensures { (d e : Blocks) (r new : Root) (files : ℕ → Content) (first v : Volume)
        (snapshots : List (Name × Tree))
        → IsRoot r → IsRoot new → Holds r (whole d r) first snapshots
        → Agrees (Needs r (whole d r)) d e
        → (step : SnapshotStep)
        → (plan : IsPlannedOn (whole d r) (base_tree step (whole d r)) (base_plane step) r e new files)
        → IsSoundPlan r.geometry e plan.inode plan.changed
        → StoresOwn (base_plane step) (λ n. held e (plan.inode n)) r new plan.taken
        → r.generation < new.generation
        → new.version ≡ VERSION
        → HoldObjects r.geometry.inodes files v → IsVolume (limits_of r.geometry) v
        → CanStep step r (whole d r) → StepsSlots step r new
        → HasHead step new e → Holds new (whole e new) v (kept_after step first snapshots) }
{}
