//! What a consistency point leaves free.

ghost use Rattle.std.specs.Prelude.{ℕ, ◌≢◌, ◌+◌, ◌≤◌, min};
ghost use Rattle.layout.specs.Places.{Blocks};
ghost use Rattle.layout.specs.Root.{IsRoot};
ghost use Rattle.layout.specs.Trees.{level_of};
ghost use Rattle.layout.specs.declared.root.Root.{Root};
ghost use Rattle.images.specs.Contents.{Content};
ghost use Rattle.images.specs.Nodes.{Agrees, held};
ghost use Rattle.images.specs.Points.{IsPlannedOn, IsSoundPlan};
ghost use Rattle.images.specs.Roots.{Needs, whole};
ghost use Rattle.images.specs.Room.{IsNewHead, TakesBelow, TakesFirst, free_under};
ghost use Rattle.images.specs.SnapshotSteps.{CanStep, SnapshotStep, base_plane, base_tree};
ghost use Rattle.images.specs.States.{IsSound};

/// A consistency point leaves as many blocks free as there were, but for those that were free
/// before the last block that it takes for files and snapshots. Of the block map's file none
/// counts, and the nodes over the inode file's first block are given back, where no snapshot is
/// taken. It does nothing.
pub fn points_leave_room()
    ensures all { (d e : Blocks) (r new : Root) (files : ℕ → Content) → IsRoot r → IsRoot new
        → IsSound r (whole d r) → Agrees (Needs r (whole d r)) d e
        → (step : SnapshotStep) → CanStep step r (whole d r)
        → (plan : IsPlannedOn (whole d r) (base_tree step (whole d r)) (base_plane step) r e new files)
        → (mid : ℕ)
        → TakesBelow mid (λ n. Unit {0}) r new plan.taken
        → free_under (whole d r).active r.geometry.blocks
        ≤ free_under (whole e new).active r.geometry.blocks
        + free_under (whole d r).active (min mid r.geometry.blocks) }
    ensures own { (d e : Blocks) (r new : Root) (files : ℕ → Content) → IsRoot r → IsRoot new
        → IsSound r (whole d r) → Agrees (Needs r (whole d r)) d e
        → (step : SnapshotStep) → CanStep step r (whole d r)
        → (plan : IsPlannedOn (whole d r) (base_tree step (whole d r)) (base_plane step) r e new files)
        → IsSoundPlan r.geometry e plan.inode plan.changed
        → ((k b : ℕ) → IsNewHead r new k b → ⊥) → (mid : ℕ)
        → TakesBelow mid (λ n. n ≢ 2) r new plan.taken
        → TakesFirst (λ n. held e (plan.inode n)) plan.taken
        → free_under (whole d r).active r.geometry.blocks + level_of r.inode_file.layout r.inode_file.size
        ≤ free_under (whole e new).active r.geometry.blocks
        + free_under (whole d r).active (min mid r.geometry.blocks) }
{}
