//! Making the tree that of a snapshot.

ghost use Rattle.std.specs.Prelude.{◌≡◌, ◌⊎◌, ◌≤◌, IfOk, MatchResult, None, Some};
ghost use Rattle.layout.specs.Places.{blocks_of};
ghost use Rattle.layout.specs.Trees.{greatest_size};
ghost use Rattle.layout.specs.declared.geometry.TheConstants.{MOST_INODES};
ghost use Rattle.model.specs.Paths.{Name};
ghost use Rattle.model.specs.declared.command.Command.{Command};
ghost use Rattle.buffers.specs.Reads.{ReadsBlocks};
ghost use Rattle.buffers.specs.Errors.{IsFault};
ghost use Rattle.images.specs.Roots.{whole};
ghost use Rattle.images.specs.Snapshots.{HasSnapshot};
ghost use Rattle.images.specs.SnapshotSteps.{IsSlotNumber};
ghost use Rattle.snapshots.specs.Found.{FindsSnapshot, snapshot_found};
ghost use Rattle.system.specs.Restoring.{CountsKept, RestoresSlot};
ghost use Rattle.system.specs.CheckpointCommands.{Checkpoints};
ghost use Rattle.system.specs.Systems.{disk_of};
ghost use Rattle.system.specs.Views.{OnSnapshots};

use crate::laws::served_states_open;
use crate::snapshot_taking::made_of;
use crate::{PointError, System};
use buffers::{BlockError, Blocks};
use conspoint::PlanError;
use inofile::InodeFile;
use layout::Root;
use model::mounts_find_volumes;
use planning::SnapshotChange;
use replay::{count_orphans, drop_orphans};
use snapshots::{FoundSnapshot, view};
use station::Station;
use std::alloc::Global;

/// The inodes of a snapshot that was found under a root, without the files that have no name, since
/// no descriptor is open on its tree; and how many of those it keeps. Its inode map is read, and
/// each block with an inode that is in use.
fn load_restored<B: Blocks>(
    alloc: Global,
    blocks: &mut B,
    root: &Root,
    found: &FoundSnapshot,
) -> Result<(InodeFile, u32), BlockError>
    requires count { B.count blocks.old ≡ root.now.geometry.blocks }
    requires size { found.now.inode_file.size ≤ greatest_size found.now.inode_file.layout }
    ensures reads { ReadsBlocks B.Blocks IsFault blocks.old blocks.new result }
    ensures geometry { IfOk result (λ r. r.0.geometry ≡ root.now.geometry) }
    ensures few { IfOk result (λ r. r.1 ≤ MOST_INODES) }
    ensures restores { OnSnapshots B.Blocks blocks.old root.now (λ disk pairs. (name : Name)
        → FindsSnapshot root.now disk name pairs (Some found.now)
        → MatchResult result (λ r. RestoresSlot disk root.now found.now.slot r.0
        × CountsKept disk root.now found.now.slot r.1)
        (λ e. (e ≡ BlockError.NoMemory) ⊎ (e ≡ BlockError.Device))) }
{
    let mut inodes = view(alloc, blocks, root, found)?;
    let orphans = count_orphans(&inodes, blocks)?;
    drop_orphans(alloc, &mut inodes, blocks)?;
    Ok((inodes, orphans))
}

impl<S: Station> System<S> {
    /// Makes the tree that of a snapshot, once the newest root covers all, by another consistency
    /// point.
    pub(crate) fn restore(&mut self, name: &[u8], found: &FoundSnapshot) -> Result<bool, PointError>
        requires slot { IsSlotNumber found.now.slot }
        requires size { found.now.inode_file.size ≤ greatest_size found.now.inode_file.layout }
        ensures { Checkpoints self.old self.new (λ s.
            HasSnapshot self.old.root (whole (blocks_of (disk_of self.old)) self.old.root)
            found.now.slot (snapshot_found name.now found.now)
            × (s.tree.descriptors ≡ (λ fd. None))) (Command.SnapRestore name.now) result }
    {
        mounts_find_volumes();
        self.checkpoint()?;
        served_states_open(self);
        let (restored, orphans) = match load_restored(
            self.alloc,
            &mut self.blocks,
            &self.root,
            found,
        ) {
            Ok(loaded) => loaded,
            Err(error) => return Err(PointError::NotPlanned(PlanError::from(error))),
        };
        if !self.has_room_besides(orphans) {
            return Ok(false);
        }
        let change = SnapshotChange::Restore {
            slot: found.slot,
            inode_file: found.inode_file,
        };
        made_of(self.point_over(restored, &change))
    }
}
