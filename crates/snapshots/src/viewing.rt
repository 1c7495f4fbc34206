//! The tree of a snapshot.

ghost use Rattle.std.specs.Prelude.{◌≡◌, ◌⊎◌, ◌≤◌, ℕ, List, IfOk, MatchResult, Some};
ghost use Rattle.layout.specs.Trees.{greatest_size};
ghost use Rattle.model.specs.Paths.{Name};
ghost use Rattle.model.specs.Trees.{Tree};
ghost use Rattle.model.specs.Volumes.{Volume};
ghost use Rattle.buffers.specs.Reads.{ReadsBlocks};
ghost use Rattle.buffers.specs.Errors.{IsFault};
ghost use Rattle.images.specs.Roots.{whole};
ghost use Rattle.images.specs.States.{Holds};
ghost use Rattle.loading.specs.Images.{AreInodesOf};
ghost use Rattle.snapshots.specs.Found.{FindsSnapshot};

use crate::finding::FoundSnapshot;
use buffers::{BlockError, Blocks};
use inofile::InodeFile;
use layout::Root;
use loading::{load_inodes, snapshots_are_readable};
use std::alloc::Global;

/// The inodes of a snapshot that was found under a root: memory stands for the volume of its tree,
/// orphans among them. Of its blocks only those of the inode map are read, and the inode of that.
/// Where the root holds snapshots an error comes only for want of memory and where a device call
/// failed.
pub fn view<B: Blocks>(
    alloc: Global,
    blocks: &mut B,
    root: &Root,
    found: &FoundSnapshot,
) -> Result<InodeFile, BlockError>
    requires count { B.count blocks.old ≡ root.now.geometry.blocks }
    requires size { found.now.inode_file.size ≤ greatest_size found.now.inode_file.layout }
    ensures reads { ReadsBlocks B.Blocks IsFault blocks.old blocks.new result }
    ensures version { IfOk result (λ inodes. inodes.version ≡ root.now.version) }
    ensures geometry { IfOk result (λ inodes. inodes.geometry ≡ root.now.geometry) }
    ensures views { (disk : ℕ → List ℕ) → B.Shows blocks.old disk → (v : Volume) (name : Name)
        (pairs : List (Name × Tree)) → Holds root.now (whole disk root.now) v pairs
        → FindsSnapshot root.now disk name pairs (Some found.now) → MatchResult result
        (AreInodesOf disk root.now.version root.now.geometry ((whole disk root.now).frozen found.now.slot))
        (λ e. (e ≡ BlockError.NoMemory) ⊎ (e ≡ BlockError.Device)) }
{
    snapshots_are_readable();
    let inodes = load_inodes(alloc, blocks, root.version, root.geometry, found.inode_file)?;
    Ok(inodes)
}
