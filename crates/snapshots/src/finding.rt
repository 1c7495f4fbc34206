//! The snapshot of a name.

ghost use Rattle.std.specs.Prelude.{◌≡◌, ◌≢◌, ◌<◌, ◌≤◌, ℕ, List, IfOk, IfSome, IfNone, IsErrOf};
ghost use Rattle.layout.specs.Pointer.{PointsBelow};
ghost use Rattle.layout.specs.Root.{IsRoot};
ghost use Rattle.layout.specs.SnapRoot.{Snapshot};
ghost use Rattle.layout.specs.Trees.{greatest_size};
ghost use Rattle.layout.specs.declared.version.TheConstants.{SNAPSHOT_SLOTS};
ghost use Rattle.model.specs.Paths.{Name};
ghost use Rattle.model.specs.Trees.{Tree};
ghost use Rattle.model.specs.Volumes.{Volume};
ghost use Rattle.buffers.specs.Reads.{ReadsBlocks};
ghost use Rattle.buffers.specs.Errors.{IsFault};
ghost use Rattle.images.specs.Roots.{whole};
ghost use Rattle.images.specs.States.{Holds};
ghost use Rattle.loading.specs.Snapshots.{IsSnapshotAt};
ghost use Rattle.snapshots.specs.Found.{FindsSnapshot, SpellsSnapshot, snapshot_found};

use buffers::{BlockError, Blocks};
use images::snapshots_are_what_their_bytes_spell;
use layout::{Geometry, Inode, Pointer, Root, SNAPSHOT_SLOTS, SnapRoot};

/// A snapshot that has the name that was asked for.
#[derive(Clone, Copy, Debug)]
pub struct FoundSnapshot {
    /// Its slot in the root, and its plane of the block map: 1 to 30.
    pub slot: u32,
    /// Its place among the snapshots by age, from 1 on.
    pub order: u64,
    /// The inode of the file of all its inodes.
    pub inode_file: Inode,
}

/// Finds the snapshot of a name under a root: None where no snapshot has it. It reads the root
/// blocks of the snapshots, and nothing else. `Damaged` comes where one of these is no snapshot's
/// root, and else an error only for want of memory and where a device call failed.
pub fn find<B: Blocks>(
    blocks: &mut B,
    root: &Root,
    name: &[u8],
) -> Result<Option<FoundSnapshot>, BlockError>
    requires root { IsRoot root.now }
    requires size { B.count blocks.old ≡ root.now.geometry.blocks }
    ensures reads { ReadsBlocks B.Blocks IsFault blocks.old blocks.new result }
    ensures slot { IfOk result (λ found. IfSome found (λ f. (1 ≤ f.slot)
        × (f.slot ≤ SNAPSHOT_SLOTS))) }
    ensures size { IfOk result (λ found.
        IfSome found (λ f. f.inode_file.size ≤ greatest_size f.inode_file.layout)) }
    ensures finds { (disk : ℕ → List ℕ) → B.Shows blocks.old disk → (v : Volume)
        (pairs : List (Name × Tree)) → Holds root.now (whole disk root.now) v pairs
        → IfOk result (FindsSnapshot root.now disk name.now pairs) }
    ensures damaged { (disk : ℕ → List ℕ) → B.Shows blocks.old disk → (v : Volume)
        (pairs : List (Name × Tree)) → Holds root.now (whole disk root.now) v pairs
        → IsErrOf result BlockError.Damaged → ⊥ }
{
    for k in 0..SNAPSHOT_SLOTS {
        let found = named_at(blocks, root.geometry, root.snapshots[k], k as u32 + 1, name)?;
        if found.is_some() {
            return Ok(found);
        }
    }
    Ok(None)
}

/// The snapshot whose root block is at the pointer of a slot, if there is one and it has this name.
fn named_at<B: Blocks>(
    blocks: &mut B,
    geometry: Geometry,
    pointer: Pointer,
    slot: u32,
    name: &[u8],
) -> Result<Option<FoundSnapshot>, BlockError>
    requires { PointsBelow (B.count blocks.old) pointer }
    ensures reads { ReadsBlocks B.Blocks IsFault blocks.old blocks.new result }
    ensures slot { IfOk result (λ found. IfSome found (λ f. f.slot ≡ slot)) }
    ensures size { IfOk result (λ found.
        IfSome found (λ f. f.inode_file.size ≤ greatest_size f.inode_file.layout)) }
    ensures found { (disk : ℕ → List ℕ) → B.Shows blocks.old disk → IfOk result (λ found.
        IfSome found (λ f. SpellsSnapshot geometry.layout disk pointer (snapshot_found name.now f))) }
    ensures none { (disk : ℕ → List ℕ) → B.Shows blocks.old disk → IfOk result (λ found.
        IfNone found ((s : Snapshot) → SpellsSnapshot geometry.layout disk pointer s → s.name ≢ name.now)) }
    ensures damaged { (disk : ℕ → List ℕ) (most : ℕ) → B.Shows blocks.old disk
        → IsErrOf result BlockError.Damaged → IsSnapshotAt geometry most disk pointer → ⊥ }
{
    snapshots_are_what_their_bytes_spell();
    let Pointer::Block(place) = pointer else {
        return Ok(None);
    };
    blocks.make_resident(place)?;
    let Some(snapshot) = SnapRoot::read(blocks.bytes(place), geometry.layout()) else {
        return Err(BlockError::Damaged);
    };
    if snapshot.name != name {
        return Ok(None);
    }
    Ok(Some(FoundSnapshot {
        slot,
        order: snapshot.order,
        inode_file: snapshot.inode_file,
    }))
}
