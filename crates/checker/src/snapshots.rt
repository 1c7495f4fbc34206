//! The snapshots' root blocks.

ghost use Rattle.std.specs.Prelude.{◌≡◌, ◌↔◌, ◌+◌, ◌<◌, ℕ, List, IfOk, IfSome, IsTrue, count_by};
ghost use Rattle.layout.specs.Pointer.{PointsBelow};
ghost use Rattle.layout.specs.Root.{IsRoot};
ghost use Rattle.layout.specs.declared.pointer.Pointer.TheVariants.{Block, Hole};
ghost use Rattle.layout.specs.declared.version.TheConstants.{SNAPSHOT_SLOTS};
ghost use Rattle.loading.specs.Snapshots.{AreApartAt};
ghost use Rattle.checker.specs.Checks.{is_block};
ghost use Rattle.checker.specs.Errors.{IsFault, ReadsForFaults};
ghost use Rattle.checker.specs.Trees.{TellsSlot, TellsSnapshot};

use crate::uncached_reads::read_block;
use crate::{CheckError, Fault, SnapshotFault, SnapshotName, UncachedReads};
use buffers::BlockError;
use images::snapshots_are_what_their_bytes_spell;
use layout::{BlockNumber, Geometry, Inode, Pointer, Root, SnapRoot};
use loading::{are_apart, check_snapshot};

/// The first fault of the root block in a slot of a root: that it is no snapshot's, or of the name
/// or the number of one in a slot before it.
pub(crate) fn fault_in_slot<B: UncachedReads>(
    blocks: &mut B,
    root: &Root,
    k: usize,
) -> Result<Option<Fault>, CheckError>
    requires root { IsRoot root.now }
    requires size { B.count blocks.old ≡ root.now.geometry.blocks }
    requires slot { k < SNAPSHOT_SLOTS }
    ensures reads { ReadsForFaults B.Blocks IsFault blocks.old blocks.new result }
    ensures tells { (disk : ℕ → List ℕ) → B.Shows blocks.old disk
        → IfOk result (TellsSlot disk root.now k) }
{
    snapshots_are_what_their_bytes_spell();
    let pointer = root.snapshots[k];
    let Pointer::Block(block) = pointer else {
        return Ok(None);
    };
    match check_snapshot(blocks, pointer, root) {
        Ok(()) => {}
        Err(BlockError::Damaged) => {
            return Ok(Some(slot_fault(k, block, SnapshotFault::NoSnapshot)));
        }
        Err(BlockError::NoMemory) => return Err(CheckError::NoMemory),
        Err(BlockError::Device) => return Err(CheckError::Device),
    }
    for l in 0..k {
        if !differ(blocks, root.geometry, root.snapshots[l], root.snapshots[k])? {
            return Ok(Some(slot_fault(k, block, SnapshotFault::SameAs(l as u32 + 1))));
        }
    }
    Ok(None)
}

/// Whether the snapshots at two pointers, if there are two in an image of this geometry that can be
/// read, differ in name and in order.
fn differ<B: UncachedReads>(
    blocks: &mut B,
    geometry: Geometry,
    a: Pointer,
    b: Pointer,
) -> Result<bool, CheckError>
    requires first { PointsBelow (B.count blocks.old) a }
    requires second { PointsBelow (B.count blocks.old) b }
    ensures reads { ReadsForFaults B.Blocks IsFault blocks.old blocks.new result }
    ensures apart { (disk : ℕ → List ℕ) → B.Shows blocks.old disk
        → IfOk result (λ apart. IsTrue apart ↔ AreApartAt geometry.layout disk a b) }
{
    match are_apart(blocks, geometry, a, b) {
        Ok(apart) => Ok(apart),
        Err(BlockError::Damaged) => Ok(true),
        Err(BlockError::NoMemory) => Err(CheckError::NoMemory),
        Err(BlockError::Device) => Err(CheckError::Device),
    }
}

/// A fault of the root block in a slot.
fn slot_fault(k: usize, block: BlockNumber, found: SnapshotFault) -> Fault
    requires { k < SNAPSHOT_SLOTS }
    ensures { result ≡ Fault.Snapshot (k + 1) block found }
{
    Fault::Snapshot {
        slot: k as u32 + 1,
        block: block.get(),
        found,
    }
}

/// The name of the snapshot at a pointer in an image of this geometry, and the inode of its inode
/// file, if one is there and can be read.
pub(crate) fn snapshot_at<B: UncachedReads>(
    blocks: &mut B,
    pointer: Pointer,
    geometry: Geometry,
) -> Result<Option<(SnapshotName, Inode)>, CheckError>
    requires { PointsBelow (B.count blocks.old) pointer }
    ensures reads { ReadsForFaults B.Blocks IsFault blocks.old blocks.new result }
    ensures tells { (disk : ℕ → List ℕ) → B.Shows blocks.old disk
        → IfOk result (TellsSnapshot geometry.layout disk pointer) }
    ensures there { IfOk result
        (λ found. IfSome found (λ _. (block : ℕ) × (pointer ≡ Block block))) }
{
    snapshots_are_what_their_bytes_spell();
    let Pointer::Block(block) = pointer else {
        return Ok(None);
    };
    if !read_block(blocks, block)? {
        return Ok(None);
    }
    match SnapRoot::read(blocks.bytes(block), geometry.layout()) {
        Some(snapshot) => Ok(Some((SnapshotName::new(snapshot.name), snapshot.inode_file))),
        None => Ok(None),
    }
}

/// How many snapshots a root has.
pub(crate) fn count_snapshots(root: &Root) -> usize
    ensures { result ≡ count_by is_block root.now.snapshots }
{
    root.snapshots
        .iter()
        .filter(|pointer| is_block(**pointer))
        .count()
}

/// Whether a pointer leads to a block.
fn is_block(pointer: Pointer) -> bool
    ensures { result ≡ is_block pointer }
{
    match pointer {
        Pointer::Hole => false,
        Pointer::Block(_) => true,
    }
}
