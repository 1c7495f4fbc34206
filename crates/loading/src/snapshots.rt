//! The snapshots' root blocks under a root.

ghost use Rattle.std.specs.Prelude.{◌≡◌, ◌↔◌, ◌≤◌, ◌<◌, ℕ, All, List, IfOk, IsErrOf, IsTrue, OnOk, slice_index_or};
ghost use Rattle.layout.specs.Inode.{IsInode};
ghost use Rattle.layout.specs.Places.{pointed};
ghost use Rattle.layout.specs.Pointer.{PointsBelow};
ghost use Rattle.layout.specs.Root.{IsRoot};
ghost use Rattle.layout.specs.declared.version.TheConstants.{SNAPSHOT_SLOTS};
ghost use Rattle.layout.specs.declared.pointer.Pointer.TheVariants.{Hole};
ghost use Rattle.buffers.specs.Disks.{IsWhole};
ghost use Rattle.buffers.specs.Reads.{ReadsBlocks};
ghost use Rattle.buffers.specs.Errors.{IsFault};
ghost use Rattle.images.specs.Roots.{whole};
ghost use Rattle.images.specs.Snapshots.{AreSnapshots};
ghost use Rattle.loading.specs.Snapshots.{AreOfTwoSnapshots, AreApartAt, IsSnapshotAt};

use buffers::{BlockError, Blocks};
use images::snapshots_are_what_their_bytes_spell;
use layout::{BLOCK_BYTES, Geometry, Pointer, Root, SNAPSHOT_SLOTS, SnapRoot};

/// Tests the root block of each snapshot of a root: `Damaged` where one is no snapshot's root in an
/// image of these sizes, or has an order above the root's generation, and where two have one name
/// or one order. So after Ok each slot that isn't free has a snapshot.
pub fn check_snapshots<B: Blocks>(blocks: &mut B, root: &Root) -> Result<(), BlockError>
    requires root { IsRoot root.now }
    requires size { B.count blocks.old ≡ root.now.geometry.blocks }
    ensures reads { ReadsBlocks B.Blocks IsFault blocks.old blocks.new result }
    ensures snapshots { (disk : ℕ → List ℕ) → B.Shows blocks.old disk
        → OnOk result (AreSnapshots root.now (whole disk root.now)) }
    ensures damaged { (disk : ℕ → List ℕ) → B.Shows blocks.old disk
        → IsErrOf result BlockError.Damaged → AreSnapshots root.now (whole disk root.now) → ⊥ }
{
    snapshots_are_what_their_bytes_spell();
    for k in 0..SNAPSHOT_SLOTS {
        check_snapshot(blocks, root.snapshots[k], root)?;
        check_apart(blocks, root.geometry, &root.snapshots, k)?;
    }
    Ok(())
}

/// Tests that the snapshot in a slot has the name and the order of none in a slot before it.
fn check_apart<B: Blocks>(
    blocks: &mut B,
    geometry: Geometry,
    snapshots: &[Pointer; SNAPSHOT_SLOTS],
    k: usize,
) -> Result<(), BlockError>
    requires slot { k < SNAPSHOT_SLOTS }
    requires within { All (PointsBelow (B.count blocks.old)) snapshots.now }
    ensures reads { ReadsBlocks B.Blocks IsFault blocks.old blocks.new result }
    ensures apart { (disk : ℕ → List ℕ) → B.Shows blocks.old disk → OnOk result ((l : ℕ) → l < k
        → AreApartAt geometry.layout disk (slice_index_or snapshots.now l Hole)
        (slice_index_or snapshots.now k Hole)) }
    ensures damaged { (disk : ℕ → List ℕ) → B.Shows blocks.old disk
        → IsErrOf result BlockError.Damaged
        → ((l : ℕ) → l ≤ k → IsWhole (pointed disk (slice_index_or snapshots.now l Hole)))
        → ((l : ℕ) → l < k → AreApartAt geometry.layout disk (slice_index_or snapshots.now l Hole)
        (slice_index_or snapshots.now k Hole)) → ⊥ }
{
    for earlier in 0..k {
        let apart = are_apart(blocks, geometry, snapshots[earlier], snapshots[k])?;
        if !apart {
            return Err(BlockError::Damaged);
        }
    }
    Ok(())
}

/// Whether the snapshots at two pointers, if there are two in an image of this geometry, differ in
/// name and in order.
pub fn are_apart<B: Blocks>(
    blocks: &mut B,
    geometry: Geometry,
    a: Pointer,
    b: Pointer,
) -> Result<bool, BlockError>
    requires first { PointsBelow (B.count blocks.old) a }
    requires second { PointsBelow (B.count blocks.old) b }
    ensures reads { ReadsBlocks B.Blocks IsFault blocks.old blocks.new result }
    ensures apart { (disk : ℕ → List ℕ) → B.Shows blocks.old disk
        → IfOk result (λ apart. IsTrue apart ↔ AreApartAt geometry.layout disk a b) }
    ensures damaged { (disk : ℕ → List ℕ) → B.Shows blocks.old disk
        → IsErrOf result BlockError.Damaged
        → IsWhole (pointed disk a) → IsWhole (pointed disk b) → ⊥ }
{
    let Pointer::Block(a) = a else {
        return Ok(true);
    };
    let Pointer::Block(b) = b else {
        return Ok(true);
    };
    blocks.make_resident(a)?;
    blocks.make_resident(b)?;
    Ok(differ(geometry, blocks.bytes(a), blocks.bytes(b)))
}

/// Whether two blocks are no roots of snapshots of one name or one order.
fn differ(geometry: Geometry, a: &[u8; BLOCK_BYTES], b: &[u8; BLOCK_BYTES]) -> bool
    ensures { IsTrue result ↔ AreOfTwoSnapshots geometry.layout a.now b.now }
{
    let Some(a) = SnapRoot::read(a, geometry.layout()) else {
        return true;
    };
    let Some(b) = SnapRoot::read(b, geometry.layout()) else {
        return true;
    };
    a.order != b.order && a.name != b.name
}

/// Whether a snapshot fits the sizes of a root, and isn't newer than it.
fn is_of(snapshot: &SnapRoot<'_>, root: &Root) -> bool
    ensures { IsTrue result ↔ ((snapshot.now.order ≤ root.now.generation)
        × IsInode root.now.geometry snapshot.now.inode_file) }
{
    snapshot.order <= root.generation.get() && snapshot.inode_file.fits(root.geometry)
}

/// Tests the root block of the snapshot at a pointer, if there is one.
pub fn check_snapshot<B: Blocks>(
    blocks: &mut B,
    pointer: Pointer,
    root: &Root,
) -> Result<(), BlockError>
    requires { PointsBelow (B.count blocks.old) pointer }
    ensures reads { ReadsBlocks B.Blocks IsFault blocks.old blocks.new result }
    ensures is { (disk : ℕ → List ℕ) → B.Shows blocks.old disk
        → OnOk result (IsSnapshotAt root.now.geometry root.now.generation disk pointer) }
    ensures damaged { (disk : ℕ → List ℕ) → B.Shows blocks.old disk
        → IsErrOf result BlockError.Damaged
        → IsSnapshotAt root.now.geometry root.now.generation disk pointer → ⊥ }
{
    let Pointer::Block(place) = pointer else {
        return Ok(());
    };
    blocks.make_resident(place)?;
    match SnapRoot::read(blocks.bytes(place), root.geometry.layout()) {
        Some(snapshot) if is_of(&snapshot, root) => Ok(()),
        _ => Err(BlockError::Damaged),
    }
}
