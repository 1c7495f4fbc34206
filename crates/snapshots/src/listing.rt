//! The names of all snapshots, oldest first.

ghost use Rattle.std.specs.Prelude.{◌≡◌, ◌≤◌, ℕ, List, map, IfOk, IfSome, IfNone, IsErrOf};
ghost use Rattle.layout.specs.Pointer.{PointsBelow};
ghost use Rattle.layout.specs.Root.{IsRoot};
ghost use Rattle.layout.specs.SnapRoot.{Snapshot};
ghost use Rattle.layout.specs.declared.pointer.Pointer.{Pointer};
ghost use Rattle.layout.specs.declared.version.TheConstants.{SNAPSHOT_SLOTS};
ghost use Rattle.model.specs.Paths.{Name};
ghost use Rattle.model.specs.Trees.{Tree};
ghost use Rattle.model.specs.Volumes.{Volume};
ghost use Rattle.buffers.specs.Reads.{ReadsBlocks};
ghost use Rattle.buffers.specs.Errors.{IsFault};
ghost use Rattle.images.specs.Roots.{whole};
ghost use Rattle.images.specs.States.{Holds};
ghost use Rattle.loading.specs.Snapshots.{IsSnapshotAt};
ghost use Rattle.snapshots.specs.Found.{SpellsSnapshot};
ghost use Rattle.snapshots.specs.Listed.{IsHigher, IsLeastAbove, IsOver, LeastOf};

use buffers::{BlockError, Blocks};
use images::snapshots_are_what_their_bytes_spell;
use layout::{BlockNumber, Geometry, Pointer, Root, SNAPSHOT_SLOTS, SnapRoot};
use model::Names;
use std::alloc::Global;

/// The root block of a snapshot, and its order number.
#[derive(Clone, Copy)]
pub(crate) struct Next {
    pub(crate) order: u64,
    place: BlockNumber,
}

/// The snapshot at a pointer, where its order number is above this one.
pub(crate) fn above_at<B: Blocks>(
    blocks: &mut B,
    geometry: Geometry,
    pointer: Pointer,
    above: u64,
) -> Result<Option<Next>, BlockError>
    requires { PointsBelow (B.count blocks.old) pointer }
    ensures reads { ReadsBlocks B.Blocks IsFault blocks.old blocks.new result }
    ensures is { (disk : ℕ → List ℕ) → B.Shows blocks.old disk → IfOk result (λ next.
        IfSome next (IsOver geometry.layout disk pointer above)) }
    ensures none { (disk : ℕ → List ℕ) → B.Shows blocks.old disk → IfOk result (λ next.
        IfNone next ((s : Snapshot) → SpellsSnapshot geometry.layout disk pointer s → s.order ≤ above)) }
    ensures higher { IfOk result (λ next. IfSome next (IsHigher (B.count blocks.old) above)) }
    ensures damaged { (disk : ℕ → List ℕ) (most : ℕ) → B.Shows blocks.old disk
        → IsErrOf result BlockError.Damaged → IsSnapshotAt geometry most disk pointer → ⊥ }
{
    snapshots_are_what_their_bytes_spell();
    let Pointer::Block(place) = pointer else {
        return Ok(None);
    };
    blocks.make_resident(place)?;
    let Some(snapshot) = SnapRoot::read(blocks.bytes(place), geometry.layout()) else {
        return Err(BlockError::Damaged);
    };
    let order = snapshot.order;
    if order > above {
        Ok(Some(Next { order, place }))
    } else {
        Ok(None)
    }
}

/// The one of these with the least order number.
fn nearer(one: Option<Next>, other: Option<Next>) -> Option<Next>
    ensures { result ≡ LeastOf one other }
{
    match (one, other) {
        (None, other) => other,
        (one, None) => one,
        (Some(a), Some(b)) => Some(if b.order < a.order { b } else { a }),
    }
}

/// The snapshot with the least order number above this one.
fn next_above<B: Blocks>(
    blocks: &mut B,
    root: &Root,
    above: u64,
) -> Result<Option<Next>, BlockError>
    requires root { IsRoot root.now }
    requires size { B.count blocks.old ≡ root.now.geometry.blocks }
    ensures reads { ReadsBlocks B.Blocks IsFault blocks.old blocks.new result }
    ensures least { (disk : ℕ → List ℕ) → B.Shows blocks.old disk
        → IfOk result (IsLeastAbove disk root.now above SNAPSHOT_SLOTS) }
    ensures higher { IfOk result (λ next.
        IfSome next (IsHigher root.now.geometry.blocks above)) }
    ensures damaged { (disk : ℕ → List ℕ) → B.Shows blocks.old disk → (v : Volume)
        (pairs : List (Name × Tree)) → Holds root.now (whole disk root.now) v pairs
        → IsErrOf result BlockError.Damaged → ⊥ }
{
    let mut next = None;
    for k in 0..SNAPSHOT_SLOTS {
        let one = above_at(blocks, root.geometry, root.snapshots[k], above)?;
        next = nearer(next, one);
    }
    Ok(next)
}

/// The name in the root block of a snapshot.
fn name_at<B: Blocks>(
    alloc: Global,
    blocks: &mut B,
    geometry: Geometry,
    place: BlockNumber,
) -> Result<Vec<u8>, BlockError>
    requires { PointsBelow (B.count blocks.old) (Pointer.Block place) }
    ensures reads { ReadsBlocks B.Blocks IsFault blocks.old blocks.new result }
    ensures name { (disk : ℕ → List ℕ) → B.Shows blocks.old disk → IfOk result (λ name.
        (s : Snapshot) → SpellsSnapshot geometry.layout disk (Pointer.Block place) s → name.items ≡ s.name) }
    ensures damaged { (disk : ℕ → List ℕ) (most : ℕ) → B.Shows blocks.old disk
        → IsErrOf result BlockError.Damaged
        → IsSnapshotAt geometry most disk (Pointer.Block place) → ⊥ }
{
    snapshots_are_what_their_bytes_spell();
    blocks.make_resident(place)?;
    let Some(snapshot) = SnapRoot::read(blocks.bytes(place), geometry.layout()) else {
        return Err(BlockError::Damaged);
    };
    let mut name = Vec::new(alloc);
    name.extend_from_slice(snapshot.name)?;
    Ok(name)
}

/// The names of the snapshots under a root, oldest first. It reads their root blocks and nothing
/// else. `Damaged` comes where one of these is no snapshot's root, and else an error only for want
/// of memory and where a device call failed.
pub fn names<B: Blocks>(alloc: Global, blocks: &mut B, root: &Root) -> Result<Names, BlockError>
    requires root { IsRoot root.now }
    requires size { B.count blocks.old ≡ root.now.geometry.blocks }
    ensures reads { ReadsBlocks B.Blocks IsFault blocks.old blocks.new result }
    ensures names { (disk : ℕ → List ℕ) → B.Shows blocks.old disk → (v : Volume)
        (pairs : List (Name × Tree)) → Holds root.now (whole disk root.now) v pairs
        → IfOk result (λ names. names ≡ map (λ pair. pair.0) pairs) }
    ensures damaged { (disk : ℕ → List ℕ) → B.Shows blocks.old disk → (v : Volume)
        (pairs : List (Name × Tree)) → Holds root.now (whole disk root.now) v pairs
        → IsErrOf result BlockError.Damaged → ⊥ }
{
    let mut names = Vec::new(alloc);
    let mut above = 0;
    while let Some(next) = next_above(blocks, root, above)? {
        let name = name_at(alloc, blocks, root.geometry, next.place)?;
        names.push(name)?;
        above = next.order;
    }
    Ok(Names::new(names))
}
