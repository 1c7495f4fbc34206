//! What a consistency point does with the snapshots.

ghost use Rattle.std.specs.Prelude.{ℕ, ◌≡◌, ◌<◌, ◌≤◌, IfOk, OnOk, IfErr, IsErrOf, length};
ghost use Rattle.layout.specs.Inode.{IsInode};
ghost use Rattle.layout.specs.Pointer.{PointsBelow};
ghost use Rattle.layout.specs.Root.{IsRoot};
ghost use Rattle.layout.specs.SnapRoot.{snapshot_bytes};
ghost use Rattle.layout.specs.declared.kind.Kind.TheVariants as kinds;
ghost use Rattle.layout.specs.declared.pointer.Pointer.{Pointer};
ghost use Rattle.layout.specs.declared.version.TheConstants.{VERSION};
ghost use Rattle.model.specs.declared.limits.TheConstants.{SNAPSHOT_NAME_BYTES};
ghost use Rattle.blockmap.specs.Maps.{entry_at, settled_at};
ghost use Rattle.conspoint.specs.Drafts.{OnEach, WasTaken};
ghost use Rattle.conspoint.specs.MapFiles.{AreTouched};
ghost use Rattle.images.specs.SnapshotSteps.{IsSlotNumber, SetsSlot};
ghost use Rattle.planning.specs.Changes.{ChangesPlane, ChangesSnapshots, FitsSlots, StartsActive, TakesTree, TouchesRestored, head_nodes, starting_file};
ghost use Rattle.planning.specs.Progress.{KeepsActive};
ghost use Rattle.conspoint.specs.Steps.{Places, Takes};

use buffers::SharedBlock;
use conspoint::{Draft, PlanError};
use layout::{BLOCK_BYTES, BlockNumber, Inode, Kind, Pointer, Root, SnapRoot, VERSION};
use std::alloc::Global;

/// What a consistency point does with the snapshots of the root that it is planned over.
#[derive(Clone, Copy, Debug)]
pub enum SnapshotChange<'a> {
    /// They stay.
    Unchanged,
    /// The tree of the root is taken as a snapshot into a slot from 1 to 30, with an order number
    /// and a name of at most 63 bytes.
    Take {
        slot: u32,
        order: u64,
        name: &'a [u8],
    },
    /// The snapshot in a slot from 1 to 30 is deleted.
    Delete {
        slot: u32,
    },
    /// The tree of the snapshot in a slot from 1 to 30 becomes the active one, and the snapshot
    /// stays. This is the inode of its inode file, over which memory stands.
    Restore {
        slot: u32,
        inode_file: Inode,
    },
}

/// Plans the root block of a snapshot of a root's tree.
fn place_head(
    alloc: Global,
    draft: &mut Draft,
    root: &Root,
    order: u64,
    name: &[u8],
) -> Result<BlockNumber, PlanError>
    requires { length name.now ≤ SNAPSHOT_NAME_BYTES }
    ensures step { Places 1 draft.old draft.new result }
    ensures taken { IfOk result (WasTaken draft.old draft.new) }
    ensures stored { IfOk result (λ place. OnEach draft.new (λ e. e place
        ≡ snapshot_bytes (record {
          order = order;
          name = name.now;
          inode_file = root.now.inode_file;
        }))) }
{
    let head = SnapRoot {
        order,
        name,
        inode_file: root.inode_file,
    };
    let mut bytes = [0; BLOCK_BYTES];
    let _ = head.write(&mut bytes);
    let block = SharedBlock::copy_of(alloc, &bytes)?;
    let place = draft.store(block)?;
    Ok(place)
}

/// The root with this pointer in a slot, in the newest version: an older one has fewer slots.
fn with_pointer(root: &Root, slot: u32, pointer: Pointer) -> Root
    requires root { IsRoot root.now }
    requires slot { IsSlotNumber slot }
    requires below { PointsBelow root.now.geometry.blocks pointer }
    ensures root { IsRoot result }
    ensures geometry { result.geometry ≡ root.now.geometry }
    ensures version { result.version ≡ VERSION }
    ensures sets { SetsSlot root.now result slot pointer }
{
    let mut next = *root;
    next.version = VERSION;
    next.snapshots[(slot - 1) as usize] = pointer;
    next
}

/// Takes a snapshot: its root block is planned, its plane of the map is the settled active tree,
/// and its root block is the system's. The answer is the pointer to that.
fn take(
    alloc: Global,
    draft: &mut Draft,
    root: &Root,
    slot: u32,
    order: u64,
    name: &[u8],
) -> Result<Pointer, PlanError>
    requires slot { IsSlotNumber slot }
    requires short { length name.now ≤ SNAPSHOT_NAME_BYTES }
    ensures step { Takes 1 draft.old draft.new result }
    ensures active { OnOk result (KeepsActive (entry_at draft.old.map.parts.items)
        (entry_at draft.new.map.parts.items)) }
    ensures touched { OnOk result (AreTouched draft.new.map.parts.items) }
    ensures taken { IfOk result (TakesTree slot order name.now root.now draft.old draft.new) }
{
    let place = place_head(alloc, draft, root, order, name)?;
    draft.take_plane(slot)?;
    draft.mark_system(place, true)?;
    Ok(Pointer::Block(place))
}

/// Deletes the snapshot at a pointer: its plane of the map is empty, and its root block is the
/// system's no more.
fn delete(draft: &mut Draft, slot: u32, pointer: Pointer) -> Result<(), PlanError>
    requires slot { IsSlotNumber slot }
    requires below { PointsBelow draft.old.map.count pointer }
    ensures step { Takes 0 draft.old draft.new result }
    ensures active { OnOk result (KeepsActive (entry_at draft.old.map.parts.items)
        (entry_at draft.new.map.parts.items)) }
    ensures sets { OnOk result (ChangesPlane slot pointer 0 (λ b. 0)
        (entry_at draft.old.map.parts.items) (entry_at draft.new.map.parts.items)) }
{
    draft.clear_plane(slot)?;
    match pointer {
        Pointer::Block(place) => {
            draft.mark_system(place, false)?;
            Ok(())
        }
        Pointer::Hole => Ok(()),
    }
}

/// The inode of the inode file that a point starts from. `Damaged` where that of a snapshot isn't
/// one of the root's sizes.
pub(crate) fn starting_file(root: &Root, change: &SnapshotChange<'_>) -> Result<Inode, PlanError>
    requires { IsRoot root.now }
    ensures is { IfOk result (λ f. f ≡ starting_file change.now root.now) }
    ensures size { IfOk result (λ f. f.size ≡ root.now.inode_file.size) }
    ensures fits { IfOk result (IsInode root.now.geometry) }
    ensures damaged { IsErrOf result PlanError.Damaged
        → (starting_file change.now root.now).kind ≡ kinds.InodeFile
        → IsInode root.now.geometry (starting_file change.now root.now) → ⊥ }
    ensures why { IfErr result (λ e. e ≡ PlanError.Damaged) }
{
    let SnapshotChange::Restore { inode_file, .. } = *change else {
        return Ok(root.inode_file);
    };
    if inode_file.kind == Kind::InodeFile && inode_file.fits(root.geometry) {
        Ok(inode_file)
    } else {
        Err(PlanError::Damaged)
    }
}

/// Does with the snapshots what is asked for, before anything else is planned: so the root block of
/// a new one is written first. The answer is the root with the slots that the new root has.
pub(crate) fn change_snapshots(
    alloc: Global,
    draft: &mut Draft,
    root: &Root,
    change: &SnapshotChange<'_>,
) -> Result<Root, PlanError>
    requires root { IsRoot root.now }
    requires fits { FitsSlots change.now }
    requires size { draft.old.map.count ≡ root.now.geometry.blocks }
    ensures step { Takes (head_nodes change.now) draft.old draft.new result }
    ensures active { OnOk result (StartsActive change.now (settled_at draft.old.map.parts.items)
        (entry_at draft.old.map.parts.items) (entry_at draft.new.map.parts.items)) }
    ensures touched { OnOk result (TouchesRestored change.now draft.new) }
    ensures changed { IfOk result
        (ChangesSnapshots change.now root.now draft.old draft.new) }
{
    match *change {
        SnapshotChange::Unchanged => Ok(*root),
        SnapshotChange::Take { slot, order, name } => {
            let pointer = take(alloc, draft, root, slot, order, name)?;
            Ok(with_pointer(root, slot, pointer))
        }
        SnapshotChange::Delete { slot } => {
            delete(draft, slot, root.snapshots[(slot - 1) as usize])?;
            Ok(with_pointer(root, slot, Pointer::Hole))
        }
        SnapshotChange::Restore { slot, .. } => {
            draft.load_plane(slot)?;
            Ok(*root)
        }
    }
}
