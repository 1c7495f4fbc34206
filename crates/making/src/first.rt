//! The first consistency point, planned.

ghost use Rattle.std.specs.Prelude.{◌≡◌, ℕ, ◌+◌, ◌≤◌, IfErr, IfOk, IsErrOf, OnOk, length};
ghost use Rattle.std.specs.Int.{div_ceil};
ghost use Rattle.layout.specs.Version.{layout_of};
ghost use Rattle.layout.specs.declared.TheConstants.{BLOCK_POINTERS};
ghost use Rattle.layout.specs.declared.pointer.Pointer.TheVariants.{Hole};
ghost use Rattle.buffers.specs.Disks.{IsWhole};
ghost use Rattle.conspoint.specs.Drafts.{Grows, IsReserved, IsShortage, OnEach};
ghost use Rattle.conspoint.specs.Groups.{pointer_at};
ghost use Rattle.conspoint.specs.MapFiles.{map_nodes};
ghost use Rattle.conspoint.specs.Space.{TakesAtMost};
ghost use Rattle.making.specs.Space.{NUMBERS_STORES, TOP_STORES};
ghost use Rattle.making.specs.Plans.{HasFile, HasFileOn, HasTree, IsDraftMapOn, IsFirstPoint, IsNumbersOn, IsPlacedOver, IsTopOn};
ghost use Rattle.making.specs.Starts.{IsEmptyMap};
ghost use Rattle.conspoint.specs.Steps.{Takes};

use crate::empty_disk::EmptyDisk;
use crate::inode_file::{first_block, inode_file};
use crate::inode_map::inode_map;
use crate::map::empty_map;
use conspoint::{Draft, Plan, PlanError, mark_all, store_own_map, written_disks_have_the_blocks};
use images::{first_roots_hold, free_files_hold_nothing, inodes_are_put_one_by_one};
use layout::{
    BODY_POINTERS, BlockNumber, Generation, Geometry, Inode, Pointer, ROOT_BYTES, Root, SLOT_A,
    SNAPSHOT_SLOTS, VERSION,
};
use placement::{place_file, place_file_but_first};
use std::alloc::{AllocError, Global};

/// The first consistency point of a new image, planned: what is to be written, and the root that
/// comes into force then.
#[derive(Debug, Drop)]
pub struct FirstPoint {
    pub plan: Plan,
    pub root: Root,
}

/// Places the inode map.
fn place_numbers(
    alloc: Global,
    draft: &mut Draft,
    disk: &mut EmptyDisk,
    geometry: Geometry,
) -> Result<Inode, PlanError>
    requires disk { disk.old.count ≡ geometry.blocks }
    requires map { draft.old.map.count ≡ geometry.blocks }
    ensures disk { disk.new.count ≡ disk.old.count }
    ensures step { Takes NUMBERS_STORES draft.old draft.new result }
    ensures file { IfOk result (HasFile geometry draft.old draft.new) }
    ensures numbers { IfOk result (λ f. OnEach draft.new (λ e. IsNumbersOn e f)) }
{
    free_files_hold_nothing();
    let _ = geometry.inodes();
    let object = inode_map(alloc, geometry)?;
    let placed = place_file(alloc, draft, disk, &object)?;
    mark_all(draft, &placed.taken, true)?;
    Ok(placed.inode)
}

/// Places the inode file. Of its first block, which has the block map's inode, only the place is
/// reserved.
fn place_top(
    alloc: Global,
    draft: &mut Draft,
    disk: &mut EmptyDisk,
    geometry: Geometry,
) -> Result<(Inode, BlockNumber), PlanError>
    requires disk { disk.old.count ≡ geometry.blocks }
    requires map { draft.old.map.count ≡ geometry.blocks }
    ensures disk { disk.new.count ≡ disk.old.count }
    ensures step { Takes TOP_STORES draft.old draft.new result }
    ensures reserved { IfOk result (λ r. IsReserved draft.new r.1) }
    ensures file { IfOk result (λ r.
        HasFileOn (λ e. IsWhole (e r.1)) geometry draft.old draft.new r.0) }
    ensures top { IfOk result (λ r. OnEach draft.new (λ e. IsTopOn e r.1 r.0)) }
{
    free_files_hold_nothing();
    let object = inode_file(alloc, geometry);
    let all = place_file_but_first(alloc, draft, disk, &object)?;
    let (placed, first) = all;
    mark_all(draft, &placed.taken, true)?;
    Ok((placed.inode, first))
}

/// No places: of the block map's blocks, and of the indirect block over them, where there is one.
fn no_nodes(alloc: Global, blocks: usize) -> Result<Vec<Pointer>, AllocError>
    requires { blocks ≤ 1024 }
    ensures count { IfOk result (λ nodes. length nodes.items ≡ map_nodes blocks) }
    ensures none { IfOk result (λ nodes. (k : ℕ) → pointer_at nodes.items k ≡ Hole) }
{
    let count = if blocks <= BODY_POINTERS {
        blocks
    } else {
        blocks + 1
    };
    let mut nodes = Vec::new(alloc);
    for _ in 0..count {
        nodes.push(Pointer::Hole)?;
    }
    Ok(nodes)
}

/// Places the block map, all of whose blocks are to be stored.
fn place_map(alloc: Global, draft: &mut Draft, geometry: Geometry) -> Result<Inode, PlanError>
    requires layout { geometry.layout ≡ layout_of VERSION }
    requires start { IsPlacedOver geometry.blocks draft.old }
    ensures step { Takes (map_nodes (div_ceil geometry.blocks BLOCK_POINTERS))
        draft.old draft.new result }
    ensures file { IfOk result (HasFile geometry draft.old draft.new) }
    ensures map { IfOk result (λ f. OnEach draft.new (λ e. IsDraftMapOn e draft.new f)) }
{
    written_disks_have_the_blocks();
    let _ = geometry.blocks();
    let none = no_nodes(alloc, draft.map_blocks())?;
    let map = store_own_map(alloc, draft, &none)?;
    Ok(map)
}

/// Plans all files of the image. The answer is the inode of the inode file.
fn plan_files(alloc: Global, draft: &mut Draft, geometry: Geometry) -> Result<Inode, PlanError>
    requires layout { geometry.layout ≡ layout_of VERSION }
    requires map { IsEmptyMap geometry.blocks draft.old.map }
    ensures grows { Grows draft.old draft.new }
    ensures tree { IfOk result (HasTree geometry draft.new) }
    ensures takes { OnOk result (TakesAtMost (NUMBERS_STORES + TOP_STORES
        + map_nodes (div_ceil geometry.blocks BLOCK_POINTERS)) draft.old draft.new) }
    ensures room { IsErrOf result PlanError.NoSpace → ⊥ }
    ensures shortage { IfErr result IsShortage }
{
    inodes_are_put_one_by_one();
    written_disks_have_the_blocks();
    let mut disk = EmptyDisk::new(alloc, geometry.blocks())?;
    let numbers = place_numbers(alloc, draft, &mut disk, geometry)?;
    let top = place_top(alloc, draft, &mut disk, geometry)?;
    let (inode, first) = top;
    // The map's own blocks come last: each block that is given out changes an entry.
    let map = place_map(alloc, draft, geometry)?;
    draft.put(
        first,
        first_block(alloc, geometry.layout(), &numbers, &map)?,
    )?;
    Ok(inode)
}

/// Plans the first consistency point of an image of this geometry, whose layout is that of the newest
/// version: every place and every byte of it, and its root, of generation 1 and for slot A. Nothing
/// is read and nothing is written. `NoMemory` is the only error: the least disk has room for it.
pub fn plan_first(alloc: Global, geometry: Geometry) -> Result<FirstPoint, PlanError>
    requires { geometry.layout ≡ layout_of VERSION }
    ensures point { IfOk result (λ p. IsFirstPoint geometry p.plan p.root) }
    ensures memory { IfErr result (λ e. e ≡ PlanError.NoMemory) }
{
    first_roots_hold();
    written_disks_have_the_blocks();
    let mut draft = Draft::new(alloc, empty_map(alloc, geometry.blocks())?);
    let inode_file = plan_files(alloc, &mut draft, geometry)?;
    let root = Root {
        version: VERSION,
        generation: Generation::FIRST,
        geometry,
        inode_file,
        snapshots: [Pointer::Hole; SNAPSHOT_SLOTS],
    };
    let mut bytes = [0; ROOT_BYTES];
    let _ = root.write(&mut bytes);
    let (_map, plan) = draft.into_plan(SLOT_A, bytes);
    Ok(FirstPoint { plan, root })
}
