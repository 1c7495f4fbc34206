//! The whole plan of a consistency point.

ghost use Rattle.std.specs.Prelude.{ℕ, ◌≡◌, ◌⊎◌, ◌+◌, List, IfErr, IfOk, OnOk, IsErrOf};
ghost use Rattle.layout.specs.Inode.{IsInode};
ghost use Rattle.layout.specs.Limits.{AreSizes};
ghost use Rattle.layout.specs.Places.{blocks_of};
ghost use Rattle.layout.specs.Root.{IsRoot};
ghost use Rattle.layout.specs.declared.kind.Kind.TheVariants as kinds;
ghost use Rattle.layout.specs.declared.version.TheConstants.{VERSION};
ghost use Rattle.model.specs.Volumes.{Volume};
ghost use Rattle.buffers.specs.Reads.{ReadsBlocks};
ghost use Rattle.blocktree.specs.Trees.{IsSoundAt};
ghost use Rattle.blockmap.specs.Maps.{settled_at, entry_at};
ghost use Rattle.conspoint.specs.Errors.{IsReadFault};
ghost use Rattle.conspoint.specs.Plans.{IsSlot};
ghost use Rattle.images.specs.Nodes.{held};
ghost use Rattle.images.specs.SnapshotSteps.{SnapshotStep};
ghost use Rattle.images.specs.Soundness.{HasNoHole};
ghost use Rattle.planning.specs.Changes.{FitsSlots, IsStepOf, head_nodes, MakesStep, StepsEntries};
ghost use Rattle.planning.specs.Inodes.{HasChange, ChangesFile};
ghost use Rattle.planning.specs.Plans.{IsAllPlanned, IsClean, IsPlanStart, IsPlannable, IsRootPlanned, IsRootStart, PlansNumbers};
ghost use Rattle.planning.specs.Space.{map_stores, nodes_below, point_stores};
ghost use Rattle.planning.specs.Steps.{ArePlanned, HasSettled, OverTree, found_in, tree_of};
ghost use Rattle.planning.specs.Promises.{AreOfSizes, IsGivenUp, IsPointOver, KeepsMap, PlansParts, PlansPoint, PlansRoot};

use crate::block_map::plan_last;
use crate::change::{SnapshotChange, change_snapshots, starting_file};
use crate::inode_map::plan_inode_map;
use crate::number::plan_numbers;
use crate::top::place_top;
use blockmap::BlockMap;
use buffers::Blocks;
use conspoint::{Draft, Plan, PlanError, written_disks_have_the_blocks};
use images::{
    disks_that_agree_hold_the_same, inodes_are_put_one_by_one, inodes_are_what_their_bytes_spell,
    points_leave_room, snapshots_are_what_their_bytes_spell, trees_are_bases,
};
use inode::{File, Object, based_trees_are_sound};
use inofile::{InodeFile, memory_holds_its_volume};
use layout::{Generation, Inode, ROOT_BYTES, Root, VERSION};
use std::alloc::Global;

/// A consistency point that is planned: what is to be written, and the root that comes into force
/// then.
#[derive(Debug, Drop)]
pub struct Point {
    pub plan: Plan,
    pub root: Root,
}

/// Plans the numbers that are changed, and the inode map.
fn plan_changes<B: Blocks>(
    alloc: Global,
    draft: &mut Draft,
    blocks: &mut B,
    inodes: &InodeFile,
    file: &mut File,
) -> Result<(), PlanError>
    requires disk { B.count blocks.old ≡ draft.old.map.count }
    requires sizes { AreSizes inodes.now.geometry }
    ensures step { PlansParts B.Blocks inodes.now
        (λ w. nodes_below inodes.now inodes.now.geometry.inodes + map_stores w inodes.now)
        blocks.old blocks.new draft.old draft.new result }
    ensures file { ChangesFile (λ i. (i ≡ 0) ⊎ HasChange inodes.now i) file.old file.new }
    ensures planned { (o : OverTree B.Blocks blocks.old inodes.now)
        → HasNoHole (held o.disk (o.settled 1)) → (from : ℕ)
        → ArePlanned (λ n. ⊥) from draft.old o.disk o.settled o.before inodes.now file.old
        → OnOk result
        (PlansNumbers from draft.new o.disk o.settled o.before inodes.now file.new) }
    ensures damaged { (o : OverTree B.Blocks blocks.old inodes.now)
        → HasSettled draft.old o.before.entry
        → ((i : ℕ) → IsSoundAt (B.count blocks.old) o.disk file.old.tree i)
        → IsErrOf result PlanError.Damaged → ⊥ }
{
    plan_numbers(alloc, draft, blocks, inodes, file)?;
    plan_inode_map(alloc, draft, blocks, inodes, file)?;
    Ok(())
}

/// Plans all that changed over the tree of an inode file, which is as long as the root's: the
/// numbers, the inode map, the inode file, the block map. The answer is the inode file's new inode.
fn plan_files<B: Blocks>(
    alloc: Global,
    draft: &mut Draft,
    blocks: &mut B,
    root: &Root,
    inode_file: Inode,
    inodes: &InodeFile,
) -> Result<Inode, PlanError>
    requires start { AreOfSizes root.now inodes.now (B.count blocks.old) draft.old.map }
    requires size { inode_file.size ≡ root.now.inode_file.size }
    requires fits { IsInode root.now.geometry inode_file }
    ensures step { PlansParts B.Blocks inodes.now
        (λ w. point_stores w root.now inodes.now draft.old.map.count)
        blocks.old blocks.new draft.old draft.new result }
    ensures planned { (o : OverTree B.Blocks blocks.old inodes.now)
        → IsPlanStart o draft.old inode_file
        → IfOk result (IsAllPlanned draft.old draft.new o.disk o.before inodes.now.geometry
        (tree_of o) (found_in o) inodes.now) }
    ensures damaged { (o : OverTree B.Blocks blocks.old inodes.now)
        → IsPlanStart o draft.old inode_file → IsErrOf result PlanError.Damaged → ⊥ }
{
    inodes_are_put_one_by_one();
    based_trees_are_sound();
    let mut top = Object::load(alloc, inode_file)?;
    plan_changes(alloc, draft, blocks, inodes, &mut top.file)?;
    let placed = place_top(alloc, draft, blocks, &top)?;
    let (inode, first) = placed;
    // The map's own blocks come last: each block that is given out changes an entry.
    plan_last(alloc, draft, blocks, inodes, &top.file, first)?;
    Ok(inode)
}

/// The root of a point over this one. It is of the newest version, whatever that of this one is.
fn next_root(root: &Root, generation: Generation, inode_file: Inode) -> Result<Root, PlanError>
    ensures root { IfOk result IsRoot }
    ensures generation { IfOk result (λ r. r.generation ≡ generation) }
    ensures version { IfOk result (λ r. r.version ≡ VERSION) }
    ensures geometry { IfOk result (λ r. r.geometry ≡ root.now.geometry) }
    ensures inode_file { IfOk result (λ r. r.inode_file ≡ inode_file) }
    ensures snapshots { IfOk result (λ r. r.snapshots ≡ root.now.snapshots) }
    ensures damaged { IsErrOf result PlanError.Damaged → IsRoot root.now
        → inode_file.kind ≡ kinds.InodeFile → IsInode root.now.geometry inode_file → ⊥ }
    ensures why { IfErr result (λ e. e ≡ PlanError.Damaged) }
{
    let _ = generation.get();
    let mut next = *root;
    next.version = VERSION;
    next.generation = generation;
    next.inode_file = inode_file;
    if next.fits() {
        Ok(next)
    } else {
        Err(PlanError::Damaged)
    }
}

/// Plans what is done with the snapshots and all that changed, and gives the root that leads to it.
fn plan_root<B: Blocks>(
    alloc: Global,
    draft: &mut Draft,
    blocks: &mut B,
    root: &Root,
    generation: Generation,
    inodes: &InodeFile,
    change: &SnapshotChange<'_>,
) -> Result<Root, PlanError>
    requires start { AreOfSizes root.now inodes.now (B.count blocks.old) draft.old.map }
    requires fits { FitsSlots change.now }
    ensures step { PlansRoot B.Blocks inodes.now
        (λ w. point_stores w root.now inodes.now draft.old.map.count + head_nodes change.now)
        generation root.now blocks.old blocks.new draft.old draft.new result }
    ensures steps { IfOk result (λ r. (step : SnapshotStep) → IsStepOf change.now root.now step
        → MakesStep step root.now r draft.new) }
    // The map's entries once the snapshots' sets are changed, and those in the end.
    ensures sets { IfOk result (λ r. (step : SnapshotStep) → IsStepOf change.now root.now step
        → StepsEntries step root.now r (settled_at draft.old.map.parts.items)
        (entry_at draft.old.map.parts.items) (entry_at draft.new.map.parts.items)) }
    ensures planned { (o : OverTree B.Blocks blocks.old inodes.now)
        → IsRootStart o change.now draft.old root.now
        → IfOk result (λ r. IsRootPlanned change.now root.now r draft.old draft.new o.disk
        o.before inodes.now.geometry (tree_of o) (found_in o) inodes.now) }
    ensures damaged { (o : OverTree B.Blocks blocks.old inodes.now)
        → IsRootStart o change.now draft.old root.now → IsErrOf result PlanError.Damaged → ⊥ }
{
    written_disks_have_the_blocks();
    let slots = change_snapshots(alloc, draft, root, change)?;
    let top = starting_file(root, change)?;
    let inode_file = plan_files(alloc, draft, blocks, root, top, inodes)?;
    let next = next_root(&slots, generation, inode_file)?;
    Ok(next)
}

/// Plans a consistency point that settles all that memory has changed, and does with the snapshots
/// what is asked for: every place and every byte of it, and its root, which is of the newest
/// version. Nothing is written. Where it fails, the map has no change. A snapshot that is taken has
/// the tree of the root that is there, so its blocks stay in use. To restore a snapshot, memory
/// stands over its tree, and what the tree before it named alone is free then. For want of space it
/// fails only where fewer blocks are left than memory may need of a point.
pub fn plan<B: Blocks>(
    alloc: Global,
    blocks: &mut B,
    root: &Root,
    generation: Generation,
    slot: u64,
    inodes: &InodeFile,
    map: BlockMap,
    change: &SnapshotChange<'_>,
) -> (BlockMap, Result<Point, PlanError>)
    requires sizes { AreOfSizes root.now inodes.now (B.count blocks.old) map }
    requires slot { IsSlot slot }
    requires fits { FitsSlots change.now }
    requires clean { IsClean map }
    ensures reads { ReadsBlocks B.Blocks IsReadFault blocks.old blocks.new result.1 }
    ensures map { KeepsMap map result.0 }
    ensures given { IfErr result.1 (λ e. IsGivenUp result.0) }
    ensures point { IfOk result.1 (IsPointOver root.now slot generation) }
    ensures over { (d : ℕ → List ℕ) (base v : Volume) → B.Shows blocks.old (blocks_of d)
        → IsPlannable change.now root.now d slot generation map inodes.now base v
        → PlansPoint change.now root.now d slot map inodes.now base v result.0 result.1 }
{
    inodes_are_what_their_bytes_spell();
    snapshots_are_what_their_bytes_spell();
    disks_that_agree_hold_the_same();
    memory_holds_its_volume();
    points_leave_room();
    trees_are_bases();
    let mut draft = Draft::new(alloc, map);
    match plan_root(alloc, &mut draft, blocks, root, generation, inodes, change) {
        Ok(root) => {
            let mut bytes = [0; ROOT_BYTES];
            let _ = root.write(&mut bytes);
            let (map, plan) = draft.into_plan(slot, bytes);
            (map, Ok(Point { plan, root }))
        }
        Err(error) => (draft.abandon(), Err(error)),
    }
}
