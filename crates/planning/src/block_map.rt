//! The block map's file.

ghost use Rattle.std.specs.Prelude.{ℕ, ◌≡◌, ◌^◌, ◌<◌, ◌≤◌, List, All, IfOk, OnOk, IsErrOf, length, false};
ghost use Rattle.layout.specs.Limits.{AreSizes, Sizes};
ghost use Rattle.layout.specs.Pointer.{PointsBelow};
ghost use Rattle.layout.specs.Trees.{greatest_size};
ghost use Rattle.layout.specs.declared.TheConstants.{BODY_POINTERS};
ghost use Rattle.layout.specs.declared.inode.Inode.{Inode};
ghost use Rattle.buffers.specs.Reads.{ReadsBlocks};
ghost use Rattle.blocktree.specs.Trees.{IsSoundAt};
ghost use Rattle.conspoint.specs.Drafts.{IsReserved};
ghost use Rattle.conspoint.specs.Errors.{IsReadFault};
ghost use Rattle.conspoint.specs.Groups.{pointer_at};
ghost use Rattle.conspoint.specs.MapFiles.{map_nodes};
ghost use Rattle.images.specs.Nodes.{held};
ghost use Rattle.images.specs.Soundness.{IsSoundFile};
ghost use Rattle.planning.specs.Plans.{HasBlockMap, HasLast, IsMapStart};
ghost use Rattle.planning.specs.Progress.{PlannedInodes};
ghost use Rattle.planning.specs.Space.{map_file_nodes};
ghost use Rattle.planning.specs.Steps.{OverTree, tree_of};
ghost use Rattle.planning.specs.Promises.{PlansFiles};

use crate::inode_blocks::block_with;
use buffers::Blocks;
use conspoint::{Draft, PlanError, store_own_map};
use inode::File;
use inofile::InodeFile;
use layout::{BlockNumber, Inode, Pointer};
use placement::settled_nodes;
use std::alloc::Global;

/// The places of the settled block map's nodes: so many blocks, and behind them the indirect block
/// over them, where there is one.
fn map_nodes<B: Blocks>(
    alloc: Global,
    blocks: &mut B,
    settled: Inode,
    count: usize,
) -> Result<Vec<Pointer>, PlanError>
    requires size { settled.size ≤ greatest_size settled.layout }
    requires few { count < 2 ^ 32 }
    ensures reads { ReadsBlocks B.Blocks IsReadFault blocks.old blocks.new result }
    ensures count { IfOk result (λ nodes. length nodes.items ≡ map_nodes count) }
    ensures within { IfOk result (λ nodes. All (PointsBelow (B.count blocks.old)) nodes.items) }
    ensures lowest { (s : Sizes) (disk : ℕ → List ℕ) → B.Shows blocks.old disk
        → IsSoundFile s (held disk settled) → IfOk result (λ nodes. (k : ℕ) → k < count
        → pointer_at nodes.items k ≡ (held disk settled).place 0 k) }
    ensures over { (s : Sizes) (disk : ℕ → List ℕ) → B.Shows blocks.old disk
        → IsSoundFile s (held disk settled) → IfOk result (λ nodes. BODY_POINTERS < count
        → pointer_at nodes.items count ≡ (held disk settled).place 1 0) }
    ensures damaged { (s : Sizes) (disk : ℕ → List ℕ) → B.Shows blocks.old disk
        → IsSoundFile s (held disk settled) → s.blocks ≡ B.count blocks.old
        → IsErrOf result PlanError.Damaged → ⊥ }
    ensures why { IsErrOf result PlanError.NoSpace → ⊥ }
{
    let file = File::load(alloc, settled)?;
    let nodes = settled_nodes(alloc, blocks, file.tree())?;
    let row = nodes.in_a_row(alloc, count)?;
    Ok(row)
}

/// Plans the block map, once all other blocks are given out and marked. The answer is its inode.
pub(crate) fn plan_block_map<B: Blocks>(
    alloc: Global,
    draft: &mut Draft,
    blocks: &mut B,
    inodes: &InodeFile,
) -> Result<Inode, PlanError>
    requires disk { B.count blocks.old ≡ draft.old.map.count }
    requires sizes { AreSizes inodes.now.geometry }
    ensures step { PlansFiles B.Blocks (map_file_nodes draft.old.map.count)
        blocks.old blocks.new draft.old draft.new result }
    ensures others { (p : ℕ) → IsReserved draft.old p → IsReserved draft.new p }
    ensures planned { (o : OverTree B.Blocks blocks.old inodes.now) → IsMapStart o draft.old
        → (p : PlannedInodes) → p.changed 2 ≡ false
        → IfOk result (HasBlockMap draft.old p draft.new o.disk o.before inodes.now.geometry
        (tree_of o)) }
    ensures damaged { OverTree B.Blocks blocks.old inodes.now
        → IsErrOf result PlanError.Damaged → ⊥ }
{
    let settled = inodes.settled_inode(blocks, 2)?;
    let nodes = map_nodes(alloc, blocks, settled, draft.map_blocks())?;
    let map = store_own_map(alloc, draft, &nodes)?;
    Ok(map)
}

/// Plans the block map, and the inode file's first block with the inode of it at the place that is
/// reserved for it.
pub(crate) fn plan_last<B: Blocks>(
    alloc: Global,
    draft: &mut Draft,
    blocks: &mut B,
    inodes: &InodeFile,
    file: &File,
    first: BlockNumber,
) -> Result<(), PlanError>
    requires disk { B.count blocks.old ≡ draft.old.map.count }
    requires sizes { AreSizes inodes.now.geometry }
    requires reserved { IsReserved draft.old first }
    ensures step { PlansFiles B.Blocks (map_file_nodes draft.old.map.count)
        blocks.old blocks.new draft.old draft.new result }
    ensures planned { (o : OverTree B.Blocks blocks.old inodes.now) → IsMapStart o draft.old
        → (p : PlannedInodes) → p.changed 2 ≡ false
        → OnOk result (HasLast draft.old p draft.new o.disk o.before inodes.now.geometry
        (tree_of o) file.now first) }
    ensures damaged { (o : OverTree B.Blocks blocks.old inodes.now)
        → IsSoundAt (B.count blocks.old) o.disk file.now.tree 0
        → IsErrOf result PlanError.Damaged → ⊥ }
{
    let map = plan_block_map(alloc, draft, blocks, inodes)?;
    let block = block_with(alloc, blocks, file, 2, &map)?;
    draft.put(first, block)?;
    Ok(())
}
