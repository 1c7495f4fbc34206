//! The inode file's own file.

ghost use Rattle.std.specs.Prelude.{ℕ, ◌≡◌, ◌≤◌, List, IfOk, IsErrOf, false};
ghost use Rattle.layout.specs.Limits.{Sizes};
ghost use Rattle.layout.specs.declared.TheConstants.{BLOCK_BYTES};
ghost use Rattle.layout.specs.declared.inode.Inode.{Inode};
ghost use Rattle.layout.specs.declared.kind.Kind.TheVariants as kinds;
ghost use Rattle.conspoint.specs.Drafts.{IsReserved};
ghost use Rattle.placement.specs.Files.{IsChangeOf};
ghost use Rattle.placement.specs.Space.{first_stores};
ghost use Rattle.planning.specs.Plans.{HasTop, Progresses};
ghost use Rattle.planning.specs.Progress.{PlannedInodes};
ghost use Rattle.planning.specs.Steps.{HasSettled, OverTree, tree_of};
ghost use Rattle.inofile.specs.declared.inode_file.InodeFile.{InodeFile};
ghost use Rattle.planning.specs.Promises.{PlansFiles};

use crate::number::mark_placed;
use buffers::Blocks;
use conspoint::{Draft, PlanError};
use inode::Object;
use layout::{BlockNumber, Inode};
use placement::place_file_but_first;
use std::alloc::Global;

/// Plans the changed inode file but for the bytes of its first block, which has the block map's
/// inode. The answer is its inode, and the block that is reserved for its first one.
pub(crate) fn place_top<B: Blocks>(
    alloc: Global,
    draft: &mut Draft,
    blocks: &mut B,
    top: &Object,
) -> Result<(Inode, BlockNumber), PlanError>
    requires disk { B.count blocks.old ≡ draft.old.map.count }
    requires some { BLOCK_BYTES ≤ top.now.file.size }
    ensures step { PlansFiles B.Blocks (first_stores top.now.file)
        blocks.old blocks.new draft.old draft.new result }
    ensures reserved { IfOk result (λ r. IsReserved draft.new r.1) }
    ensures planned { (inodes : InodeFile) (o : OverTree B.Blocks blocks.old inodes)
        → IsChangeOf inodes.geometry draft.old o.disk (o.settled 0) top.now
        → top.now.status.kind ≡ kinds.InodeFile
        → HasSettled draft.old o.before.entry
        → (p : PlannedInodes) → p.changed 0 ≡ false
        → Progresses draft.old o.disk o.before inodes.geometry (tree_of o) p
        → IfOk result (λ r. HasTop p draft.new o.disk o.before inodes.geometry (tree_of o)
        top.now r.0 r.1) }
    ensures damaged { (s : Sizes) (disk : ℕ → List ℕ) (base : Inode) → B.Shows blocks.old disk
        → IsChangeOf s draft.old disk base top.now → IsErrOf result PlanError.Damaged → ⊥ }
{
    let all = place_file_but_first(alloc, draft, blocks, top)?;
    let (placed, first) = all;
    mark_placed(draft, &placed)?;
    Ok((placed.inode, first))
}
