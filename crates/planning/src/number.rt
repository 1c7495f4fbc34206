//! One number's file, and those of all numbers that are changed.

ghost use Rattle.std.specs.Prelude.{ℕ, ◌≡◌, ◌/◌, ◌<◌, ◌≤◌, All, OnOk, IsErrOf, false};
ghost use Rattle.layout.specs.declared.TheConstants.{INODES_PER_BLOCK};
ghost use Rattle.model.specs.declared.limits.TheConstants.{ROOT_NUMBER};
ghost use Rattle.blocktree.specs.Trees.{IsSoundAt};
ghost use Rattle.blockmap.specs.Maps.{entry_at};
ghost use Rattle.conspoint.specs.Steps.{Marks};
ghost use Rattle.inofile.specs.Inodes.{IsChanged};
ghost use Rattle.placement.specs.Files.{is_one};
ghost use Rattle.planning.specs.Inodes.{HasChange, ChangesFile};
ghost use Rattle.planning.specs.Space.{nodes_below, number_nodes};
ghost use Rattle.planning.specs.Progress.{IsMarked};
ghost use Rattle.planning.specs.Steps.{ArePlanned, GoesOn, HasSettled, IsPlanUnderWay, OverTree, found_in, tree_of};
ghost use Rattle.planning.specs.Promises.{PlansFiles};

use crate::inode_blocks::put_inode;
use crate::placing::place_number;
use buffers::Blocks;
use conspoint::{Draft, PlanError, mark_all};
use images::inodes_are_put_one_by_one;
use inode::File;
use inofile::InodeFile;
use placement::PlacedFile;
use std::alloc::Global;

/// Takes the blocks that a file leaves out of the active tree's set, and puts those in that were
/// taken for it.
pub(crate) fn mark_placed(draft: &mut Draft, placed: &PlacedFile) -> Result<(), PlanError>
    requires taken { All (λ b. b < draft.old.map.count) placed.now.taken.items }
    requires freed { All (λ b. b < draft.old.map.count) placed.now.freed.items }
    ensures step { Marks draft.old draft.new result }
    ensures marked { OnOk result (IsMarked (is_one placed.now.taken.items)
        (is_one placed.now.freed.items) (entry_at draft.old.map.parts.items)
        (entry_at draft.new.map.parts.items)) }
{
    mark_all(draft, &placed.freed, false)?;
    mark_all(draft, &placed.taken, true)?;
    Ok(())
}

/// Plans a number that is changed: its file gets places, the map their marks, and the inode file
/// its inode.
#[tactic(auto, using(crate::proofs::PromiseLaws::file_none))]
pub(crate) fn plan_number<B: Blocks>(
    alloc: Global,
    draft: &mut Draft,
    blocks: &mut B,
    inodes: &InodeFile,
    file: &mut File,
    number: u32,
) -> Result<(), PlanError>
    requires disk { B.count blocks.old ≡ draft.old.map.count }
    requires low { ROOT_NUMBER ≤ number }
    requires high { number < inodes.now.geometry.inodes }
    requires changed { IsChanged inodes.now number }
    ensures step { PlansFiles B.Blocks (number_nodes inodes.now number)
        blocks.old blocks.new draft.old draft.new result }
    ensures file { ChangesFile (λ i. i ≡ number / INODES_PER_BLOCK) file.old file.new }
    ensures planned { (o : OverTree B.Blocks blocks.old inodes.now)
        → (way : IsPlanUnderWay draft.old o.disk o.before inodes.now.geometry (tree_of o)
        (found_in o) file.old) → way.plan.changed number ≡ false
        → OnOk result (GoesOn number way.plan.changed way.plan.from draft.new o.disk o.before
        inodes.now.geometry (tree_of o) (found_in o) file.new) }
    ensures damaged { (o : OverTree B.Blocks blocks.old inodes.now)
        → HasSettled draft.old o.before.entry
        → IsSoundAt (B.count blocks.old) o.disk file.old.tree (number / INODES_PER_BLOCK)
        → IsErrOf result PlanError.Damaged → ⊥ }
{
    inodes_are_put_one_by_one();
    let placed = place_number(alloc, draft, blocks, inodes, number)?;
    mark_placed(draft, &placed)?;
    put_inode(alloc, blocks, file, number, &placed.inode)?;
    Ok(())
}

/// Plans all numbers that are changed, one after the other.
pub(crate) fn plan_numbers<B: Blocks>(
    alloc: Global,
    draft: &mut Draft,
    blocks: &mut B,
    inodes: &InodeFile,
    file: &mut File,
) -> Result<(), PlanError>
    requires disk { B.count blocks.old ≡ draft.old.map.count }
    ensures step { PlansFiles B.Blocks (nodes_below inodes.now inodes.now.geometry.inodes)
        blocks.old blocks.new draft.old draft.new result }
    ensures file { ChangesFile (HasChange inodes.now) file.old file.new }
    ensures planned { (o : OverTree B.Blocks blocks.old inodes.now) (from : ℕ)
        → ArePlanned (λ n. ⊥) from draft.old o.disk o.settled o.before inodes.now file.old
        → OnOk result (ArePlanned (IsChanged inodes.now) from draft.new o.disk o.settled o.before
        inodes.now file.new) }
    ensures damaged { (o : OverTree B.Blocks blocks.old inodes.now)
        → HasSettled draft.old o.before.entry
        → ((i : ℕ) → IsSoundAt (B.count blocks.old) o.disk file.old.tree i)
        → IsErrOf result PlanError.Damaged → ⊥ }
{
    let numbers = inodes.changed_numbers(alloc)?;
    for i in 0..numbers.len() {
        plan_number(alloc, draft, blocks, inodes, file, numbers[i])?;
    }
    Ok(())
}
