//! The new inode of a number that is changed.

ghost use Rattle.std.specs.Prelude.{ℕ, ◌≡◌, ◌⊎◌, ◌≤◌, ◌<◌, ◌↔◌, List, IfOk, IsErrOf, IsTrue};
ghost use Rattle.layout.specs.Limits.{Sizes};
ghost use Rattle.layout.specs.Trees.{greatest_size, level_of};
ghost use Rattle.model.specs.declared.limits.TheConstants.{ROOT_NUMBER};
ghost use Rattle.images.specs.Contents.{content_of};
ghost use Rattle.images.specs.Nodes.{held};
ghost use Rattle.inofile.specs.Inodes.{IsChanged};
ghost use Rattle.placement.specs.Space.{file_stores};
ghost use Rattle.placement.specs.Files.{IsPlaced, OnEachWith, is_one, object_content};
ghost use Rattle.planning.specs.Space.{number_nodes};
ghost use Rattle.planning.specs.Numbers.{IsCleared, IsNumberPlaced, IsObjectOver, IsSettledFile};
ghost use Rattle.planning.specs.Steps.{HasSettled, OverTree, found_in, tree_of};
ghost use Rattle.placement.specs.Steps.{HasBlocks, ReadsAndPlaces};

use buffers::Blocks;
use conspoint::{Draft, PlanError};
use entries::Known;
use inode::{File, Object, Status};
use inofile::InodeFile;
use layout::Inode;
use placement::{PlacedFile, place_file};
use std::alloc::Global;

/// Leaves all blocks that a settled file has: what is placed over it is a free file.
fn clear<B: Blocks>(
    alloc: Global,
    draft: &mut Draft,
    blocks: &mut B,
    settled: Inode,
) -> Result<PlacedFile, PlanError>
    requires disk { B.count blocks.old ≡ draft.old.map.count }
    requires size { settled.size ≤ greatest_size settled.layout }
    ensures step { ReadsAndPlaces B.Blocks 0 blocks.old blocks.new draft.old draft.new result }
    ensures blocks { IfOk result (HasBlocks draft.old draft.new) }
    ensures cleared { (s : Sizes) (disk : ℕ → List ℕ) → B.Shows blocks.old disk
        → IsSettledFile s draft.old disk settled
        → IfOk result (λ p. OnEachWith draft.new disk settled (λ e. IsCleared s e
        (held disk settled) p.inode (is_one p.taken.items) (is_one p.freed.items))) }
    ensures damaged { (s : Sizes) (disk : ℕ → List ℕ) → B.Shows blocks.old disk
        → IsSettledFile s draft.old disk settled → IsErrOf result PlanError.Damaged → ⊥ }
{
    let mut file = File::load(alloc, settled)?;
    file.set_size(0);
    let known = Known::new(alloc);
    let object = Object {
        status: Status::free(),
        file,
        known,
    };
    let placed = place_file(alloc, draft, blocks, &object)?;
    Ok(placed)
}

/// Whether an object lies over all that its settled inode names.
fn lies_over(object: &Object, settled: &Inode) -> bool
    ensures { IsTrue result
        ↔ ((0 < object.now.file.tree.count) ⊎ (level_of settled.now.layout settled.now.size ≡ 0)) }
{
    object.file.tree().count() > 0 || settled.layout.level_of(settled.size) == 0
}

/// Places an object over its settled inode. One that is made anew leaves all blocks that the
/// settled file has.
fn place_object<B: Blocks>(
    alloc: Global,
    draft: &mut Draft,
    blocks: &mut B,
    settled: Inode,
    object: &Object,
) -> Result<PlacedFile, PlanError>
    requires disk { B.count blocks.old ≡ draft.old.map.count }
    requires size { settled.size ≤ greatest_size settled.layout }
    ensures step { ReadsAndPlaces B.Blocks (file_stores object.now.file)
        blocks.old blocks.new draft.old draft.new result }
    ensures blocks { IfOk result (HasBlocks draft.old draft.new) }
    ensures placed { (s : Sizes) (disk : ℕ → List ℕ) → B.Shows blocks.old disk
        → IsSettledFile s draft.old disk settled → IsObjectOver s disk settled object.now
        → IfOk result (λ p. OnEachWith draft.new disk settled (λ e. IsPlaced s e
        (held disk settled) p.inode (is_one p.taken.items) (is_one p.freed.items))) }
    ensures content { (s : Sizes) (disk : ℕ → List ℕ) → B.Shows blocks.old disk
        → IsSettledFile s draft.old disk settled → IsObjectOver s disk settled object.now
        → IfOk result (λ p. OnEachWith draft.new disk settled
        (λ e. content_of (held e p.inode) ≡ object_content disk object.now)) }
    ensures damaged { (s : Sizes) (disk : ℕ → List ℕ) → B.Shows blocks.old disk
        → IsSettledFile s draft.old disk settled → IsObjectOver s disk settled object.now
        → IsErrOf result PlanError.Damaged → ⊥ }
{
    let placed = place_file(alloc, draft, blocks, object)?;
    if lies_over(object, &settled) {
        return Ok(placed);
    }
    let cleared = clear(alloc, draft, blocks, settled)?;
    Ok(PlacedFile {
        inode: placed.inode,
        taken: placed.taken,
        freed: cleared.freed,
    })
}

/// Places what memory has of a number that is changed; what it has none of becomes free.
pub(crate) fn place_number<B: Blocks>(
    alloc: Global,
    draft: &mut Draft,
    blocks: &mut B,
    inodes: &InodeFile,
    number: u32,
) -> Result<PlacedFile, PlanError>
    requires disk { B.count blocks.old ≡ draft.old.map.count }
    requires low { ROOT_NUMBER ≤ number }
    requires high { number < inodes.now.geometry.inodes }
    requires changed { IsChanged inodes.now number }
    ensures step { ReadsAndPlaces B.Blocks (number_nodes inodes.now number)
        blocks.old blocks.new draft.old draft.new result }
    ensures blocks { IfOk result (HasBlocks draft.old draft.new) }
    ensures placed { (o : OverTree B.Blocks blocks.old inodes.now)
        → HasSettled draft.old o.before.entry
        → IfOk result (λ p. OnEachWith draft.new o.disk (o.settled number) (λ e.
        IsNumberPlaced inodes.now.geometry e (tree_of o number) (found_in o number) p.inode
        (is_one p.taken.items) (is_one p.freed.items))) }
    ensures damaged { (o : OverTree B.Blocks blocks.old inodes.now)
        → HasSettled draft.old o.before.entry → IsErrOf result PlanError.Damaged → ⊥ }
{
    let settled = inodes.settled_inode(blocks, number)?;
    let Some(object) = inodes.get(number) else {
        let cleared = clear(alloc, draft, blocks, settled)?;
        return Ok(cleared);
    };
    let placed = place_object(alloc, draft, blocks, settled, object)?;
    Ok(placed)
}
