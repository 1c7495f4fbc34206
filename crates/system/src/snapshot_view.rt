//! The view of a snapshot that is kept in memory.

ghost use Rattle.std.specs.Prelude.{◌≡◌, IfOk, IsErrOf, IsTrue, Some};
ghost use Rattle.layout.specs.Root.{IsRoot};
ghost use Rattle.buffers.specs.Reads.{ReadsBlocks};
ghost use Rattle.buffers.specs.Errors.{IsFault};
ghost use Rattle.system.specs.Views.{KeepsView, LoadsView, OnShown, OnSnapshots, ShowsSnapshot};
ghost use Rattle.system.specs.declared.snapshot_view.View.{View};

use buffers::{BlockError, Blocks};
use inofile::InodeFile;
use layout::Root;
use snapshots::{find, view};
use std::alloc::Global;

/// The tree of a snapshot in memory.
#[derive(Drop)]
pub struct View {
    /// The snapshot's name.
    pub name: Vec<u8>,
    /// Its inodes, none of which is changed.
    pub inodes: InodeFile,
}

/// Loads the view of a name under a root: None where no snapshot has it.
fn load_view<B: Blocks>(
    alloc: Global,
    blocks: &mut B,
    root: &Root,
    name: &[u8],
) -> Result<Option<View>, BlockError>
    requires root { IsRoot root.now }
    requires size { B.count blocks.old ≡ root.now.geometry.blocks }
    ensures reads { ReadsBlocks B.Blocks IsFault blocks.old blocks.new result }
    ensures loads { OnSnapshots B.Blocks blocks.old root.now (λ disk pairs.
        IfOk result (LoadsView disk root.now.geometry pairs name.now)) }
    ensures damaged { OnSnapshots B.Blocks blocks.old root.now (λ disk pairs.
        IsErrOf result BlockError.Damaged → ⊥) }
{
    let Some(found) = find(blocks, root, name)? else {
        return Ok(None);
    };
    let inodes = view(alloc, blocks, root, &found)?;
    let mut own = Vec::new(alloc);
    own.extend_from_slice(name)?;
    Ok(Some(View { name: own, inodes }))
}

/// Whether the view that is kept is that of a name.
fn is_view_of(kept: &Option<View>, name: &[u8]) -> bool
    ensures { IsTrue result
        → (view : View) × (kept.now ≡ Some view) × (view.name.items ≡ name.now) }
{
    match kept {
        Some(view) => view.name.as_slice() == name,
        None => false,
    }
}

/// Keeps the view of a name, and tells whether a snapshot has it: it is loaded where another one is
/// kept, or none.
pub fn keep_view<B: Blocks>(
    alloc: Global,
    blocks: &mut B,
    root: &Root,
    kept: &mut Option<View>,
    name: &[u8],
) -> Result<bool, BlockError>
    requires root { IsRoot root.now }
    requires size { B.count blocks.old ≡ root.now.geometry.blocks }
    ensures reads { ReadsBlocks B.Blocks IsFault blocks.old blocks.new result }
    ensures shows { OnShown B.Blocks blocks.old root.now kept.old (λ disk pairs.
        ShowsSnapshot disk root.now.geometry pairs kept.new) }
    ensures keeps { OnShown B.Blocks blocks.old root.now kept.old (λ disk pairs.
        IfOk result (KeepsView disk root.now.geometry pairs name.now kept.new)) }
    ensures damaged { OnSnapshots B.Blocks blocks.old root.now (λ disk pairs.
        IsErrOf result BlockError.Damaged → ⊥) }
{
    if is_view_of(kept, name) {
        return Ok(true);
    }
    let Some(view) = load_view(alloc, blocks, root, name)? else {
        return Ok(false);
    };
    *kept = Some(view);
    Ok(true)
}
