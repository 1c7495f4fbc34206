//! Edits of the names in a directory's file.

ghost use Rattle.std.specs.Prelude.{ℕ, ◌+◌, ◌≤◌, List, None, IfOk, IsErrOf};
ghost use Rattle.layout.specs.Directory.{IsEntry, named_of};
ghost use Rattle.layout.specs.DirectoryNames.{NameMap};
ghost use Rattle.layout.specs.declared.limits.TheConstants.{DIRECTORY_NAMES};
ghost use Rattle.buffers.specs.Reads.{ReadsBlocks};
ghost use Rattle.buffers.specs.Errors.{IsFault};
ghost use Rattle.blocktree.specs.Trees.{IsSoundAt};
ghost use Rattle.inode.specs.Files.{IsSameFile, file_block};
ghost use Rattle.dirs.specs.Directory.{with_name};
ghost use Rattle.dirs.specs.Edits.{FitsIn, HasEditedNames, IsDirectory, edited_block};
ghost use Rattle.entries.specs.Known.{Knows};
ghost use Rattle.dirs.specs.Room.{piece_count};
ghost use Rattle.records.specs.Entering.{IsNameEdit, pieces_of};
ghost use Rattle.records.specs.Naming.{EditsFile};
ghost use Rattle.records.specs.declared.naming.NameEdit.TheVariants as edits;

use buffers::{BlockError, Blocks};
use dirs::{AddError, Edit};
use entries::Known;
use inode::File;
use layout::Entry;
use model::Limits;
use std::alloc::Global;

/// What becomes of the names of a directory.
#[derive(Clone, Copy)]
pub(crate) enum NameEdit<'a> {
    /// There is an entry more, whose name the directory doesn't have yet.
    Add(Entry<'a>),
    /// The name is gone.
    Remove(&'a [u8]),
    /// The entry stands in place of the one with its name.
    Replace(Entry<'a>),
    /// The name is gone, and the entry stands in place of the one with its name, if there is one.
    Move(&'a [u8], Entry<'a>),
}

/// Prepares an edit of a directory's file; None where it has a name already that is to be added, or
/// no place for one more. Names are taken away before one is added.
pub(crate) fn edit_file<B: Blocks>(
    alloc: Global,
    file: &mut File,
    known: &mut Known,
    blocks: &mut B,
    limits: Limits,
    wanted: &NameEdit<'_>,
) -> Result<Option<Edit>, BlockError>
    requires wanted { IsNameEdit limits.inodes wanted.now }
    requires few { limits.directory_names ≤ DIRECTORY_NAMES }
    ensures { EditsFile (λ disk names. IsDirectory limits.inodes disk file.old names
        × Knows limits.inodes (file_block disk file.old) known.old) (pieces_of wanted.now) B.Blocks blocks.old blocks.new
        limits file.old file.new known.new wanted.now result }
{
    let edit = Edit::of(alloc, file);
    match wanted {
        NameEdit::Add(entry) => add_new(alloc, file, known, blocks, limits, edit, entry),
        NameEdit::Remove(name) => remove_one(alloc, file, known, blocks, limits, edit, name),
        NameEdit::Replace(entry) => replace_in(alloc, file, known, blocks, limits, edit, entry),
        NameEdit::Move(old, entry) => move_in(alloc, file, known, blocks, limits, edit, old, entry),
    }
}

// One more name, which the directory doesn't have yet; None where it has it, or has no place.
fn add_new<B: Blocks>(
    alloc: Global,
    file: &mut File,
    known: &mut Known,
    blocks: &mut B,
    limits: Limits,
    edit: Edit,
    entry: &Entry<'_>,
) -> Result<Option<Edit>, BlockError>
    requires entry { IsEntry limits.inodes (named_of entry.now) }
    requires few { limits.directory_names ≤ DIRECTORY_NAMES }
    requires fits { FitsIn file.old edit }
    ensures { EditsFile (λ disk names. HasEditedNames limits.inodes disk file.old edit names
        × Knows limits.inodes (edited_block disk file.old edit) known.old) (piece_count edit + 1) B.Blocks blocks.old blocks.new
        limits file.old file.new known.new (NameEdit.Add entry.now) result }
{
    let mut edit = edit;
    match edit.prepare_add(
        alloc,
        file,
        known,
        blocks,
        limits.inodes,
        limits.directory_names,
        entry,
    ) {
        Ok(true) => Ok(Some(edit)),
        Ok(false) => Ok(None),
        Err(AddError::DirFull) => Ok(None),
        Err(AddError::NoMemory) => Err(BlockError::NoMemory),
        Err(AddError::Device) => Err(BlockError::Device),
        Err(AddError::Damaged) => Err(BlockError::Damaged),
    }
}

// A name is gone; never None.
fn remove_one<B: Blocks>(
    alloc: Global,
    file: &mut File,
    known: &mut Known,
    blocks: &mut B,
    limits: Limits,
    edit: Edit,
    name: &[u8],
) -> Result<Option<Edit>, BlockError>
    requires fits { FitsIn file.old edit }
    ensures { EditsFile (λ disk names. HasEditedNames limits.inodes disk file.old edit names
        × Knows limits.inodes (edited_block disk file.old edit) known.old) (piece_count edit + 1) B.Blocks blocks.old blocks.new
        limits file.old file.new known.new (edits.Remove name.entry) result }
{
    let edit = remove_in(alloc, file, known, blocks, limits, edit, name)?;
    Ok(Some(edit))
}

// An entry stands in place of the one with its name; None where there is no place for one more.
fn replace_in<B: Blocks>(
    alloc: Global,
    file: &mut File,
    known: &mut Known,
    blocks: &mut B,
    limits: Limits,
    edit: Edit,
    entry: &Entry<'_>,
) -> Result<Option<Edit>, BlockError>
    requires entry { IsEntry limits.inodes (named_of entry.now) }
    requires few { limits.directory_names ≤ DIRECTORY_NAMES }
    requires fits { FitsIn file.old edit }
    ensures { EditsFile (λ disk names. HasEditedNames limits.inodes disk file.old edit names
        × Knows limits.inodes (edited_block disk file.old edit) known.old) (piece_count edit + 2) B.Blocks blocks.old blocks.new
        limits file.old file.new known.new (NameEdit.Replace entry.now) result }
{
    let edit = remove_in(alloc, file, known, blocks, limits, edit, entry.name)?;
    add_new(alloc, file, known, blocks, limits, edit, entry)
}

// The same, where it is likely that nothing has the name: the directory is looked through once
// then.
fn place_in<B: Blocks>(
    alloc: Global,
    file: &mut File,
    known: &mut Known,
    blocks: &mut B,
    limits: Limits,
    edit: Edit,
    entry: &Entry<'_>,
) -> Result<Option<Edit>, BlockError>
    requires entry { IsEntry limits.inodes (named_of entry.now) }
    requires few { limits.directory_names ≤ DIRECTORY_NAMES }
    requires fits { FitsIn file.old edit }
    ensures { EditsFile (λ disk names. HasEditedNames limits.inodes disk file.old edit names
        × Knows limits.inodes (edited_block disk file.old edit) known.old) (piece_count edit + 2) B.Blocks blocks.old blocks.new
        limits file.old file.new known.new (NameEdit.Replace entry.now) result }
{
    let mut edit = edit;
    match edit.prepare_add(
        alloc,
        file,
        known,
        blocks,
        limits.inodes,
        limits.directory_names,
        entry,
    ) {
        Ok(true) => Ok(Some(edit)),
        Ok(false) => replace_in(alloc, file, known, blocks, limits, edit, entry),
        Err(AddError::DirFull) => Ok(None),
        Err(AddError::NoMemory) => Err(BlockError::NoMemory),
        Err(AddError::Device) => Err(BlockError::Device),
        Err(AddError::Damaged) => Err(BlockError::Damaged),
    }
}

// A name is gone, and the entry stands in place of the one with its name; None where there is no
// place for one more.
fn move_in<B: Blocks>(
    alloc: Global,
    file: &mut File,
    known: &mut Known,
    blocks: &mut B,
    limits: Limits,
    edit: Edit,
    old: &[u8],
    entry: &Entry<'_>,
) -> Result<Option<Edit>, BlockError>
    requires entry { IsEntry limits.inodes (named_of entry.now) }
    requires few { limits.directory_names ≤ DIRECTORY_NAMES }
    requires fits { FitsIn file.old edit }
    ensures { EditsFile (λ disk names. HasEditedNames limits.inodes disk file.old edit names
        × Knows limits.inodes (edited_block disk file.old edit) known.old) (piece_count edit + 3) B.Blocks blocks.old blocks.new
        limits file.old file.new known.new (edits.Move old.entry entry.now) result }
{
    let edit = remove_in(alloc, file, known, blocks, limits, edit, old)?;
    place_in(alloc, file, known, blocks, limits, edit, entry)
}

// A name is gone.
fn remove_in<B: Blocks>(
    alloc: Global,
    file: &mut File,
    known: &mut Known,
    blocks: &mut B,
    limits: Limits,
    edit: Edit,
    name: &[u8],
) -> Result<Edit, BlockError>
    requires { FitsIn file.old edit }
    ensures reads { ReadsBlocks B.Blocks IsFault blocks.old blocks.new result }
    ensures same { IsSameFile file.old file.new }
    ensures fits { IfOk result (FitsIn file.new) }
    ensures pieces { IfOk result (λ x. piece_count x ≤ piece_count edit + 1) }
    ensures edited { (disk : ℕ → List ℕ) (names : NameMap) → B.Shows blocks.old disk
        → Knows limits.inodes (edited_block disk file.old edit) known.old
        → HasEditedNames limits.inodes disk file.old edit names → IfOk result
        (λ x. HasEditedNames limits.inodes disk file.new x (with_name name.now None names)
        × Knows limits.inodes (edited_block disk file.new x) known.new) }
    ensures damaged { (disk : ℕ → List ℕ) (names : NameMap) → B.Shows blocks.old disk
        → IsErrOf result BlockError.Damaged → HasEditedNames limits.inodes disk file.old edit names
        → ((i : ℕ) → IsSoundAt (B.count blocks.old) disk file.old.tree i) → ⊥ }
{
    let mut edit = edit;
    edit.prepare_remove(alloc, file, known, blocks, limits.inodes, name)?;
    Ok(edit)
}
