//! Writing through a descriptor: prepared, with all memory taken and all blocks read.

ghost use Rattle.std.specs.Prelude.{◌≡◌, ◌||◌, ◌≤◌, ◌^◌, IfErr, IfOk, IsTrue, length};
ghost use Rattle.layout.specs.StateLimits.{limits_of};
ghost use Rattle.model.specs.Attributes.{KeepsTime};
ghost use Rattle.model.specs.Descriptors.{is_writing, writes, writes_to};
ghost use Rattle.model.specs.Reading.{is_negative, is_too_many};
ghost use Rattle.model.specs.declared.limits.TheConstants.{TRANSFER_BYTES};
ghost use Rattle.calls.specs.Refusals.{is_path_refusal};
ghost use Rattle.records.specs.Shown.{OnMounted};
ghost use Rattle.descriptors.specs.Files.{KeepsBounds};
ghost use Rattle.descriptors.specs.Fits.{IsFileOf};
ghost use Rattle.descriptors.specs.Tables.{table_of};
ghost use Rattle.files.specs.Opened.{tree_with};
ghost use Rattle.files.specs.Preparing.{PreparesOpen, PreparesTold};
ghost use Rattle.files.specs.Reading.{PassesOpen};
ghost use Rattle.files.specs.Writing.{IsTransfer, IsWrite, PutsFile, WritesFile, moved_to, of_writing, write_place, write_tests};

use crate::{Writing, Written};
use buffers::Blocks;
use descriptors::{Descriptors, OpenFile};
use inofile::InodeFile;
use layout::InodeNumber;
use model::{Access, Errno, TRANSFER_BYTES, Time};
use records::{Failure, write_bytes};
use std::alloc::Global;

/// Prepares that bytes are written at a descriptor's offset, or behind the last byte under append;
/// none where there are no bytes; or tells why the call is refused: EBADF where the descriptor
/// isn't open, or not for writing, EINVAL where one call doesn't write so many, EFBIG where the
/// file would be too great. NoMemory; Device where a read failed; Damaged where a block on the way
/// is outside its format.
pub fn prepare_write<B: Blocks>(
    alloc: Global,
    inodes: &mut InodeFile,
    blocks: &mut B,
    now: Option<Time>,
    table: &Descriptors,
    fd: u32,
    bytes: &[u8],
) -> Result<Option<Writing>, Failure>
    requires now { KeepsTime (limits_of inodes.old.geometry).has_attributes now }
    ensures { PreparesOpen (of_writing now bytes.now) (IsWrite table.now fd bytes.now) now B.Blocks
        blocks.old blocks.new inodes.old inodes.new table.now
        (λ v. WritesFile (writes (limits_of inodes.old.geometry) now (tree_with table.now v) fd
        bytes.now) (limits_of inodes.old.geometry) now v
        table.now bytes.now (λ w. moved_to fd w.behind (table_of table.now))) result }
{
    let file = file_to_write(table, fd, bytes.len() > TRANSFER_BYTES)?;
    write_file(alloc, inodes, blocks, now, &file, place_of(&file), bytes)
}

/// Prepares that bytes are written at an offset, whatever the descriptor's own; none where there
/// are no bytes; or tells why the call is refused: EBADF where the descriptor isn't open, or not
/// for writing, EINVAL where the offset is negative or one call doesn't write so many, EFBIG where
/// the file would be too great. NoMemory; Device where a read failed; Damaged where a block on the
/// way is outside its format.
#[allow(clippy::too_many_arguments)]
pub fn prepare_pwrite<B: Blocks>(
    alloc: Global,
    inodes: &mut InodeFile,
    blocks: &mut B,
    now: Option<Time>,
    table: &Descriptors,
    fd: u32,
    offset: i64,
    bytes: &[u8],
) -> Result<Option<Writing>, Failure>
    requires now { KeepsTime (limits_of inodes.old.geometry).has_attributes now }
    ensures { PreparesOpen (of_writing now bytes.now) (IsWrite table.now fd bytes.now) now B.Blocks
        blocks.old blocks.new inodes.old inodes.new table.now
        (λ v. WritesFile (writes_to (limits_of inodes.old.geometry) now (tree_with table.now v) fd
        offset bytes.now) (limits_of inodes.old.geometry) now v table.now bytes.now (λ _. table_of
        table.now)) result }
{
    let file = file_to_write(table, fd, is_no_range(offset, bytes))?;
    write_file(
        alloc,
        inodes,
        blocks,
        now,
        &file,
        offset.unsigned_abs(),
        bytes,
    )
}

// Whether nothing is written at such an offset, or these are too many bytes.
fn is_no_range(offset: i64, bytes: &[u8]) -> bool
    ensures { result ≡ (is_negative offset || is_too_many (length bytes.now)) }
{
    offset < 0 || bytes.len() > TRANSFER_BYTES
}

// Where a write goes that names no offset.
fn place_of(file: &OpenFile) -> u64
    ensures { result ≡ write_place file.now }
{
    if file.appends { file.size } else { file.offset }
}

// The file that a descriptor has open for writing; the refusal of the first test that holds.
fn file_to_write(table: &Descriptors, fd: u32, is_wrong: bool) -> Result<OpenFile, Errno>
    ensures passes { PassesOpen (write_tests is_wrong) table.now fd result }
    ensures within { IfOk result KeepsBounds }
    ensures own { IfErr result (λ e. IsTrue (is_path_refusal e)) }
{
    let Some(file) = table.get(fd) else {
        return Err(Errno::EBADF);
    };
    if !is_writing(file.access) {
        return Err(Errno::EBADF);
    }
    if is_wrong {
        return Err(Errno::EINVAL);
    }
    Ok(file)
}

/// Whether a file opened so may be written.
pub(crate) fn is_writing(access: Access) -> bool
    ensures { result ≡ is_writing access }
{
    match access {
        Access::Reading => false,
        _ => true,
    }
}

// Prepares that bytes go to an open file, at an offset.
#[tactic(auto, using(layout::proofs::LimitLaws::greatest_most))]
fn write_file<B: Blocks>(
    alloc: Global,
    inodes: &mut InodeFile,
    blocks: &mut B,
    now: Option<Time>,
    file: &OpenFile,
    offset: u64,
    bytes: &[u8],
) -> Result<Option<Writing>, Failure>
    requires now { KeepsTime (limits_of inodes.old.geometry).has_attributes now }
    requires few { length bytes.now ≤ TRANSFER_BYTES }
    requires bounds { KeepsBounds file.now }
    requires within { offset ≤ 2 ^ 63 }
    ensures { PreparesTold (of_writing now bytes.now) (IsTransfer bytes.now) now B.Blocks
        blocks.old blocks.new inodes.old inodes.new (λ r. OnMounted B.Blocks blocks.old inodes.old
        (λ v table. IsFileOf v file.now → IfOk r (PutsFile (limits_of inodes.old.geometry) now v
        table file.now offset bytes.now))) result }
{
    let number = InodeNumber::new(file.number);
    let planned = write_bytes(alloc, inodes, blocks, now, number, offset, bytes)?;
    let Some(prepared) = planned else {
        return Ok(None);
    };
    let written = Written {
        number,
        offset,
        behind: offset + bytes.len() as u64,
    };
    Ok(Some(Writing { written, prepared }))
}
