//! Reading through a descriptor.

ghost use Rattle.std.specs.Prelude.{◌≡◌, ◌+◌, ◌||◌, IfErr, IfOk, IsTrue, length, min};
ghost use Rattle.model.specs.Descriptors.{is_reading, reads, reads_from};
ghost use Rattle.model.specs.Reading.{is_negative, is_too_many};
ghost use Rattle.model.specs.Room.{nothing};
ghost use Rattle.model.specs.Volumes.{is_file_node};
ghost use Rattle.paths.specs.Numbers.{IsInodeNumber};
ghost use Rattle.calls.specs.Get.{data_reply};
ghost use Rattle.calls.specs.Refusals.{is_path_refusal};
ghost use Rattle.calls.specs.Seeing.{Tells};
ghost use Rattle.records.specs.Opened.{HasNumbers};
ghost use Rattle.descriptors.specs.Files.{KeepsBounds};
ghost use Rattle.files.specs.Opened.{tree_with};
ghost use Rattle.files.specs.Preparing.{AnswersOpen};
ghost use Rattle.files.specs.Reading.{AnswersMoving, PassesOpen, ReadsFile, read_tests};

use buffers::Blocks;
use descriptors::{Descriptors, OpenFile};
use inofile::InodeFile;
use layout::InodeNumber;
use model::{Access, Errno, GREATEST_OFFSET, TRANSFER_BYTES, Text};
use records::{Failure, read_bytes};
use std::alloc::Global;

/// As many bytes as asked and there, from a descriptor's offset on, which moves behind them; or why
/// the call is refused: EBADF where the descriptor isn't open, or not for reading, EINVAL where one
/// call doesn't read so many. NoMemory; Device where a read failed; Damaged where a block on the
/// way is outside its format. After an error or a refusal no offset has moved.
pub fn read<B: Blocks>(
    alloc: Global,
    inodes: &mut InodeFile,
    blocks: &mut B,
    table: &mut Descriptors,
    fd: u32,
    count: u32,
) -> Result<Text, Failure>
    requires { HasNumbers inodes.old.geometry.inodes table.old }
    ensures { AnswersMoving B.Blocks blocks.old blocks.new inodes.old inodes.new table.old
        table.new (λ v r. reads (tree_with table.old v) fd count (data_reply r)
        (tree_with table.new v) nothing) result }
{
    let file = file_to_read(table, fd, count as usize > TRANSFER_BYTES)?;
    let text = read_file(alloc, inodes, blocks, file.number, file.offset, count)?;
    table.set_offset(fd, place_behind(file.offset, text.as_bytes()));
    Ok(text)
}

/// As many bytes as asked and there, from an offset on, of the file of a descriptor, whose own
/// offset stays; or why the call is refused: EBADF where the descriptor isn't open, or not for
/// reading, EINVAL where the offset is negative or one call doesn't read so many. NoMemory; Device
/// where a read failed; Damaged where a block on the way is outside its format.
pub fn pread<B: Blocks>(
    alloc: Global,
    inodes: &mut InodeFile,
    blocks: &mut B,
    table: &Descriptors,
    fd: u32,
    offset: i64,
    count: u32,
) -> Result<Text, Failure>
    requires { HasNumbers inodes.old.geometry.inodes table.now }
    ensures { AnswersOpen B.Blocks blocks.old blocks.new inodes.old inodes.new table.now
        (λ v r. reads_from (tree_with table.now v) fd offset count (data_reply r)
        (tree_with table.now v) nothing) result }
{
    let file = file_to_read(table, fd, is_no_range(offset, count))?;
    read_file(
        alloc,
        inodes,
        blocks,
        file.number,
        offset.unsigned_abs(),
        count,
    )
}

// Whether nothing is read from such an offset, or so many bytes are too many.
fn is_no_range(offset: i64, count: u32) -> bool
    ensures { result ≡ (is_negative offset || is_too_many count) }
{
    offset < 0 || count as usize > TRANSFER_BYTES
}

// The file that a descriptor has open for reading; the refusal of the first test that holds.
fn file_to_read(table: &Descriptors, fd: u32, is_wrong: bool) -> Result<OpenFile, Errno>
    ensures passes { PassesOpen (read_tests is_wrong) table.now fd result }
    ensures within { IfOk result KeepsBounds }
    ensures own { IfErr result (λ e. IsTrue (is_path_refusal e)) }
{
    let Some(file) = table.get(fd) else {
        return Err(Errno::EBADF);
    };
    if !is_reading(file.access) {
        return Err(Errno::EBADF);
    }
    if is_wrong {
        return Err(Errno::EINVAL);
    }
    Ok(file)
}

// Whether a file opened so may be read.
fn is_reading(access: Access) -> bool
    ensures { result ≡ is_reading access }
{
    match access {
        Access::Writing => false,
        _ => true,
    }
}

// As many bytes as asked and there of the file with a number; DAMAGED where it is none.
fn read_file<B: Blocks>(
    alloc: Global,
    inodes: &mut InodeFile,
    blocks: &mut B,
    number: u32,
    offset: u64,
    count: u32,
) -> Result<Text, Failure>
    requires { IsInodeNumber inodes.old.geometry.inodes number }
    ensures { Tells B.Blocks blocks.old blocks.new inodes.old inodes.new (λ v found.
        IsTrue (is_file_node (v number)) → ReadsFile v number offset count found) result }
{
    let number = InodeNumber::new(number);
    let found = read_bytes(alloc, inodes, blocks, number, offset, count)?;
    match found {
        Some(text) => Ok(text),
        None => Err(Failure::Refused(Errno::DAMAGED)),
    }
}

// The place behind bytes, which is never past the greatest offset: no file is as great.
fn place_behind(offset: u64, bytes: &[u8]) -> u64
    ensures { result ≡ min (offset + length bytes.now) GREATEST_OFFSET }
{
    offset
        .saturating_add(bytes.len() as u64)
        .min(GREATEST_OFFSET)
}
