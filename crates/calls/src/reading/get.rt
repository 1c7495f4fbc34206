//! Reading a file over a path.

ghost use Rattle.std.specs.Prelude.{◌≡◌, ◌||◌, None};
ghost use Rattle.layout.specs.StateLimits.{limits_of};
ghost use Rattle.model.specs.Paths.{first_refusal, parts as parts_of, text_tests_then};
ghost use Rattle.model.specs.Reading.{gets, is_negative, is_too_many};
ghost use Rattle.calls.specs.Get.{data_reply, range_tests};
ghost use Rattle.calls.specs.Seeing.{Answers};

use crate::leading::find_object;
use crate::texts::refusal_of_path;
use buffers::Blocks;
use inofile::InodeFile;
use model::{Errno, TRANSFER_BYTES, Text};
use paths::Parts;
use records::{Failure, read_bytes};
use std::alloc::Global;

/// As many bytes as asked and there, from an offset on, of the file that a path leads to, or why
/// the call is refused. NoMemory; Device where a read failed; Damaged where a block on the way is
/// outside its format.
pub fn get<B: Blocks>(
    alloc: Global,
    inodes: &mut InodeFile,
    blocks: &mut B,
    path: &[u8],
    offset: i64,
    count: u32,
) -> Result<Text, Failure>
    ensures { Answers B.Blocks blocks.old blocks.new inodes.old inodes.new
        (λ limits t. gets limits t path.now offset count) data_reply result }
{
    let parts = Parts::of(alloc, path)?;
    if let Some(errno) = refusal_of_path(inodes, path, &parts) {
        return Err(Failure::Refused(errno));
    }
    if is_no_range(offset, count as usize) {
        return Err(Failure::Refused(Errno::EINVAL));
    }
    get_along(alloc, inodes, blocks, path, parts, offset, count)
}

/// Whether there is no such offset, or so many bytes are more than one call reads or writes.
pub(crate) fn is_no_range(offset: i64, count: usize) -> bool
    ensures { result ≡ (is_negative offset || is_too_many count) }
{
    offset < 0 || count > TRANSFER_BYTES
}

// The same with a text that passed its tests, and its parts; EISDIR where it leads to no file.
fn get_along<B: Blocks>(
    alloc: Global,
    inodes: &mut InodeFile,
    blocks: &mut B,
    path: &[u8],
    parts: Parts,
    offset: i64,
    count: u32,
) -> Result<Text, Failure>
    requires parts { parts ≡ parts_of path.now }
    requires passed { first_refusal (text_tests_then (limits_of inodes.old.geometry) (range_tests
        offset count) path.now) ≡ None }
    ensures { Answers B.Blocks blocks.old blocks.new inodes.old inodes.new
        (λ limits t. gets limits t path.now offset count) data_reply result }
{
    let number = find_object(alloc, inodes, blocks, path, parts, true)?;
    let found = read_bytes(alloc, inodes, blocks, number, offset.unsigned_abs(), count)?;
    match found {
        Some(text) => Ok(text),
        None => Err(Failure::Refused(Errno::EISDIR)),
    }
}
