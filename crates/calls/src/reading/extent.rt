//! Telling which blocks of a file are stored, over a path.

ghost use Rattle.std.specs.Prelude.{◌≡◌, None};
ghost use Rattle.layout.specs.StateLimits.{limits_of};
ghost use Rattle.model.specs.Paths.{first_refusal, parts as parts_of, text_tests_then};
ghost use Rattle.model.specs.Reading.{is_negative};
ghost use Rattle.calls.specs.Extent.{extent_reply, offset_tests, shows_extent};
ghost use Rattle.calls.specs.Seeing.{Answers};

use crate::leading::find_object;
use crate::texts::refusal_of_path;
use buffers::Blocks;
use inofile::InodeFile;
use model::{Errno, Extent};
use paths::Parts;
use records::{Failure, read_extent};
use std::alloc::Global;

/// How many blocks of the file that a path leads to are stored, and where its next data and its
/// next hole are from an offset on, or why the call is refused. NoMemory; Device where a read
/// failed; Damaged where a block on the way is outside its format.
pub fn extent<B: Blocks>(
    alloc: Global,
    inodes: &mut InodeFile,
    blocks: &mut B,
    path: &[u8],
    offset: i64,
) -> Result<Extent, Failure>
    ensures { Answers B.Blocks blocks.old blocks.new inodes.old inodes.new
        (shows_extent B.Blocks blocks.old inodes.new path.now offset) extent_reply result }
{
    let parts = Parts::of(alloc, path)?;
    if let Some(errno) = refusal_of_path(inodes, path, &parts) {
        return Err(Failure::Refused(errno));
    }
    if is_before_start(offset) {
        return Err(Failure::Refused(Errno::EINVAL));
    }
    extent_along(alloc, inodes, blocks, path, parts, offset)
}

// Whether there is no such offset.
fn is_before_start(offset: i64) -> bool
    ensures { result ≡ is_negative offset }
{
    offset < 0
}

// The same with a text that passed its tests, and its parts; EISDIR where it leads to no file.
fn extent_along<B: Blocks>(
    alloc: Global,
    inodes: &mut InodeFile,
    blocks: &mut B,
    path: &[u8],
    parts: Parts,
    offset: i64,
) -> Result<Extent, Failure>
    requires parts { parts ≡ parts_of path.now }
    requires passed { first_refusal (text_tests_then (limits_of inodes.old.geometry) (offset_tests
        offset) path.now) ≡ None }
    ensures { Answers B.Blocks blocks.old blocks.new inodes.old inodes.new
        (shows_extent B.Blocks blocks.old inodes.new path.now offset) extent_reply result }
{
    let number = find_object(alloc, inodes, blocks, path, parts, true)?;
    let found = read_extent(alloc, inodes, blocks, number, offset.unsigned_abs())?;
    match found {
        Some(extent) => Ok(extent),
        None => Err(Failure::Refused(Errno::EISDIR)),
    }
}
