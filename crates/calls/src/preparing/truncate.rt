//! Changing a file's size over a path.

ghost use Rattle.std.specs.Prelude.{◌≡◌, ◌≤◌, IsOkAnd, IsTrue, None, nat_abs};
ghost use Rattle.layout.specs.StateLimits.{limits_of};
ghost use Rattle.model.specs.Attributes.{KeepsTime};
ghost use Rattle.model.specs.Changing.{size_tests, truncates};
ghost use Rattle.model.specs.Paths.{first_refusal, parts as parts_of, text_tests_then};
ghost use Rattle.model.specs.Volumes.{is_file_node, tree_of};
ghost use Rattle.paths.specs.Numbers.{IsInodeNumber};
ghost use Rattle.calls.specs.Changing.{ComesOrStays};
ghost use Rattle.calls.specs.Truncate.{TruncatesFile};
ghost use Rattle.calls.specs.Preparing.{PreparesAny};

use crate::leading::find_object;
use crate::texts::refusal_of_path;
use crate::{Changing, OwnedChange};
use buffers::Blocks;
use inofile::InodeFile;
use layout::InodeNumber;
use model::{Errno, Limits, Time};
use paths::{Found, Parts};
use records::{Failure, kind_at, truncate_bytes};
use std::alloc::Global;

/// Gives a size to the file where a path leads, where a last symbolic link is followed, as far as
/// nothing of it is seen yet: prepares its record, or tells that nothing changes by it, or why the
/// call is refused. NoMemory; Device where a read failed; Damaged where a block on the way is
/// outside its format.
pub fn truncate<B: Blocks>(
    alloc: Global,
    inodes: &mut InodeFile,
    blocks: &mut B,
    now: Option<Time>,
    path: &[u8],
    size: i64,
) -> Result<Option<Changing>, Failure>
    requires now { KeepsTime (limits_of inodes.old.geometry).has_attributes now }
    ensures { PreparesAny now B.Blocks blocks.old blocks.new inodes.old inodes.new
        (λ limits v table. ComesOrStays (truncates limits now (tree_of v table) path.now size)
        limits v table) result }
{
    let parts = Parts::of(alloc, path)?;
    if let Some(errno) = refusal_of_path(inodes, path, &parts) {
        return Err(Failure::Refused(errno));
    }
    if let Some(errno) = refusal_of_size(inodes.limits(), size) {
        return Err(Failure::Refused(errno));
    }
    truncate_along(alloc, inodes, blocks, now, path, parts, size)
}

/// Why a file can't get a size, if it can't: EINVAL where it is negative, EFBIG where it is greater
/// than the limit.
pub fn refusal_of_size(limits: Limits, size: i64) -> Option<Errno>
    ensures { result ≡ first_refusal (size_tests limits size) }
{
    if size < 0 {
        return Some(Errno::EINVAL);
    }
    if size.unsigned_abs() > limits.file_bytes {
        return Some(Errno::EFBIG);
    }
    None
}

// The same with a text and a size that passed their tests, and the text's parts; EISDIR where it
// leads to no file.
fn truncate_along<B: Blocks>(
    alloc: Global,
    inodes: &mut InodeFile,
    blocks: &mut B,
    now: Option<Time>,
    path: &[u8],
    parts: Parts,
    size: i64,
) -> Result<Option<Changing>, Failure>
    requires now { KeepsTime (limits_of inodes.old.geometry).has_attributes now }
    requires parts { parts ≡ parts_of path.now }
    requires passed { first_refusal (text_tests_then (limits_of inodes.old.geometry) (size_tests
        (limits_of inodes.old.geometry) size) path.now) ≡ None }
    requires within { nat_abs size ≤ (limits_of inodes.old.geometry).file_bytes }
    ensures { PreparesAny now B.Blocks blocks.old blocks.new inodes.old inodes.new
        (λ limits v table. ComesOrStays (truncates limits now (tree_of v table) path.now size)
        limits v table) result }
{
    let number = find_object(alloc, inodes, blocks, path, parts, true)?;
    let found = kind_at(alloc, inodes, blocks, number)?;
    match found {
        Found::File => truncate_file(alloc, inodes, blocks, now, number, size.unsigned_abs()),
        _ => Err(Failure::Refused(Errno::EISDIR)),
    }
}

/// Gives a size to the file with a number, as far as nothing of it is seen yet: prepares its
/// record; none where nothing changes by it; EFBIG where it is no file. NoMemory; Device where a
/// read failed; Damaged where a block on the way is outside its format.
pub fn truncate_file<B: Blocks>(
    alloc: Global,
    inodes: &mut InodeFile,
    blocks: &mut B,
    now: Option<Time>,
    number: InodeNumber,
    size: u64,
) -> Result<Option<Changing>, Failure>
    requires now { KeepsTime (limits_of inodes.old.geometry).has_attributes now }
    requires number { IsInodeNumber inodes.old.geometry.inodes number }
    requires within { size ≤ (limits_of inodes.old.geometry).file_bytes }
    ensures { PreparesAny now B.Blocks blocks.old blocks.new inodes.old inodes.new
        (λ limits v table r. IsTrue (is_file_node (v number))
        → IsOkAnd r (TruncatesFile limits now v table
        number size)) result }
{
    let time = now;
    let planned = truncate_bytes(alloc, inodes, blocks, now, number, size)?;
    let Some(prepared) = planned else {
        return Ok(None);
    };
    Ok(Some(Changing {
        time,
        change: OwnedChange::Truncate { number, size },
        prepared,
    }))
}
