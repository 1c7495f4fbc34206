//! Writing bytes into a file over a path.

ghost use Rattle.std.specs.Prelude.{◌≡◌, ◌≤◌, IsTrue, None, length};
ghost use Rattle.layout.specs.StateLimits.{limits_of};
ghost use Rattle.model.specs.Attributes.{KeepsTime};
ghost use Rattle.model.specs.Descriptors.{stores};
ghost use Rattle.model.specs.Paths.{first_refusal, parts as parts_of, text_tests_then};
ghost use Rattle.model.specs.Volumes.{is_file_node, tree_of};
ghost use Rattle.model.specs.declared.limits.TheConstants.{TRANSFER_BYTES};
ghost use Rattle.calls.specs.Get.{range_tests};
ghost use Rattle.calls.specs.Store.{PreparesStoring, PutsInto, StoresFile};

use crate::leading::find_object;
use crate::reading::get::is_no_range;
use crate::texts::refusal_of_path;
use buffers::Blocks;
use inofile::InodeFile;
use layout::InodeNumber;
use model::{Errno, Time};
use paths::{Found, Parts};
use records::{Failure, Prepared, kind_at, write_bytes};
use std::alloc::Global;

/// Bytes that go to a file, as far as nothing of it is seen yet.
#[derive(Drop)]
pub struct Storing {
    /// The file's inode number.
    pub number: InodeNumber,
    /// Where the bytes go, in bytes.
    pub offset: u64,
    pub prepared: Prepared,
}

/// Puts bytes into the file where a path leads, at an offset, where a last symbolic link is
/// followed, as far as nothing of it is seen yet: prepares their record, or tells that there are
/// none, or why the call is refused: after the text of the path, EINVAL where the offset is negative
/// or one call doesn't write so many; EISDIR where the path leads to a directory; EFBIG where the
/// file would be too great. NoMemory; Device where a read failed; Damaged where a block on the way
/// is outside its format.
pub fn store<B: Blocks>(
    alloc: Global,
    inodes: &mut InodeFile,
    blocks: &mut B,
    now: Option<Time>,
    path: &[u8],
    offset: i64,
    bytes: &[u8],
) -> Result<Option<Storing>, Failure>
    requires now { KeepsTime (limits_of inodes.old.geometry).has_attributes now }
    ensures { PreparesStoring now bytes.now B.Blocks blocks.old blocks.new inodes.old inodes.new
        (λ limits v table. StoresFile (stores limits now (tree_of v table) path.now offset
        bytes.now) limits now v table bytes.now) result }
{
    let parts = Parts::of(alloc, path)?;
    if let Some(errno) = refusal_of_path(inodes, path, &parts) {
        return Err(Failure::Refused(errno));
    }
    if is_no_range(offset, bytes.len()) {
        return Err(Failure::Refused(Errno::EINVAL));
    }
    store_along(alloc, inodes, blocks, now, path, parts, offset, bytes)
}

// The same with what passed its tests, and the text's parts; EISDIR where it leads to no file.
#[allow(clippy::too_many_arguments)]
fn store_along<B: Blocks>(
    alloc: Global,
    inodes: &mut InodeFile,
    blocks: &mut B,
    now: Option<Time>,
    path: &[u8],
    parts: Parts,
    offset: i64,
    bytes: &[u8],
) -> Result<Option<Storing>, Failure>
    requires now { KeepsTime (limits_of inodes.old.geometry).has_attributes now }
    requires parts { parts ≡ parts_of path.now }
    requires passed { first_refusal (text_tests_then (limits_of inodes.old.geometry) (range_tests
        offset (length bytes.now)) path.now) ≡ None }
    requires few { length bytes.now ≤ TRANSFER_BYTES }
    ensures { PreparesStoring now bytes.now B.Blocks blocks.old blocks.new inodes.old inodes.new
        (λ limits v table. StoresFile (stores limits now (tree_of v table) path.now offset
        bytes.now) limits now v table bytes.now) result }
{
    let number = find_object(alloc, inodes, blocks, path, parts, true)?;
    let found = kind_at(alloc, inodes, blocks, number)?;
    match found {
        Found::File => put_bytes(
            alloc,
            inodes,
            blocks,
            now,
            number,
            offset.unsigned_abs(),
            bytes,
        ),
        _ => Err(Failure::Refused(Errno::EISDIR)),
    }
}

// Prepares that bytes go to the file with a number, at an offset.
fn put_bytes<B: Blocks>(
    alloc: Global,
    inodes: &mut InodeFile,
    blocks: &mut B,
    now: Option<Time>,
    number: InodeNumber,
    offset: u64,
    bytes: &[u8],
) -> Result<Option<Storing>, Failure>
    requires now { KeepsTime (limits_of inodes.old.geometry).has_attributes now }
    requires few { length bytes.now ≤ TRANSFER_BYTES }
    ensures { PreparesStoring now bytes.now B.Blocks blocks.old blocks.new inodes.old inodes.new
        (λ limits v table r. IsTrue (is_file_node (v number))
        → PutsInto limits now v table number offset
        bytes.now r) result }
{
    let planned = write_bytes(alloc, inodes, blocks, now, number, offset, bytes)?;
    let Some(prepared) = planned else {
        return Ok(None);
    };
    Ok(Some(Storing {
        number,
        offset,
        prepared,
    }))
}
