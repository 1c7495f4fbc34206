//! Changing the size of a descriptor's file.

ghost use Rattle.std.specs.Prelude.{◌≤◌, IfErr, IfOk, IsTrue, nat_abs};
ghost use Rattle.layout.specs.StateLimits.{limits_of};
ghost use Rattle.model.specs.Attributes.{KeepsTime};
ghost use Rattle.model.specs.Descriptors.{truncates_open};
ghost use Rattle.paths.specs.Loads.{IsAny};
ghost use Rattle.calls.specs.Refusals.{is_path_refusal};
ghost use Rattle.records.specs.Opened.{HasNumbers};
ghost use Rattle.calls.specs.Changing.{ComesOrStays};
ghost use Rattle.descriptors.specs.Tables.{table_of};
ghost use Rattle.files.specs.Ftruncate.{truncate_tests};
ghost use Rattle.files.specs.Opened.{tree_with};
ghost use Rattle.files.specs.Preparing.{PreparesOpen, of_changing};
ghost use Rattle.files.specs.Reading.{PassesOpen};

use crate::writing::is_writing;
use buffers::Blocks;
use calls::{Changing, refusal_of_size, truncate_file};
use descriptors::{Descriptors, OpenFile};
use inofile::InodeFile;
use layout::InodeNumber;
use model::{Errno, Limits, Time};
use records::Failure;
use std::alloc::Global;

/// Gives a size to the file of a descriptor, as far as nothing of it is seen yet: prepares its
/// record, or tells that nothing changes by it, or why the call is refused: EBADF where the
/// descriptor isn't open, EINVAL where it isn't for writing or the size is negative, EFBIG where
/// the file would be too great. NoMemory; Device where a read failed; Damaged where a block on the
/// way is outside its format.
pub fn prepare_ftruncate<B: Blocks>(
    alloc: Global,
    inodes: &mut InodeFile,
    blocks: &mut B,
    now: Option<Time>,
    table: &Descriptors,
    fd: u32,
    size: i64,
) -> Result<Option<Changing>, Failure>
    requires now { KeepsTime (limits_of inodes.old.geometry).has_attributes now }
    requires numbers { HasNumbers inodes.old.geometry.inodes table.now }
    ensures { PreparesOpen of_changing IsAny now B.Blocks blocks.old blocks.new inodes.old
        inodes.new table.now (λ v. ComesOrStays (truncates_open (limits_of inodes.old.geometry) now
        (tree_with table.now v) fd size) (limits_of inodes.old.geometry) v (table_of table.now))
        result }
{
    let file = file_to_truncate(inodes.limits(), table, fd, size)?;
    let number = InodeNumber::new(file.number);
    truncate_file(alloc, inodes, blocks, now, number, size.unsigned_abs())
}

// The file of a descriptor that may get this size; the refusal of the first test that holds.
fn file_to_truncate(
    limits: Limits,
    table: &Descriptors,
    fd: u32,
    size: i64,
) -> Result<OpenFile, Errno>
    ensures passes { PassesOpen (truncate_tests limits size) table.now fd result }
    ensures within { IfOk result (λ _. nat_abs size ≤ limits.file_bytes) }
    ensures own { IfErr result (λ e. IsTrue (is_path_refusal e)) }
{
    let Some(file) = table.get(fd) else {
        return Err(Errno::EBADF);
    };
    if !is_writing(file.access) {
        return Err(Errno::EINVAL);
    }
    if let Some(errno) = refusal_of_size(limits, size) {
        return Err(errno);
    }
    Ok(file)
}
