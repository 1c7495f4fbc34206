//! Changes of the bytes of a file with a number, which a descriptor or a path leads to.

ghost use Rattle.std.specs.Prelude.{◌≡◌, ◌==◌, ◌&&◌, ◌+◌, ◌≤◌, is_none, IfErr, IfOk, IfSome, IsTrue, length, unwrap_or, []};
ghost use Rattle.layout.specs.StateLimits.{limits_of};
ghost use Rattle.model.specs.Attributes.{KeepsTime};
ghost use Rattle.model.specs.Records.{set_file, stamped, truncate, write};
ghost use Rattle.model.specs.Volumes.{bytes_of_node, is_file_node};
ghost use Rattle.model.specs.declared.errno.Errno.TheVariants.{EFBIG};
ghost use Rattle.model.specs.declared.limits.TheConstants.{TRANSFER_BYTES};
ghost use Rattle.buffers.specs.Errors.{IsFault};
ghost use Rattle.paths.specs.Numbers.{IsInodeNumber};
ghost use Rattle.paths.specs.Standing.{Looks};
ghost use Rattle.records.specs.Failures.{read_outcome};
ghost use Rattle.records.specs.Looking.{Finds};
ghost use Rattle.records.specs.Prepared.{Does, IsReady};
ghost use Rattle.records.specs.Rewriting.{PutsBytes, SetsBoth, TruncatesBytes};
ghost use Rattle.records.specs.Shown.{NeverDamaged, OnMounted, OnVolumes};

use crate::contents::{Rewrite, prepare_bytes};
use crate::loading::load;
use crate::{Failure, Prepared};
use buffers::{BlockError, Blocks};
use inofile::InodeFile;
use layout::InodeNumber;
use model::{Mode, Time, records_change_trees};
use std::alloc::Global;

/// Prepares that bytes are written into the file with a number, at an offset; None where there are
/// none, EFBIG where the file would be too great. NoMemory; Device where a read failed; Damaged
/// where a block on the way is outside its format.
pub fn write_bytes<B: Blocks>(
    alloc: Global,
    inodes: &mut InodeFile,
    blocks: &mut B,
    time: Option<Time>,
    number: InodeNumber,
    offset: u64,
    bytes: &[u8],
) -> Result<Option<Prepared>, Failure>
    requires time { KeepsTime (limits_of inodes.old.geometry).has_attributes time }
    requires few { length bytes.now ≤ TRANSFER_BYTES }
    ensures looks { Looks B.Blocks IsFault blocks.old blocks.new inodes.old inodes.new (read_outcome result) }
    ensures own { IfOk (read_outcome result) (λ r. IfErr r (λ e. e ≡ EFBIG)) }
    ensures some { IfOk result (λ p. IfSome p (λ _. 1 ≤ length bytes.now)) }
    ensures within { IfOk result (λ p. IfSome p
        (λ _. offset + length bytes.now ≤ (limits_of inodes.old.geometry).file_bytes)) }
    ensures ready { IfOk result (λ p. IfSome p (IsReady inodes.new)) }
    ensures does { OnVolumes B.Blocks blocks.old inodes.old (λ disk settled v.
        IfOk result (λ p. IfSome p
        (λ x. Does disk settled inodes.new v x (stamped time (write number offset bytes.now))))) }
    ensures answers { OnMounted B.Blocks blocks.old inodes.old (λ v table.
        IsTrue (is_file_node (v number)) → IfOk (read_outcome result)
        (PutsBytes (limits_of inodes.old.geometry) time v table number offset bytes.now)) }
    ensures damaged { NeverDamaged B.Blocks blocks.old inodes.old (read_outcome result) }
{
    records_change_trees();
    if bytes.is_empty() {
        return Ok(None);
    }
    let rewrite = Rewrite::Write { offset, bytes };
    let prepared = prepare_bytes(alloc, inodes, blocks, time, number, &rewrite)?;
    Ok(Some(prepared))
}

/// Prepares that the file with a number gets a size; None where it has it, and no time is kept, which
/// would change; EFBIG where it is no file. NoMemory; Device where a read failed; Damaged where a
/// block on the way is outside its format.
pub fn truncate_bytes<B: Blocks>(
    alloc: Global,
    inodes: &mut InodeFile,
    blocks: &mut B,
    time: Option<Time>,
    number: InodeNumber,
    size: u64,
) -> Result<Option<Prepared>, Failure>
    requires time { KeepsTime (limits_of inodes.old.geometry).has_attributes time }
    requires number { IsInodeNumber inodes.old.geometry.inodes number }
    requires within { size ≤ (limits_of inodes.old.geometry).file_bytes }
    ensures looks { Looks B.Blocks IsFault blocks.old blocks.new inodes.old inodes.new (read_outcome result) }
    ensures own { IfOk (read_outcome result) (λ r. IfErr r (λ e. e ≡ EFBIG)) }
    ensures ready { IfOk result (λ p. IfSome p (IsReady inodes.new)) }
    ensures does { OnVolumes B.Blocks blocks.old inodes.old (λ disk settled v.
        IfOk result (λ p. IfSome p
        (λ x. Does disk settled inodes.new v x (stamped time (truncate number size))))) }
    ensures answers { OnMounted B.Blocks blocks.old inodes.old (λ v table.
        IsTrue (is_file_node (v number)) → IfOk (read_outcome result)
        (TruncatesBytes (limits_of inodes.old.geometry) time v table number size)) }
    ensures damaged { NeverDamaged B.Blocks blocks.old inodes.old (read_outcome result) }
{
    records_change_trees();
    let now = size_at(alloc, inodes, blocks, number)?;
    if is_idle(&time, now, size) {
        return Ok(None);
    }
    let rewrite = Rewrite::Truncate { size };
    let prepared = prepare_bytes(alloc, inodes, blocks, time, number, &rewrite)?;
    Ok(Some(prepared))
}

/// Prepares that the file with a number gets a mode and a size by one record; None where it has the
/// size, and no time is kept; EFBIG where it is no file. NoMemory; Device where a read failed;
/// Damaged where a block on the way is outside its format.
pub fn set_bytes<B: Blocks>(
    alloc: Global,
    inodes: &mut InodeFile,
    blocks: &mut B,
    time: Option<Time>,
    number: InodeNumber,
    mode: Mode,
    size: u64,
) -> Result<Option<Prepared>, Failure>
    requires time { KeepsTime (limits_of inodes.old.geometry).has_attributes time }
    requires number { IsInodeNumber inodes.old.geometry.inodes number }
    requires within { size ≤ (limits_of inodes.old.geometry).file_bytes }
    ensures looks { Looks B.Blocks IsFault blocks.old blocks.new inodes.old inodes.new (read_outcome result) }
    ensures own { IfOk (read_outcome result) (λ r. IfErr r (λ e. e ≡ EFBIG)) }
    ensures ready { IfOk result (λ p. IfSome p (IsReady inodes.new)) }
    ensures does { OnVolumes B.Blocks blocks.old inodes.old (λ disk settled v.
        IfOk result (λ p. IfSome p
        (λ x. Does disk settled inodes.new v x (stamped time (set_file number mode size))))) }
    ensures answers { OnMounted B.Blocks blocks.old inodes.old (λ v table.
        IsTrue (is_file_node (v number)) → IfOk (read_outcome result)
        (SetsBoth (limits_of inodes.old.geometry) time v table number mode size)) }
    ensures damaged { NeverDamaged B.Blocks blocks.old inodes.old (read_outcome result) }
{
    records_change_trees();
    // The type of a mode holds it to its bits.
    let _ = mode.bits();
    let now = size_at(alloc, inodes, blocks, number)?;
    if is_idle(&time, now, size) {
        return Ok(None);
    }
    let rewrite = Rewrite::Set { mode, size };
    let prepared = prepare_bytes(alloc, inodes, blocks, time, number, &rewrite)?;
    Ok(Some(prepared))
}

// Whether a size changes nothing: the file has it, and no time is kept, which would change.
fn is_idle(time: &Option<Time>, now: u64, size: u64) -> bool
    ensures { result ≡ (is_none time.now && size == now) }
{
    time.is_none() && now == size
}

// How many bytes the file with a number has.
fn size_at<B: Blocks>(
    alloc: Global,
    inodes: &mut InodeFile,
    blocks: &mut B,
    number: InodeNumber,
) -> Result<u64, BlockError>
    requires { IsInodeNumber inodes.old.geometry.inodes number }
    ensures { Finds B.Blocks blocks.old blocks.new inodes.old inodes.new (λ detail disk settled v n.
        IsTrue (is_file_node (v number)) → n ≡ length (unwrap_or (bytes_of_node (v number)) [])) result }
{
    load(alloc, inodes, blocks, number)?;
    match paths::object(inodes, number) {
        Some(object) => Ok(object.file.size()),
        None => Ok(0),
    }
}
