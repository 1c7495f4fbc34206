//! What the records of the log cost a consistency point.

ghost use Rattle.std.specs.Prelude.{◌≡◌, ◌≤◌, ◌<◌, ◌+◌, ◌^◌, ℕ, List, if◌then◌else◌, max, nat_lt};
ghost use Rattle.layout.specs.StateLimits.{limits_of};
ghost use Rattle.layout.specs.Limits.{Sizes};
ghost use Rattle.layout.specs.Record.{KeepsLimits, change_of};
ghost use Rattle.layout.specs.declared.inode.Inode.{Inode};
ghost use Rattle.model.specs.declared.limits.TheConstants.{TRANSFER_BYTES};
ghost use Rattle.model.specs.Records.{size_before, work_of};
ghost use Rattle.model.specs.Room as room;
ghost use Rattle.model.specs.Volumes.{Volume};
ghost use Rattle.images.specs.Soundness.{Detail};
ghost use Rattle.inofile.specs.Inodes.{IsKnown};
ghost use Rattle.inofile.specs.Volumes.{IsVolumeIn};
ghost use Rattle.replay.specs.Costs.{IsSizeBefore, KnowsFile};
ghost use Rattle.replay.specs.declared.costs.TheConstants.{MOST_COST};

use inofile::InodeFile;
use layout::{BLOCK_BYTES, Edit, Kind, Record};
use model::Costs;

/// The most that it may store for one record of an image: for 65,536 bytes, which touch 17 blocks
/// of a file that has times.
pub const MOST_COST: u64 = 50;

/// How many bytes the file has that a record writes to or gives a size, before it is put in force:
/// the file is in memory then. Of any other record 0.
pub fn size_before(inodes: &InodeFile, logged: &Record<'_>) -> u64
    ensures { (detail : Detail) (count : ℕ) (disk : ℕ → List ℕ) (settled : ℕ → Inode)
        (v : Volume) → IsVolumeIn detail count disk settled inodes.now v → KnowsFile inodes.now (change_of logged.now)
        → IsSizeBefore v (change_of logged.now) result }
{
    match logged.edit {
        Edit::Write { number, .. } => file_size(inodes, number.get()),
        Edit::Truncate { number, .. } => file_size(inodes, number.get()),
        Edit::SetFile { number, .. } => file_size(inodes, number.get()),
        Edit::Create { .. }
        | Edit::Link { .. }
        | Edit::RemoveName { .. }
        | Edit::Rename { .. }
        | Edit::ChangeAttributes { .. } => 0,
    }
}

/// How many bytes the file with a number has, which is in memory; 0 where no file has it.
fn file_size(inodes: &InodeFile, number: u32) -> u64
    ensures { (detail : Detail) (count : ℕ) (disk : ℕ → List ℕ) (settled : ℕ → Inode)
        (v : Volume) → IsVolumeIn detail count disk settled inodes.now v → IsKnown inodes.now number
        → result ≡ size_before v number }
{
    if !inodes.is_known(number) {
        return 0;
    }
    let object = match inodes.get(number) {
        Some(object) => object,
        None => return 0,
    };
    match object.status.kind {
        Kind::File => object.file.size(),
        _ => 0,
    }
}

/// The most blocks that a consistency point stores for a record, over a file of this size.
pub fn cost_of(costs: Costs, logged: &Record<'_>, size: u64) -> u64
    requires { KeepsLimits (change_of logged.now) }
    ensures cost { (v : Volume) → IsSizeBefore v (change_of logged.now) size
        → result ≡ room.cost costs (work_of v (change_of logged.now)) }
    ensures few { (s : Sizes) → costs ≡ (limits_of s).costs → result ≤ MOST_COST }
    ensures bounded { result < 2 ^ 33 }
{
    match logged.edit {
        Edit::Create { .. } | Edit::Link { .. } | Edit::Rename { .. } => {
            u64::from(costs.adds_name)
        }
        Edit::RemoveName { .. } => u64::from(costs.removes_name),
        Edit::Write { offset, bytes, .. } => {
            let more = beside(costs, size, offset, bytes.len());
            2 * touched(offset, bytes.len()) + u64::from(more)
        }
        Edit::Truncate { .. } | Edit::SetFile { .. } => u64::from(costs.file),
        Edit::ChangeAttributes { .. } => u64::from(costs.mode),
    }
}

/// The most that a write of so many bytes at an offset stores beside two for each block that it
/// touches, into a file of this size.
fn beside(costs: Costs, size: u64, offset: u64, count: usize) -> u32
    ensures { result ≡ room.beside costs (max size (offset + count)) }
{
    let single = costs.single_file;
    if size > single || offset > single || count as u64 > single - offset {
        costs.great_file
    } else {
        costs.file
    }
}

/// How many blocks of a file so many bytes at an offset touch.
fn touched(offset: u64, count: usize) -> u64
    requires { count ≤ TRANSFER_BYTES }
    ensures value { result ≡ room.touched offset count }
    ensures few { result ≤ 17 }
{
    let before = offset % BLOCK_BYTES as u64;
    (before + count as u64).div_ceil(BLOCK_BYTES as u64)
}

/// The blocks that stay free behind a record, over a file of this size, so that files can still be
/// taken away.
pub fn headroom_of(costs: Costs, logged: &Record<'_>, size: u64) -> u64
    ensures headroom { (v : Volume) → IsSizeBefore v (change_of logged.now) size
        → result ≡ room.headroom costs (work_of v (change_of logged.now)) }
    ensures few { (s : Sizes) → costs ≡ (limits_of s).costs → result ≤ 24 }
    ensures bounded { result < 2 ^ 32 }
{
    match logged.edit {
        Edit::RemoveName { .. } | Edit::ChangeAttributes { .. } => 0,
        Edit::Truncate { size: new, .. } => headroom_to(costs, size, new),
        Edit::SetFile { size: new, .. } => headroom_to(costs, size, new),
        _ => u64::from(costs.headroom),
    }
}

/// Those behind a record that gives a file of this size another one.
fn headroom_to(costs: Costs, size: u64, new: u64) -> u64
    ensures headroom { result ≡ (if nat_lt size new then costs.headroom else 0) }
    ensures few { (s : Sizes) → costs ≡ (limits_of s).costs → result ≤ 24 }
    ensures bounded { result < 2 ^ 32 }
{
    if size < new {
        u64::from(costs.headroom)
    } else {
        0
    }
}
