//! Changing the time of the data of a descriptor's file.

ghost use Rattle.layout.specs.StateLimits.{limits_of};
ghost use Rattle.model.specs.Attributes.{KeepsTime};
ghost use Rattle.model.specs.Descriptors.{changes_open_times};
ghost use Rattle.paths.specs.Loads.{IsAny};
ghost use Rattle.records.specs.Opened.{HasNumbers};
ghost use Rattle.calls.specs.Changing.{ComesOrStays};
ghost use Rattle.descriptors.specs.Tables.{table_of};
ghost use Rattle.files.specs.Opened.{tree_with};
ghost use Rattle.files.specs.Preparing.{PreparesOpen, of_changing};

use buffers::Blocks;
use calls::{Changing, give_time, refusal_of_time};
use descriptors::Descriptors;
use inofile::InodeFile;
use layout::InodeNumber;
use model::{Errno, NewTime, Time};
use records::Failure;
use std::alloc::Global;

/// Gives the data of a descriptor's file a time, if one is meant, whatever the descriptor is open
/// for, as far as nothing of it is seen yet: prepares its record, or tells that there is nothing to
/// change; or refuses with ENOTSUP where no times are kept, with EBADF where the descriptor isn't
/// open, and with EINVAL where the time's nanoseconds are a second or more. NoMemory; Device where
/// a read failed; Damaged where a block on the way is outside its format.
pub fn prepare_futimens<B: Blocks>(
    alloc: Global,
    inodes: &mut InodeFile,
    blocks: &mut B,
    now: Option<Time>,
    table: &Descriptors,
    fd: u32,
    time: NewTime,
) -> Result<Option<Changing>, Failure>
    requires now { KeepsTime (limits_of inodes.old.geometry).has_attributes now }
    requires numbers { HasNumbers inodes.old.geometry.inodes table.now }
    ensures { PreparesOpen of_changing IsAny now B.Blocks blocks.old blocks.new inodes.old
        inodes.new table.now (λ v. ComesOrStays (changes_open_times (limits_of inodes.old.geometry)
        now (tree_with table.now v) fd time) (limits_of inodes.old.geometry) v (table_of
        table.now)) result }
{
    if !inodes.limits().has_attributes {
        return Err(Failure::Refused(Errno::ENOTSUP));
    }
    let Some(file) = table.get(fd) else {
        return Err(Failure::Refused(Errno::EBADF));
    };
    if let Some(errno) = refusal_of_time(time) {
        return Err(Failure::Refused(errno));
    }
    let number = InodeNumber::new(file.number);
    give_time(alloc, inodes, blocks, now, number, time)
}
