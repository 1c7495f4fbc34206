//! Changing the time of an object's data, over a path or of its number.

ghost use Rattle.std.specs.Prelude.{◌≡◌, IfSome, IsSome, IsTrue, None};
ghost use Rattle.layout.specs.StateLimits.{limits_of};
ghost use Rattle.model.specs.Attributes.{KeepsTime};
ghost use Rattle.model.specs.Changing.{changes_times, gives_time, meant_time, time_tests};
ghost use Rattle.model.specs.Paths.{first_refusal};
ghost use Rattle.model.specs.Volumes.{tree_of};
ghost use Rattle.paths.specs.Numbers.{IsInodeNumber};
ghost use Rattle.calls.specs.Changing.{ComesOrStays};
ghost use Rattle.calls.specs.Preparing.{PreparesAny};
ghost use Rattle.calls.specs.Refusals.{is_path_refusal};

use crate::Changing;
use crate::leading::find_object;
use crate::preparing::attributes::{NewAttributes, change_attributes};
use crate::texts::refusal_of_path;
use buffers::Blocks;
use inofile::InodeFile;
use layout::InodeNumber;
use model::{Errno, Nanoseconds, NewTime, Time};
use paths::Parts;
use records::Failure;
use std::alloc::Global;

/// Gives the data of the object where a path leads a time, if one is meant, where a last symbolic
/// link may be followed, as far as nothing of it is seen yet: prepares its record, or tells that
/// there is nothing to change, or why the call is refused: ENOTSUP where no times are kept, EINVAL
/// where its nanoseconds are a second or more. NoMemory; Device where a read failed; Damaged where a
/// block on the way is outside its format.
pub fn change_times<B: Blocks>(
    alloc: Global,
    inodes: &mut InodeFile,
    blocks: &mut B,
    now: Option<Time>,
    path: &[u8],
    follow: bool,
    time: NewTime,
) -> Result<Option<Changing>, Failure>
    requires now { KeepsTime (limits_of inodes.old.geometry).has_attributes now }
    ensures { PreparesAny now B.Blocks blocks.old blocks.new inodes.old inodes.new
        (λ limits v table. ComesOrStays (changes_times limits now (tree_of v table) follow path.now
        time) limits v table) result }
{
    if !inodes.limits().has_attributes {
        return Err(Failure::Refused(Errno::ENOTSUP));
    }
    let parts = Parts::of(alloc, path)?;
    if let Some(errno) = refusal_of_path(inodes, path, &parts) {
        return Err(Failure::Refused(errno));
    }
    if let Some(errno) = refusal_of_time(time) {
        return Err(Failure::Refused(errno));
    }
    let number = find_object(alloc, inodes, blocks, path, parts, follow)?;
    give_time(alloc, inodes, blocks, now, number, time)
}

/// Why a time is refused.
pub fn refusal_of_time(time: NewTime) -> Option<Errno>
    ensures first { result ≡ first_refusal (time_tests time) }
    ensures own { IfSome result (λ e. IsTrue (is_path_refusal e)) }
{
    match time {
        NewTime::At { nanoseconds, .. } => match Nanoseconds::new(nanoseconds) {
            Some(_nanoseconds) => None,
            None => Some(Errno::EINVAL),
        },
        NewTime::Now | NewTime::Omit => None,
    }
}

/// The same of the object with a number, and a time that passed its tests.
pub fn give_time<B: Blocks>(
    alloc: Global,
    inodes: &mut InodeFile,
    blocks: &mut B,
    now: Option<Time>,
    number: InodeNumber,
    time: NewTime,
) -> Result<Option<Changing>, Failure>
    requires now { KeepsTime (limits_of inodes.old.geometry).has_attributes now }
    requires number { IsInodeNumber inodes.old.geometry.inodes number }
    requires passed { first_refusal (time_tests time) ≡ None }
    requires kept { IsSome now }
    ensures { PreparesAny now B.Blocks blocks.old blocks.new inodes.old inodes.new
        (λ limits v table r. IsSome (v number)
        → ComesOrStays (gives_time now (tree_of v table) number (meant_time now time)) limits v table
        r) result }
{
    let called = now;
    let Some(modified) = meant(now, time) else {
        return Ok(None);
    };
    let new = NewAttributes::Modified(modified);
    let changing = change_attributes(alloc, inodes, blocks, called, number, new)?;
    Ok(Some(changing))
}

// The time that is meant, if there is one.
fn meant(now: Option<Time>, time: NewTime) -> Option<Time>
    requires { first_refusal (time_tests time) ≡ None }
    ensures { result ≡ meant_time now time }
{
    match time {
        NewTime::Omit => None,
        NewTime::Now => now,
        NewTime::At {
            seconds,
            nanoseconds,
        } => {
            let Some(nanoseconds) = Nanoseconds::new(nanoseconds) else {
                unreachable!()
            };
            Some(Time {
                seconds,
                nanoseconds,
            })
        }
    }
}
