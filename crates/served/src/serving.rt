//! The loop over messages: each is answered, and the replies of those that wait together go behind
//! one commit.

ghost use Rattle.std.specs.Prelude.{◌≡◌, None, Option, length, IfErr, OnOk};
ghost use Rattle.fuse.specs.declared.time.Time.{Time};
ghost use Rattle.served.specs.Known.{Known, known_of};
ghost use Rattle.served.specs.Serving.{HasEnded, HasStopped, Serves, Stage, ending_of, stage, unlearnt};
ghost use Rattle.served.specs.UnderWay.{HasKept, IsUnderWay};

use crate::batch::Batch;
use crate::durability::Durability;
use crate::marks::Marks;
use crate::memory::Memory;
use crate::message::answer_message;
use crate::numbers::REQUEST_BYTES;
use crate::snapshots::learn_snapshots;
use channel::{Channel, Ended};
use file_system::FileSystem;
use fuse::Time;
use model::Errno;
use std::alloc::Global;
use std::rt::Clock;
use std::time::{SystemTime, UNIX_EPOCH};

/// How serving ended.
#[derive(Clone, Copy, Debug, PartialEq, Eq)]
pub enum Ending {
    /// The folder was unmounted.
    Unmounted,
    /// The kernel can't be heard or answered any more.
    Failed,
    /// There was no memory for the server, a request or a reply.
    NoMemory,
    /// The snapshots couldn't be listed.
    Refused(Errno),
    /// Not all that was done could be made durable. Together nothing of that was answered as done;
    /// deferred some may have been.
    Lost,
}

/// Whose folder it is: what wasn't touched since the mount is this user's and this group's, and of
/// the time of the mount.
#[derive(Clone, Copy, Debug)]
pub struct Owner {
    pub uid: u32,
    pub gid: u32,
}

/// Answers the kernel's requests over a file system of so many numbers, until the folder is
/// unmounted. When what was answered is durable, the durability says; in the end all is, unless the
/// ending is `Lost`.
pub fn serve<F: FileSystem, K: Channel, C: Clock>(
    clock: &C,
    alloc: Global,
    files: &mut F,
    numbers: u32,
    owner: Owner,
    durability: Durability,
    channel: &mut K,
) -> Ending
    ensures { Serves F.FileSystem K.Channel durability numbers owner
        (files.old, channel.old) (files.new, channel.new) result }
{
    let first = Marks::made(owner.uid, owner.gid, now(clock));
    let mut memory = match Memory::new(alloc, numbers, first) {
        Ok(memory) => memory,
        Err(_) => return Ending::NoMemory,
    };
    match learn_snapshots(alloc, files, &mut memory) {
        Ok(()) => answer_all(clock, alloc, durability, files, &mut memory, channel),
        Err(errno) => unlearnt(errno),
    }
}

/// How serving ends where the snapshots weren't learnt.
fn unlearnt(errno: Errno) -> Ending
    ensures { result ≡ unlearnt errno }
{
    match errno {
        Errno::ENOMEM => Ending::NoMemory,
        errno => Ending::Refused(errno),
    }
}

/// The time, as far as the host tells it.
fn now<C: Clock>(clock: &C) -> Time {
    let never = Time {
        seconds: 0,
        nanoseconds: 0,
    };
    match SystemTime::now(clock) {
        Ok(time) => match time.duration_since(UNIX_EPOCH) {
            Ok(since) => Time {
                seconds: since.as_secs(),
                nanoseconds: since.subsec_nanos(),
            },
            Err(_) => never,
        },
        Err(_) => never,
    }
}

/// Answers requests until no more come, and makes all durable.
#[tactic(none)]
fn answer_all<F: FileSystem, K: Channel, C: Clock>(
    clock: &C,
    alloc: Global,
    durability: Durability,
    files: &mut F,
    memory: &mut Memory,
    channel: &mut K,
) -> Ending
    ensures { HasEnded F.FileSystem K.Channel durability
        (stage files.old (known_of memory.old) channel.old None)
        (stage files.new (known_of memory.new) channel.new None) result }
{
    let why = answer_until(clock, alloc, durability, files, memory, channel);
    match files.commit() {
        Ok(()) => why,
        Err(_) => Ending::Lost,
    }
}

/// Answers requests until no more come: why.
#[tactic(none)]
fn answer_until<F: FileSystem, K: Channel, C: Clock>(
    clock: &C,
    alloc: Global,
    durability: Durability,
    files: &mut F,
    memory: &mut Memory,
    channel: &mut K,
) -> Ending
    ensures { (since : Option Time) × HasStopped F.FileSystem K.Channel durability
        (stage files.old (known_of memory.old) channel.old None)
        (stage files.new (known_of memory.new) channel.new since) result }
{
    let Ok(room) = (vec![in alloc; 0u8; REQUEST_BYTES]) else {
        return Ending::NoMemory;
    };
    let Ok(batch) = Batch::new(alloc) else {
        return Ending::NoMemory;
    };
    let mut room = room;
    let mut batch = batch;
    for _ in 0..u64::MAX {
        match exchange(
            clock, alloc, durability, files, memory, channel, &mut room, &mut batch,
        ) {
            Ok(()) => {}
            Err(ending) => return ending,
        }
    }
    match batch.commit(files, channel) {
        Ok(()) => Ending::NoMemory,
        Err(ended) => ending_of(ended),
    }
}

/// Waits for the next message, and answers it. Its reply goes, or is kept.
#[tactic(none)]
fn exchange<F: FileSystem, K: Channel, C: Clock>(
    clock: &C,
    alloc: Global,
    durability: Durability,
    files: &mut F,
    memory: &mut Memory,
    channel: &mut K,
    room: &mut [u8],
    batch: &mut Batch,
) -> Result<(), Ending>
    requires { length room.old ≡ REQUEST_BYTES }
    ensures goes_on { (begun : Stage F K) → IsUnderWay F.FileSystem K.Channel durability begun (stage files.old (known_of memory.old) channel.old batch.old.since) batch.old.kept
        → OnOk result (IsUnderWay F.FileSystem K.Channel durability begun (stage files.new (known_of memory.new) channel.new batch.new.since) batch.new.kept) }
    ensures ended { (begun : Stage F K) → IsUnderWay F.FileSystem K.Channel durability begun (stage files.old (known_of memory.old) channel.old batch.old.since) batch.old.kept
        → IfErr result (λ ending. HasStopped F.FileSystem K.Channel durability begun (stage files.new (known_of memory.new) channel.new batch.new.since) ending) }
{
    let count = match channel.receive(room) {
        Ok(received) => received.count,
        Err(ended) => return Err(ending_of(ended)),
    };
    let now = now(clock);
    let answered = answer_message(durability, alloc, files, memory, now, &room[..count]);
    match batch.keep(&answered) {
        Ok(()) => {
            let settles = answered.settles;
            let is_retrieved = answered.is_retrieved;
            match go_on(
                durability,
                files,
                now,
                settles,
                is_retrieved,
                channel,
                batch,
            ) {
                Ok(()) => Ok(()),
                Err(ended) => Err(ending_of(ended)),
            }
        }
        Err(_) => {
            let _ = batch.commit(files, channel);
            Err(Ending::NoMemory)
        }
    }
}

/// Goes on behind a message whose reply is kept: the replies go, or wait for more messages.
#[tactic(none)]
fn go_on<F: FileSystem, K: Channel>(
    durability: Durability,
    files: &mut F,
    now: Time,
    settles: bool,
    is_retrieved: bool,
    channel: &mut K,
    batch: &mut Batch,
) -> Result<(), Ended>
    ensures goes_on { (begun : Stage F K) (known : Known) → HasKept F.FileSystem K.Channel durability begun (stage files.old known channel.old batch.old.since) batch.old.kept now settles
        → OnOk result (IsUnderWay F.FileSystem K.Channel durability begun (stage files.new known channel.new batch.new.since) batch.new.kept) }
    ensures ended { (begun : Stage F K) (known : Known) → HasKept F.FileSystem K.Channel durability begun (stage files.old known channel.old batch.old.since) batch.old.kept now settles
        → IfErr result (λ ended. HasStopped F.FileSystem K.Channel durability begun (stage files.new known channel.new batch.new.since) (ending_of ended)) }
{
    match durability {
        Durability::Together => {
            if batch.is_ready(files.waiting(), is_retrieved, channel) {
                batch.commit(files, channel)
            } else {
                Ok(())
            }
        }
        Durability::Deferred {
            milliseconds,
            bytes,
        } => {
            if batch.may_wait(files.waiting(), settles, milliseconds, bytes, now) {
                batch.send(Ok(()), channel)
            } else {
                batch.commit(files, channel)
            }
        }
    }
}

/// How serving ends where the channel did.
fn ending_of(ended: Ended) -> Ending
    ensures { result ≡ ending_of ended }
{
    match ended {
        Ended::Unmounted => Ending::Unmounted,
        Ended::Failed => Ending::Failed,
    }
}
