//! When what was answered is durable.

ghost use Rattle.std.specs.Prelude.{◌≡◌};
ghost use Rattle.fuse.specs.Operation.{operation_of};
ghost use Rattle.served.specs.Durability as spec;
ghost use Rattle.served.specs.Known.{known_of};
ghost use Rattle.served.specs.Turns.{Came};

use crate::answer::Answer;
use crate::answering::answer;
use crate::marks::Asker;
use crate::memory::Memory;
use file_system::FileSystem;
use fuse::{Operation, Request, Time};
use std::alloc::Global;

/// When what was answered is durable.
#[derive(Clone, Copy, Debug, PartialEq, Eq)]
pub enum Durability {
    /// When its reply goes. Requests that wait in the device are answered together, and one commit
    /// makes them durable.
    Together,
    /// Each reply goes at once, and what was done is made durable when FSYNC, FSYNCDIR, FLUSH or
    /// STATFS asks for it, where more than so many bytes of the log wait, at the first message
    /// behind so many milliseconds, and in the end. A power cut, and a kill, lose what waits.
    Deferred { milliseconds: u32, bytes: usize },
}

impl Durability {
    fn is_deferred(&self) -> bool
        ensures { result ≡ spec.is_deferred self.now }
    {
        match self {
            Durability::Together => false,
            Durability::Deferred { .. } => true,
        }
    }
}

/// Whether a request asks that what was done be durable.
fn asks_durable(operation: &Operation<'_>) -> bool
    ensures { result ≡ spec.asks_durable (operation_of operation.now) }
{
    matches!(
        operation,
        Operation::Sync { .. } | Operation::SyncDirectory { .. } | Operation::Flush { .. }
    )
}

/// Whether what was done is durable when the request is answered, however replies go.
pub(crate) fn settles(operation: &Operation<'_>) -> bool
    ensures { result ≡ spec.settles (operation_of operation.now) }
{
    match operation {
        Operation::StatFileSystem => true,
        _ => asks_durable(operation),
    }
}

/// Answers a request. Where replies go before what they tell is durable, one that asks for it is
/// done: a commit comes before its reply.
#[tactic(auto, unfolding(crate::specs::Durability::answers_in))]
pub(crate) fn answer_in<F: FileSystem>(
    durability: Durability,
    alloc: Global,
    files: &mut F,
    memory: &mut Memory,
    asker: Asker,
    request: &Request<'_>,
) -> Answer
    ensures { Came F.FileSystem files.old files.new
        (spec.answers_in durability (known_of memory.old) asker request.now.head.node
        (operation_of request.now.operation)) (result, known_of memory.new) }
{
    if durability.is_deferred() && asks_durable(&request.operation) {
        return Answer::Done;
    }
    answer(alloc, files, memory, asker, request)
}

/// Milliseconds since 1970.
fn instant(time: Time) -> u128
    ensures { result ≡ spec.instant time }
{
    u128::from(time.seconds) * 1000 + u128::from(time.nanoseconds / 1_000_000)
}

/// Whether so many milliseconds passed, or the clock went back.
pub(crate) fn is_due(milliseconds: u32, since: Time, now: Time) -> bool
    ensures { result ≡ spec.is_due milliseconds since now }
{
    instant(now) < instant(since) || instant(since) + u128::from(milliseconds) <= instant(now)
}
