//! What a message is answered.

ghost use Rattle.std.specs.Prelude.{◌≡◌};
ghost use Rattle.fuse.specs.Request.{IsRequest, RequestValue};
ghost use Rattle.served.specs.Durability as spec;
ghost use Rattle.served.specs.Kept.{lost_by};
ghost use Rattle.served.specs.Known.{known_of};
ghost use Rattle.served.specs.Replying.{spelled};
ghost use Rattle.served.specs.Serving.{IsAnswered, lost_text, refused_text};

use crate::answer::Answer;
use crate::durability::{Durability, answer_in, settles};
use crate::marks::Asker;
use crate::memory::Memory;
use crate::question::Files;
use file_system::FileSystem;
use fuse::{Operation, Time, read_head, read_request};
use model::Errno;
use std::alloc::Global;

/// What a message came to.
#[derive(Debug, Drop)]
pub(crate) struct Answered {
    /// The number of the request.
    pub unique: u64,
    pub answer: Answer,
    /// What was done is to be durable when the reply goes.
    pub settles: bool,
    /// It is the message that the kernel was asked for.
    pub is_retrieved: bool,
    pub files: Files,
}

/// Answers a message. One that is no request is refused where its head tells its number, and else has
/// no reply.
#[tactic(none)]
pub(crate) fn answer_message<F: FileSystem>(
    durability: Durability,
    alloc: Global,
    files: &mut F,
    memory: &mut Memory,
    now: Time,
    bytes: &[u8],
) -> Answered
    ensures answered { IsAnswered F.FileSystem durability files.old files.new (known_of memory.old) (known_of memory.new) now bytes.now (spelled result.unique result.answer) }
    ensures lost { lost_text bytes.now (spelled result.unique result.answer)
        ≡ lost_by result.unique (spelled result.unique result.answer) }
    ensures settles { (r : RequestValue) → IsRequest bytes.now r
        → result.settles ≡ spec.settles r.operation }
{
    match read_request(bytes) {
        Some(request) => {
            let asker = Asker {
                uid: request.head.uid,
                gid: request.head.gid,
                now,
            };
            let answer = answer_in(durability, alloc, files, memory, asker, &request);
            Answered {
                unique: request.head.unique,
                settles: settles(&request.operation),
                is_retrieved: is_retrieved(&request.operation),
                files: Files::of(&request, &answer),
                answer,
            }
        }
        None => refuse(bytes),
    }
}

/// Whether it is what the kernel was asked for.
fn is_retrieved(operation: &Operation<'_>) -> bool {
    matches!(operation, Operation::Retrieved)
}

/// Refuses what is no request.
fn refuse(bytes: &[u8]) -> Answered
    ensures refused { spelled result.unique result.answer ≡ refused_text bytes.now }
    ensures lost { lost_text bytes.now (spelled result.unique result.answer)
        ≡ lost_by result.unique (spelled result.unique result.answer) }
{
    let (unique, answer) = match read_head(bytes) {
        Some((head, _, _)) => (head.unique, Answer::Refused(Errno::EINVAL)),
        None => (0, Answer::Silent),
    };
    Answered {
        unique,
        answer,
        settles: false,
        is_retrieved: false,
        files: Files::NONE,
    }
}
