//! What the kernel is asked to learn that no more requests wait: for a message behind them.

ghost use Rattle.std.specs.Io.KnownBytes.{Appends};
ghost use Rattle.std.specs.Prelude.{◌≡◌, List, ℕ};
ghost use Rattle.served.specs.Serving.{MayAsk};

use crate::answer::Answer;
use channel::Channel;
use fuse::{Operation, Request, retrieval};

/// The files that requests and answers speak of, each by its node; 0 for none.
#[derive(Clone, Copy, Debug)]
pub(crate) struct Files {
    /// A file that the kernel knows.
    pub asked: u64,
    /// A file that it knows once it has the reply.
    pub told: u64,
}

impl Files {
    pub(crate) const NONE: Files = Files { asked: 0, told: 0 };

    /// Those of a request and its answer.
    pub(crate) fn of(request: &Request<'_>, answer: &Answer) -> Files {
        Files {
            asked: if asks_file(request, answer) {
                request.head.node
            } else {
                0
            },
            told: told_file(answer),
        }
    }
}

/// Whether a request is asked of a file.
fn asks_file(request: &Request<'_>, answer: &Answer) -> bool {
    match (&request.operation, answer) {
        (
            Operation::Open { .. }
            | Operation::Read { .. }
            | Operation::Write { .. }
            | Operation::Release { .. }
            | Operation::Flush { .. }
            | Operation::Sync { .. },
            _,
        ) => true,
        (_, Answer::Attributes(told)) => is_file(told.mode),
        _ => false,
    }
}

/// Whether a mode is a file's.
fn is_file(mode: u32) -> bool {
    mode & 0o170000 == 0o100000
}

/// The file that an answer tells of, where it is told by a name.
fn told_file(answer: &Answer) -> u64 {
    match answer {
        Answer::Entry(entry) | Answer::Created(entry, _) if is_file(entry.attributes.mode) => {
            entry.node
        }
        _ => 0,
    }
}

/// Whether the kernel was asked, and by which file it may be.
#[derive(Clone, Copy, Debug)]
pub(crate) struct Question {
    /// It was asked, and the message didn't come yet.
    is_out: bool,
    /// The files that were seen last.
    files: Files,
}

impl Question {
    pub(crate) const NONE: Question = Question {
        is_out: false,
        files: Files::NONE,
    };

    /// Notes the files of a request.
    pub(crate) fn note(&mut self, files: Files) {
        if files.asked != 0 {
            self.files.asked = files.asked;
        }
        if files.told != 0 {
            self.files.told = files.told;
        }
    }

    /// Notes that kept replies went, so that the kernel knows what they told.
    pub(crate) fn note_sent(&mut self) {
        if self.files.told != 0 {
            self.files.asked = self.files.told;
            self.files.told = 0;
        }
    }

    /// Notes that the message came.
    pub(crate) fn end(&mut self) {
        self.is_out = false;
    }

    /// Asks, unless the kernel is asked already. Whether the message is to come.
    pub(crate) fn ask<K: Channel>(&mut self, channel: &mut K) -> bool
        ensures asks { (part : List ℕ) × MayAsk K.Channel channel.old channel.new part
            × Appends (K.gone channel.old) (K.gone channel.new) part }
        ensures coming { K.coming channel.new ≡ K.coming channel.old }
    {
        if self.is_out {
            return true;
        }
        if self.files.asked == 0 {
            return false;
        }
        self.is_out = channel.ask(&retrieval(self.files.asked));
        if !self.is_out {
            // It doesn't know the file any more.
            self.files.asked = 0;
        }
        self.is_out
    }
}
