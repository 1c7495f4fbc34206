//! The messages that were answered, and whose replies are kept.

ghost use Rattle.std.specs.Io.KnownBytes.{Appends};
ghost use Rattle.std.specs.Prelude.{◌≡◌, ◌≤◌, ◌++◌, ◌∷◌, [], IsFalse, IsTrue, List, None, Result, ℕ, map, IfOk, IfSome, OnErr, OnOk};
ghost use Rattle.model.specs.declared.errno.Errno.{Errno};
ghost use Rattle.served.specs.Durability as spec;
ghost use Rattle.served.specs.Kept.{owed, owed_behind};
ghost use Rattle.served.specs.Replying.{spelled};
ghost use Rattle.served.specs.Serving.{AreSent, MayAsk, since_behind};

use crate::durability::is_due;
use crate::kept::Kept;
use crate::message::Answered;
use crate::question::Question;
use channel::{Channel, Ended};
use file_system::FileSystem;
use fuse::Time;
use model::Errno;
use std::alloc::{AllocError, Global};

/// What is done together has so many bytes of the log at the most, but for the last request's: the
/// records of one that writes the most, of which a batch so has at least one.
const MOST_WAITING: usize = 1_048_576;

/// A batch: messages that were answered and whose replies go together.
#[derive(Drop)]
pub(crate) struct Batch {
    pub kept: Kept,
    pub question: Question,
    /// Since when something waits whose reply went.
    pub since: Option<Time>,
}

impl Batch {
    /// The first one.
    pub(crate) fn new(alloc: Global) -> Result<Batch, AllocError>
        ensures kept { IfOk result (λ batch. batch.kept ≡ []) }
        ensures since { IfOk result (λ batch. batch.since ≡ None) }
    {
        match Kept::new(alloc) {
            Ok(kept) => Ok(Batch {
                kept,
                question: Question::NONE,
                since: None,
            }),
            Err(error) => Err(error),
        }
    }

    /// Keeps the reply to a message.
    pub(crate) fn keep(&mut self, answered: &Answered) -> Result<(), AllocError>
        ensures ok { OnOk result (self.new.kept ≡ self.old.kept
            ++ owed answered.now.unique (spelled answered.now.unique answered.now.answer) ∷ []) }
        ensures err { OnErr result (self.new.kept ≡ self.old.kept) }
        ensures since { self.new.since ≡ self.old.since }
    {
        if answered.is_retrieved {
            self.question.end();
        }
        self.question.note(answered.files);
        self.kept.keep(answered.unique, &answered.answer)
    }

    /// Whether the replies are to go now, where all go behind a commit: nothing waits, too much
    /// waits, the kernel sent what it was asked for, or it can't be asked.
    pub(crate) fn is_ready<K: Channel>(
        &mut self,
        waiting: usize,
        is_retrieved: bool,
        channel: &mut K,
    ) -> bool
        ensures kept { self.new.kept ≡ self.old.kept }
        ensures since { self.new.since ≡ self.old.since }
        ensures asks { (part : List ℕ) × MayAsk K.Channel channel.old channel.new part
            × Appends (K.gone channel.old) (K.gone channel.new) part }
        ensures coming { K.coming channel.new ≡ K.coming channel.old }
    {
        let is_due = waiting == 0 || waiting > MOST_WAITING || is_retrieved || self.kept.is_full();
        is_due || !self.question.ask(channel)
    }

    /// Whether what was done may wait on behind its reply, where so many bytes wait, and whether a
    /// message asks that all be durable; else a commit is due.
    pub(crate) fn may_wait(
        &mut self,
        waiting: usize,
        settles: bool,
        milliseconds: u32,
        bytes: usize,
        now: Time,
    ) -> bool
        ensures kept { self.new.kept ≡ self.old.kept }
        ensures asks_none { IsTrue result → IsFalse settles }
        ensures few { IsTrue result → waiting ≤ bytes }
        ensures since { IsTrue result → self.new.since ≡ since_behind waiting self.old.since now }
        ensures young { IsTrue result
            → IfSome self.new.since (λ since. IsFalse (spec.is_due milliseconds since now)) }
    {
        if settles || waiting > bytes {
            return false;
        }
        if waiting == 0 {
            self.since = None;
            return true;
        }
        let since = self.since.unwrap_or(now);
        self.since = Some(since);
        !is_due(milliseconds, since, now)
    }

    /// Sends the replies behind a commit that came to this. Then none is kept.
    pub(crate) fn send<K: Channel>(
        &mut self,
        done: Result<(), Errno>,
        channel: &mut K,
    ) -> Result<(), Ended>
        ensures kept { self.new.kept ≡ [] }
        ensures since { self.new.since ≡ self.old.since }
        ensures sends { (went : List ℕ) × AreSent K.Channel channel.old channel.new (map (owed_behind done) self.old.kept) went result
            × Appends (K.gone channel.old) (K.gone channel.new) went }
        ensures coming { K.coming channel.new ≡ K.coming channel.old }
    {
        let sent = self.kept.send(done, channel);
        self.kept.clear();
        self.question.note_sent();
        sent
    }

    /// Makes durable what was done, and sends the replies. Then none is kept.
    pub(crate) fn commit<F: FileSystem, K: Channel>(
        &mut self,
        files: &mut F,
        channel: &mut K,
    ) -> Result<(), Ended>
        ensures kept { self.new.kept ≡ [] }
        ensures since { self.new.since ≡ None }
        ensures sends { (done : Result (Unit {0}) Errno) × F.commits files.old files.new done
            × (went : List ℕ) × AreSent K.Channel channel.old channel.new (map (owed_behind done) self.old.kept) went result
            × Appends (K.gone channel.old) (K.gone channel.new) went }
        ensures coming { K.coming channel.new ≡ K.coming channel.old }
    {
        // Before the commit nothing goes that a cut may take back.
        let done = files.commit();
        self.since = None;
        self.send(done, channel)
    }
}
