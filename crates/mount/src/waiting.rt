//! Commands that wait to become durable, and their commit.

ghost use Rattle.std.specs.Prelude.{◌≡◌, ◌≢◌, ◌↔◌, [], IsTrue};
ghost use Rattle.oplog.specs.Batches.{FitsHalf};
ghost use Rattle.dispatch.specs.Serving.{IsCall};
ghost use Rattle.system.specs.Waits.{none_waits};

use crate::Fs;
use crate::refusals::refusal_of_wait;
use model::{Command, Errno, Reply};
use station::Station;
use std::alloc::Global;
use system::{WaitingRecords, kept_states_open, served_states_open};

/// A mounted file system whose commands may wait: what they did is in memory when they are
/// answered, and becomes durable by one commit, at one moment. A cut before it loses all of it.
#[derive(Drop)]
pub struct Waiting<S: Station> {
    pub(crate) fs: Fs<S>,
    pub(crate) records: WaitingRecords,
    /// So many records wait, as far as this counts.
    count: u64,
    ghost half: { records.batch ≢ [] → FitsHalf fs.system.log records.batch },
    ghost none: { IsTrue fs.has_failed → records ≡ none_waits },
}

/// Whether a command is a call: no other may wait.
fn is_call(command: &Command<'_>) -> bool
    ensures { IsTrue result ↔ IsCall command.now }
{
    !matches!(
        command,
        Command::Sync
            | Command::Df
            | Command::Statfs
            | Command::SnapTake { .. }
            | Command::SnapDelete { .. }
            | Command::SnapRestore { .. }
    )
}

/// A count of records, with one more where what waits has grown.
fn counted(count: u64, before: usize, now: usize) -> u64 {
    if before < now {
        count.saturating_add(1)
    } else {
        count
    }
}

impl<S: Station> Waiting<S> {
    ghost use Rattle.std.specs.Prelude.{◌≡◌, [], IsFalse, length};
    ghost use Rattle.model.specs.States.{State};
    ghost use Rattle.system.specs.Waits.{none_waits};
    ghost use Rattle.mount.specs.Batching.{AppliesAlone, AppliesInBatches, CommitsAll, LogsAll, MayWait, RunsInBatches, Shows};
    ghost use Rattle.mount.specs.Systems.{Serves, mounted};

    /// From here on commands may wait. None does yet.
    pub fn new(alloc: Global, fs: Fs<S>) -> Waiting<S>
        ensures fs { result.fs ≡ fs }
        ensures none { result.records ≡ none_waits }
        ensures begins { (s : State) → Serves (mounted fs s) → IsFalse fs.has_failed
            → RunsInBatches fs s result [] [] }
    {
        served_states_open(&fs.system);
        kept_states_open(&fs.system);
        Waiting {
            fs,
            records: WaitingRecords::new(alloc),
            count: 0,
        }
    }

    /// Does a command in memory, and answers it; it is durable once `commit` has answered. No device
    /// is written to. None where it can't wait, and then nothing is done: the caller commits what
    /// waits, and has it done by `apply_alone`. That is each of `sync`, `df`, `statfs` and the
    /// commands that change snapshots, one that a consistency point has to come before, and one that
    /// the disk has no room for. Where it only looks, or is refused, nothing more waits by it.
    pub fn wait(&mut self, command: &Command<'_>) -> Option<Reply>
        ensures { MayWait self.old self.new command.now result }
    {
        if self.fs.has_failed {
            return Some(Reply::Refused(Errno::FAILED));
        }
        if !is_call(command) {
            return None;
        }
        if !self.has_room() {
            return None;
        }
        self.wait_anew(command)
    }

    /// Whether the half of the log may take one more.
    fn has_room(&self) -> bool
        ensures { IsTrue result → FitsHalf self.now.fs.system.log self.now.records.batch }
    {
        let system = &self.fs.system;
        system.has_room_to_wait(&self.records)
    }

    /// The same of a call, on a system that goes on: it lets go of the blocks that the last one read.
    fn wait_anew(&mut self, command: &Command<'_>) -> Option<Reply>
        requires going { IsFalse self.old.fs.has_failed }
        requires is_call { IsCall command.now }
        requires fits { FitsHalf self.old.fs.system.log self.old.records.batch }
        ensures { MayWait self.old self.new command.now result }
    {
        kept_states_open(&self.fs.system);
        self.fs.system.let_go();
        let before = self.records.len();
        match dispatch::call_waiting(&mut self.fs.system, &mut self.records, command) {
            Ok(reply) => {
                self.count = counted(self.count, before, self.records.len());
                Some(reply)
            }
            Err(error) => refusal_of_wait(error),
        }
    }

    /// Makes durable what waits, all of it at one moment. Behind it as many slices are written of a
    /// consistency point that is under way as records waited, so that it takes no more commands than
    /// without batches. Where nothing waits, nothing is done. It takes no memory. EIO where a write
    /// failed: then the system has failed, and whether all that waited is there, or nothing of it, is
    /// known at the next mount. FAILED where it had failed.
    pub fn commit(&mut self) -> Result<(), Errno>
        ensures { CommitsAll self.old self.new result }
    {
        if self.fs.has_failed {
            return Err(Errno::FAILED);
        }
        if self.records.is_empty() {
            kept_states_open(&self.fs.system);
            return Ok(());
        }
        let count = self.count;
        if let Err(errno) = self.log_all() {
            return Err(errno);
        }
        let written = self.fs.write_slices(count);
        served_states_open(&self.fs.system);
        kept_states_open(&self.fs.system);
        written
    }

    /// Puts the records that wait into the log together.
    fn log_all(&mut self) -> Result<(), Errno>
        requires going { IsFalse self.old.fs.has_failed }
        requires fits { FitsHalf self.old.fs.system.log self.old.records.batch }
        ensures { LogsAll self.old self.new result }
    {
        self.count = 0;
        match self.fs.log_together(&mut self.records) {
            Ok(()) => Ok(()),
            Err(errno) => {
                self.records = WaitingRecords::new(self.fs.alloc);
                Err(errno)
            }
        }
    }

    /// Applies a command that becomes durable at its answer, and answers it, as `Fs::apply` does.
    pub fn apply_alone(&mut self, command: &Command<'_>) -> Reply
        requires { self.old.records ≡ none_waits }
        ensures { AppliesAlone self.old self.new command.now result }
    {
        kept_states_open(&self.fs.system);
        let reply = self.fs.apply(command);
        served_states_open(&self.fs.system);
        kept_states_open(&self.fs.system);
        reply
    }

    /// Applies a command and answers it: it waits, or where it can't, what waits is committed, and
    /// it is durable at its answer. EIO where that commit failed.
    pub fn apply(&mut self, command: &Command<'_>) -> Reply
        ensures { AppliesInBatches self.old self.new command.now result }
    {
        if let Some(reply) = self.wait(command) {
            return reply;
        }
        match self.commit() {
            Ok(()) => self.apply_alone(command),
            Err(errno) => Reply::Refused(errno),
        }
    }

    /// Bytes of the log that what waits will take: none where all that was done is durable.
    pub fn waiting(&self) -> usize
        ensures { result ≡ length self.now.records.batch }
    {
        self.records.len()
    }

    /// The station, to look at.
    pub fn station(&self) -> &S
        ensures { result.now ≡ self.now.fs.system.blocks.buffers.station }
    {
        self.fs.station()
    }

    /// The file system. Nothing waits any more: what did is lost.
    pub fn into_fs(self) -> Fs<S>
        ensures fs { result ≡ self.fs }
        ensures serves { (s kept : State) → Shows self s kept → self.records ≡ none_waits
            → Serves (mounted result s) }
    {
        kept_states_open(&self.fs.system);
        let Waiting { fs, .. } = self;
        fs
    }
}
