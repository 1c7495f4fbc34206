//! A mounted file system, and its commands.

ghost use Rattle.std.specs.Prelude.{◌≡◌, IsFalse};

use crate::refusals::{errno_of_call, errno_of_point, fails_call, fails_point};
use model::{Command, Errno, Reply};
use station::Station;
use std::alloc::Global;
use system::{CallError, PreparedSnapshot, SnapshotRequest, Space, System, served_states_open};

/// The most consistency points that one command begins: a `snap take` or a `snap restore` settles
/// what isn't under the newest root, and then does with the snapshot what is asked for, and a call
/// may plan one ahead before it needs room.
pub const POINTS: u64 = 2;

/// A mounted file system. Over an honest station it *serves* a state, as long as no device write
/// failed: whatever a power cut may leave opens to just that state.
#[derive(Drop)]
pub struct Fs<S: Station> {
    pub(crate) alloc: Global,
    pub(crate) system: System<S>,
    /// A device write failed: every command answers FAILED until the next mount.
    pub(crate) has_failed: bool,
    ghost runs: { IsFalse has_failed → IsFalse system.log.is_stopped },
}

impl<S: Station> Fs<S> {
    ghost use Rattle.std.specs.Prelude.{◌≡◌, ◌≢◌, ℕ, IsTrue, IsFalse, List, [], ◌∷◌, ◌++◌};
    ghost use Rattle.station.specs.Moments.{MayLeave};
    ghost use Rattle.model.specs.declared.command.Command.{Command};
    ghost use Rattle.model.specs.declared.errno.Errno.{Errno};
    ghost use Rattle.model.specs.declared.reply.Reply.{Reply};
    ghost use Rattle.model.specs.Replies.{IsReplyTo};
    ghost use Rattle.model.specs.States.{State};
    ghost use Rattle.oplog.specs.LogEnd.{all_bodies};
    ghost use Rattle.snapshots.specs.Prepared.{FitsPrepared, command_of, command_prepared};
    ghost use Rattle.system.specs.Serving.{ServesState};
    ghost use Rattle.dispatch.specs.Serving.{AnswersAtOnce, IsAccepted, IsAtOnce, IsCall};
    ghost use Rattle.system.specs.CheckpointCommands.{IsPrepared};
    ghost use Rattle.mount.specs.Applying.{AppliesCommand, AnswersCommand, AnswersAlways, Attempts, IsAppliedAt, IsQuiet, LogsItsNeed, MakesRoom, RunsAt, WaitsForPoint};
    ghost use Rattle.mount.specs.Systems.{mounted, Serves, IsYoung, LeavesState};
    ghost use Rattle.mount.specs.declared.fs.Fs.{Fs};

    /// Applies a command and answers it. A command that changes the image is logged before it is
    /// answered, by just one record; a refused one is not logged. EIO comes only where a device
    /// call failed, and where a write or a sync failed nothing else comes; after that, and only
    /// then as long as the generations last, every command answers FAILED, with no device call.
    /// ENOMEM comes where there was no memory, ENOSPC where the disk has no room although its
    /// newest root covers all, and then nothing changed. `lseek`, `fsync`, `at`, `df`, `statfs`, and
    /// `close` but of a file that has no name call no device and tell no want of memory, whatever
    /// the images hold.
    pub fn apply(&mut self, command: &Command<'_>) -> Reply
        ensures { AppliesCommand self.old self.new command.now result }
    {
        let reply = self.answer(command);
        served_states_open(&self.system);
        reply
    }

    /// The same, of one command alone.
    fn answer(&mut self, command: &Command<'_>) -> Reply
        ensures answers { AnswersAlways self.old self.new command.now result }
        ensures at_once { IsAtOnce self.old.system.files command.now
            → AnswersAtOnce self.old.system self.new.system result }
        ensures quiet { IsQuiet command.now → self.new ≡ self.old }
        ensures failed { IsTrue self.old.has_failed
            → (result ≡ Reply.Refused Errno.FAILED) × (self.new ≡ self.old) }
    {
        if self.has_failed {
            return Reply::Refused(Errno::FAILED);
        }
        match command {
            Command::Df => self.space(),
            Command::Statfs => self.usage(),
            _ => self.answer_anew(command),
        }
    }

    /// The same of a command that may read or write: it lets go of the blocks that the last one
    /// read.
    fn answer_anew(&mut self, command: &Command<'_>) -> Reply
        requires going { IsFalse self.old.has_failed }
        requires other { IsQuiet command.now → ⊥ }
        ensures answers { AnswersAlways self.old self.new command.now result }
        ensures at_once { IsAtOnce self.old.system.files command.now
            → AnswersAtOnce self.old.system self.new.system result }
    {
        served_states_open(&self.system);
        self.system.let_go();
        match command {
            Command::Sync => self.sync_all(),
            Command::SnapTake { name } => self.snapshot(&SnapshotRequest::Take {
                name: name.as_bytes(),
            }),
            Command::SnapDelete { name } => self.snapshot(&SnapshotRequest::Delete {
                name: name.as_bytes(),
            }),
            Command::SnapRestore { name } => self.snapshot(&SnapshotRequest::Restore {
                name: name.as_bytes(),
            }),
            _ => self.call(command),
        }
    }

    /// `df`: the room of the disk, with no device call.
    fn space(&self) -> Reply
        ensures kind { IsReplyTo Command.Df result }
        ensures answers { (errno : Errno) → result ≡ Reply.Refused errno → ⊥ }
        ensures logs { (s : State) (served : ServesState self.now.system s)
            → LogsItsNeed (all_bodies served.lasts.bodies) s self.now.system Command.Df result }
        ensures applied { (s : State) → Serves (mounted self.now s) → IsFalse self.now.has_failed
            → IsAppliedAt self.now s self.now Command.Df result }
    {
        served_states_open(&self.system);
        let Space {
            blocks,
            free,
            pledged,
        } = self.system.space();
        Reply::Space {
            blocks,
            free,
            pledged,
        }
    }

    /// `statfs`: the room of the disk, and how many objects there are and may be, with no device
    /// call.
    fn usage(&self) -> Reply
        ensures kind { IsReplyTo Command.Statfs result }
        ensures answers { (errno : Errno) → result ≡ Reply.Refused errno → ⊥ }
        ensures logs { (s : State) (served : ServesState self.now.system s)
            → LogsItsNeed (all_bodies served.lasts.bodies) s self.now.system Command.Statfs result }
        ensures applied { (s : State) → Serves (mounted self.now s) → IsFalse self.now.has_failed
            → IsAppliedAt self.now s self.now Command.Statfs result }
    {
        served_states_open(&self.system);
        Reply::Usage(self.system.usage())
    }

    /// The same of a call on the tree, on a descriptor or on a snapshot's tree, or of `snap list`.
    /// Where the disk has no room for it, or its record doesn't go into the log, a consistency
    /// point runs first.
    fn call(&mut self, call: &Command<'_>) -> Reply
        requires going { IsFalse self.old.has_failed }
        requires is_call { IsCall call.now }
        ensures answers { AnswersAlways self.old self.new call.now result }
        ensures at_once { IsAtOnce self.old.system.files call.now
            → AnswersAtOnce self.old.system self.new.system result }
    {
        match self.attempt(call) {
            Ok(reply) => reply,
            Err(error) => match error {
                CallError::NoRoom | CallError::LogFull => self.call_after_checkpoint(call),
                _ => Reply::Refused(errno_of_call(error)),
            },
        }
    }

    /// Runs a consistency point where something is uncovered, and then a call that would change
    /// something.
    fn call_after_checkpoint(&mut self, call: &Command<'_>) -> Reply
        requires going { IsFalse self.old.has_failed }
        requires is_call { IsCall call.now }
        ensures answers { AnswersCommand 1 (λ s. WaitsForPoint self.old s call.now)
            self.old self.new call.now result }
        // Behind its point no record of before is left.
        ensures logs { (s : State) → Serves (mounted self.old s) → WaitsForPoint self.old s call.now
            → IsAccepted result → (before : List (List ℕ))
            → LogsItsNeed before s self.new.system call.now result }
    {
        served_states_open(&self.system);
        if self.system.is_covered() {
            // Its log is empty, so what lacked was room.
            return Reply::Refused(Errno::ENOSPC);
        }
        if let Err(errno) = self.checkpoint() {
            return Reply::Refused(errno);
        }
        match self.attempt(call) {
            Ok(reply) => reply,
            Err(error) => Reply::Refused(errno_of_call(error)),
        }
    }

    /// A call, with a step of a consistency point at most. The state stays where its record doesn't
    /// go into the log.
    fn attempt(&mut self, call: &Command<'_>) -> Result<Reply, CallError>
        requires going { IsFalse self.old.has_failed }
        requires is_call { IsCall call.now }
        ensures { Attempts self.old self.new call.now result }
    {
        served_states_open(&self.system);
        match dispatch::call(&mut self.system, call) {
            Ok(reply) => {
                served_states_open(&self.system);
                Ok(reply)
            }
            Err(error) => {
                self.has_failed = fails_call(error);
                Err(error)
            }
        }
    }

    /// `sync`: a consistency point, where something is uncovered.
    fn sync_all(&mut self) -> Reply
        requires { IsFalse self.old.has_failed }
        ensures { AnswersAlways self.old self.new Command.Sync result }
    {
        served_states_open(&self.system);
        if self.system.is_covered() {
            return Reply::Done;
        }
        match self.checkpoint() {
            Ok(()) => Reply::Done,
            Err(errno) => Reply::Refused(errno),
        }
    }

    /// A command that changes the snapshots: its tests, and what is done behind them.
    fn snapshot(&mut self, request: &SnapshotRequest<'_>) -> Reply
        requires { IsFalse self.old.has_failed }
        ensures { AnswersAlways self.old self.new (command_of request.now) result }
    {
        served_states_open(&self.system);
        match self.system.prepare_snapshot(request) {
            Ok(Ok(prepared)) => self.make_snapshot(&prepared),
            Ok(Err(errno)) => Reply::Refused(errno),
            Err(error) => Reply::Refused(errno_of_call(error)),
        }
    }

    /// The same where its tests are passed.
    fn make_snapshot(&mut self, prepared: &PreparedSnapshot<'_>) -> Reply
        requires going { IsFalse self.old.has_failed }
        requires fits { FitsPrepared prepared.now }
        ensures { AnswersCommand POINTS (λ s. IsPrepared self.old.system s prepared.now) self.old self.new
            (command_prepared prepared.now) result }
    {
        match self.system.make_snapshot(prepared) {
            Ok(true) => {
                served_states_open(&self.system);
                Reply::Done
            }
            Ok(false) => Reply::Refused(Errno::ENOSPC),
            Err(error) => {
                self.has_failed = fails_point(error);
                Reply::Refused(errno_of_point(error))
            }
        }
    }

    /// Ends the consistency point under way, makes one where something is uncovered, and says why
    /// all isn't covered then.
    pub(crate) fn checkpoint(&mut self) -> Result<(), Errno>
        requires { IsFalse self.old.has_failed }
        ensures { MakesRoom self.old self.new result }
    {
        match self.system.checkpoint() {
            Ok(()) => Ok(()),
            Err(error) => {
                self.has_failed = fails_point(error);
                Err(errno_of_point(error))
            }
        }
    }

    /// A state that it serves is where a run begins. It does nothing.
    pub fn begins(&self)
        ensures { (s : State) → Serves (mounted self.now s) → RunsAt self.now s self.now [] }
    {
        served_states_open(&self.system);
    }

    /// The station, to look at.
    pub fn station(&self) -> &S
        ensures { result.now ≡ self.now.system.blocks.buffers.station }
    {
        self.system.station()
    }

    /// The station as it stands, with no device call.
    pub fn into_station(self) -> S
        ensures station { result ≡ self.system.blocks.buffers.station }
        ensures leaves { (s : State) → Serves (mounted self s) → LeavesState (S.meaning result) s }
        ensures seen { (s : State) → Serves (mounted self s)
            → MayLeave (S.meaning result) (S.meaning result).seen }
    {
        served_states_open(&self.system);
        let Fs { system, .. } = self;
        system.into_station()
    }
}
