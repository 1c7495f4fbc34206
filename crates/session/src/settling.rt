//! Lines whose commands wait: they are done, made durable together, and their replies shown.

ghost use Rattle.std.specs.Fn.{FnReturnsAt};
ghost use Rattle.std.specs.Prelude.{◌≡◌, ℕ, Bool, List, Option, Some, IfErr, IsErrOf, IsTrue, MatchResult, OnOk, false, if◌then◌else◌};
ghost use Rattle.session.specs.Reading.{IsHeardAs};
ghost use Rattle.session.specs.Rounds.{HasTried, IsKept, said_behind, said_lost};
ghost use Rattle.session.specs.Scripts.{IsLineOf, is_skipped};
ghost use Rattle.session.specs.Shells.{Dialog, said};
ghost use Rattle.session.specs.UnderWay.{AnswersBehind, DoesNothing, GoesOn, HasStopped, IsSettled, IsUnderWay, ShowsKept};
ghost use Rattle.session.specs.declared.durability.Durability.{Durability};
ghost use Rattle.system.specs.Waits.{none_waits};
ghost use Rattle.mount.specs.declared.waiting.Waiting.{Waiting};

use crate::answering::{is_refusal, show_cut, show_reply, write_whole};
use crate::durability::is_promise;
use crate::kept::Kept;
use crate::lines::read_line;
use crate::reading::Heard;
use crate::streams::Closed;
use crate::{Sink, Status};
use model::{Command, Errno, Reply};
use mount::Waiting;
use script::ScriptError;
use station::Station;
use std::alloc::Global;
use std::io::Write;

/// What came of a line.
#[derive(Clone, Copy)]
pub(crate) struct Done {
    /// Its command was refused.
    pub(crate) is_refused: bool,
    /// Its reply, which is kept, tells that all is durable.
    pub(crate) is_promise: bool,
    /// All is durable.
    pub(crate) is_settled: bool,
}

const NOTHING: Done = Done {
    is_refused: false,
    is_promise: false,
    is_settled: false,
};

/// Makes durable what waits, and shows what is kept behind that. What the commit came to: where it
/// failed each kept reply is `err EIO`. Where the system had failed before, no commit is made, and
/// replies are shown as they are.
pub(crate) fn settle<S: Station, C: Fn(&S) -> bool, O: Write>(
    files: &mut Waiting<S>,
    kept: &mut Kept,
    was_cut: &C,
    out: &mut Sink<O>,
) -> Result<Result<(), Errno>, Status>
    requires { C.IsAlwaysCallable was_cut.now }
    ensures settles { (d : Durability) (first before : Waiting S S.Station) (o : Option (List ℕ)) (dialog : Dialog) (promised : Bool)
        → IsUnderWay d first before o (O.contents out.old.inner) kept.old dialog promised → HasTried before files.old
        → let cut = FnReturnsAt C.Fn was_cut.now files.new.fs.system.blocks.buffers.station in MatchResult result
        (IsSettled d first files.new o (O.contents out.new.inner) kept.new cut dialog)
        (HasStopped d first files.new o (O.contents out.new.inner) cut dialog) }
    ensures emptied { files.new.records ≡ none_waits }
    ensures fault { IsErrOf result Status.FileFault → IsTrue out.new.has_failed }
{
    let done = files.commit();
    if was_cut(files.station()) {
        return Err(show_cut(out));
    }
    match show_kept(kept, is_lost(done), out) {
        Ok(()) => Ok(done),
        Err(status) => Err(status),
    }
}

/// Whether what waited is lost.
fn is_lost(done: Result<(), Errno>) -> bool
    ensures { (lines : Dialog) → (if result then said_lost lines else said lines) ≡ said_behind done lines }
{
    match done {
        Ok(()) | Err(Errno::FAILED) => false,
        Err(_) => true,
    }
}

/// Shows what is kept, or what stands in its place where that is lost.
pub(crate) fn show_kept<O: Write>(
    kept: &mut Kept,
    is_lost: bool,
    out: &mut Sink<O>,
) -> Result<(), Status>
    ensures shows { (lines : Dialog) → IsKept kept.old lines
        → ShowsKept lines is_lost (O.contents out.old.inner) (O.contents out.new.inner) kept.new result }
    ensures fault { IsErrOf result Status.FileFault → IsTrue out.new.has_failed }
{
    let text = if is_lost {
        kept.lost.as_slice()
    } else {
        kept.told.as_slice()
    };
    match write_whole(out, text) {
        Ok(()) => {
            kept.clear();
            Ok(())
        }
        Err(Closed) => Err(Status::FileFault),
    }
}

/// Does one line. Its reply is kept, or where it couldn't wait it was shown behind all others.
pub(crate) fn do_line<S: Station, C: Fn(&S) -> bool, O: Write>(
    alloc: Global,
    files: &mut Waiting<S>,
    kept: &mut Kept,
    heard: &Heard,
    was_cut: &C,
    out: &mut Sink<O>,
) -> Result<Done, Status>
    requires { C.IsAlwaysCallable was_cut.now }
    ensures goes_on { (d : Durability) (first : Waiting S S.Station) (o : Option (List ℕ)) (dialog : Dialog) (line : List ℕ)
        → IsUnderWay d first files.old o (O.contents out.old.inner) kept.old dialog false → IsHeardAs line heard.now
        → MatchResult result
        (λ done. GoesOn d first files.new o (O.contents out.new.inner) kept.new dialog line done.is_promise done.is_refused)
        (HasStopped d first files.new o (O.contents out.new.inner) (FnReturnsAt C.Fn was_cut.now files.new.fs.system.blocks.buffers.station) dialog) }
    ensures fault { IsErrOf result Status.FileFault → IsTrue out.new.has_failed }
{
    match heard {
        Heard::TooLong(is_comment) => do_nothing(kept, *is_comment),
        Heard::Line(line) => match read_line(alloc, line) {
            Ok(Some(command)) => do_command(alloc, files, kept, &command, was_cut, out),
            Ok(None) => do_nothing(kept, true),
            Err(ScriptError::NotACommand) => do_nothing(kept, false),
            Err(ScriptError::NoMemory) => Err(Status::NoMemory),
        },
    }
}

/// Does a line that is no command.
fn do_nothing(kept: &mut Kept, is_comment: bool) -> Result<Done, Status>
    ensures nothing { (line : List ℕ) → is_comment ≡ is_skipped line → DoesNothing kept.old kept.new line result }
    ensures memory { IfErr result (λ status. status ≡ Status.NoMemory) }
{
    match kept.keep_bad(is_comment) {
        Ok(()) => Ok(NOTHING),
        Err(status) => Err(status),
    }
}

/// Does a command.
fn do_command<S: Station, C: Fn(&S) -> bool, O: Write>(
    alloc: Global,
    files: &mut Waiting<S>,
    kept: &mut Kept,
    command: &Command<'_>,
    was_cut: &C,
    out: &mut Sink<O>,
) -> Result<Done, Status>
    requires { C.IsAlwaysCallable was_cut.now }
    ensures goes_on { (d : Durability) (first : Waiting S S.Station) (o : Option (List ℕ)) (dialog : Dialog) (line : List ℕ)
        → IsUnderWay d first files.old o (O.contents out.old.inner) kept.old dialog false → IsLineOf line (Some command.now)
        → MatchResult result
        (λ done. GoesOn d first files.new o (O.contents out.new.inner) kept.new dialog line done.is_promise done.is_refused)
        (HasStopped d first files.new o (O.contents out.new.inner) (FnReturnsAt C.Fn was_cut.now files.new.fs.system.blocks.buffers.station) dialog) }
    ensures fault { IsErrOf result Status.FileFault → IsTrue out.new.has_failed }
{
    match files.wait(command) {
        Some(reply) => match kept.keep_reply(alloc, &reply) {
            Ok(()) => Ok(Done {
                is_refused: is_refusal(&reply),
                is_promise: is_promise(command, &reply),
                is_settled: false,
            }),
            Err(status) => Err(status),
        },
        None => do_alone(alloc, files, kept, command, was_cut, out),
    }
}

/// Does a command that can't wait, behind a commit of what waits. It isn't done where that fails.
fn do_alone<S: Station, C: Fn(&S) -> bool, O: Write>(
    alloc: Global,
    files: &mut Waiting<S>,
    kept: &mut Kept,
    command: &Command<'_>,
    was_cut: &C,
    out: &mut Sink<O>,
) -> Result<Done, Status>
    requires { C.IsAlwaysCallable was_cut.now }
    ensures goes_on { (d : Durability) (first before : Waiting S S.Station) (o : Option (List ℕ)) (dialog : Dialog) (line : List ℕ)
        → IsUnderWay d first before o (O.contents out.old.inner) kept.old dialog false → HasTried before files.old → IsLineOf line (Some command.now)
        → MatchResult result
        (λ done. GoesOn d first files.new o (O.contents out.new.inner) kept.new dialog line done.is_promise done.is_refused)
        (HasStopped d first files.new o (O.contents out.new.inner) (FnReturnsAt C.Fn was_cut.now files.new.fs.system.blocks.buffers.station) dialog) }
    ensures fault { IsErrOf result Status.FileFault → IsTrue out.new.has_failed }
{
    let done = match settle(files, kept, was_cut, out) {
        Ok(done) => done,
        Err(status) => return Err(status),
    };
    let reply = answer_behind(files, command, done);
    if was_cut(files.station()) {
        return Err(show_cut(out));
    }
    match show_reply(alloc, &reply, out) {
        Ok(()) => Ok(Done {
            is_refused: is_refusal(&reply),
            is_promise: false,
            is_settled: done.is_ok(),
        }),
        Err(status) => Err(status),
    }
}

/// Answers a command that can't wait behind a commit that came to this.
fn answer_behind<S: Station>(
    files: &mut Waiting<S>,
    command: &Command<'_>,
    done: Result<(), Errno>,
) -> Reply
    requires { OnOk done (files.old.records ≡ none_waits) }
    ensures { AnswersBehind done files.old files.new command.now result }
{
    match done {
        Ok(()) => files.apply_alone(command),
        Err(errno) => Reply::Refused(errno),
    }
}
