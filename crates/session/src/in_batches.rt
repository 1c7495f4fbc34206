//! A session whose commands may wait: what they did becomes durable in batches.

ghost use Rattle.std.specs.Fn.{FnReturnsAt};
ghost use Rattle.std.specs.Prelude.{◌≡◌, ◌≤◌, ◌⊎◌, ◌&&◌, ℕ, Bool, List, Option, Result, IsErrOf, IsFalse, IsTrue, MatchResult, [], false};
ghost use Rattle.model.specs.declared.errno.Errno.{Errno};
ghost use Rattle.mount.specs.Batching.{CommitsAll};
ghost use Rattle.mount.specs.declared.waiting.Waiting.{Waiting};
ghost use Rattle.system.specs.Waits.{none_waits};
ghost use Rattle.session.specs.Reading.{IsHeardAs};
ghost use Rattle.session.specs.Rounds.{AreAnswered};
ghost use Rattle.session.specs.Sessions.{IsMounted, written_out};
ghost use Rattle.session.specs.Shells.{Dialog};
ghost use Rattle.session.specs.Talks.{EndsInBatches, EndsLost, EndsScript, EndsTalking, HasTalked};
ghost use Rattle.session.specs.declared.durability.Durability.{Durability};
ghost use Rattle.session.specs.UnderWay.{EndsAt, GoesOn, HasStopped, IsUnderWay, StopsBy};

use crate::answering::{show_cut, write_whole};
use crate::durability::Durability;
use crate::kept::Kept;
use crate::line_by_line::{GREETING, PROMPT, prompt};
use crate::lines::read_script;
use crate::reading::{Heard, has_line, next_line};
use crate::settling::{Done, do_line, settle, show_kept};
use crate::telling::{tell, tell_lost};
use crate::unsettled::Unsettled;
use crate::{Ending, Fault, Sink, Source, Status};
use mount::{Fs, Waiting, mount};
use station::Station;
use std::alloc::Global;
use std::io::{Read, Write};
use std::rt::Clock;

/// Lines are kept together until so many bytes of the log wait, or of replies.
const MOST_WAITING: usize = 1_048_576;

/// How lines are answered.
#[derive(Clone, Copy, Debug)]
pub struct Manners {
    pub durability: Durability,
    /// A greeting and a prompt before each line go to `err`.
    pub prompts: bool,
    /// The first command that is refused ends the session.
    pub stops: bool,
}

/// Mounts the station, then reads one line after the other and does it, as `shell` does; when what
/// it did is durable, and when its reply is shown, the manners' durability says. In the end all is
/// durable. How it ended, as of `shell`, and:
/// - `Ran` with `Refused`: the first command that was refused ended it;
/// - `Ran` with `FileFault`: also where commands that were answered are lost; `err` has how many.
pub fn shell_in_batches<S: Station, C: Fn(&S) -> bool, R: Read, O: Write, E: Write, K: Clock>(
    clock: &K,
    alloc: Global,
    station: S,
    manners: Manners,
    input: &mut Source<R>,
    was_cut: C,
    out: &mut Sink<O>,
    err: &mut Sink<E>,
) -> (Ending, S)
    requires { C.IsAlwaysCallable was_cut }
    ensures ends { EndsInBatches S.Station manners (FnReturnsAt C.Fn was_cut) station result.1
        (R.remaining input.old.inner) (R.remaining input.new.inner)
        (written_out (O.contents out.old.inner) (E.contents err.old.inner))
        (written_out (O.contents out.new.inner) (E.contents err.new.inner))
        (IsTrue out.new.has_failed ⊎ IsTrue input.new.has_failed) result.0 }
{
    match mount(alloc, station) {
        Ok(fs) => {
            let (status, station) = talk(clock, alloc, fs, manners, input, &was_cut, out, err);
            (Ending::Ran(status), station)
        }
        Err((error, station)) => {
            let fault = Fault::Mount(error);
            (Ending::Unrun(fault, tell(alloc, fault, err)), station)
        }
    }
}

/// Reads a script and tests it whole, and then does its lines as `shell_in_batches` does. A script
/// with a bad line isn't run: `Unrun`, as of `session`.
pub fn session_in_batches<S: Station, C: Fn(&S) -> bool, O: Write, E: Write, K: Clock>(
    clock: &K,
    alloc: Global,
    station: S,
    script: &[u8],
    manners: Manners,
    was_cut: C,
    out: &mut Sink<O>,
    err: &mut Sink<E>,
) -> (Ending, S)
    requires { C.IsAlwaysCallable was_cut }
    ensures ends { EndsScript S.Station script.now manners (FnReturnsAt C.Fn was_cut)
        station result.1
        (written_out (O.contents out.old.inner) (E.contents err.old.inner))
        (written_out (O.contents out.new.inner) (E.contents err.new.inner)) result.0 }
{
    match read_script(alloc, script) {
        Ok(_) => shell_in_batches(
            clock,
            alloc,
            station,
            manners,
            &mut Source::new(script),
            was_cut,
            out,
            err,
        ),
        Err(fault) => (Ending::Unrun(fault, tell(alloc, fault, err)), station),
    }
}

/// Answers lines on a mounted file system, and gives the station back.
fn talk<S: Station, C: Fn(&S) -> bool, R: Read, O: Write, E: Write, K: Clock>(
    clock: &K,
    alloc: Global,
    fs: Fs<S>,
    manners: Manners,
    input: &mut Source<R>,
    was_cut: &C,
    out: &mut Sink<O>,
    err: &mut Sink<E>,
) -> (Status, S)
    requires callable { C.IsAlwaysCallable was_cut.now }
    requires going { IsFalse fs.has_failed }
    ensures talks { (old : S) → IsMounted (S.Station.meaning old) fs
        → HasTalked S.Station manners (FnReturnsAt C.Fn was_cut.now) old result.1
        (R.remaining input.old.inner)
        (written_out (O.contents out.old.inner) (E.contents err.old.inner))
        (written_out (O.contents out.new.inner) (E.contents err.new.inner))
        (IsTrue out.new.has_failed ⊎ IsTrue input.new.has_failed) result.0 }
{
    let mut files = Waiting::new(alloc, fs);
    let mut unsettled = Unsettled::NONE;
    let status = answer_lines(
        clock,
        alloc,
        &mut files,
        manners,
        &mut unsettled,
        input,
        was_cut,
        out,
        err,
    );
    let status = finish(alloc, &mut files, unsettled, status, err);
    (status, files.into_fs().into_station())
}

/// Makes durable what waits, and tells how many commands are lost that were answered, if any are.
fn finish<S: Station, E: Write>(
    alloc: Global,
    files: &mut Waiting<S>,
    unsettled: Unsettled,
    status: Status,
    err: &mut Sink<E>,
) -> Status
    ensures commits { (done : Result (Unit {0}) Errno) × CommitsAll files.old files.new done
        × EndsLost done (E.contents err.old.inner) (E.contents err.new.inner) status result }
{
    match files.commit() {
        Ok(()) => status,
        Err(_) if unsettled.commands == 0 || status == Status::Cut => status,
        Err(_) => tell_lost(alloc, unsettled.commands, err),
    }
}

/// Answers lines to the end of the input.
fn answer_lines<S: Station, C: Fn(&S) -> bool, R: Read, O: Write, E: Write, K: Clock>(
    clock: &K,
    alloc: Global,
    files: &mut Waiting<S>,
    manners: Manners,
    unsettled: &mut Unsettled,
    input: &mut Source<R>,
    was_cut: &C,
    out: &mut Sink<O>,
    err: &mut Sink<E>,
) -> Status
    requires { C.IsAlwaysCallable was_cut.now }
    ensures ends { AreAnswered manners.durability files.old files.old []
        → EndsTalking manners files.old files.new
        (FnReturnsAt C.Fn was_cut.now files.new.fs.system.blocks.buffers.station)
        (R.remaining input.old.inner) (O.contents out.old.inner) (O.contents out.new.inner) result }
    ensures fault { result ≡ Status.FileFault
        → IsTrue out.new.has_failed ⊎ IsTrue input.new.has_failed }
    ensures quiet { manners.prompts ≡ false → E.contents err.new.inner ≡ E.contents err.old.inner }
{
    if was_cut(files.station()) {
        return show_cut(out);
    }
    let mut kept = Kept::new(alloc);
    let mut pending = Vec::new(alloc);
    prompt(manners.prompts, GREETING, err);
    for _ in 0..u64::MAX {
        prompt(manners.prompts, PROMPT, err);
        let heard = match next_line(input, &mut pending) {
            Ok(Some(heard)) => heard,
            Ok(None) => return end(files, &mut kept, Status::Done, was_cut, out),
            Err(status) => return status,
        };
        let has_more = has_line(&pending);
        match answer_line(
            clock,
            alloc,
            files,
            manners.durability,
            &mut kept,
            unsettled,
            &heard,
            has_more,
            was_cut,
            out,
        ) {
            Ok(is_refused) => {
                if ends_run_at(manners.stops, is_refused) {
                    return end(files, &mut kept, Status::Refused, was_cut, out);
                }
            }
            Err(status) => return status,
        }
    }
    // The counter came to its end, which is a want of room like that of memory.
    Status::NoMemory
}

/// Whether the answers end behind a command that was refused, or wasn't.
fn ends_run_at(stops: bool, is_refused: bool) -> bool
    ensures { result ≡ (stops && is_refused) }
{
    stops && is_refused
}

/// Makes durable what waits where the answers end for this reason, and shows what is kept.
fn end<S: Station, C: Fn(&S) -> bool, O: Write>(
    files: &mut Waiting<S>,
    kept: &mut Kept,
    why: Status,
    was_cut: &C,
    out: &mut Sink<O>,
) -> Status
    requires { C.IsAlwaysCallable was_cut.now }
    ensures settles { (d : Durability) (first : Waiting S S.Station) (o : Option (List ℕ)) (dialog : Dialog) (promised : Bool)
        → IsUnderWay d first files.old o (O.contents out.old.inner) kept.old dialog promised
        → EndsAt d first files.new o (O.contents out.new.inner)
        (FnReturnsAt C.Fn was_cut.now files.new.fs.system.blocks.buffers.station) dialog why result }
    ensures emptied { files.new.records ≡ none_waits }
    ensures fault { result ≡ Status.FileFault → (why ≡ Status.FileFault) ⊎ IsTrue out.new.has_failed }
{
    let settled = settle(files, kept, was_cut, out);
    match settled {
        Ok(_) => why,
        Err(status) => status,
    }
}

/// Does one line, and shows its reply, or keeps it where more lines are to be answered with it.
/// Whether its command was refused.
fn answer_line<S: Station, C: Fn(&S) -> bool, O: Write, K: Clock>(
    clock: &K,
    alloc: Global,
    files: &mut Waiting<S>,
    durability: Durability,
    kept: &mut Kept,
    unsettled: &mut Unsettled,
    heard: &Heard,
    has_more: bool,
    was_cut: &C,
    out: &mut Sink<O>,
) -> Result<bool, Status>
    requires { C.IsAlwaysCallable was_cut.now }
    ensures goes_on { (first : Waiting S S.Station) (o : Option (List ℕ)) (dialog : Dialog) (line : List ℕ)
        → IsUnderWay durability first files.old o (O.contents out.old.inner) kept.old dialog false → IsHeardAs line heard.now
        → MatchResult result
        (GoesOn durability first files.new o (O.contents out.new.inner) kept.new dialog line false)
        (StopsBy durability first files.new o (O.contents out.new.inner) (FnReturnsAt C.Fn was_cut.now files.new.fs.system.blocks.buffers.station) dialog line) }
    ensures fault { IsErrOf result Status.FileFault → IsTrue out.new.has_failed }
{
    let before = files.waiting();
    let done = match do_line(alloc, files, kept, heard, was_cut, out) {
        Ok(done) => done,
        Err(status) => return Err(status),
    };
    match go_on(
        clock, files, durability, kept, unsettled, done, before, has_more, was_cut, out,
    ) {
        Ok(()) => Ok(done.is_refused),
        Err(status) => Err(status),
    }
}

/// Goes on behind a line whose reply is kept: it is shown, or waits for more lines. Before that line
/// so many bytes waited.
fn go_on<S: Station, C: Fn(&S) -> bool, O: Write, K: Clock>(
    clock: &K,
    files: &mut Waiting<S>,
    durability: Durability,
    kept: &mut Kept,
    unsettled: &mut Unsettled,
    done: Done,
    before: usize,
    has_more: bool,
    was_cut: &C,
    out: &mut Sink<O>,
) -> Result<(), Status>
    requires { C.IsAlwaysCallable was_cut.now }
    ensures goes_on { (first : Waiting S S.Station) (o : Option (List ℕ)) (dialog : Dialog)
        → IsUnderWay durability first files.old o (O.contents out.old.inner) kept.old dialog done.is_promise
        → MatchResult result
        (λ _. IsUnderWay durability first files.new o (O.contents out.new.inner) kept.new dialog false)
        (HasStopped durability first files.new o (O.contents out.new.inner) (FnReturnsAt C.Fn was_cut.now files.new.fs.system.blocks.buffers.station) dialog) }
    ensures fault { IsErrOf result Status.FileFault → IsTrue out.new.has_failed }
{
    match durability {
        Durability::Together => go_on_together(files, kept, has_more, was_cut, out),
        Durability::Deferred {
            milliseconds,
            bytes,
        } => go_on_deferred(
            clock,
            files,
            milliseconds,
            bytes,
            kept,
            unsettled,
            done,
            before,
            was_cut,
            out,
        ),
    }
}

/// The same where a reply is shown at once, unless a commit is due.
fn go_on_deferred<S: Station, C: Fn(&S) -> bool, O: Write, K: Clock>(
    clock: &K,
    files: &mut Waiting<S>,
    milliseconds: u32,
    bytes: usize,
    kept: &mut Kept,
    unsettled: &mut Unsettled,
    done: Done,
    before: usize,
    was_cut: &C,
    out: &mut Sink<O>,
) -> Result<(), Status>
    requires { C.IsAlwaysCallable was_cut.now }
    ensures goes_on { (first : Waiting S S.Station) (o : Option (List ℕ)) (dialog : Dialog)
        → IsUnderWay (Durability.Deferred milliseconds bytes) first files.old o (O.contents out.old.inner) kept.old dialog done.is_promise
        → MatchResult result
        (λ _. IsUnderWay (Durability.Deferred milliseconds bytes) first files.new o (O.contents out.new.inner) kept.new dialog false)
        (HasStopped (Durability.Deferred milliseconds bytes) first files.new o (O.contents out.new.inner) (FnReturnsAt C.Fn was_cut.now files.new.fs.system.blocks.buffers.station) dialog) }
    ensures fault { IsErrOf result Status.FileFault → IsTrue out.new.has_failed }
{
    let waiting = files.waiting();
    let is_due = unsettled.is_due(clock, waiting, milliseconds);
    unsettled.note(done.is_settled, waiting > before);
    if may_wait_on(done.is_promise, waiting, bytes, is_due) {
        return match show_kept(kept, false, out) {
            Ok(()) => Ok(()),
            Err(status) => Err(status),
        };
    }
    settle_deferred(files, kept, unsettled, was_cut, out)
}

/// Whether what was done may wait on behind its reply.
fn may_wait_on(is_promise: bool, waiting: usize, bytes: usize, is_due: bool) -> bool
    ensures { IsTrue result → (is_promise ≡ false) × (waiting ≤ bytes) }
{
    !is_promise && waiting <= bytes && !is_due
}

/// Shows what is kept together behind a commit, unless more lines wait that may be answered with it.
fn go_on_together<S: Station, C: Fn(&S) -> bool, O: Write>(
    files: &mut Waiting<S>,
    kept: &mut Kept,
    has_more: bool,
    was_cut: &C,
    out: &mut Sink<O>,
) -> Result<(), Status>
    requires { C.IsAlwaysCallable was_cut.now }
    ensures goes_on { (first : Waiting S S.Station) (o : Option (List ℕ)) (dialog : Dialog) (promised : Bool)
        → IsUnderWay Durability.Together first files.old o (O.contents out.old.inner) kept.old dialog promised
        → MatchResult result
        (λ _. IsUnderWay Durability.Together first files.new o (O.contents out.new.inner) kept.new dialog false)
        (HasStopped Durability.Together first files.new o (O.contents out.new.inner) (FnReturnsAt C.Fn was_cut.now files.new.fs.system.blocks.buffers.station) dialog) }
    ensures fault { IsErrOf result Status.FileFault → IsTrue out.new.has_failed }
{
    if has_more && kept.len() < MOST_WAITING && files.waiting() < MOST_WAITING {
        return Ok(());
    }
    match settle(files, kept, was_cut, out) {
        Ok(_) => Ok(()),
        Err(status) => Err(status),
    }
}

/// Makes durable what waits, and shows the reply that is kept behind it.
fn settle_deferred<S: Station, C: Fn(&S) -> bool, O: Write>(
    files: &mut Waiting<S>,
    kept: &mut Kept,
    unsettled: &mut Unsettled,
    was_cut: &C,
    out: &mut Sink<O>,
) -> Result<(), Status>
    requires { C.IsAlwaysCallable was_cut.now }
    ensures goes_on { (d : Durability) (first : Waiting S S.Station) (o : Option (List ℕ)) (dialog : Dialog) (promised : Bool)
        → IsUnderWay d first files.old o (O.contents out.old.inner) kept.old dialog promised
        → MatchResult result
        (λ _. IsUnderWay d first files.new o (O.contents out.new.inner) kept.new dialog false)
        (HasStopped d first files.new o (O.contents out.new.inner) (FnReturnsAt C.Fn was_cut.now files.new.fs.system.blocks.buffers.station) dialog) }
    ensures fault { IsErrOf result Status.FileFault → IsTrue out.new.has_failed }
{
    match settle(files, kept, was_cut, out) {
        Ok(Ok(())) => {
            unsettled.settle();
            Ok(())
        }
        Ok(Err(_)) => Ok(()),
        Err(status) => Err(status),
    }
}
