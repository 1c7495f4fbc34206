//! A session over lines that are read one by one: each is answered before the next is read.

ghost use Rattle.std.specs.Fn.{FnReturnsAt};
ghost use Rattle.std.specs.Prelude.{◌≡◌, ◌⊎◌, List, ℕ, IsErrOf, IsTrue, false};
ghost use Rattle.session.specs.Reading.{IsHeardAs};
ghost use Rattle.session.specs.Sessions.{written_out, FaultHasCause};
ghost use Rattle.session.specs.Shells.{AnswersLine, EndsListening, EndsShell, EndsBad};

use crate::answering::{answer, show_cut, write_whole};
use crate::lines::read_line;
use crate::reading::{Heard, next_line};
use crate::streams::Closed;
use crate::telling::tell;
use crate::{Ending, Fault, Sink, Source, Status};
use mount::{Fs, mount};
use script::ScriptError;
use station::Station;
use std::alloc::Global;
use std::io::{Read, Write};

/// Mounts the station, then reads one line after the other, does it, and writes its reply to `out`
/// when all that it did is durable, before the next line is read.
///
/// Lines are as in a script: an empty one and one that begins with `#` have no reply. One that is
/// no command, or has more than `LINE_BYTES` bytes, is answered `err BADLINE`, and nothing is done.
/// `was_cut` as of `session`. Where `prompts` is true, a greeting and a prompt before each line go
/// to `err`. How it ended:
/// - `Ran` with `Done`: the input ended; with `Cut`: the power was cut;
/// - `Ran` with `FileFault`: `out` can't be written, or `input` can't be read; `NoMemory`: for a
///   line or its reply, or
///   behind 2^64 - 1 lines, or reads of one line. No line was read behind the first one that isn't answered whole;
/// - `Unrun`: the station isn't mounted, and no line was read; statuses as of `session`.
pub fn shell<S: Station, C: Fn(&S) -> bool, R: Read, O: Write, E: Write>(
    alloc: Global,
    station: S,
    prompts: bool,
    input: &mut Source<R>,
    was_cut: C,
    out: &mut Sink<O>,
    err: &mut Sink<E>,
) -> (Ending, S)
    requires { C.IsAlwaysCallable was_cut }
    ensures ends { EndsShell S.Station prompts (FnReturnsAt C.Fn was_cut result.1) station result.1
        (R.remaining input.old.inner) (R.remaining input.new.inner)
        (written_out (O.contents out.old.inner) (E.contents err.old.inner))
        (written_out (O.contents out.new.inner) (E.contents err.new.inner)) result.0 }
    // A file's fault is told only where a write failed, of an answer or of why no line is read, or
    // a read.
    ensures fault { FaultHasCause (IsTrue out.new.has_failed ⊎ IsTrue input.new.has_failed)
        (IsTrue err.new.has_failed) result.0 }
{
    match mount(alloc, station) {
        Ok(mut fs) => {
            let status = answer_lines(alloc, &mut fs, prompts, input, &was_cut, out, err);
            (Ending::Ran(status), fs.into_station())
        }
        Err((error, station)) => {
            let fault = Fault::Mount(error);
            (Ending::Unrun(fault, tell(alloc, fault, err)), station)
        }
    }
}

/// Answers lines to the end of the input.
fn answer_lines<S: Station, C: Fn(&S) -> bool, R: Read, O: Write, E: Write>(
    alloc: Global,
    fs: &mut Fs<S>,
    prompts: bool,
    input: &mut Source<R>,
    was_cut: &C,
    out: &mut Sink<O>,
    err: &mut Sink<E>,
) -> Status
    requires { C.IsAlwaysCallable was_cut.now }
    ensures ends { EndsListening fs.old fs.new
        (FnReturnsAt C.Fn was_cut.now fs.new.system.blocks.buffers.station) (R.remaining input.old.inner)
        (O.contents out.old.inner) (O.contents out.new.inner) result }
    ensures fault { result ≡ Status.FileFault
        → IsTrue out.new.has_failed ⊎ IsTrue input.new.has_failed }
    ensures quiet { prompts ≡ false → E.contents err.new.inner ≡ E.contents err.old.inner }
{
    fs.begins();
    if was_cut(fs.station()) {
        return show_cut(out);
    }
    let mut pending = Vec::new(alloc);
    prompt(prompts, GREETING, err);
    for _ in 0..u64::MAX {
        prompt(prompts, PROMPT, err);
        let heard = match next_line(input, &mut pending) {
            Ok(Some(heard)) => heard,
            Ok(None) => return Status::Done,
            Err(status) => return status,
        };
        if let Err(status) = answer_heard(alloc, fs, &heard, was_cut, out) {
            return status;
        }
    }
    // The counter came to its end, which is a want of room like that of memory.
    Status::NoMemory
}

/// What is told before the first line, and before each, where somebody types them.
pub(crate) const GREETING: &str =
    "wafl: one command a line, as mkdir /a or list /; end with Ctrl-D\n";

pub(crate) const PROMPT: &str = "wafl> ";

/// Prompts, where that is asked for. Where it can't be written the lines are answered all the same.
pub(crate) fn prompt<E: Write>(prompts: bool, text: &str, err: &mut Sink<E>)
    ensures { prompts ≡ false → E.contents err.new.inner ≡ E.contents err.old.inner }
{
    if prompts {
        let _ = write_whole(err, text.as_bytes());
    }
}

/// Answers one line.
fn answer_heard<S: Station, C: Fn(&S) -> bool, O: Write>(
    alloc: Global,
    fs: &mut Fs<S>,
    heard: &Heard,
    was_cut: &C,
    out: &mut Sink<O>,
) -> Result<(), Status>
    requires { C.IsAlwaysCallable was_cut.now }
    ensures answers { (line : List ℕ) → IsHeardAs line heard.now → AnswersLine fs.old fs.new line
        (FnReturnsAt C.Fn was_cut.now fs.old.system.blocks.buffers.station)
        (FnReturnsAt C.Fn was_cut.now fs.new.system.blocks.buffers.station)
        (O.contents out.old.inner) (O.contents out.new.inner) result }
    ensures fault { IsErrOf result Status.FileFault → IsTrue out.new.has_failed }
{
    match heard {
        Heard::TooLong(is_comment) => show_bad(*is_comment, out),
        Heard::Line(line) => match read_line(alloc, line) {
            Ok(Some(command)) => match answer(alloc, fs, &command, was_cut, out) {
                Ok(_) => Ok(()),
                Err(status) => Err(status),
            },
            Ok(None) => Ok(()),
            Err(ScriptError::NotACommand) => show_bad(false, out),
            Err(ScriptError::NoMemory) => Err(Status::NoMemory),
        },
    }
}

/// Answers a line that is no command, unless it is a comment.
fn show_bad<O: Write>(is_comment: bool, out: &mut Sink<O>) -> Result<(), Status>
    ensures shows { EndsBad is_comment (O.contents out.old.inner) (O.contents out.new.inner) result }
    ensures fault { IsErrOf result Status.FileFault → IsTrue out.new.has_failed }
{
    if is_comment {
        return Ok(());
    }
    match write_whole(out, b"err BADLINE\n") {
        Ok(()) => Ok(()),
        Err(Closed) => Err(Status::FileFault),
    }
}
