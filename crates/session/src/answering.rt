//! One command done, and its reply shown.

ghost use Rattle.std.specs.Fn.{FnReturnsAt};
ghost use Rattle.std.specs.Prelude.{◌≡◌, ◌∷◌, ◌++◌, [], ℕ, IfOk, IfErr, IsErrOf, IsTrue, OnOk, OnErr, MatchResult, take};
ghost use Rattle.std.specs.Io.KnownBytes.{Appends};
ghost use Rattle.model.specs.declared.reply.Reply.{Reply};
ghost use Rattle.script.specs.Replies.{reply_line};
ghost use Rattle.session.specs.Answers.{is_refusal, AnswersShowing, EndsCut, EndsReply, shown};

use crate::streams::Closed;
use crate::{Sink, Status};
use model::{Command, Reply};
use mount::Fs;
use script::write_reply;
use station::Station;
use std::alloc::Global;
use std::io::Write;

/// Applies a command and writes its reply's line, when all that it did is durable; `cut` stands in
/// its place where the power was cut meanwhile.
pub(crate) fn answer<S: Station, C: Fn(&S) -> bool, O: Write>(
    alloc: Global,
    fs: &mut Fs<S>,
    command: &Command<'_>,
    was_cut: &C,
    out: &mut Sink<O>,
) -> Result<Reply, Status>
    requires { C.IsAlwaysCallable was_cut.now }
    ensures shows { AnswersShowing fs.old fs.new command.now
        (FnReturnsAt C.Fn was_cut.now fs.new.system.blocks.buffers.station)
        (O.contents out.old.inner) (O.contents out.new.inner) result }
    ensures fault { IsErrOf result Status.FileFault → IsTrue out.new.has_failed }
{
    let reply = fs.apply(command);
    if was_cut(fs.station()) {
        return Err(show_cut(out));
    }
    match show_reply(alloc, &reply, out) {
        Ok(()) => Ok(reply),
        Err(status) => Err(status),
    }
}

/// Writes `cut`, and says what the program ends with.
pub(crate) fn show_cut<O: Write>(out: &mut Sink<O>) -> Status
    ensures shows { EndsCut (O.contents out.old.inner) (O.contents out.new.inner) result }
    ensures fault { result ≡ Status.FileFault → IsTrue out.new.has_failed }
{
    match write_whole(out, b"cut\n") {
        Ok(()) => Status::Cut,
        Err(Closed) => Status::FileFault,
    }
}

/// Writes a reply's line.
pub(crate) fn show_reply<O: Write>(
    alloc: Global,
    reply: &Reply,
    out: &mut Sink<O>,
) -> Result<(), Status>
    ensures shows { EndsReply reply.now (O.contents out.old.inner) (O.contents out.new.inner) result }
    ensures fault { IsErrOf result Status.FileFault → IsTrue out.new.has_failed }
{
    let line = line_of(alloc, reply)?;
    match write_whole(out, line.as_slice()) {
        Ok(()) => Ok(()),
        Err(Closed) => Err(Status::FileFault),
    }
}

/// A reply's line, with its end.
pub(crate) fn line_of(alloc: Global, reply: &Reply) -> Result<Vec<u8>, Status>
    ensures line { IfOk result (λ line. line.items ≡ shown reply.now) }
    ensures memory { IfErr result (λ status. status ≡ Status.NoMemory) }
{
    let Ok(mut line) = write_reply(alloc, reply) else {
        return Err(Status::NoMemory);
    };
    if line.push(b'\n').is_err() {
        return Err(Status::NoMemory);
    }
    Ok(line)
}

/// Writes all of these bytes, or a beginning of them where a write fails.
pub(crate) fn write_whole<O: Write>(out: &mut Sink<O>, bytes: &[u8]) -> Result<(), Closed>
    ensures shown { OnOk result
        (Appends (O.contents out.old.inner) (O.contents out.new.inner) bytes.now) }
    ensures part { OnErr result ((k : ℕ)
        × Appends (O.contents out.old.inner) (O.contents out.new.inner) (take k bytes.now)) }
    ensures failed { OnErr result (IsTrue out.new.has_failed) }
{
    let mut at = 0_usize;
    while at < bytes.len() {
        match out.write(&bytes[at..]) {
            Ok(count) => at += count,
            Err(Closed) => return Err(Closed),
        }
    }
    Ok(())
}

/// Whether the command was refused.
pub(crate) fn is_refusal(reply: &Reply) -> bool
    ensures { result ≡ is_refusal reply.now }
{
    matches!(reply, Reply::Refused(_))
}
