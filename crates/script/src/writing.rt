//! The lines of commands.

ghost use Rattle.std.specs.Prelude.{◌∷◌, OnOk};
ghost use Rattle.script.specs.Forms.{form_words};
ghost use Rattle.script.specs.Lines.{call_words, command_line, line_of};
ghost use Rattle.script.specs.Verbs.{verb_name};
ghost use Rattle.script.specs.Words.{text_word, AddsText};

use crate::fields::{End, ModeOr, Then};
use crate::spelling::{DataOf, SpelledFields, push_fields};
use crate::verb::Verb;
use crate::words::push_text;
use model::{Bytes, Command, NewTime, PathCall};
use std::alloc::{AllocError, Global};

/// Adds a command's line.
pub(crate) fn push_command(
    alloc: Global,
    line: &mut Vec<u8>,
    command: &Command<'_>,
) -> Result<(), AllocError>
    ensures { OnOk result (AddsText line.old line.new (command_line command.now)) }
{
    match command {
        Command::Path(call) => push_call(alloc, line, call),
        Command::Open {
            path,
            flags,
            mode,
            ..
        } => {
            let fields = Then(path, Then(*flags, ModeOr::<0o644>(*mode)));
            push_fields(alloc, line, Verb::Open, &fields)
        }
        Command::OpenStat {
            path,
            flags,
            mode,
            ..
        } => {
            let fields = Then(path, Then(*flags, ModeOr::<0o644>(*mode)));
            push_fields(alloc, line, Verb::OpenStat, &fields)
        }
        Command::Close { fd } => push_fields(alloc, line, Verb::Close, &Then(*fd, End)),
        Command::Read { fd, count } => {
            push_fields(alloc, line, Verb::Read, &Then(*fd, Then(*count, End)))
        }
        Command::Write { fd, data } => {
            push_fields(
                alloc,
                line,
                Verb::Write,
                &Then(*fd, Then(DataOf(data), End)),
            )
        }
        Command::Pread { fd, offset, count } => {
            let fields = Then(*fd, Then(*offset, Then(*count, End)));
            push_fields(alloc, line, Verb::Pread, &fields)
        }
        Command::Pwrite { fd, offset, data } => {
            let fields = Then(*fd, Then(*offset, Then(DataOf(data), End)));
            push_fields(alloc, line, Verb::Pwrite, &fields)
        }
        Command::Lseek { fd, whence, offset } => {
            let fields = Then(*fd, Then(*whence, Then(*offset, End)));
            push_fields(alloc, line, Verb::Lseek, &fields)
        }
        Command::Ftruncate { fd, size } => {
            push_fields(alloc, line, Verb::Ftruncate, &Then(*fd, Then(*size, End)))
        }
        Command::Fchmod { fd, mode } => {
            push_fields(alloc, line, Verb::Fchmod, &Then(*fd, Then(*mode, End)))
        }
        Command::Fchown { fd, owner, group } => {
            let fields = Then(*fd, Then(*owner, Then(*group, End)));
            push_fields(alloc, line, Verb::Fchown, &fields)
        }
        Command::Futimens { fd, time } => {
            push_fields(alloc, line, Verb::Futimens, &Then(*fd, *time))
        }
        Command::Fstat { fd } => push_fields(alloc, line, Verb::Fstat, &Then(*fd, End)),
        Command::Fattr { fd } => push_fields(alloc, line, Verb::Fattr, &Then(*fd, End)),
        Command::Fsync { fd } => push_fields(alloc, line, Verb::Fsync, &Then(*fd, End)),
        Command::Extent { path, offset } => {
            push_fields(alloc, line, Verb::Extent, &Then(path, Then(*offset, End)))
        }
        Command::At {
            seconds,
            nanoseconds,
        } => {
            let fields = Then(*seconds, Then(*nanoseconds, End));
            push_fields(alloc, line, Verb::At, &fields)
        }
        Command::As { owner, group } => {
            push_fields(alloc, line, Verb::As, &Then(*owner, Then(*group, End)))
        }
        Command::Sync => push_fields(alloc, line, Verb::Sync, &End),
        Command::Df => push_fields(alloc, line, Verb::Df, &End),
        Command::Statfs => push_fields(alloc, line, Verb::Statfs, &End),
        Command::SnapTake { name } => push_snap(alloc, line, Verb::Take, &Then(name, End)),
        Command::SnapDelete { name } => push_snap(alloc, line, Verb::Delete, &Then(name, End)),
        Command::SnapRestore { name } => push_snap(alloc, line, Verb::Restore, &Then(name, End)),
        Command::SnapList => push_snap(alloc, line, Verb::List, &End),
        Command::Within { name, call } => push_within(alloc, line, name, call),
    }
}

/// Adds `snap`, a second word and its fields to a line.
fn push_snap<F: SpelledFields>(
    alloc: Global,
    line: &mut Vec<u8>,
    verb: Verb,
    fields: &F,
) -> Result<(), AllocError>
    ensures { OnOk result (AddsText line.old line.new
        (line_of (verb_name Verb.Snap ∷ verb_name verb ∷ form_words F.form (F.values fields.now)))) }
{
    line.extend_from_slice(b"snap ")?;
    push_fields(alloc, line, verb, fields)
}

/// Adds `in`, a snapshot's name and a call to a line.
fn push_within(
    alloc: Global,
    line: &mut Vec<u8>,
    name: &Bytes<'_>,
    call: &PathCall<'_>,
) -> Result<(), AllocError>
    ensures { OnOk result (AddsText line.old line.new
        (line_of (verb_name Verb.In ∷ text_word name.now ∷ call_words call.now))) }
{
    line.extend_from_slice(b"in ")?;
    push_text(line, name.as_bytes())?;
    line.extend_from_slice(b" ")?;
    push_call(alloc, line, call)
}

/// Adds the line of a call that names a path.
fn push_call(alloc: Global, line: &mut Vec<u8>, call: &PathCall<'_>) -> Result<(), AllocError>
    ensures { OnOk result (AddsText line.old line.new (line_of (call_words call.now))) }
{
    match call {
        PathCall::List { path } => push_fields(alloc, line, Verb::List, &Then(path, End)),
        PathCall::Entries { path, after, count } => {
            let fields = Then(path, Then(*after, Then(*count, End)));
            push_fields(alloc, line, Verb::Entries, &fields)
        }
        PathCall::Stat { path } => push_fields(alloc, line, Verb::Stat, &Then(path, End)),
        PathCall::Lstat { path } => push_fields(alloc, line, Verb::Lstat, &Then(path, End)),
        PathCall::Attr { path, follows } => push_attr(alloc, line, path, *follows),
        PathCall::Readlink { path } => push_fields(alloc, line, Verb::Readlink, &Then(path, End)),
        PathCall::Get {
            path,
            offset,
            count,
        } => {
            let fields = Then(path, Then(*offset, Then(*count, End)));
            push_fields(alloc, line, Verb::Get, &fields)
        }
        PathCall::Mkdir { path, mode } => {
            let fields = Then(path, ModeOr::<0o755>(*mode));
            push_fields(alloc, line, Verb::Mkdir, &fields)
        }
        PathCall::Rmdir { path } => push_fields(alloc, line, Verb::Rmdir, &Then(path, End)),
        PathCall::Unlink { path } => push_fields(alloc, line, Verb::Unlink, &Then(path, End)),
        PathCall::Link { old, new } => {
            push_fields(alloc, line, Verb::Link, &Then(old, Then(new, End)))
        }
        PathCall::Symlink { text, path } => {
            push_fields(alloc, line, Verb::Symlink, &Then(text, Then(path, End)))
        }
        PathCall::Rename { old, new } => {
            push_fields(alloc, line, Verb::Rename, &Then(old, Then(new, End)))
        }
        PathCall::RenameNew { old, new } => {
            push_fields(alloc, line, Verb::RenameNew, &Then(old, Then(new, End)))
        }
        PathCall::Chmod { path, mode } => {
            push_fields(alloc, line, Verb::Chmod, &Then(path, Then(*mode, End)))
        }
        PathCall::Chown {
            path,
            follows,
            owner,
            group,
        } => push_chown(alloc, line, path, *follows, (*owner, *group)),
        PathCall::Utimens {
            path,
            follows,
            time,
        } => push_utimens(alloc, line, path, *follows, *time),
        PathCall::Truncate { path, size } => {
            push_fields(alloc, line, Verb::Truncate, &Then(path, Then(*size, End)))
        }
        PathCall::Store { path, offset, data } => {
            let fields = Then(path, Then(*offset, Then(DataOf(data), End)));
            push_fields(alloc, line, Verb::Store, &fields)
        }
        PathCall::Set { path, settings } => {
            let fields = Then(path, Then(settings.mode, Then(settings.size, End)));
            push_fields(alloc, line, Verb::Set, &fields)
        }
    }
}

/// Adds the line of `attr`, or of `lattr`, which follows no link.
fn push_attr(
    alloc: Global,
    line: &mut Vec<u8>,
    path: &Bytes<'_>,
    follows: bool,
) -> Result<(), AllocError>
    ensures { OnOk result (AddsText line.old line.new
        (line_of (call_words (PathCall.Attr path.now follows)))) }
{
    if follows {
        push_fields(alloc, line, Verb::Attr, &Then(path, End))
    } else {
        push_fields(alloc, line, Verb::Lattr, &Then(path, End))
    }
}

/// Adds the line of `chown`, or of `lchown`, which follows no link.
fn push_chown(
    alloc: Global,
    line: &mut Vec<u8>,
    path: &Bytes<'_>,
    follows: bool,
    owners: (Option<u32>, Option<u32>),
) -> Result<(), AllocError>
    ensures { OnOk result (AddsText line.old line.new
        (line_of (call_words (PathCall.Chown path.now follows owners.0 owners.1)))) }
{
    let fields = Then(path, Then(owners.0, Then(owners.1, End)));
    if follows {
        push_fields(alloc, line, Verb::Chown, &fields)
    } else {
        push_fields(alloc, line, Verb::Lchown, &fields)
    }
}

/// Adds the line of `utimens`, or of `lutimens`, which follows no link.
fn push_utimens(
    alloc: Global,
    line: &mut Vec<u8>,
    path: &Bytes<'_>,
    follows: bool,
    time: NewTime,
) -> Result<(), AllocError>
    ensures { OnOk result (AddsText line.old line.new
        (line_of (call_words (PathCall.Utimens path.now follows time)))) }
{
    if follows {
        push_fields(alloc, line, Verb::Utimens, &Then(path, time))
    } else {
        push_fields(alloc, line, Verb::Lutimens, &Then(path, time))
    }
}
