//! Reading a command from its words: the first says which it is, and the others are its fields in
//! order.

ghost use Rattle.std.specs.Prelude.{◌≡◌, ◌≢◌, ◌∷◌, [], map, IfOk, OnErr};
ghost use Rattle.script.specs.Lines.{command_words, IsCommandInForm};
ghost use Rattle.script.specs.Readings.{ReadsFields, ReadsWords};
ghost use Rattle.script.specs.Verbs.{command_form, file_form, verb_name};

use crate::ScriptError;
use crate::calls::{read_call, read_fields};
use crate::fields::{Data, End, Fields, ModeOr, Then};
use crate::verb::Verb;
use crate::words::read_text;
use model::{Bytes, Command, Flags, SESSION_FILES};
use std::alloc::Global;

/// The command that words spell.
pub(crate) fn read_words(alloc: Global, words: &[&[u8]]) -> Result<Command<'static>, ScriptError>
    ensures { ReadsWords command_words IsCommandInForm (map (λ word. word.now) words.now) result }
{
    let [first, fields @ ..] = words else {
        return Err(ScriptError::NotACommand);
    };
    let Some(verb) = Verb::named(first) else {
        return Err(ScriptError::NotACommand);
    };
    read_behind(alloc, verb, fields)
}

/// The command that a first word and those behind it spell.
fn read_behind(alloc: Global, verb: Verb, words: &[&[u8]]) -> Result<Command<'static>, ScriptError>
    ensures { ReadsWords command_words IsCommandInForm
        (verb_name verb ∷ map (λ word. word.now) words.now) result }
{
    if verb.is_call() {
        return Ok(Command::Path(read_fields(alloc, verb, words)?));
    }
    match verb {
        Verb::Snap => read_snap(alloc, words),
        Verb::In => read_within(alloc, words),
        _ => read_plain(alloc, verb, words),
    }
}

/// `in`, a snapshot's name and a call that names a path.
fn read_within(alloc: Global, words: &[&[u8]]) -> Result<Command<'static>, ScriptError>
    ensures { ReadsWords command_words IsCommandInForm
        (verb_name Verb.In ∷ map (λ word. word.now) words.now) result }
{
    let [name, call @ ..] = words else {
        return Err(ScriptError::NotACommand);
    };
    Ok(Command::Within {
        name: read_text(alloc, name)?,
        call: read_call(alloc, call)?,
    })
}

/// `snap`, and which of its commands it is.
fn read_snap(alloc: Global, words: &[&[u8]]) -> Result<Command<'static>, ScriptError>
    ensures { ReadsWords command_words IsCommandInForm
        (verb_name Verb.Snap ∷ map (λ word. word.now) words.now) result }
{
    let [second, fields @ ..] = words else {
        return Err(ScriptError::NotACommand);
    };
    let Some(verb) = Verb::named(second) else {
        return Err(ScriptError::NotACommand);
    };
    read_snapping(alloc, verb, fields)
}

/// The command that `snap`, a second word and those behind it spell.
fn read_snapping(
    alloc: Global,
    verb: Verb,
    words: &[&[u8]],
) -> Result<Command<'static>, ScriptError>
    ensures { ReadsWords command_words IsCommandInForm
        (verb_name Verb.Snap ∷ verb_name verb ∷ map (λ word. word.now) words.now) result }
{
    match verb {
        Verb::Take => {
            let Then(name, End) = Fields::read(alloc, words)?;
            Ok(Command::SnapTake { name })
        }
        Verb::Delete => {
            let Then(name, End) = Fields::read(alloc, words)?;
            Ok(Command::SnapDelete { name })
        }
        Verb::Restore => {
            let Then(name, End) = Fields::read(alloc, words)?;
            Ok(Command::SnapRestore { name })
        }
        Verb::List => read_alone(Command::SnapList, words),
        _ => Err(ScriptError::NotACommand),
    }
}

/// A command that has no fields.
fn read_alone(command: Command<'static>, words: &[&[u8]]) -> Result<Command<'static>, ScriptError>
    ensures read { IfOk result
        (λ read. (read ≡ command.entry) × (map (λ word. word.now) words.now ≡ [])) }
    ensures refused { OnErr result (map (λ word. word.now) words.now ≢ []) }
{
    if words.is_empty() {
        return Ok(command);
    }
    Err(ScriptError::NotACommand)
}

/// The command that a first word and its fields spell.
fn read_plain(alloc: Global, verb: Verb, words: &[&[u8]]) -> Result<Command<'static>, ScriptError>
    ensures { ReadsFields (command_form verb) command_words IsCommandInForm (verb_name verb ∷ [])
        (map (λ word. word.now) words.now) result }
{
    match verb {
        Verb::Open => {
            let Then(path, Then(flags, mode)): Then<Bytes<'static>, Then<Flags, ModeOr<0o644>>> =
                Fields::read(alloc, words)?;
            Ok(Command::Open {
                path,
                flags,
                mode: mode.0,
                below: SESSION_FILES,
            })
        }
        Verb::OpenStat => {
            let Then(path, Then(flags, mode)): Then<Bytes<'static>, Then<Flags, ModeOr<0o644>>> =
                Fields::read(alloc, words)?;
            Ok(Command::OpenStat {
                path,
                flags,
                mode: mode.0,
                below: SESSION_FILES,
            })
        }
        Verb::Close => {
            let Then(fd, End) = Fields::read(alloc, words)?;
            Ok(Command::Close { fd })
        }
        Verb::Fstat => {
            let Then(fd, End) = Fields::read(alloc, words)?;
            Ok(Command::Fstat { fd })
        }
        Verb::Fattr => {
            let Then(fd, End) = Fields::read(alloc, words)?;
            Ok(Command::Fattr { fd })
        }
        Verb::Fsync => {
            let Then(fd, End) = Fields::read(alloc, words)?;
            Ok(Command::Fsync { fd })
        }
        Verb::Extent => {
            let Then(path, Then(offset, End)) = Fields::read(alloc, words)?;
            Ok(Command::Extent { path, offset })
        }
        Verb::At => {
            let Then(seconds, Then(nanoseconds, End)) = Fields::read(alloc, words)?;
            Ok(Command::At {
                seconds,
                nanoseconds,
            })
        }
        Verb::As => {
            let Then(owner, Then(group, End)) = Fields::read(alloc, words)?;
            Ok(Command::As { owner, group })
        }
        Verb::Sync => read_alone(Command::Sync, words),
        Verb::Df => read_alone(Command::Df, words),
        Verb::Statfs => read_alone(Command::Statfs, words),
        _ => read_file(alloc, verb, words),
    }
}

/// The command that a first word and its fields spell, one that moves bytes of an open file, or its
/// offset, or changes its size, its mode, its owners or its time.
fn read_file(alloc: Global, verb: Verb, words: &[&[u8]]) -> Result<Command<'static>, ScriptError>
    ensures { ReadsFields (file_form verb) command_words IsCommandInForm (verb_name verb ∷ [])
        (map (λ word. word.now) words.now) result }
{
    match verb {
        Verb::Read => {
            let Then(fd, Then(count, End)) = Fields::read(alloc, words)?;
            Ok(Command::Read { fd, count })
        }
        Verb::Write => {
            let Then(fd, Then(Data(data), End)) = Fields::read(alloc, words)?;
            Ok(Command::Write { fd, data })
        }
        Verb::Pread => {
            let Then(fd, Then(offset, Then(count, End))) = Fields::read(alloc, words)?;
            Ok(Command::Pread { fd, offset, count })
        }
        Verb::Pwrite => {
            let Then(fd, Then(offset, Then(Data(data), End))) = Fields::read(alloc, words)?;
            Ok(Command::Pwrite { fd, offset, data })
        }
        Verb::Lseek => {
            let Then(fd, Then(whence, Then(offset, End))) = Fields::read(alloc, words)?;
            Ok(Command::Lseek { fd, whence, offset })
        }
        Verb::Ftruncate => {
            let Then(fd, Then(size, End)) = Fields::read(alloc, words)?;
            Ok(Command::Ftruncate { fd, size })
        }
        Verb::Fchmod => {
            let Then(fd, Then(mode, End)) = Fields::read(alloc, words)?;
            Ok(Command::Fchmod { fd, mode })
        }
        Verb::Fchown => {
            let Then(fd, Then(owner, Then(group, End))) = Fields::read(alloc, words)?;
            Ok(Command::Fchown { fd, owner, group })
        }
        Verb::Futimens => {
            let Then(fd, time) = Fields::read(alloc, words)?;
            Ok(Command::Futimens { fd, time })
        }
        _ => Err(ScriptError::NotACommand),
    }
}
