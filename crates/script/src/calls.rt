//! Reading a call that names a path: its first word says which it is, and the others are its fields
//! in order.

ghost use Rattle.std.specs.Prelude.{◌∷◌, [], map};
ghost use Rattle.script.specs.Lines.{call_words, IsPathCallInForm};
ghost use Rattle.script.specs.Readings.{ReadsFields, ReadsWords};
ghost use Rattle.script.specs.Verbs.{call_form, change_form, verb_name};

use crate::ScriptError;
use crate::fields::{Data, End, Fields, ModeOr, Then};
use crate::verb::Verb;
use model::{Bytes, PathCall, Settings};
use std::alloc::Global;

/// The call that words spell.
pub(crate) fn read_call(alloc: Global, words: &[&[u8]]) -> Result<PathCall<'static>, ScriptError>
    ensures { ReadsWords call_words IsPathCallInForm (map (λ word. word.now) words.now) result }
{
    let [first, fields @ ..] = words else {
        return Err(ScriptError::NotACommand);
    };
    let Some(verb) = Verb::named(first) else {
        return Err(ScriptError::NotACommand);
    };
    read_call_behind(alloc, verb, fields)
}

/// The call that a first word and those behind it spell.
fn read_call_behind(
    alloc: Global,
    verb: Verb,
    words: &[&[u8]],
) -> Result<PathCall<'static>, ScriptError>
    ensures { ReadsWords call_words IsPathCallInForm
        (verb_name verb ∷ map (λ word. word.now) words.now) result }
{
    read_fields(alloc, verb, words)
}

/// The call that a first word and fields spell.
pub(crate) fn read_fields(
    alloc: Global,
    verb: Verb,
    words: &[&[u8]],
) -> Result<PathCall<'static>, ScriptError>
    ensures { ReadsFields (call_form verb) call_words IsPathCallInForm (verb_name verb ∷ [])
        (map (λ word. word.now) words.now) result }
{
    match verb {
        Verb::List => {
            let Then(path, End) = Fields::read(alloc, words)?;
            Ok(PathCall::List { path })
        }
        Verb::Entries => {
            let Then(path, Then(after, Then(count, End))) = Fields::read(alloc, words)?;
            Ok(PathCall::Entries { path, after, count })
        }
        Verb::Stat => {
            let Then(path, End) = Fields::read(alloc, words)?;
            Ok(PathCall::Stat { path })
        }
        Verb::Lstat => {
            let Then(path, End) = Fields::read(alloc, words)?;
            Ok(PathCall::Lstat { path })
        }
        Verb::Attr => {
            let Then(path, End) = Fields::read(alloc, words)?;
            Ok(PathCall::Attr {
                path,
                follows: true,
            })
        }
        Verb::Lattr => {
            let Then(path, End) = Fields::read(alloc, words)?;
            Ok(PathCall::Attr {
                path,
                follows: false,
            })
        }
        Verb::Readlink => {
            let Then(path, End) = Fields::read(alloc, words)?;
            Ok(PathCall::Readlink { path })
        }
        Verb::Get => {
            let Then(path, Then(offset, Then(count, End))) = Fields::read(alloc, words)?;
            Ok(PathCall::Get {
                path,
                offset,
                count,
            })
        }
        _ => read_change(alloc, verb, words),
    }
}

/// The changing call that a first word and fields spell.
fn read_change(alloc: Global, verb: Verb, words: &[&[u8]]) -> Result<PathCall<'static>, ScriptError>
    ensures { ReadsFields (change_form verb) call_words IsPathCallInForm (verb_name verb ∷ [])
        (map (λ word. word.now) words.now) result }
{
    match verb {
        Verb::Mkdir => {
            let Then(path, mode): Then<Bytes<'static>, ModeOr<0o755>> = Fields::read(alloc, words)?;
            Ok(PathCall::Mkdir { path, mode: mode.0 })
        }
        Verb::Rmdir => {
            let Then(path, End) = Fields::read(alloc, words)?;
            Ok(PathCall::Rmdir { path })
        }
        Verb::Unlink => {
            let Then(path, End) = Fields::read(alloc, words)?;
            Ok(PathCall::Unlink { path })
        }
        Verb::Link => {
            let Then(old, Then(new, End)) = Fields::read(alloc, words)?;
            Ok(PathCall::Link { old, new })
        }
        Verb::Symlink => {
            let Then(text, Then(path, End)) = Fields::read(alloc, words)?;
            Ok(PathCall::Symlink { text, path })
        }
        Verb::Rename => {
            let Then(old, Then(new, End)) = Fields::read(alloc, words)?;
            Ok(PathCall::Rename { old, new })
        }
        Verb::RenameNew => {
            let Then(old, Then(new, End)) = Fields::read(alloc, words)?;
            Ok(PathCall::RenameNew { old, new })
        }
        Verb::Chmod => {
            let Then(path, Then(mode, End)) = Fields::read(alloc, words)?;
            Ok(PathCall::Chmod { path, mode })
        }
        Verb::Chown => {
            let Then(path, Then(owner, Then(group, End))) = Fields::read(alloc, words)?;
            Ok(PathCall::Chown {
                path,
                follows: true,
                owner,
                group,
            })
        }
        Verb::Lchown => {
            let Then(path, Then(owner, Then(group, End))) = Fields::read(alloc, words)?;
            Ok(PathCall::Chown {
                path,
                follows: false,
                owner,
                group,
            })
        }
        Verb::Utimens => {
            let Then(path, time) = Fields::read(alloc, words)?;
            Ok(PathCall::Utimens {
                path,
                follows: true,
                time,
            })
        }
        Verb::Lutimens => {
            let Then(path, time) = Fields::read(alloc, words)?;
            Ok(PathCall::Utimens {
                path,
                follows: false,
                time,
            })
        }
        Verb::Truncate => {
            let Then(path, Then(size, End)) = Fields::read(alloc, words)?;
            Ok(PathCall::Truncate { path, size })
        }
        Verb::Store => {
            let Then(path, Then(offset, Then(Data(data), End))) = Fields::read(alloc, words)?;
            Ok(PathCall::Store { path, offset, data })
        }
        Verb::Set => {
            let Then(path, Then(mode, Then(size, End))) = Fields::read(alloc, words)?;
            let settings = Settings { mode, size };
            Ok(PathCall::Set { path, settings })
        }
        _ => Err(ScriptError::NotACommand),
    }
}
