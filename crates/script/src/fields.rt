//! The fields of a command: each is a word, read as the value that it spells.

ghost use Rattle.std.specs.Prelude.{map};
ghost use Rattle.script.specs.Forms.{end, field, last_mode, last_time, Form, Kind, Value, Values};
ghost use Rattle.script.specs.Forms as form;
ghost use Rattle.script.specs.Readings.{ReadsForm, ReadsWord};

use crate::ScriptError;
use crate::flags::{read_flags, read_whence};
use crate::numbers::{read_count, read_offset};
use crate::times::read_time;
use crate::words::{NOT_GIVEN, read_data, read_mode, read_text};
use model::{Bytes, Flags, Mode, NewTime, Whence};
use std::alloc::Global;

/// What is spelled by one word.
pub(crate) trait Word: Drop {
    ghost kind: { Kind };

    ghost value: { Self → Value kind };

    /// The value that a word spells; `NotACommand` where it spells none.
    fn read(alloc: Global, word: &[u8]) -> Result<Self, ScriptError>
        ensures { ReadsWord kind value word.now result };
}

/// What is spelled by all words behind a command's name.
pub(crate) trait Fields: Drop {
    ghost form: { Form };

    ghost values: { Self → Values form };

    /// The values that words spell; `NotACommand` where they spell none.
    fn read(alloc: Global, words: &[&[u8]]) -> Result<Self, ScriptError>
        ensures { ReadsForm form values (map (λ word. word.now) words.now) result };
}

/// No further field.
#[derive(Drop)]
pub(crate) struct End;

/// A field, and those behind it.
#[derive(Drop)]
pub(crate) struct Then<A, B>(pub(crate) A, pub(crate) B);

/// A last mode, which isn't written where it is the default.
#[derive(Drop)]
pub(crate) struct ModeOr<const DEFAULT: u16>(pub(crate) Mode);

/// Bytes as `write` has them.
#[derive(Drop)]
pub(crate) struct Data(pub(crate) Bytes<'static>);

impl Fields for End {
    ghost form = { end };

    ghost values = { λ _. tt };

    fn read(_alloc: Global, words: &[&[u8]]) -> Result<End, ScriptError> {
        if words.is_empty() {
            return Ok(End);
        }
        Err(ScriptError::NotACommand)
    }
}

impl<A: Word, B: Fields> Fields for Then<A, B> {
    ghost form = { field A.kind B.form };

    ghost values = { λ fields. (A.value fields.0, B.values fields.1) };

    fn read(alloc: Global, words: &[&[u8]]) -> Result<Then<A, B>, ScriptError> {
        let [first, more @ ..] = words else {
            return Err(ScriptError::NotACommand);
        };
        let value = A::read(alloc, first)?;
        Ok(Then(value, B::read(alloc, more)?))
    }
}

impl<const DEFAULT: u16> Fields for ModeOr<DEFAULT> {
    ghost form = { last_mode DEFAULT };

    ghost values = { λ fields. fields.0 };

    fn read(alloc: Global, words: &[&[u8]]) -> Result<ModeOr<DEFAULT>, ScriptError> {
        match words {
            [] => Ok(ModeOr(Mode::new(DEFAULT).ok_or(ScriptError::NotACommand)?)),
            [word] => {
                let mode = read_mode(word)?;
                if mode.bits() == DEFAULT {
                    return Err(ScriptError::NotACommand);
                }
                Ok(ModeOr(mode))
            }
            _ => Err(ScriptError::NotACommand),
        }
    }
}

impl Fields for NewTime {
    ghost form = { last_time };

    ghost values = { λ time. time };

    fn read(alloc: Global, words: &[&[u8]]) -> Result<NewTime, ScriptError> {
        read_time(alloc, words)
    }
}

impl Word for Bytes<'static> {
    ghost kind = { form.text };

    ghost value = { λ text. text };

    fn read(alloc: Global, word: &[u8]) -> Result<Bytes<'static>, ScriptError> {
        read_text(alloc, word)
    }
}

impl Word for Data {
    ghost kind = { form.bytes };

    ghost value = { λ bytes. bytes.0 };

    fn read(alloc: Global, word: &[u8]) -> Result<Data, ScriptError> {
        Ok(Data(read_data(alloc, word)?))
    }
}

impl Word for u32 {
    ghost kind = { form.count };

    ghost value = { λ count. count };

    fn read(alloc: Global, word: &[u8]) -> Result<u32, ScriptError> {
        read_count(alloc, word)
    }
}

impl Word for i64 {
    ghost kind = { form.offset };

    ghost value = { λ offset. offset };

    fn read(alloc: Global, word: &[u8]) -> Result<i64, ScriptError> {
        read_offset(alloc, word)
    }
}

impl Word for Mode {
    ghost kind = { form.mode };

    ghost value = { λ mode. mode };

    fn read(_alloc: Global, word: &[u8]) -> Result<Mode, ScriptError> {
        read_mode(word)
    }
}

impl Word for Flags {
    ghost kind = { form.flags };

    ghost value = { λ flags. flags };

    fn read(alloc: Global, word: &[u8]) -> Result<Flags, ScriptError> {
        read_flags(alloc, word)
    }
}

impl Word for Whence {
    ghost kind = { form.whence };

    ghost value = { λ whence. whence };

    fn read(_alloc: Global, word: &[u8]) -> Result<Whence, ScriptError> {
        read_whence(word)
    }
}

impl Word for Option<Mode> {
    ghost kind = { form.given_mode };

    ghost value = { λ mode. mode };

    fn read(_alloc: Global, word: &[u8]) -> Result<Option<Mode>, ScriptError> {
        if word == NOT_GIVEN {
            return Ok(None);
        }
        Ok(Some(read_mode(word)?))
    }
}

impl Word for Option<i64> {
    ghost kind = { form.given_offset };

    ghost value = { λ offset. offset };

    fn read(alloc: Global, word: &[u8]) -> Result<Option<i64>, ScriptError> {
        if word == NOT_GIVEN {
            return Ok(None);
        }
        Ok(Some(read_offset(alloc, word)?))
    }
}

impl Word for Option<u32> {
    ghost kind = { form.given_count };

    ghost value = { λ count. count };

    fn read(alloc: Global, word: &[u8]) -> Result<Option<u32>, ScriptError> {
        if word == NOT_GIVEN {
            return Ok(None);
        }
        Ok(Some(read_count(alloc, word)?))
    }
}
