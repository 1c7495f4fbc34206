//! Writing fields: each is a word behind a space.

ghost use Rattle.std.specs.Prelude.{◌++◌, OnOk};
ghost use Rattle.script.specs.Forms.{end, field, form_words, last_mode, last_time, word_of, Form, Kind, Value, Values};
ghost use Rattle.script.specs.Forms as form;
ghost use Rattle.script.specs.Lines.{spaced};
ghost use Rattle.script.specs.Verbs.{verb_name};
ghost use Rattle.script.specs.Words.{AddsText};

use crate::fields::{End, ModeOr, Then};
use crate::flags::{push_flags, whence_word};
use crate::verb::Verb;
use crate::words::{NOT_GIVEN, mode_word, push_data, push_text};
use model::{Bytes, Flags, Mode, NewTime, Whence};
use std::alloc::{AllocError, Global};

/// What one word spells.
pub(crate) trait Spelled {
    ghost kind: { Kind };

    ghost value: { Self → Value kind };

    /// Adds its word to a line.
    fn push(&self, alloc: Global, line: &mut Vec<u8>) -> Result<(), AllocError>
        ensures { OnOk result (AddsText line.old line.new (word_of kind (value self.now))) };
}

/// What all words behind a command's name spell.
pub(crate) trait SpelledFields {
    ghost form: { Form };

    ghost values: { Self → Values form };

    /// Adds its words to a line, each behind a space.
    fn push(&self, alloc: Global, line: &mut Vec<u8>) -> Result<(), AllocError>
        ensures { OnOk result
            (AddsText line.old line.new (spaced (form_words form (values self.now)))) };
}

/// Adds a command's name and its fields to a line.
pub(crate) fn push_fields<F: SpelledFields>(
    alloc: Global,
    line: &mut Vec<u8>,
    verb: Verb,
    fields: &F,
) -> Result<(), AllocError>
    ensures { OnOk result (AddsText line.old line.new
        (verb_name verb ++ spaced (form_words F.form (F.values fields.now)))) }
{
    line.extend_from_slice(verb.name())?;
    fields.push(alloc, line)
}

impl SpelledFields for End {
    ghost form = { end };

    ghost values = { λ _. tt };

    fn push(&self, _alloc: Global, _line: &mut Vec<u8>) -> Result<(), AllocError> {
        Ok(())
    }
}

impl<A: Spelled, B: SpelledFields> SpelledFields for Then<A, B> {
    ghost form = { field A.kind B.form };

    ghost values = { λ fields. (A.value fields.0, B.values fields.1) };

    fn push(&self, alloc: Global, line: &mut Vec<u8>) -> Result<(), AllocError> {
        line.extend_from_slice(b" ")?;
        self.0.push(alloc, line)?;
        self.1.push(alloc, line)
    }
}

impl<const DEFAULT: u16> SpelledFields for ModeOr<DEFAULT> {
    ghost form = { last_mode DEFAULT };

    ghost values = { λ fields. fields.0 };

    fn push(&self, _alloc: Global, line: &mut Vec<u8>) -> Result<(), AllocError> {
        if self.0.bits() == DEFAULT {
            return Ok(());
        }
        line.extend_from_slice(b" ")?;
        line.extend_from_slice(&mode_word(self.0))
    }
}

impl SpelledFields for NewTime {
    ghost form = { last_time };

    ghost values = { λ time. time };

    fn push(&self, alloc: Global, line: &mut Vec<u8>) -> Result<(), AllocError> {
        match self {
            NewTime::Omit => line.extend_from_slice(b" omit"),
            NewTime::Now => line.extend_from_slice(b" now"),
            NewTime::At {
                seconds,
                nanoseconds,
            } => Then(*seconds, Then(*nanoseconds, End)).push(alloc, line),
        }
    }
}

impl Spelled for &Bytes<'_> {
    ghost kind = { form.text };

    ghost value = { λ text. text.now };

    fn push(&self, _alloc: Global, line: &mut Vec<u8>) -> Result<(), AllocError> {
        push_text(line, self.as_bytes())
    }
}

/// Bytes as `write` has them.
#[derive(Drop)]
pub(crate) struct DataOf<'a, 'b>(pub(crate) &'a Bytes<'b>);

impl Spelled for DataOf<'_, '_> {
    ghost kind = { form.bytes };

    ghost value = { λ bytes. bytes.0.now };

    fn push(&self, _alloc: Global, line: &mut Vec<u8>) -> Result<(), AllocError> {
        push_data(line, self.0.as_bytes())
    }
}

impl Spelled for u32 {
    ghost kind = { form.count };

    ghost value = { λ count. count };

    fn push(&self, alloc: Global, line: &mut Vec<u8>) -> Result<(), AllocError> {
        let text = self.to_string(alloc)?;
        line.extend_from_slice(text.as_bytes())
    }
}

impl Spelled for i64 {
    ghost kind = { form.offset };

    ghost value = { λ offset. offset };

    fn push(&self, alloc: Global, line: &mut Vec<u8>) -> Result<(), AllocError> {
        let text = self.to_string(alloc)?;
        line.extend_from_slice(text.as_bytes())
    }
}

impl Spelled for Mode {
    ghost kind = { form.mode };

    ghost value = { λ mode. mode };

    fn push(&self, _alloc: Global, line: &mut Vec<u8>) -> Result<(), AllocError> {
        line.extend_from_slice(&mode_word(*self))
    }
}

impl Spelled for Flags {
    ghost kind = { form.flags };

    ghost value = { λ flags. flags };

    fn push(&self, _alloc: Global, line: &mut Vec<u8>) -> Result<(), AllocError> {
        push_flags(line, *self)
    }
}

impl Spelled for Whence {
    ghost kind = { form.whence };

    ghost value = { λ whence. whence };

    fn push(&self, _alloc: Global, line: &mut Vec<u8>) -> Result<(), AllocError> {
        line.extend_from_slice(whence_word(*self))
    }
}

impl Spelled for Option<Mode> {
    ghost kind = { form.given_mode };

    ghost value = { λ mode. mode };

    fn push(&self, alloc: Global, line: &mut Vec<u8>) -> Result<(), AllocError> {
        match self {
            Some(mode) => mode.push(alloc, line),
            None => line.extend_from_slice(NOT_GIVEN),
        }
    }
}

impl Spelled for Option<i64> {
    ghost kind = { form.given_offset };

    ghost value = { λ offset. offset };

    fn push(&self, alloc: Global, line: &mut Vec<u8>) -> Result<(), AllocError> {
        match self {
            Some(offset) => offset.push(alloc, line),
            None => line.extend_from_slice(NOT_GIVEN),
        }
    }
}

impl Spelled for Option<u32> {
    ghost kind = { form.given_count };

    ghost value = { λ count. count };

    fn push(&self, alloc: Global, line: &mut Vec<u8>) -> Result<(), AllocError> {
        match self {
            Some(count) => count.push(alloc, line),
            None => line.extend_from_slice(NOT_GIVEN),
        }
    }
}
