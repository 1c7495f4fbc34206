//! The last words of `utimens` and its like: the time that is meant.

ghost use Rattle.std.specs.Prelude.{◌∷◌, [], map};
ghost use Rattle.script.specs.Forms.{last_time};
ghost use Rattle.script.specs.Readings.{ReadsForm};

use crate::ScriptError;
use crate::numbers::{read_count, read_offset};
use model::NewTime;
use std::alloc::Global;

/// The time that words spell: one word, or seconds and nanoseconds.
pub(crate) fn read_time(alloc: Global, words: &[&[u8]]) -> Result<NewTime, ScriptError>
    ensures { ReadsForm last_time (λ time. time) (map (λ word. word.now) words.now) result }
{
    match words {
        [word] => read_time_word(word),
        [seconds, nanoseconds] => Ok(NewTime::At {
            seconds: read_offset(alloc, seconds)?,
            nanoseconds: read_count(alloc, nanoseconds)?,
        }),
        _ => Err(ScriptError::NotACommand),
    }
}

/// The time that one word spells.
fn read_time_word(word: &[u8]) -> Result<NewTime, ScriptError>
    ensures { ReadsForm last_time (λ time. time) (word.now ∷ []) result }
{
    match word {
        b"omit" => Ok(NewTime::Omit),
        b"now" => Ok(NewTime::Now),
        _ => Err(ScriptError::NotACommand),
    }
}
