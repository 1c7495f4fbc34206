//! Numbers of a line: decimal, without needless zeros, negative ones with `-`.

ghost use Rattle.std.specs.Prelude.{◌≡◌, ℕ, ℤ, ◌<◌, ◌^◌};
ghost use Rattle.std.specs.Fmt.{decimal, signed_decimal};
ghost use Rattle.std.specs.Int.RustNames.{FitsSigned};
ghost use Rattle.script.specs.Forms.{count, offset};
ghost use Rattle.script.specs.Readings.{ReadsWord};
ghost use mir.Syntax.{w64};

use crate::ScriptError;
use std::alloc::Global;

/// The number that a word spells: one that it parses as, where the word is what this number is
/// written as.
pub(crate) fn read_count(alloc: Global, word: &[u8]) -> Result<u32, ScriptError>
    ensures { ReadsWord count (λ n. n) word.now result }
{
    let number = parse_count(word).ok_or(ScriptError::NotACommand)?;
    let spelled = number.to_string(alloc)?;
    if spelled.as_bytes() != word {
        return Err(ScriptError::NotACommand);
    }
    Ok(number)
}

fn parse_count(word: &[u8]) -> Option<u32>
    ensures { (n : ℕ) → n < 2 ^ 32 → word.now ≡ decimal n → result ≡ Some n }
{
    let Ok(text) = std::str::from_utf8(word) else {
        return None;
    };
    text.parse::<u32>().ok()
}

/// The number with a sign that a word spells.
pub(crate) fn read_offset(alloc: Global, word: &[u8]) -> Result<i64, ScriptError>
    ensures { ReadsWord offset (λ z. z) word.now result }
{
    let number = parse_offset(word).ok_or(ScriptError::NotACommand)?;
    let spelled = number.to_string(alloc)?;
    if spelled.as_bytes() != word {
        return Err(ScriptError::NotACommand);
    }
    Ok(number)
}

fn parse_offset(word: &[u8]) -> Option<i64>
    ensures { (z : ℤ) → FitsSigned w64 z → word.now ≡ signed_decimal z → result ≡ Some z }
{
    let Ok(text) = std::str::from_utf8(word) else {
        return None;
    };
    text.parse::<i64>().ok()
}
