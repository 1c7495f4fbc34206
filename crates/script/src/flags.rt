//! The words of `open` and `lseek`: how a file is to be opened, and from where an offset counts.

ghost use Rattle.std.specs.Prelude.{◌≡◌, ◌≢◌, true, false, IfOk, OnOk};
ghost use Rattle.model.specs.declared.command.Flags.{Flags};
ghost use Rattle.script.specs.Forms.{flags, whence};
ghost use Rattle.script.specs.Readings.{ReadsWord};
ghost use Rattle.script.specs.Words.{access_word, flags_word, letter, whence_word, AddsText};

use crate::ScriptError;
use model::{Access, Flags, Whence};
use std::alloc::{AllocError, Global};

/// The flags that a word spells: those whose letters stand in it, where the word is what these
/// flags are written as.
pub(crate) fn read_flags(alloc: Global, word: &[u8]) -> Result<Flags, ScriptError>
    ensures { ReadsWord flags (λ f. f) word.now result }
{
    let flags = flags_among(word).ok_or(ScriptError::NotACommand)?;
    if !is_flags_word(alloc, word, flags)? {
        return Err(ScriptError::NotACommand);
    }
    Ok(flags)
}

/// Whether a word is the one of these flags.
fn is_flags_word(alloc: Global, word: &[u8], flags: Flags) -> Result<bool, AllocError>
    ensures spelled { IfOk result (λ is. is ≡ true → word.now ≡ flags_word flags) }
    ensures other { IfOk result (λ is. is ≡ false → word.now ≢ flags_word flags) }
{
    let mut spelled = Vec::new(alloc);
    push_flags(&mut spelled, flags)?;
    Ok(spelled.as_slice() == word)
}

/// The flags whose letters stand in a word.
fn flags_among(word: &[u8]) -> Option<Flags>
    ensures { (f : Flags) → word.now ≡ flags_word f → result ≡ Some f }
{
    Some(Flags {
        access: access_among(word)?,
        creates: word.contains(&b'c'),
        exclusive: word.contains(&b'x'),
        truncates: word.contains(&b't'),
        appends: word.contains(&b'a'),
    })
}

fn access_among(word: &[u8]) -> Option<Access>
    ensures { (f : Flags) → word.now ≡ flags_word f → result ≡ Some f.access }
{
    match (word.contains(&b'r'), word.contains(&b'w')) {
        (true, false) => Some(Access::Reading),
        (false, true) => Some(Access::Writing),
        (true, true) => Some(Access::Both),
        (false, false) => None,
    }
}

/// Adds the word of flags to a line: what the file is opened for, then a letter for each flag.
pub(crate) fn push_flags(line: &mut Vec<u8>, flags: Flags) -> Result<(), AllocError>
    ensures { OnOk result (AddsText line.old line.new (flags_word flags)) }
{
    line.extend_from_slice(access_word(flags.access))?;
    push_letter(line, b'c', flags.creates)?;
    push_letter(line, b'x', flags.exclusive)?;
    push_letter(line, b't', flags.truncates)?;
    push_letter(line, b'a', flags.appends)
}

fn push_letter(line: &mut Vec<u8>, byte: u8, is_set: bool) -> Result<(), AllocError>
    ensures { OnOk result (AddsText line.old line.new (letter byte is_set)) }
{
    if is_set {
        line.push(byte)?;
    }
    Ok(())
}

fn access_word(access: Access) -> &'static [u8]
    ensures { result.now ≡ access_word access }
{
    match access {
        Access::Reading => b"r",
        Access::Writing => b"w",
        Access::Both => b"rw",
    }
}

/// From where an offset counts.
pub(crate) fn read_whence(word: &[u8]) -> Result<Whence, ScriptError>
    ensures { ReadsWord whence (λ w. w) word.now result }
{
    match word {
        b"set" => Ok(Whence::Set),
        b"cur" => Ok(Whence::Cur),
        b"end" => Ok(Whence::End),
        _ => Err(ScriptError::NotACommand),
    }
}

pub(crate) fn whence_word(whence: Whence) -> &'static [u8]
    ensures { result.now ≡ whence_word whence }
{
    match whence {
        Whence::Set => b"set",
        Whence::Cur => b"cur",
        Whence::End => b"end",
    }
}
