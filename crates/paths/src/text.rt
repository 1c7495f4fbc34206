//! The text of a path: its parts, and why it is refused.

ghost use Rattle.std.specs.Prelude.{◌≡◌, ◌∷◌, ◌++◌, ◌==◌, ◌||◌, List, drop, map, not, IfOk, IfSome, IfNone, []};
ghost use Rattle.std.specs.List.{list_any};
ghost use Rattle.paths.specs.Places.{last_of};
ghost use Rattle.model.specs.Paths.{parts as parts_of, is_empty, is_dot, is_dot_dot, is_too_long, first_refusal, is_digit, is_number_alone, is_numeral, last_part, number_named, start_number, text_tests, new_text_tests, starts_with_slash as slashes};

use model::{Errno, Limits, NAME_BYTES};
use std::alloc::{AllocError, Global};
use std::collections::VecDeque;
use std::marker::Model;

/// The name of a directory in itself.
pub(crate) const ITSELF: &[u8] = b".";

/// The name of a directory's parent in it.
pub(crate) const PARENT: &[u8] = b"..";

/// The parts of a path that are still to be walked.
#[derive(Debug, Drop)]
pub struct Parts {
    parts: VecDeque<Vec<u8>>,
}

impl Model for Parts {
    ghost use Rattle.std.specs.Prelude.{List, map};
    ghost use Rattle.model.specs.Paths.{Name};

    ghost Value = { List Name };

    ghost view = { λ p. map (λ part. part.items) p.parts.items };
}

impl Parts {
    /// What stands between the slashes of a text. Runs of slashes count as one.
    pub fn of(alloc: Global, text: &[u8]) -> Result<Parts, AllocError>
        ensures { IfOk result (λ p. p ≡ parts_of text.now) }
    {
        let pieces = pieces(alloc, text)?;
        let mut parts = VecDeque::new(alloc);
        for piece in &pieces {
            parts.push_back(Vec::from_slice(alloc, piece)?)?;
        }
        Ok(Parts { parts })
    }

    /// Whether none is left.
    pub fn is_empty(&self) -> bool
        ensures { result ≡ is_empty self.now }
    {
        self.parts.is_empty()
    }

    // Whether one is longer than a name may be.
    fn has_long(&self) -> bool
        ensures { result ≡ list_any is_too_long self.now }
    {
        self.parts.iter().any(|part| part.len() > NAME_BYTES)
    }

    // Whether one is `..`.
    fn has_parent(&self) -> bool
        ensures { result ≡ list_any is_dot_dot self.now }
    {
        self.parts.iter().any(|part| part.as_slice() == PARENT)
    }

    // Whether a text with these parts is a number alone.
    fn is_number_alone(&self, text: &[u8]) -> bool
        requires { self.now ≡ parts_of text.now }
        ensures { result ≡ is_number_alone text.now }
    {
        self.start(text).is_some() && self.is_single()
    }

    // Whether a text with these parts ends in no name that a directory could have.
    fn is_nameless(&self, text: &[u8]) -> bool
        requires { self.now ≡ parts_of text.now }
        ensures { result ≡ (is_dot (last_part text.now) || is_dot_dot (last_part text.now)
            || is_number_alone text.now) }
    {
        self.ends_in_directory() || self.is_number_alone(text)
    }

    // Whether there is just one, or none.
    fn is_single(&self) -> bool
        ensures { result ≡ is_empty (drop 1 self.now) }
    {
        self.parts.len() <= 1
    }

    /// The number of the object that a text with these parts begins at; None where it begins with a
    /// slash, or with no number.
    pub(crate) fn start(&self, text: &[u8]) -> Option<u32>
        requires { self.now ≡ parts_of text.now }
        ensures { result ≡ start_number text.now }
    {
        if starts_with_slash(text) {
            return None;
        }
        match self.parts.front() {
            Some(part) => number_named(part),
            None => None,
        }
    }

    // Whether the last one is `.` or `..`.
    fn ends_in_directory(&self) -> bool
        ensures { result ≡ (is_dot (last_of self.now) || is_dot_dot (last_of self.now)) }
    {
        match self.parts.back() {
            Some(part) => part.as_slice() == ITSELF || part.as_slice() == PARENT,
            None => false,
        }
    }

    /// Takes the first one out.
    pub(crate) fn next(&mut self) -> Option<Vec<u8>>
        ensures some { IfSome result (λ part. self.old ≡ part.items ∷ self.new) }
        ensures none { IfNone result (self.old ≡ []) }
    {
        self.parts.pop_front()
    }

    /// These parts and others behind them.
    pub(crate) fn before(self, mut rest: Parts) -> Result<Parts, AllocError>
        ensures { IfOk result (λ p. p ≡ self ++ rest) }
    {
        let Parts { mut parts } = self;
        parts.append(&mut rest.parts)?;
        Ok(Parts { parts })
    }
}

// What stands between the slashes of a text.
fn pieces(alloc: Global, text: &[u8]) -> Result<Vec<&[u8]>, AllocError>
    ensures { IfOk result (λ v. map (λ piece. piece.now) v.items ≡ parts_of text.now) }
{
    text.split(|byte| *byte == b'/')
        .filter(|piece| !piece.is_empty())
        .collect(alloc)
}

/// Whether a text goes on from the root.
pub(crate) fn starts_with_slash(text: &[u8]) -> bool
    ensures { result ≡ slashes text.now }
{
    !text.is_empty() && text[0] == b'/'
}

// The number that a part names by `@` and its decimal digits, if it has 32 bits.
fn number_named(part: &[u8]) -> Option<u32>
    ensures { result ≡ number_named part.now }
{
    if part.is_empty() || part[0] != b'@' {
        return None;
    }
    let digits = &part[1..];
    if !is_numeral(digits) {
        return None;
    }
    let Ok(text) = std::str::from_utf8(digits) else {
        return None;
    };
    text.parse::<u32>().ok()
}

// Whether these are decimal digits as numbers are written.
fn is_numeral(digits: &[u8]) -> bool
    ensures { result ≡ is_numeral digits.now }
{
    !digits.is_empty() && !has_other(digits) && (digits.len() == 1 || digits[0] != b'0')
}

// Whether a byte is no decimal digit.
fn has_other(digits: &[u8]) -> bool
    ensures { result ≡ list_any (λ byte. not (is_digit byte)) digits.now }
{
    digits.iter().any(|byte| *byte < b'0' || *byte > b'9')
}

fn has_zero(text: &[u8]) -> bool
    ensures { result ≡ list_any (λ byte. byte == 0) text.now }
{
    text.iter().any(|byte| *byte == 0)
}

/// Why the text of a path, which has these parts, is refused.
pub fn refusal_of_text(limits: Limits, text: &[u8], parts: &Parts) -> Option<Errno>
    requires { parts.now ≡ parts_of text.now }
    ensures { result ≡ first_refusal (text_tests limits text.now) }
{
    if text.is_empty() {
        Some(Errno::ENOENT)
    } else if has_zero(text) {
        Some(Errno::EINVAL)
    } else if text.len() > limits.path_bytes as usize {
        Some(Errno::ENAMETOOLONG)
    } else if text[0] != b'/' && parts.start(text).is_none() {
        Some(Errno::EINVAL)
    } else if text[text.len() - 1] == b'/' && text.len() > 1 {
        Some(Errno::EINVAL)
    } else if parts.has_long() {
        Some(Errno::ENAMETOOLONG)
    } else if parts.start(text).is_some() && parts.has_parent() {
        Some(Errno::EINVAL)
    } else {
        None
    }
}

/// The same, where the text is of something to be made or taken away.
pub fn refusal_of_new_text(limits: Limits, text: &[u8], parts: &Parts) -> Option<Errno>
    requires { parts.now ≡ parts_of text.now }
    ensures { result ≡ first_refusal (new_text_tests limits text.now) }
{
    match refusal_of_text(limits, text, parts) {
        Some(errno) => Some(errno),
        None => parts.is_nameless(text).then_some(Errno::EINVAL),
    }
}
