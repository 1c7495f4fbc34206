//! Bytes in parts.

ghost use Rattle.std.specs.Prelude.{◌≡◌, ◌==◌, IfOk, map};
ghost use Rattle.std.specs.List.{slice_split};

use memchr::memchr;
use std::alloc::{AllocError, Global};

/// The parts of some bytes between those that are the separator: one more than there are
/// separators, so that no bytes are one empty part. An error where a growth was refused.
pub fn split_at_byte<'a>(
    alloc: Global,
    bytes: &'a [u8],
    separator: u8,
) -> Result<Vec<&'a [u8]>, AllocError>
    ensures { IfOk result (λ parts. map (λ part. part.now) parts.items
        ≡ slice_split (λ b. b == separator) bytes.now) }
{
    let mut parts = Vec::new(alloc);
    let mut rest = bytes;
    while let Some(end) = memchr(separator, rest) {
        parts.push(&rest[..end])?;
        rest = &rest[end + 1..];
    }
    parts.push(rest)?;
    Ok(parts)
}
