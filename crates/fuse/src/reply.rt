//! Replies: a head, and what stands behind it.

ghost use Rattle.std.specs.Prelude.{◌≡◌, ◌+◌, ◌<◌, ◌≤◌, ◌^◌, ◌++◌, [], OnOk, OnErr, length};
ghost use Rattle.layout.specs.Bytes.{little};
ghost use Rattle.fuse.specs.Replies.{count_text, error_text, head_text, offset_text, reply_text};

use layout::{put_u32, put_u64};
use std::alloc::AllocError;

/// Bytes of a reply's head (`struct fuse_out_header`).
pub const REPLY_HEAD_BYTES: usize = 16;
/// The greatest number of an error that the kernel takes.
pub const MOST_ERRNO: u32 = 511;

// The head of a reply of so many bytes, with its error as an unsigned number.
pub(crate) fn head_bytes(length: u32, error: u32, unique: u64) -> [u8; 16]
    ensures { result ≡ head_text length error unique }
{
    let mut bytes = [0; 16];
    put_u32(&mut bytes, 0, length);
    put_u32(&mut bytes, 4, error);
    put_u64(&mut bytes, 8, unique);
    bytes
}

/// The reply that says why a request failed. The error is a number of `errno` as Linux has it.
pub fn error_bytes(unique: u64, errno: u32) -> [u8; 16]
    requires least { 1 ≤ errno }
    requires most { errno ≤ MOST_ERRNO }
    ensures { result ≡ error_text unique errno }
{
    head_bytes(REPLY_HEAD_BYTES as u32, u32::MAX - errno + 1, unique)
}

/// Writes the same behind what was written. Where memory runs out nothing is written, here as in
/// each `write_..`.
pub fn write_error(out: &mut Vec<u8>, unique: u64, errno: u32) -> Result<(), AllocError>
    requires least { 1 ≤ errno }
    requires most { errno ≤ MOST_ERRNO }
    ensures ok { OnOk result (out.new.items ≡ out.old.items ++ error_text unique errno) }
    ensures err { OnErr result (out.new.items ≡ out.old.items) }
{
    out.extend_from_slice(&error_bytes(unique, errno))
}

/// Writes the reply that says that a request is done, and no more.
pub fn write_done(out: &mut Vec<u8>, unique: u64) -> Result<(), AllocError>
    ensures ok { OnOk result (out.new.items ≡ out.old.items ++ reply_text unique []) }
    ensures err { OnErr result (out.new.items ≡ out.old.items) }
{
    write_bytes(out, unique, &[])
}

/// Writes the reply that these bytes are: of a file, a link's text, entries of a directory.
pub fn write_bytes(out: &mut Vec<u8>, unique: u64, bytes: &[u8]) -> Result<(), AllocError>
    requires { REPLY_HEAD_BYTES + length bytes.now < 2 ^ 32 }
    ensures ok { OnOk result (out.new.items ≡ out.old.items ++ reply_text unique bytes.now) }
    ensures err { OnErr result (out.new.items ≡ out.old.items) }
{
    let length = REPLY_HEAD_BYTES + bytes.len();
    out.reserve(length)?;
    out.extend_from_slice(&head_bytes(length as u32, 0, unique))?;
    out.extend_from_slice(bytes)
}

fn count_bytes(count: u32) -> [u8; 8]
    ensures { result ≡ count_text count }
{
    let mut bytes = [0; 8];
    put_u32(&mut bytes, 0, count);
    put_u32(&mut bytes, 4, 0);
    bytes
}

/// Writes the reply to a write: how many bytes it took.
pub fn write_count(out: &mut Vec<u8>, unique: u64, count: u32) -> Result<(), AllocError>
    ensures ok { OnOk result (out.new.items
        ≡ out.old.items ++ reply_text unique (count_text count)) }
    ensures err { OnErr result (out.new.items ≡ out.old.items) }
{
    write_bytes(out, unique, &count_bytes(count))
}

fn offset_bytes(offset: u64) -> [u8; 8]
    ensures { result ≡ little 8 offset }
{
    let mut bytes = [0; 8];
    put_u64(&mut bytes, 0, offset);
    bytes
}

/// Writes the reply to a seek: the offset that was found.
pub fn write_offset(out: &mut Vec<u8>, unique: u64, offset: u64) -> Result<(), AllocError>
    ensures ok { OnOk result (out.new.items
        ≡ out.old.items ++ reply_text unique (offset_text offset)) }
    ensures err { OnErr result (out.new.items ≡ out.old.items) }
{
    write_bytes(out, unique, &offset_bytes(offset))
}
