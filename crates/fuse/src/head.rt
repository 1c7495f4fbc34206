//! The head of a request.

ghost use Rattle.std.specs.Prelude.{◌≡◌};
ghost use Rattle.std.specs.Option.{option_map};
ghost use Rattle.fuse.specs.Head.{fields_of, head};

use layout::{u32_at, u64_at};

/// What stands in front of each request (`struct fuse_in_header`).
#[derive(Clone, Copy, Debug)]
pub struct Head {
    /// Bytes of the request, the head's 40 among them.
    pub length: u32,
    /// What is asked, as the protocol numbers it.
    pub opcode: u32,
    /// The request's own number, which its reply repeats.
    pub unique: u64,
    /// The node that it is asked of; the root is 1.
    pub node: u64,
    /// The user, the group and the process that ask.
    pub uid: u32,
    pub gid: u32,
    pub pid: u32,
}

/// The head that the bytes begin with, its last four bytes, which nobody looks at, and the bytes
/// behind it; None where they are too few. Where `read_request` finds no request, its head still
/// says what to answer.
pub fn read_head(bytes: &[u8]) -> Option<(Head, u32, &[u8])>
    ensures { option_map (λ x. (fields_of x.0 x.1, x.2.now)) result ≡ head.at bytes.now }
{
    let (length, bytes) = u32_at(bytes)?;
    let (opcode, bytes) = u32_at(bytes)?;
    let (unique, bytes) = u64_at(bytes)?;
    let (node, bytes) = u64_at(bytes)?;
    let (uid, bytes) = u32_at(bytes)?;
    let (gid, bytes) = u32_at(bytes)?;
    let (pid, bytes) = u32_at(bytes)?;
    let (extra, bytes) = u32_at(bytes)?;
    Some((
        Head {
            length,
            opcode,
            unique,
            node,
            uid,
            gid,
            pid,
        },
        extra,
        bytes,
    ))
}
