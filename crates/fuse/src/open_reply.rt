//! The replies to what opens a file or a directory.

ghost use Rattle.std.specs.Prelude.{◌≡◌, ◌++◌, OnOk, OnErr};
ghost use Rattle.fuse.specs.Replies.{created_text, open_text, reply_text};

use crate::attributes::{Entry, entry_bytes};
use crate::reply::write_bytes;
use layout::{put_bytes, put_u32, put_u64};
use std::alloc::AllocError;

/// Reads and writes of this open file pass the kernel's cache.
pub const FOPEN_DIRECT_IO: u32 = 1;
/// What the kernel has of the file's bytes holds on.
pub const FOPEN_KEEP_CACHE: u32 = 1 << 1;
/// The kernel may keep the directory's entries.
pub const FOPEN_CACHE_DIR: u32 = 1 << 3;

/// What was opened (`struct fuse_open_out`).
#[derive(Clone, Copy, Debug)]
pub struct OpenReply {
    /// The number that later requests have for it.
    pub handle: u64,
    /// What the kernel may do, as the constants above say.
    pub flags: u32,
}

fn open_bytes(opened: &OpenReply) -> [u8; 16]
    ensures { result ≡ open_text opened.now }
{
    let mut bytes = [0; 16];
    put_u64(&mut bytes, 0, opened.handle);
    put_u32(&mut bytes, 8, opened.flags);
    put_u32(&mut bytes, 12, 0);
    bytes
}

/// Writes the reply to what opened a file or a directory.
pub fn write_open(out: &mut Vec<u8>, unique: u64, opened: &OpenReply) -> Result<(), AllocError>
    ensures ok { OnOk result (out.new.items
        ≡ out.old.items ++ reply_text unique (open_text opened.now)) }
    ensures err { OnErr result (out.new.items ≡ out.old.items) }
{
    write_bytes(out, unique, &open_bytes(opened))
}

fn created_bytes(entry: &Entry, opened: &OpenReply) -> [u8; 144]
    ensures { result ≡ created_text entry.now opened.now }
{
    let mut bytes = [0; 144];
    put_bytes(&mut bytes, 0, &entry_bytes(entry));
    put_bytes(&mut bytes, 128, &open_bytes(opened));
    bytes
}

/// Writes the reply to what made a file and opened it.
pub fn write_created(
    out: &mut Vec<u8>,
    unique: u64,
    entry: &Entry,
    opened: &OpenReply,
) -> Result<(), AllocError>
    ensures ok { OnOk result (out.new.items
        ≡ out.old.items ++ reply_text unique (created_text entry.now opened.now)) }
    ensures err { OnErr result (out.new.items ≡ out.old.items) }
{
    write_bytes(out, unique, &created_bytes(entry, opened))
}
