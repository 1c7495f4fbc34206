//! The reply to the first request: what kernel and file system agree on.

ghost use Rattle.std.specs.Prelude.{◌≡◌, ◌++◌, OnOk, OnErr};
ghost use Rattle.fuse.specs.Replies.{init_text, reply_text};

use crate::reply::write_bytes;
use layout::{put_u16, put_u32, put_zeros};
use std::alloc::AllocError;

/// The version of the protocol that this crate speaks.
pub const MAJOR_VERSION: u32 = 7;

pub const MINOR_VERSION: u32 = 31;

/// Several reads of one file may be under way.
pub const ASYNC_READ: u32 = 1;
/// `O_TRUNC` is part of the request that opens.
pub const ATOMIC_O_TRUNC: u32 = 1 << 3;
/// A write may have more bytes than a page.
pub const BIG_WRITES: u32 = 1 << 5;
/// Entries of a directory may come with what their names lead to.
pub const DO_READDIRPLUS: u32 = 1 << 13;
/// The kernel chooses where they do.
pub const READDIRPLUS_AUTO: u32 = 1 << 14;
/// Several transfers that pass the kernel's cache may be under way.
pub const ASYNC_DIO: u32 = 1 << 15;
/// Several look-ups and listings of one directory may be under way.
pub const PARALLEL_DIROPS: u32 = 1 << 18;
/// `max_pages` is given.
pub const MAX_PAGES: u32 = 1 << 22;
/// The kernel keeps texts of links.
pub const CACHE_SYMLINKS: u32 = 1 << 23;
/// The file system takes set-user and set-group bits off where a file changes.
pub const HANDLE_KILLPRIV_V2: u32 = 1 << 28;

/// What kernel and file system agree on (`struct fuse_init_out`).
#[derive(Clone, Copy, Debug)]
pub struct InitReply {
    /// The most bytes that the kernel reads ahead.
    pub max_readahead: u32,
    /// What both can do, as the constants above say.
    pub flags: u32,
    /// How many requests that nobody waits for may be under way, and from how many on the kernel
    /// takes the file system for busy.
    pub max_background: u16,
    pub congestion_threshold: u16,
    /// The most bytes of one write.
    pub max_write: u32,
    /// The unit of times, in nanoseconds.
    pub time_granularity: u32,
    /// The most pages of one transfer.
    pub max_pages: u16,
}

fn init_bytes(reply: &InitReply) -> [u8; 64]
    ensures { result ≡ init_text reply.now }
{
    let mut bytes = [0; 64];
    put_u32(&mut bytes, 0, MAJOR_VERSION);
    put_u32(&mut bytes, 4, MINOR_VERSION);
    put_u32(&mut bytes, 8, reply.max_readahead);
    put_u32(&mut bytes, 12, reply.flags);
    put_u16(&mut bytes, 16, reply.max_background);
    put_u16(&mut bytes, 18, reply.congestion_threshold);
    put_u32(&mut bytes, 20, reply.max_write);
    put_u32(&mut bytes, 24, reply.time_granularity);
    put_u16(&mut bytes, 28, reply.max_pages);
    put_zeros(&mut bytes, 30, 34);
    bytes
}

/// Writes the reply to the first request.
pub fn write_init(out: &mut Vec<u8>, unique: u64, reply: &InitReply) -> Result<(), AllocError>
    ensures ok { OnOk result (out.new.items
        ≡ out.old.items ++ reply_text unique (init_text reply.now)) }
    ensures err { OnErr result (out.new.items ≡ out.old.items) }
{
    write_bytes(out, unique, &init_bytes(reply))
}
