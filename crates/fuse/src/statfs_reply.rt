//! The reply that tells sizes and counts of the whole file system.

ghost use Rattle.std.specs.Prelude.{◌≡◌, ◌++◌, OnOk, OnErr};
ghost use Rattle.fuse.specs.Replies.{reply_text, statfs_text};

use crate::reply::write_bytes;
use layout::{put_u32, put_u64, put_zeros};
use std::alloc::AllocError;

/// Sizes and counts of the whole file system (`struct fuse_kstatfs`).
#[derive(Clone, Copy, Debug)]
pub struct StatfsReply {
    /// Blocks, those that are free, and those of them that everybody may take; each has
    /// `fragment_size` bytes.
    pub blocks: u64,
    pub free_blocks: u64,
    pub available_blocks: u64,
    /// How many objects it can have, and how many of them aren't there.
    pub files: u64,
    pub free_files: u64,
    /// The bytes of a transfer that suits it best.
    pub block_size: u32,
    /// The most bytes of a name.
    pub name_bytes: u32,
    /// Bytes of a block.
    pub fragment_size: u32,
}

fn statfs_bytes(told: &StatfsReply) -> [u8; 80]
    ensures { result ≡ statfs_text told.now }
{
    let mut bytes = [0; 80];
    put_u64(&mut bytes, 0, told.blocks);
    put_u64(&mut bytes, 8, told.free_blocks);
    put_u64(&mut bytes, 16, told.available_blocks);
    put_u64(&mut bytes, 24, told.files);
    put_u64(&mut bytes, 32, told.free_files);
    put_u32(&mut bytes, 40, told.block_size);
    put_u32(&mut bytes, 44, told.name_bytes);
    put_u32(&mut bytes, 48, told.fragment_size);
    put_zeros(&mut bytes, 52, 28);
    bytes
}

/// Writes the reply that tells sizes and counts of the whole file system.
pub fn write_statfs(out: &mut Vec<u8>, unique: u64, told: &StatfsReply) -> Result<(), AllocError>
    ensures ok { OnOk result (out.new.items
        ≡ out.old.items ++ reply_text unique (statfs_text told.now)) }
    ensures err { OnErr result (out.new.items ≡ out.old.items) }
{
    write_bytes(out, unique, &statfs_bytes(told))
}
