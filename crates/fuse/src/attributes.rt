//! What a reply tells of an object.

ghost use Rattle.std.specs.Prelude.{◌≡◌};
ghost use Rattle.fuse.specs.Attributes.{attributes_text, entry_text};

use crate::time::{Time, Timeout};
use layout::{put_bytes, put_u32, put_u64};

/// Bytes of attributes (`struct fuse_attr`).
pub const ATTRIBUTES_BYTES: usize = 88;
/// Bytes of an entry (`struct fuse_entry_out`).
pub const ENTRY_BYTES: usize = 128;

/// What is told of an object.
#[derive(Clone, Copy, Debug)]
pub struct Attributes {
    /// The number that programs see.
    pub inode: u64,
    /// Bytes of a file, or of a link's text.
    pub size: u64,
    /// Stored bytes, in parts of 512.
    pub blocks: u64,
    /// When it was last read.
    pub atime: Time,
    /// When its bytes last changed.
    pub mtime: Time,
    /// When it last changed at all.
    pub ctime: Time,
    /// The mode, with the bits of the object's kind.
    pub mode: u32,
    /// How many names it has.
    pub links: u32,
    pub uid: u32,
    pub gid: u32,
    /// The device that it stands for.
    pub device: u32,
    /// The bytes of a transfer that suits it best.
    pub block_size: u32,
}

/// What a name leads to.
#[derive(Clone, Copy, Debug)]
pub struct Entry {
    /// The number that later requests have for it, which isn't 0.
    pub node: u64,
    /// What tells it from others that have or had the same node.
    pub generation: u64,
    /// How long the kernel may keep the name.
    pub name_stays: Timeout,
    /// How long it may keep the attributes.
    pub attributes_stay: Timeout,
    pub attributes: Attributes,
}

/// Attributes as a reply has them.
pub(crate) fn attributes_bytes(told: &Attributes) -> [u8; 88]
    ensures { result ≡ attributes_text told.now }
{
    let mut bytes = [0; 88];
    put_u64(&mut bytes, 0, told.inode);
    put_u64(&mut bytes, 8, told.size);
    put_u64(&mut bytes, 16, told.blocks);
    put_u64(&mut bytes, 24, told.atime.seconds);
    put_u64(&mut bytes, 32, told.mtime.seconds);
    put_u64(&mut bytes, 40, told.ctime.seconds);
    put_u32(&mut bytes, 48, told.atime.nanoseconds);
    put_u32(&mut bytes, 52, told.mtime.nanoseconds);
    put_u32(&mut bytes, 56, told.ctime.nanoseconds);
    put_u32(&mut bytes, 60, told.mode);
    put_u32(&mut bytes, 64, told.links);
    put_u32(&mut bytes, 68, told.uid);
    put_u32(&mut bytes, 72, told.gid);
    put_u32(&mut bytes, 76, told.device);
    put_u32(&mut bytes, 80, told.block_size);
    put_u32(&mut bytes, 84, 0);
    bytes
}

/// An entry as a reply has it.
pub(crate) fn entry_bytes(entry: &Entry) -> [u8; 128]
    ensures { result ≡ entry_text entry.now }
{
    let mut bytes = [0; 128];
    put_u64(&mut bytes, 0, entry.node);
    put_u64(&mut bytes, 8, entry.generation);
    put_u64(&mut bytes, 16, entry.name_stays.seconds);
    put_u64(&mut bytes, 24, entry.attributes_stay.seconds);
    put_u32(&mut bytes, 32, entry.name_stays.nanoseconds);
    put_u32(&mut bytes, 36, entry.attributes_stay.nanoseconds);
    put_bytes(&mut bytes, 40, &attributes_bytes(&entry.attributes));
    bytes
}
