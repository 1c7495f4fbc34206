//! What is told of objects.

ghost use Rattle.std.specs.Prelude.{◌≡◌, ◌≤◌};
ghost use Rattle.served.specs.Telling.{attributes_of, entry_of, is_file, kind_bits, parts_of_size};

use crate::marks::Marks;
use crate::numbers::{BLOCK_BYTES, FOREVER, PARTS_OF_BLOCK};
use fuse::{Attributes, Entry};
use model::{FileType, Stat};

/// The bits of a kind in `st_mode`.
fn kind_bits(kind: FileType) -> u32
    ensures value { result ≡ kind_bits kind }
    ensures few { result ≤ 0o120000 }
{
    match kind {
        FileType::File => 0o100000,
        FileType::Dir => 0o040000,
        FileType::Link => 0o120000,
    }
}

/// Whether it is a file.
pub(crate) fn is_file(kind: FileType) -> bool
    ensures { result ≡ is_file kind }
{
    matches!(kind, FileType::File)
}

/// How much room blocks have that hold so many bytes, in parts of 512.
pub(crate) fn parts_of_size(size: u64) -> u64
    ensures { result ≡ parts_of_size size }
{
    size.div_ceil(BLOCK_BYTES) * PARTS_OF_BLOCK
}

/// What is told of an object that programs see by this number.
pub(crate) fn attributes_of(inode: u64, stat: &Stat, parts: u64, marks: Marks) -> Attributes
    ensures { result ≡ attributes_of inode stat.now parts marks }
{
    Attributes {
        inode,
        size: stat.size,
        blocks: parts,
        atime: marks.atime,
        mtime: marks.mtime,
        ctime: marks.ctime,
        mode: kind_bits(stat.kind) + u32::from(stat.mode.bits()),
        links: stat.links,
        uid: marks.uid,
        gid: marks.gid,
        device: 0,
        block_size: BLOCK_BYTES as u32,
    }
}

/// What a name leads to.
pub(crate) fn entry_of(node: u64, generation: u32, attributes: Attributes) -> Entry
    ensures { result ≡ entry_of node generation attributes }
{
    Entry {
        node,
        generation: u64::from(generation),
        name_stays: FOREVER,
        attributes_stay: FOREVER,
        attributes,
    }
}
