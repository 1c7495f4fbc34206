//! Which bytes are in a format: those that are read as a value and written back as they were.

use layout::{
    BLOCK_BYTES, Entry, Gate, HEADER_BYTES, Header, INODE_BYTES, Inode, Layout, ROOT_BYTES, Record,
    Root, SnapRoot, is_directory_block, is_indirect_block, is_inode_map, read_gate,
};

/// What the bytes of a table are to be.
#[derive(Clone, Copy, Debug)]
pub enum Format {
    Root,
    Inode,
    /// An inode of the layout with sums.
    SummedInode,
    Snapshot,
    /// An entry of a directory, and whatever stands behind it.
    Entry,
    Record,
    /// A half of the NVRAM, up to its first closed gate.
    Half,
    /// A block of a directory in an image of so many inodes.
    Directory { inodes: u32 },
    /// Bytes of an inode map of so many inodes, the first bit being that of number `first`.
    InodeMap { first: u32, inodes: u32 },
    /// An indirect block over so many blocks of a file, in an image of so many blocks.
    Indirect { blocks: u32, used: u32 },
    /// The same of the layout with sums.
    SummedIndirect { blocks: u32, used: u32 },
}

/// Whether the bytes are in the format.
pub fn holds(format: Format, bytes: &[u8]) -> bool {
    match format {
        Format::Root => is_root(bytes),
        Format::Inode => is_inode(bytes, Layout::Plain),
        Format::SummedInode => is_inode(bytes, Layout::Summed),
        Format::Snapshot => is_snapshot(bytes),
        Format::Entry => is_entry(bytes),
        Format::Record => is_record(bytes),
        Format::Half => is_half(bytes),
        Format::Directory { inodes } => is_directory(bytes, inodes),
        Format::InodeMap { first, inodes } => is_map(bytes, first, inodes),
        Format::Indirect { blocks, used } => is_indirect(bytes, Layout::Plain, blocks, used),
        Format::SummedIndirect { blocks, used } => {
            is_indirect(bytes, Layout::Summed, blocks, used)
        }
    }
}

fn is_root(bytes: &[u8]) -> bool {
    let Some(root) = Root::read(bytes) else {
        return false;
    };
    let mut again = [0xff; ROOT_BYTES];
    root.write(&mut again);
    again.as_slice() == bytes
}

fn is_inode(bytes: &[u8], layout: Layout) -> bool {
    let Some(inode) = Inode::read(bytes, layout) else {
        return false;
    };
    let mut again = [0xff; INODE_BYTES];
    inode.write(&mut again);
    again.as_slice() == bytes
}

fn is_snapshot(bytes: &[u8]) -> bool {
    let Some(root) = SnapRoot::read(bytes, Layout::Plain) else {
        return false;
    };
    let mut again = [0xff; BLOCK_BYTES];
    root.write(&mut again);
    again.as_slice() == bytes
}

fn is_entry(bytes: &[u8]) -> bool {
    let Some(entry) = Entry::read(bytes) else {
        return false;
    };
    let mut again = [0xff; 300];
    let count = entry.encoded_len();
    if count > again.len() {
        return false;
    }
    entry.write(&mut again);
    bytes.starts_with(&again[..count])
}

fn is_record(bytes: &[u8]) -> bool {
    let Some(record) = Record::read(Layout::Plain, bytes) else {
        return false;
    };
    let mut again = [0xff; 600];
    let count = record.encoded_len();
    if count > again.len() {
        return false;
    }
    record.write(&mut again);
    &again[..count] == bytes
}

fn is_half(bytes: &[u8]) -> bool {
    if bytes.len() < HEADER_BYTES {
        return false;
    }
    let (head, records) = bytes.split_at(HEADER_BYTES);
    let mut header = [0; HEADER_BYTES];
    header.copy_from_slice(head);
    match Header::read(&header) {
        Some(Header::Open(_)) => are_records(records),
        _ => false,
    }
}

// Whether records stand there, up to a closed gate.
fn are_records(bytes: &[u8]) -> bool {
    let mut behind = bytes;
    for _ in 0..bytes.len() {
        match read_gate(behind) {
            Gate::Closed => return true,
            Gate::Malformed => return false,
            Gate::Open { body, rest } => {
                if !is_record(body) {
                    return false;
                }
                behind = rest;
            }
        }
    }
    false
}

fn is_directory(bytes: &[u8], inodes: u32) -> bool {
    match block_of(bytes) {
        Some(block) => is_directory_block(&block, inodes),
        None => false,
    }
}

fn is_map(bytes: &[u8], first: u32, inodes: u32) -> bool {
    first <= 65_536 && bytes.len() <= BLOCK_BYTES && is_inode_map(bytes, first, inodes)
}

fn is_indirect(bytes: &[u8], layout: Layout, blocks: u32, used: u32) -> bool {
    match block_of(bytes) {
        Some(block) => is_indirect_block(&block, layout, blocks, used),
        None => false,
    }
}

fn block_of(bytes: &[u8]) -> Option<[u8; BLOCK_BYTES]> {
    if bytes.len() != BLOCK_BYTES {
        return None;
    }
    let mut block = [0; BLOCK_BYTES];
    block.copy_from_slice(bytes);
    Some(block)
}
