//! The inodes for which a mount refuses a tree, found without one.

use layout::{
    BLOCK_BYTES, Body, DIRECT_BYTES, INODE_BYTES, INODES_PER_BLOCK, Inode, Kind, Pointer,
    ROOT_NUMBER, Root, indirect_pointer,
};
use std::alloc::{AllocError, Global};
use std::fs::File;
use std::os::unix::fs::FileExt;

/// How many maps there are. Their inodes are the first two behind number 0.
const MAPS: usize = 2;

/// The bytes of the disk at which those inodes of a root's tree begin that are outside the format
/// and may be left out: they are of no map and not of the root directory.
pub(crate) fn bad_inodes(alloc: Global, root: &Root, disk: &File) -> Result<Vec<u64>, AllocError> {
    let mut bad = Vec::new(alloc);
    let inodes = root.geometry.inodes();
    for block in 0..inodes.div_ceil(INODES_PER_BLOCK) {
        let Some(place) = place_of(disk, root, block) else {
            continue;
        };
        let start = BLOCK_BYTES as u64 * u64::from(place);
        let mut bytes = [0; BLOCK_BYTES];
        if disk.read_exact_at(&mut bytes, start).is_err() {
            continue;
        }
        add_bad(&mut bad, root, block, start, &bytes)?;
    }
    Ok(bad)
}

/// The bytes of the inodes of both maps in a root's tree, and the byte of the disk at which they
/// begin. None where they can't be read.
pub(crate) fn maps_in(alloc: Global, root: &Root, disk: &File) -> Option<(u64, Vec<u8>)> {
    let place = place_of(disk, root, 0)?;
    let at = (BLOCK_BYTES as u64 * u64::from(place)).saturating_add(INODE_BYTES as u64);
    let mut bytes = vec![in alloc; 0_u8; MAPS * INODE_BYTES].ok()?;
    disk.read_exact_at(&mut bytes, at).ok()?;
    Some((at, bytes))
}

/// The block of the disk that has a block of the inode file. None where that is a hole, or can't be
/// found.
fn place_of(disk: &File, root: &Root, block: u32) -> Option<u32> {
    let Inode {
        layout,
        size,
        body,
        ..
    } = root.inode_file;
    let Body::Pointers(pointers) = body else {
        return None;
    };
    if size <= DIRECT_BYTES {
        return number_of(*pointers.get(block as usize)?);
    }
    let over = number_of(*pointers.get((block / layout.fan_out()) as usize)?)?;
    let mut bytes = [0; BLOCK_BYTES];
    disk.read_exact_at(&mut bytes, BLOCK_BYTES as u64 * u64::from(over))
        .ok()?;
    number_of(indirect_pointer(&bytes, block % layout.fan_out()))
}

fn number_of(pointer: Pointer) -> Option<u32> {
    match pointer {
        Pointer::Hole => None,
        Pointer::Block(place) => Some(place.get()),
    }
}

/// Adds where those of a block's inodes begin that are outside the format.
fn add_bad(
    bad: &mut Vec<u64>,
    root: &Root,
    block: u32,
    start: u64,
    bytes: &[u8; BLOCK_BYTES],
) -> Result<(), AllocError> {
    for place in 0..INODES_PER_BLOCK {
        let number = block.saturating_mul(INODES_PER_BLOCK).saturating_add(place);
        let at = place as usize * INODE_BYTES;
        let Some(inode) = bytes.get(at..at + INODE_BYTES) else {
            continue;
        };
        if number > ROOT_NUMBER && !is_sound(inode, root, number) {
            bad.push(start.saturating_add(at as u64))?;
        }
    }
    Ok(())
}

/// Whether these bytes are an inode that may have this number.
fn is_sound(bytes: &[u8], root: &Root, number: u32) -> bool {
    let Some(inode) = Inode::read(bytes, root.geometry.layout()) else {
        return false;
    };
    let is_kind = match inode.kind {
        Kind::Free => true,
        Kind::File | Kind::Directory | Kind::Link => number < root.geometry.inodes(),
        Kind::InodeFile | Kind::InodeMap | Kind::BlockMap => false,
    };
    let limits = root.geometry.limits_under(root.version);
    is_kind && inode.size <= limits.file_bytes && inode.fits(root.geometry)
}
