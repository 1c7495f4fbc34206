//! Bytes that lie over those of an image's files.

use super::found::Found;
use file_station::{Part, Patch};
use layout::{CLOSED, HEADER_GATE, INODE_BYTES, ROOT_BYTES, Root, SECTOR_BYTES};
use std::alloc::{AllocError, Global};

/// Zeros in the place of the root in this sector.
pub(crate) fn no_slot(alloc: Global, sector: u64) -> Result<Patch, AllocError> {
    zeros(alloc, sector_at(sector), SECTOR_BYTES)
}

/// These bytes in the place of the inodes of both maps, which begin at this byte of the disk.
pub(crate) fn maps_patch(alloc: Global, at: u64, bytes: &[u8]) -> Result<Patch, AllocError> {
    Ok(Patch {
        part: Part::Disk,
        at,
        bytes: Vec::from_slice(alloc, bytes)?,
    })
}

/// A root in the place of the one that was found.
pub(crate) fn root_patch(alloc: Global, found: &Found, root: &Root) -> Result<Patch, AllocError> {
    let mut bytes = vec![in alloc; 0_u8; ROOT_BYTES]?;
    root.write(&mut bytes);
    Ok(Patch {
        part: Part::Disk,
        at: sector_at(found.sector),
        bytes,
    })
}

/// The byte at which a sector begins.
fn sector_at(sector: u64) -> u64 {
    sector.saturating_mul(SECTOR_BYTES as u64)
}

/// Zeros over so many bytes of the disk.
fn zeros(alloc: Global, at: u64, count: usize) -> Result<Patch, AllocError> {
    Ok(Patch {
        part: Part::Disk,
        at,
        bytes: vec![in alloc; 0_u8; count]?,
    })
}

/// Closes the gates of both halves of the log, behind which nothing is looked at then.
pub(crate) fn close_halves(
    alloc: Global,
    found: &Found,
    patches: &mut Vec<Patch>,
) -> Result<(), AllocError> {
    let half = u64::from(found.root.geometry.half());
    for start in [0, half] {
        patches.push(Patch {
            part: Part::Nvram,
            at: start.saturating_add(u64::from(HEADER_GATE)),
            bytes: vec![in alloc; CLOSED; 1]?,
        })?;
    }
    Ok(())
}

/// Makes free inodes of those at these bytes of the disk.
pub(crate) fn free_inodes(
    alloc: Global,
    bad: &[u64],
    patches: &mut Vec<Patch>,
) -> Result<(), AllocError> {
    for at in bad {
        patches.push(zeros(alloc, *at, INODE_BYTES)?)?;
    }
    Ok(())
}
