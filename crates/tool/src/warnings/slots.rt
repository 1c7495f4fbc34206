//! The two slots of roots in a disk's file.

use layout::{ROOT_BYTES, Root, SECTOR_BYTES, SLOT_A, SLOT_B};
use std::fs;
use std::fs::File;
use std::os::unix::fs::{FileExt, FileTypeExt};

/// What a slot holds.
#[derive(Clone, Copy, Debug)]
pub(crate) enum Slot {
    /// A root.
    Root(Root),
    /// Zeros alone.
    Zeros,
    /// Bytes that are no root.
    Other,
    /// It can't be read.
    Unread,
}

/// The root that a mount takes.
#[derive(Clone, Copy, Debug)]
pub(crate) struct Taken {
    pub(crate) root: Root,
    /// The sector that it stands in.
    pub(crate) sector: u64,
    /// What the other slot holds.
    pub(crate) other: Slot,
}

impl Taken {
    /// The sector of the other slot.
    pub(crate) fn other_sector(&self) -> u64 {
        if self.sector == SLOT_A {
            SLOT_B
        } else {
            SLOT_A
        }
    }
}

/// The letter of the slot at a sector.
pub(crate) fn letter(sector: u64) -> char {
    if sector == SLOT_A { 'A' } else { 'B' }
}

/// A file, open for reading. None where it can't be opened, or is none: a FIFO waits for another
/// program when it is opened.
pub(crate) fn open_to_look(rt: &HostRuntime, path: &str) -> Option<File> {
    let found = fs::metadata(rt, path).ok()?;
    if found.is_file() || found.file_type().is_block_device() {
        fs::open(rt, path).ok()
    } else {
        None
    }
}

/// What both slots of a disk hold, of which these sectors can't be read.
pub(crate) fn look_at_both(disk: &File, bad: &[u64]) -> (Slot, Slot) {
    (look_at(disk, SLOT_A, bad), look_at(disk, SLOT_B, bad))
}

fn look_at(disk: &File, sector: u64, bad: &[u64]) -> Slot {
    if bad.contains(&sector) {
        return Slot::Unread;
    }
    let mut bytes = [0; ROOT_BYTES];
    let at = sector.saturating_mul(SECTOR_BYTES as u64);
    if disk.read_exact_at(&mut bytes, at).is_err() {
        return Slot::Unread;
    }
    match Root::read(&bytes) {
        Some(root) => Slot::Root(root),
        None if bytes.iter().all(|byte| *byte == 0) => Slot::Zeros,
        None => Slot::Other,
    }
}

/// The root that a mount takes of what both slots hold. None where it takes none: there is none, or
/// two are of one generation or of different sizes.
pub(crate) fn take_newer(first: &Slot, second: &Slot) -> Option<Taken> {
    match (first, second) {
        (Slot::Root(a), Slot::Root(b)) => newer_of(a, b),
        (Slot::Root(root), other) => Some(Taken {
            root: *root,
            sector: SLOT_A,
            other: *other,
        }),
        (other, Slot::Root(root)) => Some(Taken {
            root: *root,
            sector: SLOT_B,
            other: *other,
        }),
        _ => None,
    }
}

fn newer_of(a: &Root, b: &Root) -> Option<Taken> {
    let (age, other_age) = (a.generation.get(), b.generation.get());
    if age == other_age || a.geometry != b.geometry {
        return None;
    }
    if age > other_age {
        Some(Taken {
            root: *a,
            sector: SLOT_A,
            other: Slot::Root(*b),
        })
    } else {
        Some(Taken {
            root: *b,
            sector: SLOT_B,
            other: Slot::Root(*a),
        })
    }
}
