//! What is found in a disk's file without a mount: a root, and the roots of its snapshots.

use crate::warnings::slots::{Slot, Taken, look_at_both, take_newer};
use checker::SnapshotName;
use layout::{BLOCK_BYTES, Inode, Pointer, Root, SLOT_A, SLOT_B, SNAPSHOT_SLOTS, SnapRoot};
use model::SNAPSHOT_NAME_BYTES;
use std::alloc::{AllocError, Global};
use std::fs::{File, OpenFile};
use std::os::unix::fs::FileExt;

/// Where a snapshot's root has its name, behind the name's length.
const NAME_AT: usize = 9;

/// A root, and what hangs from it.
#[derive(Drop)]
pub(crate) struct Found {
    pub(crate) root: Root,
    /// The sector that it stands in.
    pub(crate) sector: u64,
    /// The sector of another root, which doesn't go with it.
    pub(crate) other: Option<u64>,
    /// The inode of the file of the inodes of the root before it, where that stands in the other
    /// slot.
    older: Option<Inode>,
    /// The snapshots, in the order of their slots.
    pub(crate) snapshots: Vec<Snapshot>,
}

/// A snapshot under a root.
#[derive(Clone, Copy, Debug)]
pub(crate) struct Snapshot {
    /// Its slot, from 0 on.
    pub(crate) slot: usize,
    /// As far as it can be read.
    pub(crate) name: Option<SnapshotName>,
    pub(crate) order: u64,
    pub(crate) state: State,
}

/// Whether a mount takes the root of a snapshot.
#[derive(Clone, Copy, Debug)]
pub(crate) enum State {
    /// It does, and this is the inode of the file of its inodes.
    Good(Inode),
    /// It is none of an image with this root.
    Unread,
    /// One before it has its name or its order.
    Double,
}

impl Snapshot {
    pub(crate) fn is_bad(&self) -> bool {
        !matches!(self.state, State::Good(_))
    }

    fn has_name(&self, name: &[u8]) -> bool {
        match &self.name {
            Some(own) => own.bytes() == name,
            None => false,
        }
    }

    /// Whether another one has its name or its order.
    fn is_double(&self, other: &Snapshot) -> bool {
        match &other.name {
            Some(name) => self.order == other.order || self.has_name(name.bytes()),
            None => false,
        }
    }
}

impl Found {
    /// Bytes of the disk and of the NVRAM, by the root.
    pub(crate) fn lengths(&self) -> (u64, u64) {
        let geometry = self.root.geometry;
        let disk = BLOCK_BYTES as u64 * u64::from(geometry.blocks());
        (disk, u64::from(geometry.nvram_bytes()))
    }

    /// Whether a mount refuses the root of a snapshot.
    pub(crate) fn has_bad(&self) -> bool {
        self.snapshots.iter().any(|snapshot| snapshot.is_bad())
    }

    /// The root without the snapshots whose roots a mount refuses.
    pub(crate) fn without_bad(&self) -> Root {
        let mut root = self.root;
        for snapshot in self.snapshots.as_slice() {
            if snapshot.is_bad() {
                if let Some(pointer) = root.snapshots.get_mut(snapshot.slot) {
                    *pointer = Pointer::Hole;
                }
            }
        }
        root
    }

    /// The same, with another tree in the place of its own.
    pub(crate) fn with_tree(&self, tree: Inode) -> Root {
        Root {
            inode_file: tree,
            ..self.without_bad()
        }
    }

    /// The inodes of the files of the inodes of other trees, whose maps may stand in the place of
    /// the running one's: nothing that is read depends on these.
    pub(crate) fn other_trees(&self) -> [Option<Inode>; 2] {
        [self.older, self.last_snapshot()]
    }

    /// The inode of the file of the inodes of the snapshot in the last slot whose root can be read.
    fn last_snapshot(&self) -> Option<Inode> {
        let mut last = None;
        for snapshot in self.snapshots.as_slice() {
            if let State::Good(tree) = snapshot.state {
                last = Some(tree);
            }
        }
        last
    }

    /// The inode of the file of a snapshot's inodes, where there is one of this name whose root can
    /// be read.
    pub(crate) fn tree_of(&self, name: &[u8]) -> Option<Inode> {
        for snapshot in self.snapshots.as_slice() {
            if let State::Good(tree) = snapshot.state {
                if snapshot.has_name(name) {
                    return Some(tree);
                }
            }
        }
        None
    }
}

/// What is found in a disk's file; None where no slot holds a root.
pub(crate) fn find_image(alloc: Global, disk: &File) -> Result<Option<Found>, AllocError> {
    let (first, second) = look_at_both(disk, &[]);
    let Some((taken, other)) = take_one(disk, &first, &second) else {
        return Ok(None);
    };
    let snapshots = read_snapshots(alloc, disk, &taken.root)?;
    Ok(Some(Found {
        root: taken.root,
        sector: taken.sector,
        other,
        older: older_tree(&taken, other),
        snapshots,
    }))
}

/// The inode of the file of the inodes of the root before one, where that stands in the other slot.
fn older_tree(taken: &Taken, other: Option<u64>) -> Option<Inode> {
    match &taken.other {
        Slot::Root(root) if other.is_none() => Some(root.inode_file),
        _ => None,
    }
}

/// The root that a mount takes of what both slots hold, or the likelier one where it takes none of
/// two, with the sector of the other.
fn take_one(disk: &File, first: &Slot, second: &Slot) -> Option<(Taken, Option<u64>)> {
    if let Some(taken) = take_newer(first, second) {
        return Some((taken, None));
    }
    match (first, second) {
        (Slot::Root(a), Slot::Root(b)) => {
            let taken = likelier(disk, a, b);
            let other = taken.other_sector();
            Some((taken, Some(other)))
        }
        _ => None,
    }
}

/// The likelier one of two roots that don't go together: it tells the disk's length, and its
/// generation is one of its slot.
fn likelier(disk: &File, a: &Root, b: &Root) -> Taken {
    if is_likely(disk, a, 1) || !is_likely(disk, b, 0) {
        Taken {
            root: *a,
            sector: SLOT_A,
            other: Slot::Root(*b),
        }
    } else {
        Taken {
            root: *b,
            sector: SLOT_B,
            other: Slot::Root(*a),
        }
    }
}

/// Whether a root tells the disk's length, and has a generation of this parity.
fn is_likely(disk: &File, root: &Root, parity: u64) -> bool {
    let bytes = BLOCK_BYTES as u64 * u64::from(root.geometry.blocks());
    let fits = match disk.metadata() {
        Ok(metadata) => metadata.len() == bytes,
        Err(_) => false,
    };
    fits && root.generation.get() % 2 == parity
}

fn read_snapshots(alloc: Global, disk: &File, root: &Root) -> Result<Vec<Snapshot>, AllocError> {
    let mut snapshots = Vec::new(alloc);
    for slot in 0..SNAPSHOT_SLOTS {
        if let Some(snapshot) = read_snapshot(disk, root, slot) {
            let snapshot = among(snapshots.as_slice(), snapshot);
            snapshots.push(snapshot)?;
        }
    }
    Ok(snapshots)
}

/// A snapshot, with what those before it say of it.
fn among(before: &[Snapshot], snapshot: Snapshot) -> Snapshot {
    let is_double = before
        .iter()
        .any(|other| !other.is_bad() && snapshot.is_double(other));
    if is_double && !snapshot.is_bad() {
        return Snapshot {
            state: State::Double,
            ..snapshot
        };
    }
    snapshot
}

/// The snapshot in a slot, where it isn't free.
fn read_snapshot(disk: &File, root: &Root, slot: usize) -> Option<Snapshot> {
    let Pointer::Block(place) = *root.snapshots.get(slot)? else {
        return None;
    };
    let mut bytes = [0; BLOCK_BYTES];
    let at = BLOCK_BYTES as u64 * u64::from(place.get());
    if disk.read_exact_at(&mut bytes, at).is_err() {
        return Some(unread(slot, None));
    }
    match SnapRoot::read(&bytes, root.geometry.layout()) {
        Some(snapshot) if is_of(&snapshot, root) => Some(Snapshot {
            slot,
            name: Some(SnapshotName::new(snapshot.name)),
            order: snapshot.order,
            state: State::Good(snapshot.inode_file),
        }),
        _ => Some(unread(slot, name_in(&bytes))),
    }
}

fn unread(slot: usize, name: Option<SnapshotName>) -> Snapshot {
    Snapshot {
        slot,
        name,
        order: 0,
        state: State::Unread,
    }
}

/// Whether a snapshot fits the sizes of a root, and isn't newer than it.
fn is_of(snapshot: &SnapRoot<'_>, root: &Root) -> bool {
    snapshot.order <= root.generation.get() && snapshot.inode_file.fits(root.geometry)
}

/// The name in a snapshot's root whose other bytes are damaged.
fn name_in(bytes: &[u8]) -> Option<SnapshotName> {
    let length = usize::from(*bytes.get(NAME_AT - 1)?);
    let name = bytes.get(NAME_AT..)?.get(..SNAPSHOT_NAME_BYTES)?;
    let behind = name.get(length..)?;
    let name = name.get(..length)?;
    if name.is_empty() || name.contains(&0) || behind.iter().any(|byte| *byte != 0) {
        return None;
    }
    Some(SnapshotName::new(name))
}
