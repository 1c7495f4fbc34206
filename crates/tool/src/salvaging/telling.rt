//! What is left out of an image, told.

use super::found::{Found, Snapshot, State};
use crate::warnings::listed_sectors;
use crate::warnings::slots::letter;
use checker::SnapshotName;
use host_files::Image;
use std::fs::{File, OpenFile};
use std::io;
use std::io::Write;

/// Tells what is so whatever is left out: the lengths of the files, a list that isn't minded, a
/// root that doesn't go with the other.
pub(crate) fn tell_image<E: Write>(
    rt: &HostRuntime,
    image: Image<'_>,
    found: &Found,
    disk: &File,
    nvram: &File,
    err: &mut E,
) {
    let (disk_bytes, nvram_bytes) = found.lengths();
    let _ = tell_length(image.disk, disk, disk_bytes, err);
    let _ = tell_length(image.nvram, nvram, nvram_bytes, err);
    let (name, bad) = (image.disk, image.bad);
    let _ = match listed_sectors(rt, image, disk).len() {
        0 => Ok(()),
        1 => writeln!(
            err,
            "wafl: salvage: 1 sector that {bad} names is read as it stands in {name}"
        ),
        count => writeln!(
            err,
            "wafl: salvage: {count} sectors that {bad} names are read as they stand in {name}"
        ),
    };
    if let Some(other) = found.other {
        let (slot, taken) = (letter(other), letter(found.sector));
        let _ = writeln!(
            err,
            "wafl: salvage: without the root in slot {slot}: it doesn't go with the one in slot {taken}"
        );
    }
}

/// Tells where a file has another length than the root says.
fn tell_length<E: Write>(path: &str, file: &File, bytes: u64, err: &mut E) -> io::Result<()> {
    let has = file.metadata()?.len();
    if has < bytes {
        return writeln!(
            err,
            "wafl: salvage: {path} has {has} bytes, and by its root {bytes}: the rest is read as zeros"
        );
    }
    if has > bytes {
        return writeln!(
            err,
            "wafl: salvage: {path} has {has} bytes, and by its root {bytes}: the rest isn't read"
        );
    }
    Ok(())
}

/// Tells what is left out: the snapshots whose roots a mount refuses, the log, so many inodes.
pub(crate) fn tell_way<E: Write>(
    found: &Found,
    snapshots: bool,
    log: bool,
    inodes: usize,
    err: &mut E,
) {
    if snapshots {
        for snapshot in found.snapshots.as_slice() {
            let _ = tell_snapshot(snapshot, err);
        }
    }
    if log {
        let _ = writeln!(
            err,
            "wafl: salvage: without the log: the commands since the last consistency point are missing"
        );
    }
    let _ = match inodes {
        0 => Ok(()),
        1 => writeln!(
            err,
            "wafl: salvage: without 1 inode that is outside the format: what has its number can't be read"
        ),
        count => writeln!(
            err,
            "wafl: salvage: without {count} inodes that are outside the format: what has their numbers can't be read"
        ),
    };
}

/// Tells that a snapshot is left out, where it is.
fn tell_snapshot<E: Write>(snapshot: &Snapshot, err: &mut E) -> io::Result<()> {
    let reason = match snapshot.state {
        State::Good(_) => return Ok(()),
        State::Unread => "its root can't be read",
        State::Double => "another one has its name or its order",
    };
    match &snapshot.name {
        Some(name) => writeln!(err, "wafl: salvage: without the snapshot {name}: {reason}"),
        None => {
            let slot = snapshot.slot.saturating_add(1);
            writeln!(
                err,
                "wafl: salvage: without the snapshot in slot {slot}: {reason}"
            )
        }
    }
}

/// Tells that the maps are another tree's.
pub(crate) fn tell_maps<E: Write>(err: &mut E) {
    let _ = writeln!(
        err,
        "wafl: salvage: without the maps of inodes and blocks, which reading doesn't need: older ones stand in their place"
    );
}

/// Tells that the running tree is the snapshot's of this name.
pub(crate) fn tell_tree<E: Write>(name: &[u8], err: &mut E) {
    let name = SnapshotName::new(name);
    let _ = writeln!(
        err,
        "wafl: salvage: the running tree can't be read: that of the snapshot {name} stands in its place, without the log"
    );
}

/// Tells that the running tree can't be read, and the names of the snapshots whose roots can.
pub(crate) fn tell_snapshots<E: Write>(found: &Found, err: &mut E) {
    let _ = write!(
        err,
        "wafl: salvage: the running tree can't be read; snapshots whose roots can:"
    );
    let mut count = 0_usize;
    for snapshot in found.snapshots.as_slice() {
        if snapshot.is_bad() {
            continue;
        }
        if let Some(name) = &snapshot.name {
            let _ = write!(err, " {name}");
            count = count.saturating_add(1);
        }
    }
    let _ = err.write_all(if count == 0 { b" none\n" } else { b"\n" });
}
