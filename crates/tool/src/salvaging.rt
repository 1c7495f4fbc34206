//! An image that a mount refuses, read as far as it can be: other bytes lie over those of its
//! files, which stay as they are.

mod found;
mod inodes;
mod patches;
mod telling;

use file_station::{FileStation, Patch};
use found::{Found, find_image};
use host_files::{FileError, Image, ImageStation, Patience, open_shared};
use inodes::{bad_inodes, maps_in};
use layout::Root;
use mount::{MountError, mount};
use patches::{close_halves, free_inodes, maps_patch, no_slot, root_patch};
use std::alloc::{AllocError, AllocFailed, Global};
use std::fs::File;
use std::io::Write;
use telling::{tell_image, tell_maps, tell_snapshots, tell_tree, tell_way};
use thiserror::Error;

/// Why nothing of an image can be read.
#[derive(Debug, Drop, Error)]
pub(crate) enum SalvageError<'a> {
    /// A file can't be read.
    #[error("{0}")]
    File(FileError<'a>),
    /// Whatever is left out, it isn't mounted. This is why not where nothing is.
    #[error("mount {0}")]
    Mount(MountError),
}

impl<'a> From<FileError<'a>> for SalvageError<'a> {
    fn from(error: FileError<'a>) -> SalvageError<'a> {
        SalvageError::File(error)
    }
}

impl<T: Drop> From<AllocFailed<T>> for SalvageError<'_> {
    fn from(_error: AllocFailed<T>) -> Self {
        SalvageError::File(FileError::NoMemory)
    }
}

impl From<AllocError> for SalvageError<'_> {
    fn from(_error: AllocError) -> Self {
        SalvageError::File(FileError::NoMemory)
    }
}

/// What is left out of an image.
#[derive(Clone, Copy, Debug)]
struct Way {
    /// The snapshots whose roots a mount refuses.
    snapshots: bool,
    /// The log.
    log: bool,
    /// The inodes of the running tree that are outside the format.
    inodes: bool,
}

/// How many ways are tried.
const WAYS: u32 = 8;

impl Way {
    /// The ways in the order in which they are tried, from 0 on.
    fn of_number(number: u32) -> Way {
        Way {
            snapshots: number & 1 != 0,
            log: number & 2 != 0,
            inodes: number & 4 != 0,
        }
    }
}

/// A station over the files of an image that a mount takes, with as little left out as can be, and
/// tells in a line each what that is. Where nothing else is taken, the tree of this snapshot, if
/// one is named, stands in the place of the running one. The files are open for reading alone,
/// under shared locks, and nothing is ever written.
pub(crate) fn open_salvaged<'a, E: Write>(
    rt: &HostRuntime,
    image: Image<'a>,
    snapshot: Option<&[u8]>,
    patience: Patience,
    err: &mut E,
) -> Result<ImageStation, SalvageError<'a>> {
    // These are held until a station is found.
    let (disk, nvram) = open_shared(rt, image, patience)?;
    let Some(found) = find_image(rt.alloc(), &disk)? else {
        return Err(SalvageError::Mount(MountError::NoRoot));
    };
    tell_image(rt, image, &found, &disk, &nvram, err);
    let bad = bad_inodes(rt.alloc(), &found.root, &disk)?;
    let error = match try_ways(rt, image, &found, &bad, None, err)? {
        Ok(station) => return Ok(station),
        Err(error) => error,
    };
    if let Some(station) = try_maps(rt, image, &found, &disk, &bad, err)? {
        return Ok(station);
    }
    match try_snapshot(rt, image, &found, &disk, snapshot, err)? {
        Some(station) => Ok(station),
        None => {
            tell_snapshots(&found, err);
            Err(SalvageError::Mount(error))
        }
    }
}

/// The station of the first way that a mount takes with the maps of another tree, where there is
/// one.
fn try_maps<'a, E: Write>(
    rt: &HostRuntime,
    image: Image<'a>,
    found: &Found,
    disk: &File,
    bad: &[u64],
    err: &mut E,
) -> Result<Option<ImageStation>, SalvageError<'a>> {
    let Some((at, _)) = maps_in(rt.alloc(), &found.root, disk) else {
        return Ok(None);
    };
    for other in found.other_trees() {
        let Some(tree) = other else {
            continue;
        };
        let Some((_, maps)) = maps_in(rt.alloc(), &found.with_tree(tree), disk) else {
            continue;
        };
        if let Ok(station) = try_ways(rt, image, found, bad, Some((at, maps.as_slice())), err)? {
            tell_maps(err);
            return Ok(Some(station));
        }
    }
    Ok(None)
}

/// The station of the first way that a mount takes; else why it takes none. These inodes are
/// outside the format, and these bytes are to stand for those of the maps.
fn try_ways<'a, E: Write>(
    rt: &HostRuntime,
    image: Image<'a>,
    found: &Found,
    bad: &[u64],
    maps: Option<(u64, &[u8])>,
    err: &mut E,
) -> Result<Result<ImageStation, MountError>, SalvageError<'a>> {
    let mut first = None;
    for number in 0..WAYS {
        let way = Way::of_number(number);
        let is_idle = way.snapshots && !found.has_bad() || way.inodes && bad.is_empty();
        if is_idle {
            continue;
        }
        match try_way(rt, image, found, bad, maps, way)? {
            Ok(station) => {
                tell_way(found, way.snapshots, way.log, inodes_in(bad, way), err);
                return Ok(Ok(station));
            }
            Err(error) => {
                first = first.or(Some(error));
            }
        }
    }
    Ok(Err(first.unwrap_or(MountError::Damaged)))
}

/// How many inodes are left out.
fn inodes_in(bad: &[u64], way: Way) -> usize {
    if way.inodes { bad.len() } else { 0 }
}

/// The station of a way, where a mount takes it.
fn try_way<'a>(
    rt: &HostRuntime,
    image: Image<'a>,
    found: &Found,
    bad: &[u64],
    maps: Option<(u64, &[u8])>,
    way: Way,
) -> Result<Result<ImageStation, MountError>, SalvageError<'a>> {
    let mut patches = Vec::new(rt.alloc());
    if let Some((at, bytes)) = maps {
        patches.push(maps_patch(rt.alloc(), at, bytes)?)?;
    }
    if way.snapshots {
        patches.push(root_patch(rt.alloc(), found, &found.without_bad())?)?;
    }
    if way.log {
        close_halves(rt.alloc(), found, &mut patches)?;
    }
    if way.inodes {
        free_inodes(rt.alloc(), bad, &mut patches)?;
    }
    try_patches(rt, image, found, patches)
}

/// The station whose running tree is a snapshot's, where one is named and a mount takes it.
fn try_snapshot<'a, E: Write>(
    rt: &HostRuntime,
    image: Image<'a>,
    found: &Found,
    disk: &File,
    snapshot: Option<&[u8]>,
    err: &mut E,
) -> Result<Option<ImageStation>, SalvageError<'a>> {
    let Some(name) = snapshot else {
        return Ok(None);
    };
    let Some(tree) = found.tree_of(name) else {
        return Ok(None);
    };
    let root = found.with_tree(tree);
    let bad = bad_inodes(rt.alloc(), &root, disk)?;
    match try_tree(rt, image, found, &root, &bad)? {
        Ok(station) => {
            tell_tree(name, err);
            tell_way(found, true, false, bad.len(), err);
            Ok(Some(station))
        }
        Err(_) => Ok(None),
    }
}

/// The station with this root, without the log and without these inodes, where a mount takes it.
fn try_tree<'a>(
    rt: &HostRuntime,
    image: Image<'a>,
    found: &Found,
    root: &Root,
    bad: &[u64],
) -> Result<Result<ImageStation, MountError>, SalvageError<'a>> {
    let mut patches = Vec::new(rt.alloc());
    patches.push(root_patch(rt.alloc(), found, root)?)?;
    close_halves(rt.alloc(), found, &mut patches)?;
    free_inodes(rt.alloc(), bad, &mut patches)?;
    try_patches(rt, image, found, patches)
}

/// The station with these patches, of the lengths that the root tells, where a mount takes it.
fn try_patches<'a>(
    rt: &HostRuntime,
    image: Image<'a>,
    found: &Found,
    mut patches: Vec<Patch>,
) -> Result<Result<ImageStation, MountError>, SalvageError<'a>> {
    if let Some(sector) = found.other {
        patches.push(no_slot(rt.alloc(), sector)?)?;
    }
    let (disk, nvram) = open_shared(rt, image, Patience::None)?;
    let (disk_bytes, nvram_bytes) = found.lengths();
    match FileStation::patched(disk, nvram, disk_bytes, nvram_bytes, patches) {
        Ok(station) => Ok(mounted(rt.alloc(), ImageStation::Patched(station))),
        Err(error) => Err(SalvageError::File(FileError::Size {
            disk: image.disk,
            nvram: image.nvram,
            error,
        })),
    }
}

/// A station as it stands behind a mount.
fn mounted(alloc: Global, station: ImageStation) -> Result<ImageStation, MountError> {
    match mount(alloc, station) {
        Ok(fs) => Ok(fs.into_station()),
        Err((error, _station)) => Err(error),
    }
}
