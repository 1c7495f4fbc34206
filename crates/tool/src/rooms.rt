//! How much room an image has, told to people.

ghost use Rattle.std.specs.Prelude.{◌≤◌};

use crate::warnings::slots::{look_at_both, open_to_look, take_newer};
use host_files::{Image, ImageStation};
use layout::MOST_INODES;
use model::{Errno, FileType, Stat};
use mount::{Fs, Space};
use station::BLOCK_BYTES;
use std::alloc::{AllocError, Global};
use std::io::Write;
use std::{fmt, io};

/// What stands in the running tree. A file with several names is one.
#[derive(Clone, Copy, Debug, PartialEq, Eq)]
pub(crate) struct Objects {
    pub(crate) files: u32,
    /// The root directory among them.
    pub(crate) directories: u32,
    pub(crate) links: u32,
}

/// The room of an image.
#[derive(Clone, Copy, Debug)]
pub(crate) struct Room {
    pub(crate) blocks: u32,
    pub(crate) free: u32,
    pub(crate) pledged: u64,
    /// Inode numbers, of which `OWN_NUMBERS` are no object's.
    pub(crate) inodes: u32,
    pub(crate) objects: Objects,
}

/// The inode numbers that are of no object: 0, and those of both maps.
const OWN_NUMBERS: u32 = 3;

/// A walk through all directories.
#[derive(Drop)]
struct Walk {
    objects: Objects,
    /// The directories whose names are still to be looked at.
    paths: Vec<Vec<u8>>,
    /// By number: whether it is a file that was counted.
    counted: Vec<bool>,
}

impl Walk {
    fn new(alloc: Global) -> Result<Walk, AllocError> {
        let mut paths = Vec::new(alloc);
        paths.push(Vec::from_slice(alloc, b"/")?)?;
        Ok(Walk {
            objects: Objects {
                files: 0,
                directories: 1,
                links: 0,
            },
            paths,
            counted: vec![in alloc; false; MOST_INODES as usize]?,
        })
    }

    /// Counts what has this path.
    fn count(&mut self, path: Vec<u8>, stat: Stat) -> Result<(), AllocError> {
        let objects = &mut self.objects;
        match stat.kind {
            FileType::File => {
                if is_first(&mut self.counted, stat.number as usize) {
                    objects.files = objects.files.saturating_add(1);
                }
            }
            FileType::Dir => {
                objects.directories = objects.directories.saturating_add(1);
                self.paths.push(path)?;
            }
            FileType::Link => objects.links = objects.links.saturating_add(1),
        }
        Ok(())
    }
}

/// Whether a number is counted now for the first time.
fn is_first(counted: &mut [bool], number: usize) -> bool {
    match counted.get_mut(number) {
        Some(counted) => {
            let was = *counted;
            *counted = true;
            !was
        }
        None => true,
    }
}

/// Counts what stands in the running tree.
pub(crate) fn count_objects(alloc: Global, fs: &mut Fs<ImageStation>) -> Result<Objects, Errno> {
    let Ok(mut walk) = Walk::new(alloc) else {
        return Err(Errno::ENOMEM);
    };
    for _ in 0..u64::MAX {
        let Some(path) = walk.paths.pop() else {
            break;
        };
        let names = fs.list(path.as_slice())?;
        count_in(alloc, fs, &mut walk, path.as_slice(), names.as_slice())?;
    }
    Ok(walk.objects)
}

/// Counts what has one of these names in a directory.
fn count_in(
    alloc: Global,
    fs: &mut Fs<ImageStation>,
    walk: &mut Walk,
    directory: &[u8],
    names: &[Vec<u8>],
) -> Result<(), Errno> {
    for name in names {
        let Ok(path) = path_in(alloc, directory, name.as_slice()) else {
            return Err(Errno::ENOMEM);
        };
        let stat = fs.lstat(path.as_slice())?;
        if walk.count(path, stat).is_err() {
            return Err(Errno::ENOMEM);
        }
    }
    Ok(())
}

/// The path of a name in a directory.
fn path_in(alloc: Global, directory: &[u8], name: &[u8]) -> Result<Vec<u8>, AllocError> {
    let mut path = Vec::from_slice(alloc, directory)?;
    if directory != b"/".as_slice() {
        path.push(b'/')?;
    }
    path.extend_from_slice(name)?;
    Ok(path)
}

/// Inode numbers of an image, by its root; 0 where none can be read.
pub(crate) fn inodes_of(rt: &HostRuntime, image: Image<'_>) -> u32 {
    let Some(disk) = open_to_look(rt, image.disk) else {
        return 0;
    };
    let (first, second) = look_at_both(&disk, &[]);
    match take_newer(&first, &second) {
        Some(taken) => taken.root.geometry.inodes(),
        None => 0,
    }
}

/// The room of a mounted image with so many inode numbers.
pub(crate) fn room_of(
    alloc: Global,
    fs: &mut Fs<ImageStation>,
    inodes: u32,
) -> Result<Room, Errno> {
    let Space {
        blocks,
        free,
        pledged,
    } = fs.df()?;
    let objects = count_objects(alloc, fs)?;
    Ok(Room {
        blocks,
        free,
        pledged,
        inodes,
        objects,
    })
}

/// Shows an image's room in lines for people.
pub(crate) fn show_human<O: Write>(out: &mut O, room: &Room) -> io::Result<()> {
    let (all, free) = (
        bytes_of(u64::from(room.blocks)),
        bytes_of(u64::from(room.free)),
    );
    let pledged = bytes_of(room.pledged);
    writeln!(out, "disk: {all}, {free} free, {pledged} pledged")?;
    let Objects {
        files,
        directories,
        links,
    } = room.objects;
    let inodes = room.inodes;
    let taken = files.saturating_add(directories).saturating_add(links);
    let left = inodes.saturating_sub(OWN_NUMBERS).saturating_sub(taken);
    let (files, directories, links) = (
        Count(files, "file", "files"),
        Count(directories, "directory", "directories"),
        Count(links, "link", "links"),
    );
    writeln!(
        out,
        "inodes: {inodes}, {left} free, {taken} taken by {files}, {directories} and {links}"
    )
}

/// A count, and what is counted: one, and any other number of them.
#[derive(Clone, Copy)]
struct Count(u32, &'static str, &'static str);

impl fmt::Display for Count {
    fn fmt<W: fmt::Write>(&self, f: &mut fmt::Formatter<W>) -> fmt::Result {
        let Count(count, one, more) = self;
        if *count == 1 {
            write!(f, "1 {one}")
        } else {
            write!(f, "{count} {more}")
        }
    }
}

/// So many bytes, told in a unit that goes with them, to a tenth of it.
#[derive(Clone, Copy, Debug)]
pub(crate) struct Size(u64);

/// Bytes of so many blocks.
pub(crate) fn bytes_of(blocks: u64) -> Size {
    Size(blocks.saturating_mul(BLOCK_BYTES as u64))
}

/// Bytes of the units.
const KIB: u64 = 1 << 10;

const MIB: u64 = 1 << 20;

const GIB: u64 = 1 << 30;

impl fmt::Display for Size {
    fn fmt<W: fmt::Write>(&self, f: &mut fmt::Formatter<W>) -> fmt::Result {
        let Size(bytes) = self;
        let (unit, name) = unit_of(*bytes);
        let whole = bytes / unit;
        let tenth = (bytes % unit).saturating_mul(10) / unit;
        write!(f, "{whole}.{tenth} {name}")
    }
}

/// The greatest unit of which so many bytes have one; the smallest where there is none.
fn unit_of(bytes: u64) -> (u64, &'static str)
    ensures { 1 ≤ result.0 }
{
    if bytes >= GIB {
        (GIB, "GiB")
    } else if bytes >= MIB {
        (MIB, "MiB")
    } else {
        (KIB, "KiB")
    }
}
