//! Storing an image that was worked on in memory.

ghost use Rattle.std.specs.Prelude.{IsErr};
ghost use Rattle.host_files.specs.Names.{HasOneName};

use crate::error::{FileError, on};
use crate::image::Image;
use crate::image_files::Held;
use crate::new_list::NewList;
use crate::replacement::Replacement;
use crate::sparse::Sparse;
use memory_station::Sim;
use std::fs::{File, OpenFile};
use std::io;
use std::io::{Seek, Write};
use std::rt::Files;

/// Stores what a station in memory holds in new files, which then replace those of the image. It
/// takes no locks: whoever loaded the image holds its files until this is done.
///
/// Three files can't be replaced at once. A sector leaves the list before the disk is replaced, and
/// comes into it behind that. So whatever stops this in between: of the old disk, what could be
/// read still can, and what couldn't reads as zeros at worst where it was written since; of the new
/// disk, all that was written can be read, and what a cut made unreadable reads as zeros. That was
/// written since the last sync, so it is no root, or a block of no tree that a root has. The NVRAM
/// is replaced last: the new disk's root covers what the old log holds, or has that log's epoch.
pub(crate) fn store_image<'a, R: Files<File = File> + AllocGlobal>(
    rt: &R,
    image: Image<'a>,
    sim: &Sim,
    held: &Held,
) -> Result<(), FileError<'a>>
    ensures { HasOneName image.entry → IsErr result }
{
    let (new, disk, nvram) = Replacement::begin(rt, image)?;
    match prepare(rt, image, sim, held, disk, nvram) {
        Ok(list) => new.finish(rt, list),
        Err(error) => {
            new.give_up(rt);
            Err(error)
        }
    }
}

/// Fills the new files, makes the new list, and takes those sectors off the old one that can be
/// read now.
fn prepare<'a, R: Files<File = File> + AllocGlobal>(
    rt: &R,
    image: Image<'a>,
    sim: &Sim,
    held: &Held,
    mut disk: File,
    mut nvram: File,
) -> Result<NewList<'a>, FileError<'a>> {
    let (disk_bytes, nvram_bytes) = sim.images();
    on(image.disk, write_whole(&mut disk, disk_bytes))?;
    on(image.nvram, write_whole(&mut nvram, nvram_bytes))?;
    let list = NewList::make(rt, image, sim.bad_sectors())?;
    match shorten_list(rt, image, &held.bad, sim.bad_sectors()) {
        Ok(()) => Ok(list),
        Err(error) => {
            list.give_up(rt);
            Err(error)
        }
    }
}

/// Leaves in the list what is in both of these.
fn shorten_list<'a, R: Files<File = File> + AllocGlobal>(
    rt: &R,
    image: Image<'a>,
    old: &[u64],
    new: &[u64],
) -> Result<(), FileError<'a>> {
    let mut both = Vec::new(rt.alloc());
    for number in old {
        if new.binary_search(number).is_ok() {
            both.push(*number)?;
        }
    }
    if both.len() < old.len() {
        NewList::make(rt, image, &both)?.put(rt)?;
    }
    Ok(())
}

/// Writes a new file, with holes where whole blocks of it are zeros, and syncs it.
fn write_whole<F: Write + Seek + OpenFile + Drop>(file: &mut F, bytes: &[u8]) -> io::Result<()> {
    let mut sparse = Sparse::new(file);
    sparse.write_all(bytes)?;
    sparse.end()
}
