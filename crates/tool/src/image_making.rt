//! Making an image on files of the host's.

ghost use Rattle.std.specs.Prelude.{◌≡◌, IsErr};
ghost use Rattle.host_files.specs.Names.{HasOneName};
ghost use Rattle.layout.specs.Limits.{AreSizes, sizes};
ghost use Rattle.layout.specs.declared.trees.Layout.TheVariants.{Plain};

use crate::image_error::ImageError;
use file_station::FileStation;
use host_files::{FileError, Image, NewList, Patience, Replacement, hold_both, on};
use layout::{Geometry, Layout};
use mount::{MakeError, make};
use station::{SECTOR_BYTES, Station};
use std::alloc::Global;
use std::fs::{File, OpenFile};
use std::os::unix::fs::FileExt;
use std::rt::{Clock, Files};

/// Makes an empty image on two new files, which then replace those of these names, unless another
/// program holds a lock on one of them; a list of sectors that can't be read goes behind that. With
/// `is_new` nothing is replaced or removed that has bytes. Numbers out of their range are told
/// before any file is looked at.
pub fn make_image<'a, R: Files<File = File> + AllocGlobal + Clock>(
    rt: &R,
    image: Image<'a>,
    blocks: u32,
    inodes: u32,
    half: u32,
    is_new: bool,
    patience: Patience,
) -> Result<(), ImageError<'a>>
    ensures bad_size { ¬ AreSizes (sizes Plain blocks inodes half)
        → result ≡ Err (ImageError.Make MakeError.BadSize) }
    ensures one { HasOneName image.entry → IsErr result }
{
    let Some(geometry) = Geometry::new(Layout::Plain, blocks, inodes, half) else {
        return Err(ImageError::Make(MakeError::BadSize));
    };
    let _held = hold_both(rt, image, is_new, patience)?;
    let (new, disk, nvram) = Replacement::begin(rt, image)?;
    match make_files(rt, image, disk, nvram, geometry) {
        Ok(list) => Ok(new.finish(rt, list)?),
        Err(error) => {
            new.give_up(rt);
            Err(error)
        }
    }
}

/// Makes an empty image on two empty files, all of whose sectors can be read.
fn make_files<'a, R: Files<File = File> + AllocGlobal>(
    rt: &R,
    image: Image<'a>,
    disk: File,
    nvram: File,
    geometry: Geometry,
) -> Result<NewList<'a>, ImageError<'a>> {
    make_on(rt.alloc(), image, disk, nvram, geometry)?;
    Ok(NewList::make(rt, image, &[])?)
}

/// Makes an empty image on two empty files, and syncs them.
fn make_on<'a, F: FileExt + OpenFile + Drop>(
    alloc: Global,
    image: Image<'a>,
    disk: F,
    nvram: F,
    geometry: Geometry,
) -> Result<(), ImageError<'a>> {
    on(
        image.disk,
        disk.set_len(SECTOR_BYTES as u64 * geometry.sectors()),
    )?;
    on(
        image.nvram,
        nvram.set_len(u64::from(geometry.nvram_bytes())),
    )?;
    let station = match FileStation::new(disk, nvram) {
        Ok(station) => station,
        Err(error) => {
            return Err(ImageError::File(FileError::Size {
                disk: image.disk,
                nvram: image.nvram,
                error,
            }));
        }
    };
    match make_sized(alloc, station, geometry) {
        Ok(mut station) => Ok(on(image.disk, station.sync_both())?),
        Err(error) => Err(ImageError::Make(error)),
    }
}

/// Makes an empty image of these sizes on a station, which is let go where that fails.
fn make_sized<S: Station + Drop>(
    alloc: Global,
    station: S,
    geometry: Geometry,
) -> Result<S, MakeError> {
    match make(
        alloc,
        station,
        geometry.blocks(),
        geometry.inodes(),
        geometry.half(),
    ) {
        Ok(station) => Ok(station),
        Err((error, _station)) => Err(error),
    }
}
