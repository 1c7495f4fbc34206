//! The files of an image: opening and reading them, and holding them while they are replaced.

ghost use Rattle.std.specs.Prelude.{◌≡◌, false, IfOk, IsErr};
ghost use Rattle.host_files.specs.Names.{HasOneName};
ghost use Rattle.memory_station.specs.FaultPlan.{no_plan};
ghost use Rattle.memory_station.specs.Sim.{plan_of, was_cut};

use crate::bad_list::read_list;
use crate::error::{FileError, on};
use crate::image::Image;
use crate::image_station::ImageStation;
use crate::locking::{Patience, Purpose, open_locked, pause};
use crate::places::is_one_file;
use file_station::{FileStation, OpenFiles};
use memory_station::Sim;
use station::SECTOR_BYTES;
use std::alloc::Global;
use std::fs::File;
use std::io::{ErrorKind, Read};
use std::rt::{Clock, Files};
use std::{fs, io};

/// Both files of an image, open and under their locks as long as this lives, and the sectors of its
/// disk that couldn't be read when they were loaded.
#[derive(Drop)]
pub struct Held {
    disk: Option<File>,
    nvram: Option<File>,
    pub(crate) bad: Vec<u64>,
}

/// Opens both files of an image, which are there and two. Between two tries neither is held, so
/// that nobody waits for a file of this program's while this one waits for one of theirs.
fn open_both<'a, R: Files<File = File> + Clock>(
    rt: &R,
    image: Image<'a>,
    purpose: Purpose,
    patience: Patience,
) -> Result<(File, File), FileError<'a>>
    ensures { HasOneName image.entry → IsErr result }
{
    for _ in 0..patience.pauses() {
        match try_both(rt, image, purpose) {
            Err(FileError::InUse { .. }) => pause(rt),
            opened => return opened,
        }
    }
    try_both(rt, image, purpose)
}

/// Opens both files of an image, the disk first, where no other program's lock is in the way.
fn try_both<'a, R: Files<File = File>>(
    rt: &R,
    image: Image<'a>,
    purpose: Purpose,
) -> Result<(File, File), FileError<'a>>
    ensures { HasOneName image.entry → IsErr result }
{
    let disk_file = open_locked(rt, image.disk, purpose)?;
    // The disk's lock would be in the way of one of the same file.
    if is_one_file(rt, image.disk, image.nvram) {
        return Err(FileError::OneFile { path: image.disk });
    }
    let nvram_file = open_locked(rt, image.nvram, purpose)?;
    Ok((disk_file, nvram_file))
}

/// Both files of an image, open for reading alone under shared locks, whatever list there is.
pub fn open_shared<'a, R: Files<File = File> + Clock>(
    rt: &R,
    image: Image<'a>,
    patience: Patience,
) -> Result<(File, File), FileError<'a>>
    ensures { HasOneName image.entry → IsErr result }
{
    open_both(rt, image, Purpose::Reading, patience)
}

/// An image whose files are there, for one who writes: open for reading and writing, under
/// exclusive locks.
pub fn open_image<'a, R: Files<File = File> + AllocGlobal + Clock>(
    rt: &R,
    image: Image<'a>,
    patience: Patience,
) -> Result<ImageStation, FileError<'a>>
    ensures { HasOneName image.entry → IsErr result }
{
    let (disk, nvram) = open_both(rt, image, Purpose::Writing, patience)?;
    match list_text(rt, image)? {
        None => Ok(ImageStation::Files(station_over(image, disk, nvram)?)),
        Some(text) => {
            let (sim, held) = load_files(rt.alloc(), image, disk, nvram, &text)?;
            Ok(ImageStation::Memory(sim, held))
        }
    }
}

/// An image whose files are there, for one who reads: open for reading alone, so that every write
/// to it fails, under shared locks. Where there is a list of sectors that can't be read, it is as
/// for one who writes, since it is stored again.
pub fn open_to_read<'a, R: Files<File = File> + AllocGlobal + Clock>(
    rt: &R,
    image: Image<'a>,
    patience: Patience,
) -> Result<ImageStation, FileError<'a>>
    ensures { HasOneName image.entry → IsErr result }
{
    if let Some(station) = read_files(rt, image, patience)? {
        return Ok(ImageStation::Files(station));
    }
    tell_why_written(image, open_image(rt, image, patience))
}

/// Says of a file that may not be written why it has to be, where it was only to be read.
fn tell_why_written<'a>(
    image: Image<'a>,
    opened: Result<ImageStation, FileError<'a>>,
) -> Result<ImageStation, FileError<'a>>
    ensures { IsErr opened.entry → IsErr result }
{
    match opened {
        Err(FileError::Io { path, error }) if may_not_be_written(error) => {
            Err(FileError::IsListed {
                path,
                bad: image.bad,
                error,
            })
        }
        opened => opened,
    }
}

fn may_not_be_written(error: io::Error) -> bool {
    matches!(
        error.kind(),
        ErrorKind::PermissionDenied | ErrorKind::ReadOnlyFilesystem
    )
}

/// A station over the files themselves, open for reading. None where there is a list.
fn read_files<'a, R: Files<File = File> + AllocGlobal + Clock>(
    rt: &R,
    image: Image<'a>,
    patience: Patience,
) -> Result<Option<FileStation<OpenFiles<File>>>, FileError<'a>>
    ensures { HasOneName image.entry → IsErr result }
{
    let (disk, nvram) = open_both(rt, image, Purpose::Reading, patience)?;
    match list_text(rt, image)? {
        None => Ok(Some(station_over(image, disk, nvram)?)),
        Some(_) => Ok(None),
    }
}

fn station_over(
    image: Image<'_>,
    disk: File,
    nvram: File,
) -> Result<FileStation<OpenFiles<File>>, FileError<'_>> {
    match FileStation::new(disk, nvram) {
        Ok(station) => Ok(station),
        Err(error) => Err(FileError::Size {
            disk: image.disk,
            nvram: image.nvram,
            error,
        }),
    }
}

/// The text of the list of sectors that can't be read. None where there is no such file.
fn list_text<'a, R: Files + AllocGlobal>(
    rt: &R,
    image: Image<'a>,
) -> Result<Option<Vec<u8>>, FileError<'a>> {
    if is_one_file(rt, image.bad, image.nvram) {
        return Err(FileError::IsList { path: image.nvram });
    }
    match fs::read(rt, image.bad) {
        Ok(text) => Ok(Some(text)),
        Err(error) if error.kind() == ErrorKind::NotFound => Ok(None),
        Err(error) => Err(FileError::Io {
            path: image.bad,
            error,
        }),
    }
}

/// A station in memory with what two files that are there hold, of which the sectors of the list
/// can't be read, and what holds these files until the image is stored again. Its power is on, and
/// no call of it is to fail.
pub fn load_station<'a, R: Files<File = File> + AllocGlobal + Clock>(
    rt: &R,
    image: Image<'a>,
    patience: Patience,
) -> Result<(Sim, Held), FileError<'a>>
    ensures one { HasOneName image.entry → IsErr result }
    ensures power { IfOk result (λ loaded. was_cut loaded.0 ≡ false) }
    ensures plan { IfOk result (λ loaded. plan_of loaded.0 ≡ no_plan) }
{
    let (disk, nvram) = open_both(rt, image, Purpose::Writing, patience)?;
    let text = list_text(rt, image)?.unwrap_or(Vec::new(rt.alloc()));
    load_files(rt.alloc(), image, disk, nvram, &text)
}

/// A station in memory with what two open files hold, of which the sectors of a list with this text
/// can't be read.
fn load_files<'a>(
    alloc: Global,
    image: Image<'a>,
    mut disk: File,
    mut nvram: File,
    text: &[u8],
) -> Result<(Sim, Held), FileError<'a>>
    ensures power { IfOk result (λ loaded. was_cut loaded.0 ≡ false) }
    ensures plan { IfOk result (λ loaded. plan_of loaded.0 ≡ no_plan) }
{
    let disk_bytes = read_to_end(alloc, image.disk, &mut disk)?;
    let nvram_bytes = read_to_end(alloc, image.nvram, &mut nvram)?;
    let sectors = (disk_bytes.len() / SECTOR_BYTES) as u64;
    let bad = read_list(alloc, image.bad, text, sectors)?;
    match Sim::load_bad(alloc, disk_bytes, nvram_bytes, &bad) {
        Ok(sim) => {
            let held = Held {
                disk: Some(disk),
                nvram: Some(nvram),
                bad,
            };
            Ok((sim, held))
        }
        Err(error) => Err(FileError::Load {
            disk: image.disk,
            nvram: image.nvram,
            error,
        }),
    }
}

/// All that a reader gives, which has this name.
fn read_to_end<'a, I: Read>(
    alloc: Global,
    path: &'a str,
    reader: &mut I,
) -> Result<Vec<u8>, FileError<'a>> {
    let mut bytes = Vec::new(alloc);
    on(path, reader.read_to_end(&mut bytes))?;
    Ok(bytes)
}

/// The bytes of a script: a file's, or those of standard input, which is `input`, where the name is
/// `-`.
pub fn read_script<'a, R: Files + AllocGlobal, I: Read>(
    rt: &R,
    path: &'a str,
    input: &mut I,
) -> Result<Vec<u8>, FileError<'a>> {
    if path == "-" {
        return read_to_end(rt.alloc(), path, input);
    }
    on(path, fs::read(rt, path))
}

/// Holds both files of an image where they are there and are to be replaced. With `is_new` refuses
/// those that have bytes, and a list of sectors that can't be read, too. Between two tries neither
/// is held.
pub fn hold_both<'a, R: Files<File = File> + AllocGlobal + Clock>(
    rt: &R,
    image: Image<'a>,
    is_new: bool,
    patience: Patience,
) -> Result<Held, FileError<'a>>
    ensures { HasOneName image.entry → IsErr result }
{
    for _ in 0..patience.pauses() {
        match try_to_hold(rt, image, is_new) {
            Err(FileError::InUse { .. }) => pause(rt),
            held => return held,
        }
    }
    try_to_hold(rt, image, is_new)
}

/// Holds both files, the disk first, where no other program's lock is in the way.
fn try_to_hold<'a, R: Files<File = File> + AllocGlobal>(
    rt: &R,
    image: Image<'a>,
    is_new: bool,
) -> Result<Held, FileError<'a>>
    ensures { HasOneName image.entry → IsErr result }
{
    if is_one_file(rt, image.disk, image.nvram) {
        return Err(FileError::OneFile { path: image.disk });
    }
    if is_one_file(rt, image.bad, image.nvram) {
        return Err(FileError::IsList { path: image.nvram });
    }
    let held = Held {
        disk: hold(rt, image.disk, is_new)?,
        nvram: hold(rt, image.nvram, is_new)?,
        bad: Vec::new(rt.alloc()),
    };
    hold(rt, image.bad, is_new)?;
    Ok(held)
}

/// Holds a file that is to be replaced, where one is there. Exists where it is to be a new one, and
/// has bytes.
fn hold<'a, R: Files<File = File>>(
    rt: &R,
    path: &'a str,
    is_new: bool,
) -> Result<Option<File>, FileError<'a>> {
    match fs::metadata(rt, path) {
        Ok(found) if found.is_file() => {
            let file = open_locked(rt, path, Purpose::Replacing)?;
            if is_new && on(path, file.metadata())?.len() > 0 {
                return Err(FileError::Exists { path });
            }
            Ok(Some(file))
        }
        Ok(_) => Err(FileError::NotAFile { path }),
        Err(error) if error.kind() == ErrorKind::NotFound => Ok(None),
        Err(error) => Err(FileError::Io { path, error }),
    }
}
