//! Replacing the files of an image by new ones, once these are whole and synced. Nothing else that
//! is there is touched: each new file is made under a name that nothing had, and only what was made
//! here is removed, or an image's own list of sectors that can't be read.

ghost use Rattle.std.specs.Prelude.{IsErr};
ghost use Rattle.host_files.specs.Names.{HasOneName};

use crate::error::{FileError, on};
use crate::image::Image;
use crate::new_list::NewList;
use crate::places::{Found, Place, find_place, is_one_file};
use std::alloc::{AllocError, Global};
use std::fs::{File, Metadata, OpenFile, OpenOptions, Permissions};
use std::io::ErrorKind;
use std::os::unix::fs::{MetadataExt, OpenOptionsExt, PermissionsExt, fchown};
use std::path::Path;
use std::rt::Files;
use std::{fs, io};

/// How many names are tried for a new file.
const TRIES: u32 = 100;

/// The permission bits, without those that give a program its file's owner or group.
const PERMISSIONS: u32 = 0o1777;

/// Of these, the ones that say what others may do.
const OTHERS: u32 = 0o007;

/// Of these, the ones that aren't for the group or for others.
const OWNER: u32 = 0o1700;

/// The mode of a new file until it has that of the one which it will replace: nobody else may use
/// it.
const OWN: u32 = 0o600;

/// The mode that a new file in an empty place is made with where none is asked for, less the bits
/// of the process's mask.
const NEW: u32 = 0o666;

/// Both new files, which lie beside those that they will replace.
#[derive(Drop)]
pub struct Replacement<'a> {
    disk: Place<'a>,
    nvram: Place<'a>,
    new_disk: String,
    new_nvram: String,
}

/// A file that was made beside another, open for reading and writing.
#[derive(Drop)]
pub struct NewFile {
    pub path: String,
    /// Which of the names that were tried it has.
    attempt: u32,
    pub file: File,
}

impl<'a> Replacement<'a> {
    /// Makes both new files, empty.
    pub fn begin<R: Files<File = File> + AllocGlobal>(
        rt: &R,
        image: Image<'a>,
    ) -> Result<(Replacement<'a>, File, File), FileError<'a>>
        ensures { HasOneName image.entry → IsErr result }
    {
        if is_one_file(rt, image.disk, image.nvram) {
            return Err(FileError::OneFile { path: image.disk });
        }
        let disk = find_file_place(rt, image.disk)?;
        let nvram = find_file_place(rt, image.nvram)?;
        let first = make_beside(rt, &disk, None, disk.path.as_str(), nvram.path.as_str())?;
        match make_second(rt, &first, &disk, &nvram) {
            Ok(second) => {
                let new = Replacement {
                    disk,
                    nvram,
                    new_disk: first.path,
                    new_nvram: second.path,
                };
                Ok((new, first.file, second.file))
            }
            Err(error) => {
                remove(rt, first.path.as_str());
                Err(error)
            }
        }
    }

    /// Puts both new files in place, which are whole and synced, and the list that belongs to the
    /// new disk behind that. Each is settled in its folder before the next one is put. Where the
    /// disk's can't be put there, removes them all.
    pub fn finish<R: Files>(self, rt: &R, list: NewList<'a>) -> Result<(), FileError<'a>> {
        match self.disk.replace(rt, self.new_disk.as_str()) {
            Ok(()) => {
                let listed = list.put(rt);
                self.replace_nvram(rt)?;
                listed
            }
            Err(error) => {
                list.give_up(rt);
                self.give_up(rt);
                Err(error)
            }
        }
    }

    /// Removes both new files.
    pub fn give_up<R: Files>(&self, rt: &R) {
        remove(rt, self.new_disk.as_str());
        remove(rt, self.new_nvram.as_str());
    }

    /// Puts the new NVRAM in place, behind the disk. Where that fails it stays where it is, so that
    /// nothing is lost.
    fn replace_nvram<R: Files>(self, rt: &R) -> Result<(), FileError<'a>> {
        match fs::rename(rt, self.new_nvram.as_str(), self.nvram.path.as_str()) {
            Ok(()) => {
                sync_folder(rt, self.nvram.path.as_str());
                Ok(())
            }
            Err(error) => Err(FileError::HalfReplaced {
                disk: self.disk.name,
                nvram: self.nvram.name,
                new_nvram: self.new_nvram,
                error,
            }),
        }
    }
}

impl<'a> Place<'a> {
    /// Puts a new file in this place, and syncs its folder.
    pub fn replace<R: Files>(&self, rt: &R, new: &str) -> Result<(), FileError<'a>> {
        on(self.name, fs::rename(rt, new, self.path.as_str()))?;
        sync_folder(rt, self.path.as_str());
        Ok(())
    }
}

/// Syncs the folder that a path stands in, so that a power cut of the host leaves this name as it
/// is now, where it leaves one that is changed later. A folder that can't be synced is no error:
/// all that was asked for is done.
pub(crate) fn sync_folder<R: Files>(rt: &R, path: &str) {
    if let Ok(folder) = fs::open(rt, folder_of(path)) {
        let _ = folder.sync_all();
    }
}

/// The folder that a path stands in.
fn folder_of(path: &str) -> Path<'_> {
    let folder = Path::new(path).parent().unwrap_or(Path::new("/"));
    if folder.as_os_str().is_empty() {
        return Path::new(".");
    }
    folder
}

/// The place that a name leads to, where a file may be put: one is there, or nothing is.
pub(crate) fn find_file_place<'a, R: Files + AllocGlobal>(
    rt: &R,
    name: &'a str,
) -> Result<Place<'a>, FileError<'a>> {
    let place = find_place(rt, name)?;
    match place.found {
        Found::Nothing | Found::File(_) => Ok(place),
        Found::Folder | Found::Stream => Err(FileError::NotAFile { path: name }),
    }
}

/// Makes the NVRAM's new file beside the disk's. With the same letters behind them, two names of
/// one place are two names of one new file, which tells them where nothing is there yet.
fn make_second<'a, R: Files<File = File> + AllocGlobal>(
    rt: &R,
    first: &NewFile,
    disk: &Place<'a>,
    nvram: &Place<'a>,
) -> Result<NewFile, FileError<'a>> {
    let same_letters = new_name(rt.alloc(), nvram.path.as_str(), first.attempt)?;
    if is_one_file(rt, first.path.as_str(), same_letters.as_str()) {
        return Err(FileError::OneFile { path: disk.name });
    }
    make_beside(rt, nvram, None, disk.path.as_str(), nvram.path.as_str())
}

/// Makes an empty file beside a place, under a name that nothing has and that leads to neither of
/// two files. Where a file is in that place, the new one gets its owner, its group and its mode;
/// else the mode that is asked for, less the bits of the process's mask.
pub fn make_beside<'a, R: Files<File = File> + AllocGlobal>(
    rt: &R,
    place: &Place<'a>,
    mode: Option<u32>,
    disk: &str,
    nvram: &str,
) -> Result<NewFile, FileError<'a>> {
    for attempt in 0..TRIES {
        let path = new_name(rt.alloc(), place.path.as_str(), attempt)?;
        match make_file(rt, path.as_str(), &place.found, mode) {
            Ok(file) => {
                if !is_one_file(rt, path.as_str(), disk) && !is_one_file(rt, path.as_str(), nvram) {
                    return Ok(NewFile {
                        path,
                        attempt,
                        file,
                    });
                }
                remove(rt, path.as_str());
            }
            Err(error) if error.kind() == ErrorKind::AlreadyExists => continue,
            Err(error) => return Err(FileError::Io {
                path: place.name,
                error,
            }),
        }
    }
    Err(FileError::NoName {
        path: place.name,
        tries: TRIES,
    })
}

/// A name beside this one: `NAME.new`, then `NAME.new1` and so on.
fn new_name(alloc: Global, beside: &str, attempt: u32) -> Result<String, AllocError> {
    if attempt == 0 {
        return format!(in alloc; "{beside}.new");
    }
    format!(in alloc; "{beside}.new{attempt}")
}

/// Makes a file and opens it. An error of kind `AlreadyExists` says that something has this name.
fn make_file<R: Files<File = File>>(
    rt: &R,
    path: &str,
    old: &Found,
    mode: Option<u32>,
) -> io::Result<File> {
    let mut options = OpenOptions::new();
    options.read(true).write(true).create_new(true);
    match old {
        Found::File(old) => {
            let file = options.mode(OWN).open(rt, path)?;
            if let Err(error) = take_over(&file, old) {
                remove(rt, path);
                return Err(error);
            }
            Ok(file)
        }
        _ => options
            .mode(mode.unwrap_or(NEW) & PERMISSIONS)
            .open(rt, path),
    }
}

/// Gives a new file the owner, the group and the mode of an old one. Where this program may not
/// give a file away, the new one stays with its user, and has no bits by which more people could
/// use it than the old one.
fn take_over(file: &File, old: &Metadata) -> io::Result<()> {
    let _ = fchown(file, None, Some(old.gid()));
    let _ = fchown(file, Some(old.uid()), None);
    let new = file.metadata()?;
    let mode = old.mode() & PERMISSIONS;
    if new.gid() == old.gid() {
        return file.set_permissions(Permissions::from_mode(mode));
    }
    // Members of either group, and those of none, may do what both the old group and others might.
    let shared = (mode >> 3) & mode & OTHERS;
    file.set_permissions(Permissions::from_mode(mode & OWNER | shared << 3 | shared))
}

/// Removes a file that was made here. One that can't be removed stays, beside what it should have
/// replaced.
pub fn remove<R: Files>(rt: &R, path: &str) {
    let _ = fs::remove_file(rt, path);
}
