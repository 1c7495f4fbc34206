//! Replacing the list of a disk's sectors that can't be read.

use crate::bad_list::write_list;
use crate::error::{FileError, on};
use crate::image::Image;
use crate::places::Place;
use crate::replacement::{find_file_place, make_beside, remove, sync_folder};
use std::fs::{File, OpenFile};
use std::io::{ErrorKind, Write};
use std::rt::Files;
use std::{fs, io};

/// A list that is whole and synced, beside the place that it is to have. There is no file for one
/// without sectors.
#[derive(Drop)]
pub struct NewList<'a> {
    place: Place<'a>,
    new: Option<String>,
}

impl<'a> NewList<'a> {
    /// Makes the new file of a list.
    pub fn make<R: Files<File = File> + AllocGlobal>(
        rt: &R,
        image: Image<'a>,
        list: &[u64],
    ) -> Result<NewList<'a>, FileError<'a>> {
        let place = find_file_place(rt, image.bad)?;
        if list.is_empty() {
            return Ok(NewList { place, new: None });
        }
        let text = write_list(rt.alloc(), list)?;
        let mut new = make_beside(rt, &place, None, image.disk, image.nvram)?;
        if let Err(error) = on(image.bad, fill(&mut new.file, &text)) {
            remove(rt, new.path.as_str());
            return Err(error);
        }
        Ok(NewList {
            place,
            new: Some(new.path),
        })
    }

    /// Puts it in place: the file that is there is replaced, or removed where there are no sectors.
    pub fn put<R: Files>(&self, rt: &R) -> Result<(), FileError<'a>> {
        match &self.new {
            Some(new) => self.place.replace(rt, new.as_str()),
            None => on(self.place.name, remove_old(rt, self.place.path.as_str())),
        }
    }

    /// Removes its new file.
    pub fn give_up<R: Files>(&self, rt: &R) {
        if let Some(new) = &self.new {
            remove(rt, new.as_str());
        }
    }
}

/// Removes a file, where one is there, and syncs its folder.
fn remove_old<R: Files>(rt: &R, path: &str) -> io::Result<()> {
    match fs::remove_file(rt, path) {
        Ok(()) => {
            sync_folder(rt, path);
            Ok(())
        }
        Err(error) if error.kind() == ErrorKind::NotFound => Ok(()),
        Err(error) => Err(error),
    }
}

/// Writes a new file, and syncs it.
fn fill<F: Write + OpenFile>(file: &mut F, text: &[u8]) -> io::Result<()> {
    file.write_all(text)?;
    file.sync_all()
}
