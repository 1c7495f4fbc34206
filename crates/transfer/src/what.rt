//! What is transferred.

use crate::error::TransferError;
use file_station::FileFault;
use host_files::{Image, Patience, is_one_file};
use std::rt::Files;

/// What goes where.
#[derive(Clone, Copy, Debug)]
pub struct Transfer<'a> {
    pub image: Image<'a>,
    /// The path of a file in the image.
    pub path: &'a [u8],
    /// The same as the user spells it, for what is told.
    pub name: &'a str,
    /// A file of the host's; `-` is standard input or standard output.
    pub file: &'a str,
    /// How long a lock is waited for.
    pub patience: Patience,
}

impl Transfer<'_> {
    /// Whether the host's file is one of the image's own.
    pub(crate) fn is_of_image<R: Files>(&self, rt: &R) -> bool {
        is_of_image(rt, self.image, self.file)
    }
}

/// Whether a file of the host's is one of an image.
pub(crate) fn is_of_image<R: Files>(rt: &R, image: Image<'_>, file: &str) -> bool {
    let Image { disk, nvram, bad } = image;
    is_one_file(rt, file, disk) || is_one_file(rt, file, nvram) || is_one_file(rt, file, bad)
}

/// How a transfer ended.
#[derive(Drop)]
pub struct Ended<'a> {
    pub done: Result<(), TransferError<'a>>,
    /// The first call of the system that failed on a file of the image, if one did.
    pub fault: Option<FileFault>,
}

impl<'a> Ended<'a> {
    /// It ended before the image was used.
    pub(crate) fn before(error: TransferError<'a>) -> Ended<'a> {
        Ended {
            done: Err(error),
            fault: None,
        }
    }
}
