//! The records of the log: the calls that change something, with their numbers resolved.

ghost use Rattle.std.specs.Prelude.{◌<◌};

use crate::InodeNumber;
use model::{Mode, Permissions, Time};

/// What a record makes.
#[derive(Clone, Copy)]
pub enum NewObject<'a> {
    File {
        permissions: Permissions,
    },
    Directory {
        permissions: Permissions,
    },
    /// A symbolic link, with its text; its mode is always 0777.
    Link {
        permissions: Permissions,
        text: &'a [u8],
    },
}

/// What a record of the log does.
#[derive(Clone, Copy)]
pub enum Edit<'a> {
    /// Makes the object, with this name in the directory `parent`.
    Create {
        number: InodeNumber,
        parent: InodeNumber,
        object: NewObject<'a>,
        name: &'a [u8],
    },
    /// Gives the file one more name.
    Link {
        number: InodeNumber,
        parent: InodeNumber,
        name: &'a [u8],
    },
    /// Takes the name away, and what has no other name.
    RemoveName {
        parent: InodeNumber,
        name: &'a [u8],
    },
    /// Moves the object of a name to the new name.
    Rename {
        parent: InodeNumber,
        name: &'a [u8],
        new_parent: InodeNumber,
        new_name: &'a [u8],
    },
    /// Writes the bytes into the file, from the offset on.
    Write {
        number: InodeNumber,
        offset: u64,
        bytes: &'a [u8],
    },
    /// Gives the file this size.
    Truncate {
        number: InodeNumber,
        size: u64,
    },
    /// Gives the object these permissions and this time of its data, which are what it has where the
    /// call doesn't change them.
    ChangeAttributes {
        number: InodeNumber,
        permissions: Permissions,
        modified: Time,
    },
    /// Gives the file this mode and this size.
    SetFile {
        number: InodeNumber,
        mode: Mode,
        size: u64,
    },
}

/// A record of the log.
#[derive(Clone, Copy)]
pub struct Record<'a> {
    /// The time of the call, where the image keeps times.
    pub time: Option<Time>,
    pub edit: Edit<'a>,
}
