//! What calls do to the table of open files.

ghost use Rattle.std.specs.Prelude.{◌≡◌, ℕ, OnOk};
ghost use Rattle.model.specs.Volumes.{IsMounted, Volume};
ghost use Rattle.descriptors.specs.Fits.{FitsVolume};
ghost use Rattle.descriptors.specs.Tables.{table_of};
ghost use Rattle.records.specs.Opened.{HasNumbers};
ghost use Rattle.dispatch.specs.OpenFiles.{CanMove, FitsMove, HasRoomToMove, OpensNumber, moved_table};

use descriptors::{Descriptors, OpenFile, tables_follow_volumes};
use std::alloc::AllocError;

/// What a call does to the table of open files.
#[derive(Clone, Copy)]
pub(crate) enum TableMove {
    /// Nothing.
    Stays,
    /// The offset of a descriptor that is open goes to a place, in bytes.
    Moves { fd: u32, place: u64 },
    /// The file is opened at a descriptor that is free.
    Opens { fd: u32, file: OpenFile },
}

impl TableMove {
    /// Takes the memory for it. Nothing else changes.
    pub(crate) fn make_room(self, files: &mut Descriptors) -> Result<(), AllocError>
        requires { CanMove (table_of files.old) self }
        ensures room { OnOk result (HasRoomToMove files.new self) }
        ensures table { table_of files.new ≡ table_of files.old }
        ensures fits { (v : Volume) → FitsVolume files.old v → FitsVolume files.new v }
        ensures numbers { (n : ℕ) → HasNumbers n files.old → HasNumbers n files.new }
    {
        match self {
            TableMove::Opens { fd, file: _file } => files.make_room(fd),
            _ => Ok(()),
        }
    }

    /// Does it.
    pub(crate) fn put_into(self, files: &mut Descriptors)
        requires can { CanMove (table_of files.old) self }
        requires room { HasRoomToMove files.old self }
        ensures table { table_of files.new ≡ moved_table self (table_of files.old) }
        ensures fits { (v : Volume) → FitsVolume files.old v → FitsMove v self
            → FitsVolume files.new v }
        ensures mounted { (v : Volume) → FitsVolume files.old v → IsMounted v (table_of files.old)
            → FitsMove v self → IsMounted v (table_of files.new) }
        ensures numbers { (n : ℕ) → HasNumbers n files.old → OpensNumber n self
            → HasNumbers n files.new }
    {
        match self {
            TableMove::Stays => {}
            TableMove::Moves { fd, place } => files.set_offset(fd, place),
            TableMove::Opens { fd, file } => {
                files.open(fd, file);
                tables_follow_volumes(files);
            }
        }
    }
}
