//! The calls of a transfer, one by one.

use crate::applying::ReadsKept;
use crate::looking::look_at;
use model::{Access, Errno, FileType, Flags, Mode, TRANSFER_BYTES, Text};
use mount::Fs;
use station::Station;

/// The mode of a file that is made in an empty place, as in a script: 0644.
pub const NEW_FILE: u16 = 0o644;

/// A file that is there is read.
const ITS_BYTES: Flags = Flags {
    access: Access::Reading,
    creates: false,
    exclusive: false,
    truncates: false,
    appends: false,
};

/// A file is made where nothing is, and written.
const NEW_BYTES: Flags = Flags {
    access: Access::Writing,
    creates: true,
    exclusive: true,
    truncates: false,
    appends: false,
};

/// What bytes are read from.
#[derive(Clone, Copy)]
pub enum Source<'a> {
    /// An open file of the running tree, by its descriptor.
    Open(u32),
    /// The file of a path in a snapshot.
    Kept { snapshot: &'a [u8], path: &'a [u8] },
}

/// Finds the file of a path: in the running tree, or in a snapshot.
pub fn find_source<'a, S: Station>(
    fs: &mut Fs<S>,
    path: &'a [u8],
    snapshot: Option<&'a [u8]>,
) -> Result<Source<'a>, Errno> {
    let Some(snapshot) = snapshot else {
        let mode = Mode::new(NEW_FILE).unwrap();
        return Ok(Source::Open(fs.open(path, ITS_BYTES, mode)?));
    };
    // Nothing is read yet, but this call is refused where a later one would be.
    fs.get_in(snapshot, path, 0, 0)?;
    Ok(Source::Kept { snapshot, path })
}

/// The bytes from this one on: as many as one call reads, fewer at the file's end.
pub fn read_source<S: Station>(
    fs: &mut Fs<S>,
    source: Source<'_>,
    offset: u64,
) -> Result<Text, Errno> {
    match source {
        Source::Open(fd) => read_open(fs, fd, offset),
        Source::Kept { snapshot, path } => fs.read_kept(snapshot, path, offset),
    }
}

/// Bytes of an open file.
fn read_open<S: Station>(fs: &mut Fs<S>, fd: u32, offset: u64) -> Result<Text, Errno> {
    let Ok(offset) = i64::try_from(offset) else {
        return Err(Errno::EINVAL);
    };
    fs.pread(fd, offset, TRANSFER_BYTES as u32)
}

/// Makes a file of this mode where nothing is, and opens it for writing.
pub fn make_file<S: Station>(fs: &mut Fs<S>, path: &[u8], mode: Mode) -> Result<u32, Errno> {
    fs.open(path, NEW_BYTES, mode)
}

/// Takes a name of a file or of a link away, where it is there. For want of room a file's blocks
/// are given back first.
pub fn remove<S: Station>(fs: &mut Fs<S>, path: &[u8]) -> Result<(), Errno> {
    match fs.unlink(path) {
        Err(Errno::ENOENT) => Ok(()),
        Err(Errno::ENOSPC) => {
            give_back(fs, path)?;
            fs.unlink(path)
        }
        answer => answer,
    }
}

/// Gives the blocks of a file back. A link isn't followed.
fn give_back<S: Station>(fs: &mut Fs<S>, path: &[u8]) -> Result<(), Errno> {
    match look_at(fs, path)? {
        Some(there) if there.kind == FileType::File => fs.truncate(path, 0),
        _ => Ok(()),
    }
}
