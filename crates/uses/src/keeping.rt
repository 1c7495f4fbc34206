//! A note kept in a file system, and read back.

ghost use Rattle.station.specs.Moments.{IsSameStation};
ghost use Rattle.uses.specs.Using.{KeepsNote};

use model::{Access, Errno, Flags, Mode, TRANSFER_BYTES, Text};
use mount::{Fs, MakeError, MountError, make, mount};
use station::Station;
use std::alloc::Global;

/// Why no note was kept.
#[derive(Clone, Copy, Debug)]
pub(crate) enum Trouble {
    /// No image was made.
    Make(MakeError),
    /// It wasn't mounted.
    Mount(MountError),
    /// A call was refused.
    Call(Errno),
}

/// A new file is made, read and written.
const NEW: Flags = Flags {
    access: Access::Both,
    creates: true,
    exclusive: true,
    truncates: false,
    appends: false,
};

/// Makes a directory and a file on a mounted file system, writes a note there, reads it back, and
/// takes a snapshot. These six commands led there, or the first of them up to one that was refused;
/// each is durable once it is answered.
pub(crate) fn keep_note<S: Station>(fs: &mut Fs<S>, note: &[u8]) -> Result<Text, Errno>
    ensures { KeepsNote note.now fs.old fs.new result }
{
    fs.begins();
    fs.mkdir(b"/notes", Mode::new(0o755).unwrap())?;
    let fd = fs.open(b"/notes/first", NEW, Mode::new(0o600).unwrap())?;
    fs.write(fd, note)?;
    let kept = fs.pread(fd, 0, TRANSFER_BYTES as u32)?;
    fs.close(fd)?;
    fs.snap_take(b"first")?;
    Ok(kept)
}

/// Makes an image of 64 blocks on a station, mounts it, keeps a note there, and gives the station
/// back, whatever came in the way.
pub(crate) fn keep_on_new_image<S: Station>(
    alloc: Global,
    station: S,
    note: &[u8],
) -> (Result<Text, Trouble>, S)
    ensures { IsSameStation (S.meaning station) (S.meaning result.1) }
{
    let station = match make(alloc, station, 64, 32, 131_072) {
        Ok(station) => station,
        Err((error, station)) => return (Err(Trouble::Make(error)), station),
    };
    let mut fs = match mount(alloc, station) {
        Ok(fs) => fs,
        Err((error, station)) => return (Err(Trouble::Mount(error)), station),
    };
    match keep_note(&mut fs, note) {
        Ok(kept) => (Ok(kept), fs.into_station()),
        Err(errno) => (Err(Trouble::Call(errno)), fs.into_station()),
    }
}
