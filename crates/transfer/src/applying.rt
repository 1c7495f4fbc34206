//! The calls of a transfer whose work may wait to become durable, one by one.

ghost use Rattle.model.specs.Replies.{IsReplyTo};

use model::{Bytes, Command, Errno, PathCall, Reply, TRANSFER_BYTES, Text};
use mount::{Fs, Waiting};
use station::Station;

/// What reads files of snapshots: a file system, or one whose commands may wait.
pub trait ReadsKept {
    /// Bytes of a file in a snapshot from this one on: as many as one call reads, fewer at the
    /// file's end.
    fn read_kept(&mut self, snapshot: &[u8], path: &[u8], offset: u64) -> Result<Text, Errno>;
}

impl<S: Station> ReadsKept for Fs<S> {
    fn read_kept(&mut self, snapshot: &[u8], path: &[u8], offset: u64) -> Result<Text, Errno> {
        let Ok(offset) = i64::try_from(offset) else {
            return Err(Errno::EINVAL);
        };
        self.get_in(snapshot, path, offset, TRANSFER_BYTES as u32)
    }
}

impl<S: Station> ReadsKept for Waiting<S> {
    fn read_kept(&mut self, snapshot: &[u8], path: &[u8], offset: u64) -> Result<Text, Errno> {
        let Ok(offset) = i64::try_from(offset) else {
            return Err(Errno::EINVAL);
        };
        get_in(self, snapshot, path, offset)
    }
}

/// As many bytes of a file in a snapshot as one call reads.
fn get_in<S: Station>(
    files: &mut Waiting<S>,
    snapshot: &[u8],
    path: &[u8],
    offset: i64,
) -> Result<Text, Errno> {
    let command = Command::Within {
        name: Bytes::of(snapshot),
        call: PathCall::Get {
            path: Bytes::of(path),
            offset,
            count: TRANSFER_BYTES as u32,
        },
    };
    match apply(files, command) {
        Reply::Data(bytes) => Ok(bytes),
        Reply::Refused(errno) => Err(errno),
        _ => unreachable!(),
    }
}

/// Writes bytes at this one of an open file. DAMAGED where not all were, which comes only over an
/// image that opens to no state.
pub fn write_at<S: Station>(
    files: &mut Waiting<S>,
    fd: u32,
    offset: u64,
    bytes: &[u8],
) -> Result<(), Errno> {
    let Ok(offset) = i64::try_from(offset) else {
        return Err(Errno::EFBIG);
    };
    let data = Bytes::of(bytes);
    match apply(files, Command::Pwrite { fd, offset, data }) {
        Reply::Wrote(count) if count as usize == bytes.len() => Ok(()),
        Reply::Refused(errno) => Err(errno),
        _ => Err(Errno::DAMAGED),
    }
}

/// Gives an open file a size: what it hasn't of that yet are zeros, for which no block is stored.
pub fn set_size<S: Station>(files: &mut Waiting<S>, fd: u32, size: u64) -> Result<(), Errno> {
    let Ok(size) = i64::try_from(size) else {
        return Err(Errno::EFBIG);
    };
    match apply(files, Command::Ftruncate { fd, size }) {
        Reply::Done => Ok(()),
        Reply::Refused(errno) => Err(errno),
        _ => unreachable!(),
    }
}

/// Applies a command, which may wait, and lets it go.
fn apply<S: Station>(files: &mut Waiting<S>, command: Command<'_>) -> Reply
    ensures { IsReplyTo command.entry result }
{
    files.apply(&command)
}
