//! What is answered.

use fuse::{Attributes, Entry, InitReply, OpenReply, StatfsReply};
use model::{Errno, Text};

/// What is answered to a request.
#[derive(Debug, Drop)]
pub(crate) enum Answer {
    /// Nothing: the request has no reply.
    Silent,
    Done,
    /// Refused by the file system, or by the server for the same reason.
    Refused(Errno),
    /// The server doesn't do it (ENOSYS).
    NotServed,
    /// There is no data, or no hole, from there on (ENXIO).
    NothingBehind,
    /// The kernel speaks another version (EPROTO).
    OtherVersion,
    /// Nothing has the name.
    NoEntry,
    Entry(Entry),
    Attributes(Attributes),
    /// Bytes of a file, of a link's text, or of a listing.
    Bytes(Text),
    Wrote(u32),
    Opened(OpenReply),
    Created(Entry, OpenReply),
    Space(StatfsReply),
    Offset(u64),
    Agreed(InitReply),
}
