//! The requests and replies of the kernel's protocol for file systems in user space (FUSE, version
//! 7.31), as bytes. The source is `include/uapi/linux/fuse.h` of the kernel. Nothing here knows a
//! file system or a device. All numbers are little-endian. `recorded.txt` has requests that a
//! kernel sent, each with what it asks.
#![tactic(auto)]

mod attribute_changes;
mod attributes;
mod bodies;
mod directory;
mod entry_reply;
mod flags;
mod forgets;
mod head;
mod init_reply;
mod name;
mod opcode;
mod open_reply;
mod operation;
mod reply;
mod request;
mod retrieving;
mod statfs_reply;
mod time;

pub use attribute_changes::{AttributeChanges, Moment};
pub use attributes::{ATTRIBUTES_BYTES, Attributes, ENTRY_BYTES, Entry};
pub use directory::{
    LISTED_HEAD_BYTES, LISTED_NAME_BYTES, Listed, ListedKind, list_entry, list_entry_plus,
    listed_len,
};
pub use entry_reply::{write_attributes, write_entry, write_no_entry};
pub use forgets::{Forget, Forgets};
pub use head::{Head, read_head};
pub use init_reply::{
    ASYNC_DIO, ASYNC_READ, ATOMIC_O_TRUNC, BIG_WRITES, CACHE_SYMLINKS, DO_READDIRPLUS,
    HANDLE_KILLPRIV_V2, InitReply, MAJOR_VERSION, MAX_PAGES, MINOR_VERSION, PARALLEL_DIROPS,
    READDIRPLUS_AUTO, write_init,
};
pub use opcode::{NOTIFY_REPLY, OPEN_KILL_SUIDGID, WRITE_KILL_SUIDGID};
pub use open_reply::{
    FOPEN_CACHE_DIR, FOPEN_DIRECT_IO, FOPEN_KEEP_CACHE, OpenReply, write_created, write_open,
};
pub use operation::Operation;
pub use reply::{
    MOST_ERRNO, REPLY_HEAD_BYTES, error_bytes, write_bytes, write_count, write_done, write_error,
    write_offset,
};
pub use request::{Request, read_request};
pub use retrieving::{NOTIFY_RETRIEVE, RETRIEVAL_BYTES, retrieval};
pub use statfs_reply::{StatfsReply, write_statfs};
pub use time::{Time, Timeout};
