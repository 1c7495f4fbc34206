//! What a request asks.

use crate::attribute_changes::AttributeChanges;
use crate::forgets::Forgets;

/// What a request asks of its node: a directory where a name is given, else what it speaks of.
/// Flags are as `open` has them, if nothing else is said; a handle is the number that the reply to
/// `Open`, `OpenDirectory` or `Create` gave.
#[derive(Clone, Copy)]
pub enum Operation<'a> {
    /// What has this name.
    Lookup {
        name: &'a [u8],
    },
    /// The kernel drops so many of the times that it was told of the node. It has no reply.
    Forget {
        lookups: u64,
    },
    /// The same of several nodes. It has no reply.
    BatchForget {
        forgets: Forgets<'a>,
    },
    /// The node's attributes, seen through the handle where one is given.
    GetAttributes {
        handle: Option<u64>,
    },
    SetAttributes {
        changes: AttributeChanges,
    },
    /// The text of a symbolic link.
    ReadLink,
    /// Makes a symbolic link.
    SymbolicLink {
        name: &'a [u8],
        text: &'a [u8],
    },
    /// Makes a file, or what else the mode says. `mode` has the bits of the kind; the mask was
    /// taken off it.
    MakeNode {
        name: &'a [u8],
        mode: u32,
        device: u32,
        umask: u32,
    },
    MakeDirectory {
        name: &'a [u8],
        mode: u32,
        umask: u32,
    },
    /// Takes the name of what is no directory away.
    Unlink {
        name: &'a [u8],
    },
    RemoveDirectory {
        name: &'a [u8],
    },
    /// Moves what has the name to the new one, in the directory `new_parent`. The flags are those
    /// of `renameat2`; none where the opcode has no field for them.
    Rename {
        name: &'a [u8],
        new_parent: u64,
        new_name: &'a [u8],
        flags: u32,
    },
    /// Gives `node` one more name.
    Link {
        name: &'a [u8],
        node: u64,
    },
    Open {
        flags: u32,
        /// The protocol's own (`FUSE_OPEN_..`), here as in what else opens something.
        open_flags: u32,
    },
    /// Up to `size` bytes of a file, from the offset on.
    Read {
        handle: u64,
        offset: u64,
        size: u32,
        /// `FUSE_READ_..`.
        read_flags: u32,
        flags: u32,
    },
    /// Writes the bytes to a file, from the offset on.
    Write {
        handle: u64,
        offset: u64,
        bytes: &'a [u8],
        /// `FUSE_WRITE_..`.
        write_flags: u32,
        flags: u32,
    },
    /// Sizes and counts of the whole file system.
    StatFileSystem,
    /// The last descriptor of an open file is closed.
    Release {
        handle: u64,
        flags: u32,
        /// `FUSE_RELEASE_..`.
        release_flags: u32,
    },
    /// Makes the file durable; its bytes alone, if `data_only`.
    Sync {
        handle: u64,
        data_only: bool,
    },
    /// One descriptor of an open file is closed.
    Flush {
        handle: u64,
    },
    /// The first request: the kernel's version of the protocol, the most bytes that it reads ahead,
    /// and what it can do (the lower 32 bits of `FUSE_..` of INIT).
    Init {
        major: u32,
        minor: u32,
        max_readahead: u32,
        flags: u32,
    },
    OpenDirectory {
        flags: u32,
        open_flags: u32,
    },
    /// Entries of a directory in up to `size` bytes, from the one on that follows the offset.
    ReadDirectory {
        handle: u64,
        offset: u64,
        size: u32,
    },
    /// The same, each with what its name leads to.
    ReadDirectoryPlus {
        handle: u64,
        offset: u64,
        size: u32,
    },
    ReleaseDirectory {
        handle: u64,
    },
    SyncDirectory {
        handle: u64,
        data_only: bool,
    },
    /// Whether the process may do this: a mask of `access`.
    Access {
        mask: u32,
    },
    /// Makes a file and opens it.
    Create {
        name: &'a [u8],
        mode: u32,
        umask: u32,
        flags: u32,
        open_flags: u32,
    },
    /// The kernel no longer waits for the request of this number. It has no reply.
    Interrupt {
        unique: u64,
    },
    /// Where data or a hole begins, from the offset on; `whence` is that of `lseek`.
    Seek {
        handle: u64,
        offset: u64,
        whence: u32,
    },
    /// The file system is unmounted.
    Destroy,
    /// What a `retrieval` asked for: it comes behind all requests that waited then. It has no reply.
    Retrieved,
    /// Anything else, by its opcode.
    Other {
        opcode: u32,
    },
}
