//! The limits of a file system, and the numbers that each has.

use crate::Costs;

/// What a file system may hold. Its images' version and sizes decide it when they are made, and no
/// command changes it.
#[derive(Clone, Copy, Debug, PartialEq, Eq)]
pub struct Limits {
    /// Inode numbers are below this.
    pub inodes: u32,
    /// Greatest length of a file in bytes.
    pub file_bytes: u64,
    /// Greatest number of names of one file.
    pub file_names: u32,
    /// Greatest number of names in one directory.
    pub directory_names: u32,
    /// Greatest length in bytes of a path, and of a symbolic link's text, which is one.
    pub path_bytes: u32,
    /// Greatest number of snapshots.
    pub snapshots: u32,
    /// The fewest blocks of its disk.
    pub least_blocks: u32,
    /// Whether objects have owners, times and a generation beside their mode.
    pub has_attributes: bool,
    /// What its records cost.
    pub costs: Costs,
}

/// The root directory's inode number.
pub const ROOT_NUMBER: u32 = 3;

/// The least inode number that a new object may take: those below are the file system's own.
pub const FIRST_NUMBER: u32 = 4;

/// Greatest length of a name in bytes.
pub const NAME_BYTES: usize = 255;

/// So many symbolic links are followed in one resolution, and no more.
pub const LINKS_FOLLOWED: u32 = 8;

/// Greatest number of names that `entries` is asked for at once.
pub const ENTRIES_TOLD: u32 = 1024;

/// Descriptors are below this number.
pub const OPEN_FILES: u32 = 65_536;

/// Descriptors of a session of lines are below this number.
pub const SESSION_FILES: u32 = 32;

/// Greatest number of bytes that one call reads or writes, and so of those that a record of the log
/// writes.
pub const TRANSFER_BYTES: usize = 65_536;

/// Greatest offset of an open file.
pub const GREATEST_OFFSET: u64 = 9_223_372_036_854_775_807;

/// Greatest generation of a number: it stays there.
pub const GREATEST_GENERATION: u32 = 4_294_967_295;

/// Greatest length of a snapshot's name in bytes.
pub const SNAPSHOT_NAME_BYTES: usize = 63;

/// The twelve mode bits, as in `st_mode` of POSIX.1-2017.
pub const MODE_BITS: u16 = 0o7777;

/// The mode of each symbolic link.
pub const LINK_MODE: u16 = 0o777;

/// Greatest number of an owner, and of a group.
pub const GREATEST_OWNER: u32 = 4_294_967_295;

/// Greatest count of objects that were ever made.
pub const MOST_CREATIONS: u64 = 18_446_744_073_709_551_615;

/// Greatest number of nanoseconds behind a time's seconds.
pub const MOST_NANOSECONDS: u32 = 999_999_999;
