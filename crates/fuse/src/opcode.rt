//! What a request may ask, by number (`enum fuse_opcode`), and the bits of its flags that are read.

pub const LOOKUP: u32 = 1;

pub const FORGET: u32 = 2;

pub const GETATTR: u32 = 3;

pub const SETATTR: u32 = 4;

pub const READLINK: u32 = 5;

pub const SYMLINK: u32 = 6;

pub const MKNOD: u32 = 8;

pub const MKDIR: u32 = 9;

pub const UNLINK: u32 = 10;

pub const RMDIR: u32 = 11;

pub const RENAME: u32 = 12;

pub const LINK: u32 = 13;

pub const OPEN: u32 = 14;

pub const READ: u32 = 15;

pub const WRITE: u32 = 16;

pub const STATFS: u32 = 17;

pub const RELEASE: u32 = 18;

pub const FSYNC: u32 = 20;

pub const FLUSH: u32 = 25;

pub const INIT: u32 = 26;

pub const OPENDIR: u32 = 27;

pub const READDIR: u32 = 28;

pub const RELEASEDIR: u32 = 29;

pub const FSYNCDIR: u32 = 30;

pub const ACCESS: u32 = 34;

pub const CREATE: u32 = 35;

pub const INTERRUPT: u32 = 36;

pub const DESTROY: u32 = 38;

/// What the kernel sends behind a notification, and no request.
pub const NOTIFY_REPLY: u32 = 41;

pub const BATCH_FORGET: u32 = 42;

pub const READDIRPLUS: u32 = 44;

pub const RENAME2: u32 = 45;

pub const LSEEK: u32 = 46;

/// In the flags of `GETATTR`: the handle is given.
pub const GETATTR_FH: u32 = 1;

/// In the flags of `FSYNC` and `FSYNCDIR`: the bytes alone, and not what is told of the file.
pub const FSYNC_FDATASYNC: u32 = 1;

/// In the protocol's own flags of `OPEN` and `CREATE`: the set-user bit goes, and the set-group bit
/// of what the group may execute.
pub const OPEN_KILL_SUIDGID: u32 = 1;
/// The same in those of `WRITE`.
pub const WRITE_KILL_SUIDGID: u32 = 1 << 2;

/// In `valid` of `SETATTR`: the mode is given, and so on for each that may be.
pub const FATTR_MODE: u32 = 1;

pub const FATTR_UID: u32 = 1 << 1;

pub const FATTR_GID: u32 = 1 << 2;

pub const FATTR_SIZE: u32 = 1 << 3;

pub const FATTR_ATIME: u32 = 1 << 4;

pub const FATTR_MTIME: u32 = 1 << 5;

pub const FATTR_FH: u32 = 1 << 6;
/// The time of the last reading is now, whatever stands in its field.
pub const FATTR_ATIME_NOW: u32 = 1 << 7;
/// The same of the last writing.
pub const FATTR_MTIME_NOW: u32 = 1 << 8;

pub const FATTR_CTIME: u32 = 1 << 10;
/// The set-user bit goes, and the set-group bit of what the group may execute.
pub const FATTR_KILL_SUIDGID: u32 = 1 << 11;
