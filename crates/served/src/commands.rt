//! The commands that requests come to.

ghost use Rattle.std.specs.Prelude.{◌≡◌, false, true};
ghost use Rattle.model.specs.declared.command.Command.TheVariants as command;
ghost use Rattle.model.specs.declared.command.PathCall.TheVariants as call;
ghost use Rattle.model.specs.declared.limits.TheConstants.{OPEN_FILES};
ghost use Rattle.served.specs.Commands.{lstat, moving, opening, removing};

use crate::removing::NO_REPLACE;
use model::{Access, Bytes, Command, Flags, Mode, OPEN_FILES, PathCall, Settings};

/// What has a path, itself.
pub(crate) fn lstat(path: &[u8]) -> Command<'_>
    ensures { result ≡ lstat path.now }
{
    Command::Path(PathCall::Lstat {
        path: Bytes::of(path),
    })
}

/// What has a path in a snapshot, itself.
pub(crate) fn lstat_within<'a>(name: &'a [u8], path: &'a [u8]) -> Command<'a>
    ensures { result ≡ command.Within name.now (call.Lstat path.now) }
{
    Command::Within {
        name: Bytes::of(name),
        call: PathCall::Lstat {
            path: Bytes::of(path),
        },
    }
}

/// What of a file is stored, told from an offset on.
pub(crate) fn extent(path: &[u8], offset: i64) -> Command<'_>
    ensures { result ≡ command.Extent path.now offset }
{
    Command::Extent {
        path: Bytes::of(path),
        offset,
    }
}

/// The text of a link.
pub(crate) fn readlink(path: &[u8]) -> Command<'_>
    ensures { result ≡ command.Path (call.Readlink path.now) }
{
    Command::Path(PathCall::Readlink {
        path: Bytes::of(path),
    })
}

/// The text of a link in a snapshot.
pub(crate) fn readlink_within<'a>(name: &'a [u8], path: &'a [u8]) -> Command<'a>
    ensures { result ≡ command.Within name.now (call.Readlink path.now) }
{
    Command::Within {
        name: Bytes::of(name),
        call: PathCall::Readlink {
            path: Bytes::of(path),
        },
    }
}

/// A mode and a size.
pub(crate) fn set(path: &[u8], settings: Settings) -> Command<'_>
    ensures { result ≡ command.Path (call.Set path.now settings) }
{
    Command::Path(PathCall::Set {
        path: Bytes::of(path),
        settings,
    })
}

/// A new directory.
pub(crate) fn mkdir(path: &[u8], mode: Mode) -> Command<'_>
    ensures { result ≡ command.Path (call.Mkdir path.now mode) }
{
    Command::Path(PathCall::Mkdir {
        path: Bytes::of(path),
        mode,
    })
}

/// A new link.
pub(crate) fn symlink<'a>(text: &'a [u8], path: &'a [u8]) -> Command<'a>
    ensures { result ≡ command.Path (call.Symlink text.now path.now) }
{
    Command::Path(PathCall::Symlink {
        text: Bytes::of(text),
        path: Bytes::of(path),
    })
}

/// How files are opened: for reading and for writing, since the kernel reads through what writes.
fn flags(creates: bool, exclusive: bool) -> Flags
    ensures { result ≡ opening creates exclusive }
{
    Flags {
        access: Access::Both,
        creates,
        exclusive,
        truncates: false,
        appends: false,
    }
}

/// A file that is made, opened and told.
pub(crate) fn open_stat(path: &[u8], exclusive: bool, mode: Mode) -> Command<'_>
    ensures { result ≡ command.OpenStat path.now (opening true exclusive) mode OPEN_FILES }
{
    Command::OpenStat {
        path: Bytes::of(path),
        flags: flags(true, exclusive),
        mode,
        below: OPEN_FILES,
    }
}

/// A file that is opened.
pub(crate) fn open(path: &[u8], mode: Mode) -> Command<'_>
    ensures { result ≡ command.Open path.now (opening false false) mode OPEN_FILES }
{
    Command::Open {
        path: Bytes::of(path),
        flags: flags(false, false),
        mode,
        below: OPEN_FILES,
    }
}

/// One more name.
pub(crate) fn link<'a>(old: &'a [u8], new: &'a [u8]) -> Command<'a>
    ensures { result ≡ command.Path (call.Link old.now new.now) }
{
    Command::Path(PathCall::Link {
        old: Bytes::of(old),
        new: Bytes::of(new),
    })
}

/// A name that is taken away, of a directory or of something else.
pub(crate) fn removing(path: &[u8], is_directory: bool) -> Command<'_>
    ensures { result ≡ command.Path (removing path.now is_directory) }
{
    if is_directory {
        Command::Path(PathCall::Rmdir {
            path: Bytes::of(path),
        })
    } else {
        Command::Path(PathCall::Unlink {
            path: Bytes::of(path),
        })
    }
}

/// A name that is moved, as the flags of `renameat2` have it.
pub(crate) fn moving<'a>(flags: u32, old: &'a [u8], new: &'a [u8]) -> Command<'a>
    ensures { result ≡ command.Path (moving flags old.now new.now) }
{
    if flags == NO_REPLACE {
        Command::Path(PathCall::RenameNew {
            old: Bytes::of(old),
            new: Bytes::of(new),
        })
    } else {
        Command::Path(PathCall::Rename {
            old: Bytes::of(old),
            new: Bytes::of(new),
        })
    }
}

/// Bytes of a file in a snapshot.
pub(crate) fn get_within<'a>(name: &'a [u8], path: &'a [u8], offset: i64, count: u32) -> Command<'a>
    ensures { result ≡ command.Within name.now (call.Get path.now offset count) }
{
    Command::Within {
        name: Bytes::of(name),
        call: PathCall::Get {
            path: Bytes::of(path),
            offset,
            count,
        },
    }
}

/// Bytes for an open file.
pub(crate) fn pwrite(fd: u32, offset: i64, bytes: &[u8]) -> Command<'_>
    ensures { result ≡ command.Pwrite fd offset bytes.now }
{
    Command::Pwrite {
        fd,
        offset,
        data: Bytes::of(bytes),
    }
}

/// Names in a directory.
pub(crate) fn entries(path: &[u8], after: i64, count: u32) -> Command<'_>
    ensures { result ≡ command.Path (call.Entries path.now after count) }
{
    Command::Path(PathCall::Entries {
        path: Bytes::of(path),
        after,
        count,
    })
}

/// Names in a directory of a snapshot.
pub(crate) fn entries_within<'a>(
    name: &'a [u8],
    path: &'a [u8],
    after: i64,
    count: u32,
) -> Command<'a>
    ensures { result ≡ command.Within name.now (call.Entries path.now after count) }
{
    Command::Within {
        name: Bytes::of(name),
        call: PathCall::Entries {
            path: Bytes::of(path),
            after,
            count,
        },
    }
}

/// A snapshot that is taken.
pub(crate) fn snap_take(name: &[u8]) -> Command<'_>
    ensures { result ≡ command.SnapTake name.now }
{
    Command::SnapTake {
        name: Bytes::of(name),
    }
}

/// A snapshot that is deleted.
pub(crate) fn snap_delete(name: &[u8]) -> Command<'_>
    ensures { result ≡ command.SnapDelete name.now }
{
    Command::SnapDelete {
        name: Bytes::of(name),
    }
}
