//! Calls that name a path. A path that leads to nothing is ENOENT, and where it begins at a number
//! that no object has ESTALE; docs/COMMANDS.md says which other refusals come, and in what order.

ghost use Rattle.std.specs.Prelude.{true, false};
ghost use Rattle.model.specs.declared.command.Command.{Command};
ghost use Rattle.model.specs.declared.command.PathCall.{PathCall};
ghost use Rattle.model.specs.declared.reply.Reply.{Reply};
ghost use Rattle.mount.specs.Applying.{AppliesCommand, attributes_reply, done_reply, reply_of};

use crate::Fs;
use model::{
    Attributes, Bytes, Command, Entries, Errno, Extent, Mode, Names, NewTime, PathCall, Settings,
    Stat, Text,
};
use station::Station;

impl<S: Station> Fs<S> {
    /// `list`: the names in the directory that a path leads to, sorted by their bytes. ENOTDIR
    /// where that is none.
    pub fn list(&mut self, path: &[u8]) -> Result<Names, Errno>
        ensures { AppliesCommand self.old self.new (Command.Path (PathCall.List path.now))
            (reply_of Reply.Names result) }
    {
        self.apply_for_names(Command::Path(PathCall::List {
            path: Bytes::of(path),
        }))
    }

    /// `entries`: of the directory that a path leads to, the names behind a cookie, in the order of
    /// their cookies: at least so many where there are as many, and all of a cookie where there is
    /// one of it; each with its cookie and what `lstat` tells of it. A first call is behind the
    /// cookie 0, and further ones behind the last cookie of the one before. EINVAL where the cookie
    /// is negative, or none or more than 1,024 are asked for, ENOTDIR where the path leads to no
    /// directory.
    pub fn entries(&mut self, path: &[u8], after: i64, count: u32) -> Result<Entries, Errno>
        ensures { AppliesCommand self.old self.new
            (Command.Path (PathCall.Entries path.now after count)) (reply_of Reply.Entries result) }
    {
        self.apply_for_entries(Command::Path(PathCall::Entries {
            path: Bytes::of(path),
            after,
            count,
        }))
    }

    /// `stat`: what a path leads to. A last link is followed.
    pub fn stat(&mut self, path: &[u8]) -> Result<Stat, Errno>
        ensures { AppliesCommand self.old self.new (Command.Path (PathCall.Stat path.now))
            (reply_of Reply.Stat result) }
    {
        self.apply_for_stat(Command::Path(PathCall::Stat {
            path: Bytes::of(path),
        }))
    }

    /// `lstat`: what has a path, a link itself.
    pub fn lstat(&mut self, path: &[u8]) -> Result<Stat, Errno>
        ensures { AppliesCommand self.old self.new (Command.Path (PathCall.Lstat path.now))
            (reply_of Reply.Stat result) }
    {
        self.apply_for_stat(Command::Path(PathCall::Lstat {
            path: Bytes::of(path),
        }))
    }

    /// `attr`: what `stat` tells, and the attributes. A last link is followed. ENOTSUP where none are
    /// kept.
    pub fn attr(&mut self, path: &[u8]) -> Result<(Stat, Attributes), Errno>
        ensures { AppliesCommand self.old self.new (Command.Path (PathCall.Attr path.now true))
            (reply_of attributes_reply result) }
    {
        self.apply_for_attributes(Command::Path(PathCall::Attr {
            path: Bytes::of(path),
            follows: true,
        }))
    }

    /// `lattr`: the same of a link itself.
    pub fn lattr(&mut self, path: &[u8]) -> Result<(Stat, Attributes), Errno>
        ensures { AppliesCommand self.old self.new (Command.Path (PathCall.Attr path.now false))
            (reply_of attributes_reply result) }
    {
        self.apply_for_attributes(Command::Path(PathCall::Attr {
            path: Bytes::of(path),
            follows: false,
        }))
    }

    /// `readlink`: the text of a link. EINVAL where the path leads to none.
    pub fn readlink(&mut self, path: &[u8]) -> Result<Text, Errno>
        ensures { AppliesCommand self.old self.new (Command.Path (PathCall.Readlink path.now))
            (reply_of Reply.Text result) }
    {
        self.apply_for_text(Command::Path(PathCall::Readlink {
            path: Bytes::of(path),
        }))
    }

    /// `get`: so many bytes of a file from this one on, as far as there are. EINVAL where the
    /// offset is negative or more than 65,536 bytes are asked for, EISDIR of a directory.
    pub fn get(&mut self, path: &[u8], offset: i64, count: u32) -> Result<Text, Errno>
        ensures { AppliesCommand self.old self.new
            (Command.Path (PathCall.Get path.now offset count)) (reply_of Reply.Data result) }
    {
        self.apply_for_data(Command::Path(PathCall::Get {
            path: Bytes::of(path),
            offset,
            count,
        }))
    }

    /// `extent`: how many blocks of a file are stored, each of 4,096 bytes, and where its next data
    /// and its next hole are from this offset on. What isn't stored reads as zeros. EINVAL where the
    /// offset is negative, EISDIR of a directory.
    pub fn extent(&mut self, path: &[u8], offset: i64) -> Result<Extent, Errno>
        ensures { AppliesCommand self.old self.new (Command.Extent path.now offset)
            (reply_of Reply.Extent result) }
    {
        self.apply_for_extent(Command::Extent {
            path: Bytes::of(path),
            offset,
        })
    }

    /// `mkdir`: makes a directory. EEXIST where something is there.
    pub fn mkdir(&mut self, path: &[u8], mode: Mode) -> Result<(), Errno>
        ensures { AppliesCommand self.old self.new (Command.Path (PathCall.Mkdir path.now mode))
            (reply_of done_reply result) }
    {
        self.apply_for_done(Command::Path(PathCall::Mkdir {
            path: Bytes::of(path),
            mode,
        }))
    }

    /// `rmdir`: removes an empty directory. ENOTDIR where it is none, ENOTEMPTY where it has names,
    /// EBUSY of the root.
    pub fn rmdir(&mut self, path: &[u8]) -> Result<(), Errno>
        ensures { AppliesCommand self.old self.new (Command.Path (PathCall.Rmdir path.now))
            (reply_of done_reply result) }
    {
        self.apply_for_done(Command::Path(PathCall::Rmdir {
            path: Bytes::of(path),
        }))
    }

    /// `unlink`: removes a name of a file, and with its last one the file; or a link. EPERM of a
    /// directory.
    pub fn unlink(&mut self, path: &[u8]) -> Result<(), Errno>
        ensures { AppliesCommand self.old self.new (Command.Path (PathCall.Unlink path.now))
            (reply_of done_reply result) }
    {
        self.apply_for_done(Command::Path(PathCall::Unlink {
            path: Bytes::of(path),
        }))
    }

    /// `link`: gives a file one more name. EPERM of a directory or a link, EEXIST where something
    /// has that name, EMLINK where the file has 1,000.
    pub fn link(&mut self, old: &[u8], new: &[u8]) -> Result<(), Errno>
        ensures { AppliesCommand self.old self.new (Command.Path (PathCall.Link old.now new.now))
            (reply_of done_reply result) }
    {
        self.apply_for_done(Command::Path(PathCall::Link {
            old: Bytes::of(old),
            new: Bytes::of(new),
        }))
    }

    /// `symlink`: makes a symbolic link of this text. EEXIST where something is there.
    pub fn symlink(&mut self, text: &[u8], path: &[u8]) -> Result<(), Errno>
        ensures { AppliesCommand self.old self.new
            (Command.Path (PathCall.Symlink text.now path.now)) (reply_of done_reply result) }
    {
        self.apply_for_done(Command::Path(PathCall::Symlink {
            text: Bytes::of(text),
            path: Bytes::of(path),
        }))
    }

    /// `rename`: gives an object another name, in one step; what had that name is gone.
    pub fn rename(&mut self, old: &[u8], new: &[u8]) -> Result<(), Errno>
        ensures { AppliesCommand self.old self.new (Command.Path (PathCall.Rename old.now new.now))
            (reply_of done_reply result) }
    {
        self.apply_for_done(Command::Path(PathCall::Rename {
            old: Bytes::of(old),
            new: Bytes::of(new),
        }))
    }

    /// `renamenew`: the same, but EEXIST where anything has that name, and then nothing changes.
    pub fn rename_new(&mut self, old: &[u8], new: &[u8]) -> Result<(), Errno>
        ensures { AppliesCommand self.old self.new
            (Command.Path (PathCall.RenameNew old.now new.now)) (reply_of done_reply result) }
    {
        self.apply_for_done(Command::Path(PathCall::RenameNew {
            old: Bytes::of(old),
            new: Bytes::of(new),
        }))
    }

    /// `chmod`: gives this mode to a file or a directory. A last link is followed.
    pub fn chmod(&mut self, path: &[u8], mode: Mode) -> Result<(), Errno>
        ensures { AppliesCommand self.old self.new (Command.Path (PathCall.Chmod path.now mode))
            (reply_of done_reply result) }
    {
        self.apply_for_done(Command::Path(PathCall::Chmod {
            path: Bytes::of(path),
            mode,
        }))
    }

    /// `chown`: gives what a path leads to this owner and this group, each where one is given. A last
    /// link is followed. ENOTSUP where the file system keeps no owners.
    pub fn chown(
        &mut self,
        path: &[u8],
        owner: Option<u32>,
        group: Option<u32>,
    ) -> Result<(), Errno>
        ensures { AppliesCommand self.old self.new
            (Command.Path (PathCall.Chown path.now true owner group)) (reply_of done_reply result) }
    {
        self.apply_for_done(Command::Path(PathCall::Chown {
            path: Bytes::of(path),
            follows: true,
            owner,
            group,
        }))
    }

    /// `lchown`: the same of what has a path, a link itself.
    pub fn lchown(
        &mut self,
        path: &[u8],
        owner: Option<u32>,
        group: Option<u32>,
    ) -> Result<(), Errno>
        ensures { AppliesCommand self.old self.new
            (Command.Path (PathCall.Chown path.now false owner group)) (reply_of done_reply result) }
    {
        self.apply_for_done(Command::Path(PathCall::Chown {
            path: Bytes::of(path),
            follows: false,
            owner,
            group,
        }))
    }

    /// `utimens`: gives the data of what a path leads to this time. A last link is followed. ENOTSUP
    /// where the file system keeps no times, EINVAL where the nanoseconds aren't below a second.
    pub fn utimens(&mut self, path: &[u8], time: NewTime) -> Result<(), Errno>
        ensures { AppliesCommand self.old self.new
            (Command.Path (PathCall.Utimens path.now true time)) (reply_of done_reply result) }
    {
        self.apply_for_done(Command::Path(PathCall::Utimens {
            path: Bytes::of(path),
            follows: true,
            time,
        }))
    }

    /// `lutimens`: the same of what has a path, a link itself.
    pub fn lutimens(&mut self, path: &[u8], time: NewTime) -> Result<(), Errno>
        ensures { AppliesCommand self.old self.new
            (Command.Path (PathCall.Utimens path.now false time)) (reply_of done_reply result) }
    {
        self.apply_for_done(Command::Path(PathCall::Utimens {
            path: Bytes::of(path),
            follows: false,
            time,
        }))
    }

    /// `truncate`: gives a file this size in bytes: cuts off the last ones, or adds zeros. EINVAL
    /// of a negative size, EFBIG of a greater one than a file may have, EISDIR of a directory.
    pub fn truncate(&mut self, path: &[u8], size: i64) -> Result<(), Errno>
        ensures { AppliesCommand self.old self.new (Command.Path (PathCall.Truncate path.now size))
            (reply_of done_reply result) }
    {
        self.apply_for_done(Command::Path(PathCall::Truncate {
            path: Bytes::of(path),
            size,
        }))
    }

    /// `set`: gives a file or a directory this mode and this size in bytes, as far as they are given,
    /// all of it or none: a power cut leaves no part. A last link is followed. EINVAL of a negative
    /// size, EFBIG of a greater one than a file may have, EISDIR of a directory's size.
    pub fn set(&mut self, path: &[u8], settings: Settings) -> Result<(), Errno>
        ensures { AppliesCommand self.old self.new (Command.Path (PathCall.Set path.now settings))
            (reply_of done_reply result) }
    {
        self.apply_for_done(Command::Path(PathCall::Set {
            path: Bytes::of(path),
            settings,
        }))
    }

    /// `store`: puts bytes into the file that a path leads to, as `pwrite` puts them there, and tells
    /// how many. EINVAL where the offset is negative or these are more than 65,536, EFBIG where the
    /// file would be too large, EISDIR of a directory.
    pub fn store(&mut self, path: &[u8], offset: i64, bytes: &[u8]) -> Result<u32, Errno>
        ensures { AppliesCommand self.old self.new
            (Command.Path (PathCall.Store path.now offset bytes.now)) (reply_of Reply.Wrote result) }
    {
        self.apply_for_written(Command::Path(PathCall::Store {
            path: Bytes::of(path),
            offset,
            data: Bytes::of(bytes),
        }))
    }
}
