//! Calls on open files. A descriptor that isn't open is EBADF, as is one that isn't for what is
//! asked.

ghost use Rattle.model.specs.declared.command.Command.{Command};
ghost use Rattle.model.specs.declared.limits.TheConstants.{OPEN_FILES};
ghost use Rattle.model.specs.declared.reply.Reply.{Reply};
ghost use Rattle.mount.specs.Applying.{AppliesCommand, attributes_reply, done_reply, opened_reply, reply_of};

use crate::Fs;
use model::{
    Attributes, Bytes, Command, Errno, Flags, Mode, NewTime, OPEN_FILES, Stat, Text, Whence,
};
use station::Station;

impl<S: Station> Fs<S> {
    /// `open`: opens a file, or makes it, and gives its descriptor. EMFILE where 65,536 are open,
    /// EINVAL of flags that don't go together.
    pub fn open(&mut self, path: &[u8], flags: Flags, mode: Mode) -> Result<u32, Errno>
        ensures { AppliesCommand self.old self.new (Command.Open path.now flags mode OPEN_FILES)
            (reply_of Reply.Fd result) }
    {
        self.apply_for_descriptor(Command::Open {
            path: Bytes::of(path),
            flags,
            mode,
            below: OPEN_FILES,
        })
    }

    /// `openstat`: the same, and tells what `fstat` tells of the file then.
    pub fn open_stat(&mut self, path: &[u8], flags: Flags, mode: Mode) -> Result<(u32, Stat), Errno>
        ensures { AppliesCommand self.old self.new (Command.OpenStat path.now flags mode OPEN_FILES)
            (reply_of opened_reply result) }
    {
        self.apply_for_opened(Command::OpenStat {
            path: Bytes::of(path),
            flags,
            mode,
            below: OPEN_FILES,
        })
    }

    /// `close`: gives a descriptor back.
    pub fn close(&mut self, fd: u32) -> Result<(), Errno>
        ensures { AppliesCommand self.old self.new (Command.Close fd) (reply_of done_reply result) }
    {
        self.apply_for_done(Command::Close { fd })
    }

    /// `read`: so many bytes from the offset on, as far as there are; the offset moves past them.
    /// EINVAL where more than 65,536 are asked for.
    pub fn read(&mut self, fd: u32, count: u32) -> Result<Text, Errno>
        ensures { AppliesCommand self.old self.new (Command.Read fd count)
            (reply_of Reply.Data result) }
    {
        self.apply_for_data(Command::Read { fd, count })
    }

    /// `write`: puts bytes at the offset, or behind the last byte, and tells how many. EINVAL of
    /// more than 65,536, EFBIG where the file would be too large.
    pub fn write(&mut self, fd: u32, bytes: &[u8]) -> Result<u32, Errno>
        ensures { AppliesCommand self.old self.new (Command.Write fd bytes.now)
            (reply_of Reply.Wrote result) }
    {
        self.apply_for_written(Command::Write {
            fd,
            data: Bytes::of(bytes),
        })
    }

    /// `pread`: bytes from another place on; the offset stays.
    pub fn pread(&mut self, fd: u32, offset: i64, count: u32) -> Result<Text, Errno>
        ensures { AppliesCommand self.old self.new (Command.Pread fd offset count)
            (reply_of Reply.Data result) }
    {
        self.apply_for_data(Command::Pread { fd, offset, count })
    }

    /// `pwrite`: puts bytes at another place, and tells how many; the offset stays.
    pub fn pwrite(&mut self, fd: u32, offset: i64, bytes: &[u8]) -> Result<u32, Errno>
        ensures { AppliesCommand self.old self.new (Command.Pwrite fd offset bytes.now)
            (reply_of Reply.Wrote result) }
    {
        self.apply_for_written(Command::Pwrite {
            fd,
            offset,
            data: Bytes::of(bytes),
        })
    }

    /// `lseek`: moves the offset, and gives it. EINVAL below 0, EOVERFLOW above the greatest one.
    pub fn lseek(&mut self, fd: u32, whence: Whence, offset: i64) -> Result<u64, Errno>
        ensures { AppliesCommand self.old self.new (Command.Lseek fd whence offset)
            (reply_of Reply.At result) }
    {
        self.apply_for_offset(Command::Lseek { fd, whence, offset })
    }

    /// `ftruncate`: gives the file this size in bytes, as `truncate` does. EINVAL where it isn't
    /// open for writing.
    pub fn ftruncate(&mut self, fd: u32, size: i64) -> Result<(), Errno>
        ensures { AppliesCommand self.old self.new (Command.Ftruncate fd size)
            (reply_of done_reply result) }
    {
        self.apply_for_done(Command::Ftruncate { fd, size })
    }

    /// `fchmod`: gives the file this mode, whatever it is open for.
    pub fn fchmod(&mut self, fd: u32, mode: Mode) -> Result<(), Errno>
        ensures { AppliesCommand self.old self.new (Command.Fchmod fd mode)
            (reply_of done_reply result) }
    {
        self.apply_for_done(Command::Fchmod { fd, mode })
    }

    /// `fchown`: gives the file this owner and this group, each where one is given, whatever it is open
    /// for. ENOTSUP where the file system keeps no owners.
    pub fn fchown(&mut self, fd: u32, owner: Option<u32>, group: Option<u32>) -> Result<(), Errno>
        ensures { AppliesCommand self.old self.new (Command.Fchown fd owner group)
            (reply_of done_reply result) }
    {
        self.apply_for_done(Command::Fchown { fd, owner, group })
    }

    /// `futimens`: gives the file's data this time, whatever it is open for. ENOTSUP where the file
    /// system keeps no times, EINVAL where the nanoseconds aren't below a second.
    pub fn futimens(&mut self, fd: u32, time: NewTime) -> Result<(), Errno>
        ensures { AppliesCommand self.old self.new (Command.Futimens fd time)
            (reply_of done_reply result) }
    {
        self.apply_for_done(Command::Futimens { fd, time })
    }

    /// `fstat`: what `stat` tells, of the file.
    pub fn fstat(&mut self, fd: u32) -> Result<Stat, Errno>
        ensures { AppliesCommand self.old self.new (Command.Fstat fd) (reply_of Reply.Stat result) }
    {
        self.apply_for_stat(Command::Fstat { fd })
    }

    /// `fattr`: what `attr` tells, of the file.
    pub fn fattr(&mut self, fd: u32) -> Result<(Stat, Attributes), Errno>
        ensures { AppliesCommand self.old self.new (Command.Fattr fd)
            (reply_of attributes_reply result) }
    {
        self.apply_for_attributes(Command::Fattr { fd })
    }

    /// `fsync`: is done at once, since what was answered is kept already.
    pub fn fsync(&mut self, fd: u32) -> Result<(), Errno>
        ensures { AppliesCommand self.old self.new (Command.Fsync fd) (reply_of done_reply result) }
    {
        self.apply_for_done(Command::Fsync { fd })
    }
}
