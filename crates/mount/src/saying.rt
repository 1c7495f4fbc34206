//! What a session says of its calls; a mount begins a new one.

ghost use Rattle.model.specs.declared.command.Command.{Command};
ghost use Rattle.mount.specs.Applying.{AppliesCommand, done_reply, reply_of};

use crate::Fs;
use model::{Command, Errno};
use station::Station;

impl<S: Station> Fs<S> {
    /// `at`: from here on what calls change is changed at this time, so many seconds from the Epoch
    /// on, which may be below zero, and nanoseconds behind them. ENOTSUP where the file system keeps
    /// no times, EINVAL where the nanoseconds aren't below a second.
    pub fn at(&mut self, seconds: i64, nanoseconds: u32) -> Result<(), Errno>
        ensures { AppliesCommand self.old self.new (Command.At seconds nanoseconds)
            (reply_of done_reply result) }
    {
        self.apply_for_done(Command::At {
            seconds,
            nanoseconds,
        })
    }

    /// `as`: from here on what calls make is of this owner and this group. ENOTSUP where the file
    /// system keeps no owners.
    pub fn as_owner(&mut self, owner: u32, group: u32) -> Result<(), Errno>
        ensures { AppliesCommand self.old self.new (Command.As owner group)
            (reply_of done_reply result) }
    {
        self.apply_for_done(Command::As { owner, group })
    }
}
