//! Calls on the whole image, and on its snapshots.

ghost use Rattle.model.specs.declared.command.Command.{Command};
ghost use Rattle.model.specs.declared.reply.Reply.{Reply};
ghost use Rattle.mount.specs.Applying.{AppliesCommand, done_reply, reply_of, space_reply};

use crate::Fs;
use model::{Bytes, Command, Errno, Names, Usage};
use station::Station;
use system::Space;

impl<S: Station> Fs<S> {
    /// `sync`: makes a consistency point, where something isn't under the newest root yet.
    pub fn sync(&mut self) -> Result<(), Errno>
        ensures { AppliesCommand self.old self.new Command.Sync (reply_of done_reply result) }
    {
        self.apply_for_done(Command::Sync)
    }

    /// `df`: the room of the disk in blocks, with no device call.
    pub fn df(&mut self) -> Result<Space, Errno>
        ensures { AppliesCommand self.old self.new Command.Df (reply_of space_reply result) }
    {
        self.apply_for_space(Command::Df)
    }

    /// `statfs`: the room of the disk, and how many objects there are and may be, with no device
    /// call.
    pub fn statfs(&mut self) -> Result<Usage, Errno>
        ensures { AppliesCommand self.old self.new Command.Statfs (reply_of Reply.Usage result) }
    {
        self.apply_for_usage(Command::Statfs)
    }

    /// `snap take`: keeps the tree as it stands under this name. BADNAME of a name that no snapshot
    /// may have, SNAPEXISTS where one has it, SNAPFULL where there are 30.
    pub fn snap_take(&mut self, name: &[u8]) -> Result<(), Errno>
        ensures { AppliesCommand self.old self.new (Command.SnapTake name.now)
            (reply_of done_reply result) }
    {
        self.apply_for_done(Command::SnapTake {
            name: Bytes::of(name),
        })
    }

    /// `snap delete`: takes the snapshot of this name away. NOSNAP where there is none.
    pub fn snap_delete(&mut self, name: &[u8]) -> Result<(), Errno>
        ensures { AppliesCommand self.old self.new (Command.SnapDelete name.now)
            (reply_of done_reply result) }
    {
        self.apply_for_done(Command::SnapDelete {
            name: Bytes::of(name),
        })
    }

    /// `snap restore`: makes the tree what it was when this snapshot was taken. NOSNAP where there
    /// is none, EBUSY where a file is open.
    pub fn snap_restore(&mut self, name: &[u8]) -> Result<(), Errno>
        ensures { AppliesCommand self.old self.new (Command.SnapRestore name.now)
            (reply_of done_reply result) }
    {
        self.apply_for_done(Command::SnapRestore {
            name: Bytes::of(name),
        })
    }

    /// `snap list`: the names of the snapshots, oldest first.
    pub fn snap_list(&mut self) -> Result<Names, Errno>
        ensures { AppliesCommand self.old self.new Command.SnapList (reply_of Reply.Snaps result) }
    {
        self.apply_for_snapshots(Command::SnapList)
    }
}
