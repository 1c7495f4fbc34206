//! Calls that read the tree of a snapshot. NOSNAP where no snapshot has the name.

ghost use Rattle.std.specs.Prelude.{false, true};
ghost use Rattle.model.specs.declared.command.Command.{Command};
ghost use Rattle.model.specs.declared.command.PathCall.{PathCall};
ghost use Rattle.model.specs.declared.reply.Reply.{Reply};
ghost use Rattle.mount.specs.Applying.{AppliesCommand, attributes_reply, reply_of};

use crate::Fs;
use model::{Attributes, Bytes, Command, Entries, Errno, Names, PathCall, Stat, Text};
use station::Station;

impl<S: Station> Fs<S> {
    /// The names in a directory of the snapshot, as `list` gives them.
    pub fn list_in(&mut self, name: &[u8], path: &[u8]) -> Result<Names, Errno>
        ensures { AppliesCommand self.old self.new
            (Command.Within name.now (PathCall.List path.now)) (reply_of Reply.Names result) }
    {
        self.apply_for_names(Command::Within {
            name: Bytes::of(name),
            call: PathCall::List {
                path: Bytes::of(path),
            },
        })
    }

    /// A part of the names in a directory of the snapshot, as `entries` gives them.
    pub fn entries_in(
        &mut self,
        name: &[u8],
        path: &[u8],
        after: i64,
        count: u32,
    ) -> Result<Entries, Errno>
        ensures { AppliesCommand self.old self.new
            (Command.Within name.now (PathCall.Entries path.now after count))
            (reply_of Reply.Entries result) }
    {
        self.apply_for_entries(Command::Within {
            name: Bytes::of(name),
            call: PathCall::Entries {
                path: Bytes::of(path),
                after,
                count,
            },
        })
    }

    /// What a path leads to in the snapshot, as `stat` tells it.
    pub fn stat_in(&mut self, name: &[u8], path: &[u8]) -> Result<Stat, Errno>
        ensures { AppliesCommand self.old self.new
            (Command.Within name.now (PathCall.Stat path.now)) (reply_of Reply.Stat result) }
    {
        self.apply_for_stat(Command::Within {
            name: Bytes::of(name),
            call: PathCall::Stat {
                path: Bytes::of(path),
            },
        })
    }

    /// What a path leads to in the snapshot, with its attributes, as `attr` tells it.
    pub fn attr_in(&mut self, name: &[u8], path: &[u8]) -> Result<(Stat, Attributes), Errno>
        ensures { AppliesCommand self.old self.new
            (Command.Within name.now (PathCall.Attr path.now true))
            (reply_of attributes_reply result) }
    {
        self.apply_for_attributes(Command::Within {
            name: Bytes::of(name),
            call: PathCall::Attr {
                path: Bytes::of(path),
                follows: true,
            },
        })
    }

    /// The same of a link itself.
    pub fn lattr_in(&mut self, name: &[u8], path: &[u8]) -> Result<(Stat, Attributes), Errno>
        ensures { AppliesCommand self.old self.new
            (Command.Within name.now (PathCall.Attr path.now false))
            (reply_of attributes_reply result) }
    {
        self.apply_for_attributes(Command::Within {
            name: Bytes::of(name),
            call: PathCall::Attr {
                path: Bytes::of(path),
                follows: false,
            },
        })
    }

    /// What has a path in the snapshot, a link itself.
    pub fn lstat_in(&mut self, name: &[u8], path: &[u8]) -> Result<Stat, Errno>
        ensures { AppliesCommand self.old self.new
            (Command.Within name.now (PathCall.Lstat path.now)) (reply_of Reply.Stat result) }
    {
        self.apply_for_stat(Command::Within {
            name: Bytes::of(name),
            call: PathCall::Lstat {
                path: Bytes::of(path),
            },
        })
    }

    /// The text of a link in the snapshot.
    pub fn readlink_in(&mut self, name: &[u8], path: &[u8]) -> Result<Text, Errno>
        ensures { AppliesCommand self.old self.new
            (Command.Within name.now (PathCall.Readlink path.now)) (reply_of Reply.Text result) }
    {
        self.apply_for_text(Command::Within {
            name: Bytes::of(name),
            call: PathCall::Readlink {
                path: Bytes::of(path),
            },
        })
    }

    /// Bytes of a file in the snapshot, as `get` gives them.
    pub fn get_in(
        &mut self,
        name: &[u8],
        path: &[u8],
        offset: i64,
        count: u32,
    ) -> Result<Text, Errno>
        ensures { AppliesCommand self.old self.new
            (Command.Within name.now (PathCall.Get path.now offset count))
            (reply_of Reply.Data result) }
    {
        self.apply_for_data(Command::Within {
            name: Bytes::of(name),
            call: PathCall::Get {
                path: Bytes::of(path),
                offset,
                count,
            },
        })
    }
}
