//! Commands applied whose reply is a value, by the kind of it.

ghost use Rattle.model.specs.Replies.{IsAttributes, IsData, IsDescriptor, IsDone, IsEntries, IsExtent, IsNames, IsOffset, IsOpened, IsSnapshots, IsSpace, IsStat, IsTextOf, IsUsage, IsWritten};
ghost use Rattle.model.specs.declared.reply.Reply.{Reply};
ghost use Rattle.mount.specs.Applying.{AppliesCommand, HasOnlyAnswers, attributes_reply, done_reply, opened_reply, reply_of, space_reply};

use crate::Fs;
use model::{Attributes, Command, Entries, Errno, Extent, Names, Reply, Stat, Text, Usage};
use station::Station;
use system::Space;

impl<S: Station> Fs<S> {
    /// Applies a command, and lets it go.
    fn apply_owned(&mut self, command: Command<'_>) -> Reply
        ensures { AppliesCommand self.old self.new command.entry result }
    {
        self.apply(&command)
    }

    /// Applies a command that is answered that it is done.
    pub(crate) fn apply_for_done(&mut self, command: Command<'_>) -> Result<(), Errno>
        requires { HasOnlyAnswers command IsDone }
        ensures { AppliesCommand self.old self.new command.entry (reply_of done_reply result) }
    {
        match self.apply_owned(command) {
            Reply::Done => Ok(()),
            Reply::Refused(errno) => Err(errno),
            _ => unreachable!(),
        }
    }

    /// Applies a command that is answered a descriptor.
    pub(crate) fn apply_for_descriptor(&mut self, command: Command<'_>) -> Result<u32, Errno>
        requires { HasOnlyAnswers command IsDescriptor }
        ensures { AppliesCommand self.old self.new command.entry (reply_of Reply.Fd result) }
    {
        match self.apply_owned(command) {
            Reply::Fd(fd) => Ok(fd),
            Reply::Refused(errno) => Err(errno),
            _ => unreachable!(),
        }
    }

    /// Applies a command that is answered a descriptor, and what stands there.
    pub(crate) fn apply_for_opened(&mut self, command: Command<'_>) -> Result<(u32, Stat), Errno>
        requires { HasOnlyAnswers command IsOpened }
        ensures { AppliesCommand self.old self.new command.entry (reply_of opened_reply result) }
    {
        match self.apply_owned(command) {
            Reply::Opened { fd, stat } => Ok((fd, stat)),
            Reply::Refused(errno) => Err(errno),
            _ => unreachable!(),
        }
    }

    /// Applies a command that is answered bytes.
    pub(crate) fn apply_for_data(&mut self, command: Command<'_>) -> Result<Text, Errno>
        requires { HasOnlyAnswers command IsData }
        ensures { AppliesCommand self.old self.new command.entry (reply_of Reply.Data result) }
    {
        match self.apply_owned(command) {
            Reply::Data(bytes) => Ok(bytes),
            Reply::Refused(errno) => Err(errno),
            _ => unreachable!(),
        }
    }

    /// Applies a command that is answered how many bytes were written.
    pub(crate) fn apply_for_written(&mut self, command: Command<'_>) -> Result<u32, Errno>
        requires { HasOnlyAnswers command IsWritten }
        ensures { AppliesCommand self.old self.new command.entry (reply_of Reply.Wrote result) }
    {
        match self.apply_owned(command) {
            Reply::Wrote(count) => Ok(count),
            Reply::Refused(errno) => Err(errno),
            _ => unreachable!(),
        }
    }

    /// Applies a command that is answered an offset.
    pub(crate) fn apply_for_offset(&mut self, command: Command<'_>) -> Result<u64, Errno>
        requires { HasOnlyAnswers command IsOffset }
        ensures { AppliesCommand self.old self.new command.entry (reply_of Reply.At result) }
    {
        match self.apply_owned(command) {
            Reply::At(offset) => Ok(offset),
            Reply::Refused(errno) => Err(errno),
            _ => unreachable!(),
        }
    }

    /// Applies a command that is answered a link's text.
    pub(crate) fn apply_for_text(&mut self, command: Command<'_>) -> Result<Text, Errno>
        requires { HasOnlyAnswers command IsTextOf }
        ensures { AppliesCommand self.old self.new command.entry (reply_of Reply.Text result) }
    {
        match self.apply_owned(command) {
            Reply::Text(text) => Ok(text),
            Reply::Refused(errno) => Err(errno),
            _ => unreachable!(),
        }
    }

    /// Applies a command that is answered a directory's names.
    pub(crate) fn apply_for_names(&mut self, command: Command<'_>) -> Result<Names, Errno>
        requires { HasOnlyAnswers command IsNames }
        ensures { AppliesCommand self.old self.new command.entry (reply_of Reply.Names result) }
    {
        match self.apply_owned(command) {
            Reply::Names(names) => Ok(names),
            Reply::Refused(errno) => Err(errno),
            _ => unreachable!(),
        }
    }

    /// Applies a command that is answered a directory's names with what is told of each.
    pub(crate) fn apply_for_entries(&mut self, command: Command<'_>) -> Result<Entries, Errno>
        requires { HasOnlyAnswers command IsEntries }
        ensures { AppliesCommand self.old self.new command.entry (reply_of Reply.Entries result) }
    {
        match self.apply_owned(command) {
            Reply::Entries(entries) => Ok(entries),
            Reply::Refused(errno) => Err(errno),
            _ => unreachable!(),
        }
    }

    /// Applies a command that is answered the snapshots' names.
    pub(crate) fn apply_for_snapshots(&mut self, command: Command<'_>) -> Result<Names, Errno>
        requires { HasOnlyAnswers command IsSnapshots }
        ensures { AppliesCommand self.old self.new command.entry (reply_of Reply.Snaps result) }
    {
        match self.apply_owned(command) {
            Reply::Snaps(names) => Ok(names),
            Reply::Refused(errno) => Err(errno),
            _ => unreachable!(),
        }
    }

    /// Applies a command that is answered what stands somewhere.
    pub(crate) fn apply_for_stat(&mut self, command: Command<'_>) -> Result<Stat, Errno>
        requires { HasOnlyAnswers command IsStat }
        ensures { AppliesCommand self.old self.new command.entry (reply_of Reply.Stat result) }
    {
        match self.apply_owned(command) {
            Reply::Stat(stat) => Ok(stat),
            Reply::Refused(errno) => Err(errno),
            _ => unreachable!(),
        }
    }

    /// Applies a command that is answered what stands somewhere, and its attributes.
    pub(crate) fn apply_for_attributes(
        &mut self,
        command: Command<'_>,
    ) -> Result<(Stat, Attributes), Errno>
        requires { HasOnlyAnswers command IsAttributes }
        ensures { AppliesCommand self.old self.new command.entry
            (reply_of attributes_reply result) }
    {
        match self.apply_owned(command) {
            Reply::Attributes { stat, attributes } => Ok((stat, attributes)),
            Reply::Refused(errno) => Err(errno),
            _ => unreachable!(),
        }
    }

    /// Applies a command that is answered what of a file is stored.
    pub(crate) fn apply_for_extent(&mut self, command: Command<'_>) -> Result<Extent, Errno>
        requires { HasOnlyAnswers command IsExtent }
        ensures { AppliesCommand self.old self.new command.entry (reply_of Reply.Extent result) }
    {
        match self.apply_owned(command) {
            Reply::Extent(extent) => Ok(extent),
            Reply::Refused(errno) => Err(errno),
            _ => unreachable!(),
        }
    }

    /// Applies a command that is answered the room of the disk.
    pub(crate) fn apply_for_space(&mut self, command: Command<'_>) -> Result<Space, Errno>
        requires { HasOnlyAnswers command IsSpace }
        ensures { AppliesCommand self.old self.new command.entry (reply_of space_reply result) }
    {
        match self.apply_owned(command) {
            Reply::Space {
                blocks,
                free,
                pledged,
            } => Ok(Space {
                blocks,
                free,
                pledged,
            }),
            Reply::Refused(errno) => Err(errno),
            _ => unreachable!(),
        }
    }

    /// Applies a command that is answered the room of the disk, and for objects.
    pub(crate) fn apply_for_usage(&mut self, command: Command<'_>) -> Result<Usage, Errno>
        requires { HasOnlyAnswers command IsUsage }
        ensures { AppliesCommand self.old self.new command.entry (reply_of Reply.Usage result) }
    {
        match self.apply_owned(command) {
            Reply::Usage(usage) => Ok(usage),
            Reply::Refused(errno) => Err(errno),
            _ => unreachable!(),
        }
    }
}
