//! Commands that are asked, each with the reply of its kind.

ghost use Rattle.std.specs.Prelude.{◌≡◌};
ghost use Rattle.model.specs.declared.reply.Reply.{Reply};
ghost use Rattle.served.specs.Turns.{Came, asks, refusal_in, told_done, told_open};

use file_system::FileSystem;
use model::{Command, Entries, Errno, Extent, Names, Reply, Stat, Text, Usage};

/// Applies a command, and lets it go.
pub(crate) fn apply<F: FileSystem>(files: &mut F, command: Command<'_>) -> Reply
    ensures { F.FileSystem.applies files.old files.new command.entry result }
{
    files.apply(&command)
}

/// Why a command was refused. A reply that is no refusal is one of another kind, which never comes.
fn refusal_in(reply: &Reply) -> Errno
    ensures { result ≡ refusal_in reply.now }
{
    match reply {
        Reply::Refused(errno) => *errno,
        _ => Errno::EIO,
    }
}

pub(crate) fn ask_done<F: FileSystem>(files: &mut F, command: Command<'_>) -> Result<(), Errno>
    ensures { Came F.FileSystem files.old files.new (asks told_done command.entry) result }
{
    match apply(files, command) {
        Reply::Done => Ok(()),
        other => Err(refusal_in(&other)),
    }
}

pub(crate) fn ask_stat<F: FileSystem>(files: &mut F, command: Command<'_>) -> Result<Stat, Errno>
    ensures { Came F.FileSystem files.old files.new (asks Reply.Stat command.entry) result }
{
    match apply(files, command) {
        Reply::Stat(stat) => Ok(stat),
        other => Err(refusal_in(&other)),
    }
}

pub(crate) fn ask_text<F: FileSystem>(files: &mut F, command: Command<'_>) -> Result<Text, Errno>
    ensures { Came F.FileSystem files.old files.new (asks Reply.Text command.entry) result }
{
    match apply(files, command) {
        Reply::Text(text) => Ok(text),
        other => Err(refusal_in(&other)),
    }
}

pub(crate) fn ask_data<F: FileSystem>(files: &mut F, command: Command<'_>) -> Result<Text, Errno>
    ensures { Came F.FileSystem files.old files.new (asks Reply.Data command.entry) result }
{
    match apply(files, command) {
        Reply::Data(text) => Ok(text),
        other => Err(refusal_in(&other)),
    }
}

pub(crate) fn ask_wrote<F: FileSystem>(files: &mut F, command: Command<'_>) -> Result<u32, Errno>
    ensures { Came F.FileSystem files.old files.new (asks Reply.Wrote command.entry) result }
{
    match apply(files, command) {
        Reply::Wrote(count) => Ok(count),
        other => Err(refusal_in(&other)),
    }
}

pub(crate) fn ask_descriptor<F: FileSystem>(
    files: &mut F,
    command: Command<'_>,
) -> Result<u32, Errno>
    ensures { Came F.FileSystem files.old files.new (asks Reply.Fd command.entry) result }
{
    match apply(files, command) {
        Reply::Fd(fd) => Ok(fd),
        other => Err(refusal_in(&other)),
    }
}

pub(crate) fn ask_opened<F: FileSystem>(
    files: &mut F,
    command: Command<'_>,
) -> Result<(u32, Stat), Errno>
    ensures { Came F.FileSystem files.old files.new (asks told_open command.entry) result }
{
    match apply(files, command) {
        Reply::Opened { fd, stat } => Ok((fd, stat)),
        other => Err(refusal_in(&other)),
    }
}

pub(crate) fn ask_entries<F: FileSystem>(
    files: &mut F,
    command: Command<'_>,
) -> Result<Entries, Errno>
    ensures { Came F.FileSystem files.old files.new (asks Reply.Entries command.entry) result }
{
    match apply(files, command) {
        Reply::Entries(entries) => Ok(entries),
        other => Err(refusal_in(&other)),
    }
}

pub(crate) fn ask_extent<F: FileSystem>(
    files: &mut F,
    command: Command<'_>,
) -> Result<Extent, Errno>
    ensures { Came F.FileSystem files.old files.new (asks Reply.Extent command.entry) result }
{
    match apply(files, command) {
        Reply::Extent(extent) => Ok(extent),
        other => Err(refusal_in(&other)),
    }
}

pub(crate) fn ask_usage<F: FileSystem>(files: &mut F, command: Command<'_>) -> Result<Usage, Errno>
    ensures { Came F.FileSystem files.old files.new (asks Reply.Usage command.entry) result }
{
    match apply(files, command) {
        Reply::Usage(usage) => Ok(usage),
        other => Err(refusal_in(&other)),
    }
}

pub(crate) fn ask_snapshots<F: FileSystem>(
    files: &mut F,
    command: Command<'_>,
) -> Result<Names, Errno>
    ensures { Came F.FileSystem files.old files.new (asks Reply.Snaps command.entry) result }
{
    match apply(files, command) {
        Reply::Snaps(names) => Ok(names),
        other => Err(refusal_in(&other)),
    }
}
