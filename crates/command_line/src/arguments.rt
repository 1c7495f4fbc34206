//! The command and its subcommands, with what help says of them.

ghost use Rattle.std.specs.Prelude.{[]};
ghost use Rattle.clap.specs.Words.{App, Rule, new_app, with_rule, with_subcommand};
ghost use Rattle.command_line.specs.Arguments as spec;
ghost use Rattle.command_line.specs.Arguments.{GrowsTo, IsArg, MakesCommand};

use crate::help_texts::{
    CHECK_NOTES, COMMAND_NOTES, DF_NOTES, FIRST_STEPS, GET_NOTES, MAKE_NOTES, PUT_NOTES,
    RESTORE_NOTES, SERVE_NOTES,
};
use crate::options::{
    bytes, command_words, count, deferred, encoded, explain, flag, keep, last_place, option, owner,
    place, salvage, size, together,
};
use clap::{Arg, Command};
use std::alloc::{AllocError, Global};

/// `wafl` with its subcommands.
pub fn wafl_command<'a>(alloc: Global) -> Result<Command<'a>, AllocError>
    ensures { GrowsTo spec.wafl_app result }
{
    Growing::of(program(alloc))
        .subcommand(make_command(alloc))
        .subcommand(run_command(alloc))
        .subcommand(shell_command(alloc))
        .subcommand(do_command(alloc))
        .subcommand(df_command(alloc))
        .subcommand(check_command(alloc))
        .subcommand(put_command(alloc))
        .subcommand(get_command(alloc))
        .subcommand(restore_command(alloc))
        .subcommand(serve_command(alloc))
        .command
}

/// `wafl` itself.
fn program<'a>(alloc: Global) -> Command<'a>
    ensures { MakesCommand spec.program result }
{
    Command::new(alloc, "wafl")
        .version("0.1.0")
        .about("A copy-on-write file system on a disk image and an NVRAM image")
        .after_help(FIRST_STEPS)
        .subcommand_required(true)
}

/// A command to which arguments are added, or the want of memory that ended this.
#[derive(Drop)]
struct Growing<'a> {
    command: Result<Command<'a>, AllocError>,
}

impl<'a> Growing<'a> {
    fn of(command: Command<'a>) -> Growing<'a>
        ensures { (a : App) → MakesCommand a command.entry → GrowsTo a result.command }
    {
        Growing {
            command: Ok(command),
        }
    }

    fn arg(self, arg: Arg<'a>) -> Growing<'a>
        ensures { (a : App) (r : Rule) → GrowsTo a self.entry.command → IsArg r arg.entry
            → GrowsTo (with_rule a r) result.command }
    {
        Growing {
            command: with_arg(self.command, arg),
        }
    }

    fn subcommand(self, subcommand: Growing<'a>) -> Growing<'a>
        ensures { (a b : App) → GrowsTo a self.entry.command
            → GrowsTo b subcommand.entry.command
            → GrowsTo (with_subcommand a b.top) result.command }
    {
        Growing {
            command: with_subcommand(self.command, subcommand.command),
        }
    }
}

fn with_arg<'a>(
    command: Result<Command<'a>, AllocError>,
    arg: Arg<'a>,
) -> Result<Command<'a>, AllocError>
    ensures { (a : App) (r : Rule) → GrowsTo a command.entry → IsArg r arg.entry
        → GrowsTo (with_rule a r) result }
{
    command?.arg(arg)
}

fn with_subcommand<'a>(
    command: Result<Command<'a>, AllocError>,
    subcommand: Result<Command<'a>, AllocError>,
) -> Result<Command<'a>, AllocError>
    ensures { (a b : App) → GrowsTo a command.entry → GrowsTo b subcommand.entry
        → GrowsTo (with_subcommand a b.top) result }
{
    command?.subcommand(subcommand?)
}

/// A command that begins with the two files of an image.
fn on_image<'a>(alloc: Global, name: &'a str, about: &'a str, after: &'a str) -> Growing<'a>
    ensures { GrowsTo (spec.on_image name.entry.now []) result.command }
{
    Growing::of(named(alloc, name, about, after))
        .arg(place(alloc, "disk", "DISK", "The disk's file"))
        .arg(place(alloc, "nvram", "NVRAM", "The NVRAM's file"))
}

/// A command without arguments, with what help says of it.
fn named<'a>(alloc: Global, name: &'a str, about: &'a str, after: &'a str) -> Command<'a>
    ensures { MakesCommand (new_app name.entry.now) result }
{
    Command::new(alloc, name).about(about).after_help(after)
}

fn make_command<'a>(alloc: Global) -> Growing<'a>
    ensures { GrowsTo spec.make_app result.command }
{
    on_image(alloc, "make", "Make an empty image", MAKE_NOTES)
        .arg(size(
            alloc,
            "blocks",
            "Blocks of the disk: 64 to 1048576, as in --blocks 64 or --blocks 256k",
        ))
        .arg(size(
            alloc,
            "inodes",
            "Inodes, four of them the system's own: 32 to 65536, as in --inodes 32",
        ))
        .arg(size(
            alloc,
            "half",
            "Bytes of each half of the NVRAM: 131072 to 8388608, as in --half 128k",
        ))
        .arg(flag(alloc, "new", "Replace no file that is there and has a byte"))
        .arg(flag(
            alloc,
            "force",
            "Replace what is there without asking, on a terminal too",
        ))
}

fn run_command<'a>(alloc: Global) -> Growing<'a>
    ensures { GrowsTo spec.run_app result.command }
{
    on_image(
        alloc,
        "run",
        "Mount an image and run a script: one command a line, one reply a line",
        COMMAND_NOTES,
    )
    .arg(place(
        alloc,
        "script",
        "SCRIPT",
        "The script's file; - is standard input",
    ))
    .arg(flag(
        alloc,
        "stop",
        "End at the first command that is refused, with status 8",
    ))
    .arg(count(
        alloc,
        "cut",
        "Cut the power within device write N of this run, from 1, as in --cut 5",
    ))
    .arg(keep(alloc))
    .arg(bytes(alloc))
    .arg(count(
        alloc,
        "fail-sync",
        "Let sync N of this run fail, from 1, which mounting makes, as in --fail-sync 2",
    ))
    .arg(deferred(alloc))
    .arg(explain(alloc))
}

fn shell_command<'a>(alloc: Global) -> Growing<'a>
    ensures { GrowsTo spec.shell_app result.command }
{
    on_image(
        alloc,
        "shell",
        "Mount an image and answer each line of standard input at once",
        COMMAND_NOTES,
    )
    .arg(together(alloc))
    .arg(deferred(alloc))
    .arg(explain(alloc))
}

fn do_command<'a>(alloc: Global) -> Growing<'a>
    ensures { GrowsTo spec.do_app result.command }
{
    on_image(
        alloc,
        "do",
        "Mount an image and do one command; status 8 where it is refused",
        COMMAND_NOTES,
    )
    .arg(command_words(alloc))
    .arg(encoded(alloc))
    .arg(salvage(alloc))
    .arg(explain(alloc))
}

fn df_command<'a>(alloc: Global) -> Growing<'a>
    ensures { GrowsTo spec.df_app result.command }
{
    on_image(
        alloc,
        "df",
        "Mount an image and tell the room of its disk",
        DF_NOTES,
    )
    .arg(flag(
        alloc,
        "human",
        "Tell the room in bytes and in inodes, too, for people",
    ))
    .arg(salvage(alloc))
    .arg(explain(alloc))
}

fn check_command<'a>(alloc: Global) -> Growing<'a>
    ensures { GrowsTo spec.check_app result.command }
{
    on_image(alloc, "check", "Look for faults in an image", CHECK_NOTES)
}

fn put_command<'a>(alloc: Global) -> Growing<'a>
    ensures { GrowsTo spec.put_app result.command }
{
    on_image(
        alloc,
        "put",
        "Store a file of the host's in a file of the image, whole or not at all",
        PUT_NOTES,
    )
    .arg(place(
        alloc,
        "file",
        "FILE",
        "The host's file; - is standard input",
    ))
    .arg(place(
        alloc,
        "path",
        "PATH",
        "The path in the image, as in /d/notes or '/a b'",
    ))
    .arg(encoded(alloc))
    .arg(explain(alloc))
}

fn get_command<'a>(alloc: Global) -> Growing<'a>
    ensures { GrowsTo spec.get_app result.command }
{
    on_image(
        alloc,
        "get",
        "Bring a file of the image back, whole or not at all",
        GET_NOTES,
    )
    .arg(place(
        alloc,
        "path",
        "PATH",
        "The path in the image, as in /d/notes or '/a b'",
    ))
    .arg(place(
        alloc,
        "file",
        "FILE",
        "The host's file; - is standard output",
    ))
    .arg(option(
        alloc,
        "in",
        "SNAPSHOT",
        "Read the file as this snapshot has it, as in --in monday",
    ))
    .arg(encoded(alloc))
    .arg(salvage(alloc))
    .arg(explain(alloc))
}

fn restore_command<'a>(alloc: Global) -> Growing<'a>
    ensures { GrowsTo spec.restore_app result.command }
{
    on_image(
        alloc,
        "restore",
        "Bring a file of a snapshot back into the running tree, whole or not at all",
        RESTORE_NOTES,
    )
    .arg(place(
        alloc,
        "snapshot",
        "SNAPSHOT",
        "The snapshot's name, as in monday",
    ))
    .arg(place(
        alloc,
        "path",
        "PATH",
        "The path in the snapshot, as in /d/notes or '/a b'",
    ))
    .arg(last_place(
        alloc,
        "newpath",
        "NEWPATH",
        "The path that it gets, in place of PATH",
    ))
    .arg(encoded(alloc))
    .arg(explain(alloc))
}

fn serve_command<'a>(alloc: Global) -> Growing<'a>
    ensures { GrowsTo spec.serve_app result.command }
{
    on_image(
        alloc,
        "serve",
        "Mount an image and answer the kernel's requests for a folder of it",
        SERVE_NOTES,
    )
    .arg(owner(
        alloc,
        "uid",
        "Whose the files are until that is set, as in --uid 1000",
    ))
    .arg(owner(alloc, "gid", "And of which group, as in --gid 1000"))
    .arg(deferred(alloc))
    .arg(explain(alloc))
}
