//! Scripts: each command and each reply is one line of words, one space apart, and has one
//! spelling.
#![tactic(auto)]

ghost use Rattle.std.specs.Prelude.{◌≡◌, ◌⊎◌, IfOk, IfErr};
ghost use Rattle.model.specs.declared.command.Command.{Command};
ghost use Rattle.script.specs.Lines.{command_line, IsCommandInForm};
ghost use Rattle.script.specs.Replies.{reply_line};

mod calls;
mod commands;
mod error;
mod fields;
mod flags;
mod numbers;
mod replies;
mod spelling;
mod splitting;
mod times;
mod verb;
mod words;
mod writing;

use commands::read_words;
pub use error::ScriptError;
use model::{Command, Reply};
use replies::push_reply;
pub use splitting::split_at_byte;
use std::alloc::Global;
use words::split_words;
use writing::push_command;

/// The command that a line spells, without the line's end. A command has one spelling; anything
/// else is `NotACommand`, as an empty line and one that begins with `#` are. `NoMemory` where a
/// growth was refused.
pub fn read_command(alloc: Global, line: &[u8]) -> Result<Command<'static>, ScriptError>
    ensures spelled { IfOk result (λ command. line.now ≡ command_line command) }
    ensures bounded { IfOk result IsCommandInForm }
    ensures read { (command : Command) → IsCommandInForm command → line.now ≡ command_line command
        → (result ≡ Ok command) ⊎ (result ≡ Err ScriptError.NoMemory) }
{
    let words = split_words(alloc, line)?;
    read_words(alloc, words.as_slice())
}

/// The line that spells a command, without a line's end: `read_command` reads it back. `NoMemory`
/// where a growth was refused.
pub fn write_command(alloc: Global, command: &Command<'_>) -> Result<Vec<u8>, ScriptError>
    ensures line { IfOk result (λ line. line.items ≡ command_line command.now) }
    ensures error { IfErr result (λ e. e ≡ ScriptError.NoMemory) }
{
    let mut line = Vec::new(alloc);
    push_command(alloc, &mut line, command)?;
    Ok(line)
}

/// The line that a reply is shown as, without a line's end. `NoMemory` where a growth was refused.
pub fn write_reply(alloc: Global, reply: &Reply) -> Result<Vec<u8>, ScriptError>
    ensures line { IfOk result (λ line. line.items ≡ reply_line reply.now) }
    ensures error { IfErr result (λ e. e ≡ ScriptError.NoMemory) }
{
    let mut line = Vec::new(alloc);
    push_reply(alloc, &mut line, reply)?;
    Ok(line)
}
