//! The commands of a script's lines.

ghost use Rattle.std.specs.Prelude.{◌≡◌, IfOk, IfErr, IsErrOf, map};
ghost use Rattle.session.specs.Scripts.{is_skipped, lines_of, IsBadLine, IsScriptFault, IsLineOf, IsScriptOf};

use crate::Fault;
use model::Command;
use script::{ScriptError, read_command, split_at_byte};
use std::alloc::{AllocError, Global};

/// The commands of a script's lines, but for empty lines and those that begin with `#`.
pub(crate) fn read_script(alloc: Global, script: &[u8]) -> Result<Vec<Command<'static>>, Fault>
    ensures commands { IfOk result (λ commands. IsScriptOf script.now commands.items) }
    ensures fault { IfErr result (IsScriptFault script.now) }
{
    let lines = split_lines(alloc, script)?;
    let mut commands = Vec::new(alloc);
    for (i, line) in lines.iter().enumerate() {
        match read_line(alloc, line) {
            Ok(Some(command)) => commands.push(command)?,
            Ok(None) => continue,
            Err(ScriptError::NoMemory) => return Err(Fault::NoMemory),
            Err(ScriptError::NotACommand) => return Err(Fault::Line(i + 1)),
        }
    }
    Ok(commands)
}

/// The command that a line is, or none where the line is skipped.
pub(crate) fn read_line(alloc: Global, line: &[u8]) -> Result<Option<Command<'static>>, ScriptError>
    ensures command { IfOk result (IsLineOf line.now) }
    ensures bad { IsErrOf result ScriptError.NotACommand → IsBadLine line.now }
{
    if is_skipped(line) {
        return Ok(None);
    }
    let command = read_command(alloc, line)?;
    Ok(Some(command))
}

/// The parts of a script between its line ends. Behind the last line's end stands an empty one.
fn split_lines<'a>(alloc: Global, script: &'a [u8]) -> Result<Vec<&'a [u8]>, AllocError>
    ensures { IfOk result (λ lines. map (λ line. line.now) lines.items ≡ lines_of script.now) }
{
    split_at_byte(alloc, script, b'\n')
}

/// An empty line, or a comment.
pub(crate) fn is_skipped(line: &[u8]) -> bool
    ensures { result ≡ is_skipped line.now }
{
    match line {
        [] => true,
        [first, ..] => *first == b'#',
    }
}
