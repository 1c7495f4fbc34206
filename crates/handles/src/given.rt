//! Which commands give numbers to new objects.

ghost use Rattle.std.specs.Prelude.{◌≡◌};
ghost use Rattle.handles.specs.Given as given;
ghost use Rattle.handles.specs.Given.{FreshNumbersAreGiven};

use model::{Command, PathCall, Reply};

/// Whether a command may make an object: `mkdir`, `symlink`, and `open` and `openstat` that create.
pub(crate) fn may_make(command: &Command<'_>) -> bool
    ensures { result ≡ given.may_make command.now }
{
    match command {
        Command::Path(call) => matches!(call, PathCall::Mkdir { .. } | PathCall::Symlink { .. }),
        Command::Open { flags, .. } | Command::OpenStat { flags, .. } => flags.creates,
        _ => false,
    }
}

/// Whether a command is a `snap restore` that is done: another tree stands there.
pub(crate) fn has_restored(command: &Command<'_>, reply: &Reply) -> bool
    ensures { result ≡ given.has_restored command.now reply.now }
{
    match command {
        Command::SnapRestore { .. } => matches!(reply, Reply::Done),
        _ => false,
    }
}

/// A law: a number that is in use behind a command was in use, or it is the least free one and the
/// command may make an object; after `snap restore` alone that may be otherwise.
pub fn fresh_numbers_are_given()
    ensures { FreshNumbersAreGiven }
{}
