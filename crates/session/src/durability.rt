//! When what a line did is durable, where commands may wait.

ghost use Rattle.std.specs.Prelude.{◌≡◌};
ghost use Rattle.session.specs.Rounds as spec;

use crate::answering::is_refusal;
use model::{Command, Reply};

/// When what a line did is durable.
#[derive(Clone, Copy, Debug, PartialEq, Eq)]
pub enum Durability {
    /// When its reply is shown. Lines that wait in the input are answered together, and one commit
    /// makes them durable.
    Together,
    /// Each reply is shown at once. What was done is made durable by `sync`, by `fsync`, where more
    /// than so many bytes of the log wait, at the first line behind so many milliseconds, and in the
    /// end. A power cut, and a kill, lose what waits.
    Deferred { milliseconds: u32, bytes: usize },
}

/// Whether a reply tells that all that was done before is durable.
pub(crate) fn is_promise(command: &Command<'_>, reply: &Reply) -> bool
    ensures { result ≡ spec.is_promise command.now reply.now }
{
    matches!(command, Command::Fsync { .. }) && !is_refusal(reply)
}
