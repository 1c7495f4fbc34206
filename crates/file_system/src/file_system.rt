//! A file system, as its server sees it.

ghost use Rattle.std.specs.Prelude.{◌≡◌, ℕ, Result};
ghost use Rattle.model.specs.declared.command.Command.{Command};
ghost use Rattle.model.specs.declared.errno.Errno.{Errno};
ghost use Rattle.model.specs.declared.reply.Reply.{Reply};

use crate::Handle;
use model::{Command, Errno, Reply};

/// A file system that applies one command after the other, and makes several durable together. What
/// a command comes to, and what a commit, the type says that has this trait.
pub trait FileSystem {
    /// A command with this reply leads from one file system to another. What it did may wait: it is
    /// in memory, and a power cut loses it until it is committed.
    ghost applies: { Self → Self → Command → Reply → Type 0 };

    /// A commit with this result leads from one file system to another. Where it is Ok, all is
    /// durable that was applied before it.
    ghost commits: { Self → Self → Result (Unit {0}) Errno → Type 0 };

    /// So many bytes of the log what waits will take.
    ghost waits: { Self → ℕ };

    /// The generation of each number: how often the number may have got another object since the
    /// mount.
    ghost generations: { Self → ℕ → ℕ };

    /// Applies a command, and answers it. What it did may wait for `commit`.
    fn apply(&mut self, command: &Command<'_>) -> Reply
        ensures { applies self.old self.new command.now result };

    /// Makes durable all that was applied; where nothing waits there is nothing to do. After an error
    /// nothing is done any more until the next mount, and each later commit is one too: also where
    /// it was `apply` that had to commit what waited, and failed.
    fn commit(&mut self) -> Result<(), Errno>
        ensures { commits self.old self.new result };

    /// So many bytes wait: none where all that was answered is durable.
    fn waiting(&self) -> usize
        ensures { result ≡ waits self.now };

    /// The handle that a number has now.
    fn handle_of(&self, number: u32) -> Handle
        ensures { result ≡ record { number = number; generation = generations self.now number } };
}
