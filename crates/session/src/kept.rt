//! The lines of replies that are kept until what they tell is durable.

ghost use Rattle.std.specs.Prelude.{◌≡◌, ◌++◌, ◌∷◌, [], List, Option, Some, None, ℕ, IfErr, OnOk};
ghost use Rattle.model.specs.declared.command.Command.{Command};
ghost use Rattle.session.specs.Rounds.{AddsLine, IsKept};
ghost use Rattle.session.specs.Scripts.{is_skipped};

use crate::Status;
use crate::answering::line_of;
use model::Reply;
use std::alloc::Global;

/// What stands in the place of a reply whose command is lost.
const LOST_LINE: &[u8] = b"err EIO\n";

/// What answers a line that is no command.
const BAD_LINE: &[u8] = b"err BADLINE\n";

/// Lines that are kept: as they are shown behind a commit, and where it failed.
#[derive(Drop)]
pub(crate) struct Kept {
    pub(crate) told: Vec<u8>,
    pub(crate) lost: Vec<u8>,
}

impl Kept {
    pub(crate) fn new(alloc: Global) -> Kept
        ensures { IsKept result [] }
    {
        Kept {
            told: Vec::new(alloc),
            lost: Vec::new(alloc),
        }
    }

    /// Bytes of the lines that are kept.
    pub(crate) fn len(&self) -> usize {
        self.told.len()
    }

    /// Keeps a reply's line behind the others.
    pub(crate) fn keep_reply(&mut self, alloc: Global, reply: &Reply) -> Result<(), Status>
        ensures kept { OnOk result ((line : List ℕ) (command : Command)
            → AddsLine self.old self.new line (Some (command, reply.now))) }
        ensures memory { IfErr result (λ status. status ≡ Status.NoMemory) }
    {
        match line_of(alloc, reply) {
            Ok(line) => self.keep(line.as_slice(), LOST_LINE),
            Err(status) => Err(status),
        }
    }

    /// Keeps the answer to a line that is no command. A comment has none.
    pub(crate) fn keep_bad(&mut self, is_comment: bool) -> Result<(), Status>
        ensures kept { OnOk result ((line : List ℕ) → is_comment ≡ is_skipped line
            → AddsLine self.old self.new line None) }
        ensures memory { IfErr result (λ status. status ≡ Status.NoMemory) }
    {
        if is_comment {
            return Ok(());
        }
        self.keep(BAD_LINE, BAD_LINE)
    }

    /// Keeps a line, and what stands in its place where what it tells is lost.
    fn keep(&mut self, told: &[u8], lost: &[u8]) -> Result<(), Status>
        ensures kept { OnOk result ((self.new.told.items ≡ self.old.told.items ++ told.now)
            × (self.new.lost.items ≡ self.old.lost.items ++ lost.now)) }
        ensures memory { IfErr result (λ status. status ≡ Status.NoMemory) }
    {
        if self.told.extend_from_slice(told).is_err() {
            return Err(Status::NoMemory);
        }
        if self.lost.extend_from_slice(lost).is_err() {
            return Err(Status::NoMemory);
        }
        Ok(())
    }

    /// Keeps none any more.
    pub(crate) fn clear(&mut self)
        ensures { IsKept self.new [] }
    {
        self.told.clear();
        self.lost.clear();
    }
}
