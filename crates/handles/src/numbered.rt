//! A mounted file system, whose objects are named by handles.

use crate::Handle;
use crate::generations::Generations;
use crate::given::{has_restored, may_make};
use file_system::FileSystem;
use model::{Command, Errno, Reply};
use mount::Waiting;
use station::Station;
use std::alloc::Global;

/// A mounted file system whose commands may wait, and the generation of each number since the mount:
/// a number that comes again is told by it from the one before. So every command is to be applied
/// here.
#[derive(Drop)]
pub struct Numbered<S: Station> {
    files: Waiting<S>,
    generations: Generations,
}

impl<S: Station> Numbered<S> {
    ghost use Rattle.std.specs.Prelude.{◌≡◌, ◌≤◌, ℕ, IfSome, MatchResult, length, nat_eq};
    ghost use Rattle.model.specs.declared.limits.TheConstants.{FIRST_NUMBER};
    ghost use Rattle.model.specs.declared.errno.Errno.{Errno};
    ghost use Rattle.model.specs.States.{State};
    ghost use Rattle.mount.specs.Batching.{AppliesInBatches, CommitsAll, Shows};
    ghost use Rattle.handles.specs.Given.{GivesFresh};
    ghost use Rattle.handles.specs.Handles.{GenerationsGo, KeepsGenerations, Names, WouldGive, count_of_numbers, generations_of};

    /// Names the objects of a file system, each by generation 0. ENOMEM comes where there was no
    /// memory, and gives the file system back.
    pub fn new(alloc: Global, files: Waiting<S>) -> Result<Numbered<S>, (Errno, Waiting<S>)>
        ensures files { MatchResult result (λ numbered. numbered.files ≡ files)
            (λ e. (e.0 ≡ Errno.ENOMEM) × (e.1 ≡ files)) }
        ensures names { MatchResult result
            (λ numbered. (s kept : State) → Shows files s kept → Names numbered s) (λ e. Unit {0}) }
        ensures none { MatchResult result
            (λ numbered. (n : ℕ) → generations_of numbered n ≡ 0) (λ e. Unit {0}) }
    {
        match Generations::new(alloc, files.count_inodes()) {
            Ok(generations) => Ok(Numbered { files, generations }),
            Err(_) => Err((Errno::ENOMEM, files)),
        }
    }

    /// The file system, to look at.
    pub fn files(&self) -> &Waiting<S>
        ensures { result.now ≡ self.now.files }
    {
        &self.files
    }

    /// The file system, whose numbers have no generations any more.
    pub fn into_files(self) -> Waiting<S>
        ensures { result ≡ self.files }
    {
        let Numbered { files, .. } = self;
        files
    }

    /// The handle that a number has now.
    pub fn handle_of(&self, number: u32) -> Handle
        ensures { result ≡ record { number = number; generation = generations_of self.now number } }
    {
        Handle {
            number,
            generation: self.generations.of(number),
        }
    }

    /// Whether a handle's number still has its generation. Where it hasn't, the caller answers
    /// ESTALE: the number may have got another object.
    pub fn is_current(&self, handle: Handle) -> bool
        ensures { result ≡ nat_eq handle.generation (generations_of self.now handle.number) }
    {
        handle.generation == self.generations.of(handle.number)
    }

    /// Applies a command and answers it, as the file system does. A number that it gives to a new
    /// object gets its next generation, and after a `snap restore` that is done each does.
    pub fn apply(&mut self, command: &Command<'_>) -> Reply
        ensures applies { AppliesInBatches self.old.files self.new.files command.now result }
        ensures keeps { KeepsGenerations self.old self.new command.now result }
    {
        let number = self.number_for(command);
        let reply = self.files.apply(command);
        self.keep(command, &reply, number);
        reply
    }

    /// Makes durable what waits; of that no number's generation changes.
    pub fn commit(&mut self) -> Result<(), Errno>
        ensures commits { CommitsAll self.old.files self.new.files result }
        ensures keeps { (n : ℕ) → generations_of self.new n ≡ generations_of self.old n }
    {
        self.files.commit()
    }

    /// Bytes of the log that what waits will take: none where all that was done is durable.
    pub fn waiting(&self) -> usize
        ensures { result ≡ length self.now.files.records.batch }
    {
        self.files.waiting()
    }

    /// The number that a command would give to a new object.
    fn number_for(&self, command: &Command<'_>) -> Option<u32>
        ensures gives { (s kept : State) → Shows self.now.files s kept
            → WouldGive command.now s result }
        ensures low { IfSome result (λ n. FIRST_NUMBER ≤ n) }
    {
        if may_make(command) {
            self.files.next_number()
        } else {
            None
        }
    }

    /// Keeps the generations behind a command, before which this was the number that it would give.
    fn keep(&mut self, command: &Command<'_>, reply: &Reply, number: Option<u32>)
        requires { IfSome number (λ n. FIRST_NUMBER ≤ n) }
        ensures files { self.new.files ≡ self.old.files }
        ensures numbers { count_of_numbers self.new ≡ count_of_numbers self.old }
        ensures goes { (s t kept : State) → WouldGive command.now s number
            → s.limits.inodes ≤ count_of_numbers self.old
            → GivesFresh s t command.now reply.now → Shows self.old.files t kept
            → GenerationsGo s t (generations_of self.old) (generations_of self.new) }
    {
        if self.files.has_failed() {
            return;
        }
        if has_restored(command, reply) {
            self.generations.give_all();
            return;
        }
        let Some(number) = number else {
            return;
        };
        if self.files.is_used(number) {
            self.generations.give(number);
        }
    }
}

/// What a command comes to is what the file system makes of it, and of its numbers' generations.
impl<S: Station> FileSystem for Numbered<S> {
    ghost use Rattle.std.specs.Prelude.{length};
    ghost use Rattle.mount.specs.Batching.{AppliesInBatches, CommitsAll};
    ghost use Rattle.handles.specs.Handles.{KeepsGenerations, generations_of};

    ghost applies = { λ old new command reply.
        AppliesInBatches old.files new.files command reply × KeepsGenerations old new command reply };

    ghost commits = { λ old new result. CommitsAll old.files new.files result };

    ghost waits = { λ numbered. length numbered.files.records.batch };

    ghost generations = { generations_of };

    fn apply(&mut self, command: &Command<'_>) -> Reply {
        Numbered::apply(self, command)
    }

    fn commit(&mut self) -> Result<(), Errno> {
        Numbered::commit(self)
    }

    fn waiting(&self) -> usize {
        Numbered::waiting(self)
    }

    fn handle_of(&self, number: u32) -> Handle {
        Numbered::handle_of(self, number)
    }
}
