//! Numbers of objects, which a server keeps handles of.

ghost use Rattle.std.specs.Prelude.{◌≡◌, ◌↔◌, ◌≤◌, IfSome, IsTrue, MatchOption};
ghost use Rattle.model.specs.Outcomes.{HasNoFresh, IsFresh};
ghost use Rattle.model.specs.States.{State, going};
ghost use Rattle.model.specs.Trees.{IsUsed};
ghost use Rattle.mount.specs.Systems.{Serves, mounted};

use crate::{Fs, Waiting};
use model::FIRST_NUMBER;
use station::Station;

impl<S: Station> Fs<S> {
    /// Whether a device write failed, after which every command answers FAILED.
    pub fn has_failed(&self) -> bool
        ensures { result ≡ self.now.has_failed }
    {
        self.has_failed
    }

    /// How many inodes the image has, with no device call: each number of an object is below.
    pub fn count_inodes(&self) -> u32
        ensures { (s : State) → Serves (mounted self.now s) → s.mark ≡ going
            → result ≡ s.limits.inodes }
    {
        self.system.count_inodes()
    }

    /// Whether an object has a number, from the first one on that a new object may get, with no
    /// device call.
    pub fn is_used(&self, number: u32) -> bool
        requires { FIRST_NUMBER ≤ number }
        ensures { (s : State) → Serves (mounted self.now s) → s.mark ≡ going
            → IsTrue result ↔ IsUsed s.tree number }
    {
        self.system.is_used(number)
    }

    /// The number that the next new object gets, the least one that none has; None where all are
    /// taken. No device is called.
    pub fn next_number(&self) -> Option<u32>
        ensures low { IfSome result (λ n. FIRST_NUMBER ≤ n) }
        ensures fresh { (s : State) → Serves (mounted self.now s) → s.mark ≡ going
            → MatchOption result (HasNoFresh s.limits s.tree) (IsFresh s.limits s.tree) }
    {
        self.system.next_number()
    }
}

/// The same of a file system whose commands may wait: by the state that it shows.
impl<S: Station> Waiting<S> {
    ghost use Rattle.mount.specs.Batching.{Shows};

    /// Whether a device write failed, after which every command answers FAILED.
    pub fn has_failed(&self) -> bool
        ensures { result ≡ self.now.fs.has_failed }
    {
        self.fs.has_failed
    }

    /// How many inodes the image has, with no device call: each number of an object is below.
    pub fn count_inodes(&self) -> u32
        ensures { (s kept : State) → Shows self.now s kept → result ≡ s.limits.inodes }
    {
        self.fs.system.count_inodes()
    }

    /// Whether an object has a number, from the first one on that a new object may get, with no
    /// device call.
    pub fn is_used(&self, number: u32) -> bool
        requires { FIRST_NUMBER ≤ number }
        ensures { (s kept : State) → Shows self.now s kept → IsTrue result ↔ IsUsed s.tree number }
    {
        self.fs.system.is_used(number)
    }

    /// The number that the next new object gets, the least one that none has; None where all are
    /// taken. No device is called.
    pub fn next_number(&self) -> Option<u32>
        ensures low { IfSome result (λ n. FIRST_NUMBER ≤ n) }
        ensures fresh { (s kept : State) → Shows self.now s kept
            → MatchOption result (HasNoFresh s.limits s.tree) (IsFresh s.limits s.tree) }
    {
        self.fs.system.next_number()
    }
}
