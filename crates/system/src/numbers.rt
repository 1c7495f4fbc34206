//! Numbers of objects, as the inode map in memory has them.

ghost use Rattle.std.specs.Prelude.{ℕ, ◌≡◌, ◌↔◌, ◌≤◌, Option, IfSome, IsTrue, MatchOption};
ghost use Rattle.model.specs.Outcomes.{HasNoFresh, IsFresh};
ghost use Rattle.model.specs.States.{State};
ghost use Rattle.model.specs.Trees.{Description, IsUsed};
ghost use Rattle.system.specs.Ahead.{HasStateAhead};
ghost use Rattle.system.specs.Systems.{HasState};
ghost use Rattle.system.specs.Waits.{Waits};

use crate::System;
use model::{FIRST_NUMBER, volumes_tell_used_numbers};
use station::Station;

impl<S: Station> System<S> {
    /// How many inodes the image has, with no device call.
    pub fn count_inodes(&self) -> u32
        ensures served { (table : ℕ → Option Description) (s : State) → HasState self.now table s
            → result ≡ s.limits.inodes }
        ensures ahead { (waits : Waits) (table : ℕ → Option Description) (s kept : State)
            → HasStateAhead self.now waits table s kept → result ≡ s.limits.inodes }
    {
        self.inodes.geometry().inodes()
    }

    /// Whether an object has a number, from the first one on that a new object may get, with no
    /// device call.
    pub fn is_used(&self, number: u32) -> bool
        requires { FIRST_NUMBER ≤ number }
        ensures served { (table : ℕ → Option Description) (s : State) → HasState self.now table s
            → IsTrue result ↔ IsUsed s.tree number }
        ensures ahead { (waits : Waits) (table : ℕ → Option Description) (s kept : State)
            → HasStateAhead self.now waits table s kept → IsTrue result ↔ IsUsed s.tree number }
    {
        volumes_tell_used_numbers();
        if self.inodes.geometry().inodes() <= number {
            return false;
        }
        self.inodes.is_taken(number)
    }

    /// The number that the next new object gets, the least one that none has; None where all are
    /// taken. No device is called.
    pub fn next_number(&self) -> Option<u32>
        ensures low { IfSome result (λ n. FIRST_NUMBER ≤ n) }
        ensures fresh { (table : ℕ → Option Description) (s : State) → HasState self.now table s
            → MatchOption result (HasNoFresh s.limits s.tree) (IsFresh s.limits s.tree) }
        ensures ahead { (waits : Waits) (table : ℕ → Option Description) (s kept : State)
            → HasStateAhead self.now waits table s kept
            → MatchOption result (HasNoFresh s.limits s.tree) (IsFresh s.limits s.tree) }
    {
        volumes_tell_used_numbers();
        self.inodes.next_free()
    }
}
