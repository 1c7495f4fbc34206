//! Blocks in memory that a system needs no longer.

ghost use Rattle.std.specs.Prelude.{ℕ, ◌≡◌, Ok, Option};
ghost use Rattle.model.specs.States.{State};
ghost use Rattle.model.specs.Trees.{Description};
ghost use Rattle.system.specs.Ahead.{HasStateAhead};
ghost use Rattle.system.specs.CheckpointCommands.{Glances};
ghost use Rattle.system.specs.Waits.{Waits};

use crate::System;
use station::Station;

impl<S: Station> System<S> {
    /// Lets go of the blocks that a command made resident: the next one that wants them finds them
    /// in the cache, or reads them again.
    pub fn let_go(&mut self)
        ensures glances { Glances {T = Unit {0}} self.old self.new (Ok tt) }
        ensures station { self.new.blocks.buffers.station ≡ self.old.blocks.buffers.station }
        ensures files { self.new.files ≡ self.old.files }
        ensures ahead { (waits : Waits) (table : ℕ → Option Description) (s kept : State)
            → HasStateAhead self.old waits table s kept → HasStateAhead self.new waits table s kept }
    {
        self.blocks.let_go();
    }
}
