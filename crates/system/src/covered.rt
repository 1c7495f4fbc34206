//! What a mounted system has that its newest root doesn't hold.

ghost use Rattle.std.specs.Prelude.{◌↔◌, ℕ, Option, IsTrue};
ghost use Rattle.model.specs.Records as records;
ghost use Rattle.model.specs.States.{State};
ghost use Rattle.model.specs.Trees.{Description};
ghost use Rattle.system.specs.Serving.{HasEmptyLog, HasNothingNew};
ghost use Rattle.system.specs.Systems.{HasState, IsCovered};

use crate::System;
use crate::laws::new_roots_hold;
use inofile::unchanged_memory_is_settled;
use station::Station;

impl<S: Station> System<S> {
    /// Whether the newest root holds all that the system has, so that a consistency point would do
    /// nothing: no object in memory is changed, and no record stands in the log that the root
    /// doesn't cover. It says so after each point.
    pub fn is_covered(&self) -> bool
        ensures told { IsTrue result ↔ HasNothingNew self.now }
        ensures covers { (table : ℕ → Option Description) (s : State) → HasState self.now table s
            → IsTrue result → IsCovered self.now table s }
        ensures all { (table : ℕ → Option Description) (s : State)
            → (serves : HasState self.now table s) → IsTrue result
            → records.CoversAll serves.settled.volume serves.running serves.lasts.replayed.changes }
    {
        new_roots_hold();
        unchanged_memory_is_settled();
        if self.blocks.is_under_way() {
            return false;
        }
        self.has_empty_log() && self.inodes.is_settled()
    }

    /// Whether the log's end tells that no record stands beside the root.
    fn has_empty_log(&self) -> bool
        ensures { IsTrue result ↔ HasEmptyLog self.now }
    {
        let next = self.root.generation.epoch_after(1);
        self.log.is_empty() && self.log.epoch().get() == next.get()
    }
}
