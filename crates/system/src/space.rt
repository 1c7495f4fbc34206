//! The room of the disk of a mounted system.

ghost use Rattle.std.specs.Prelude.{◌≡◌, ℕ, Bool, Option, IsTrue};
ghost use Rattle.layout.specs.StateLimits.{limits_of};
ghost use Rattle.layout.specs.Places.{blocks_of};
ghost use Rattle.model.specs.Paths.{Name};
ghost use Rattle.model.specs.Records as records;
ghost use Rattle.model.specs.Records.{TellsRoom};
ghost use Rattle.model.specs.Room.{Room, nothing};
ghost use Rattle.model.specs.States.{State};
ghost use Rattle.model.specs.Steps.{tells_usage};
ghost use Rattle.model.specs.Trees.{Description};
ghost use Rattle.model.specs.declared.reply.Reply.{Reply};
ghost use Rattle.images.specs.Roots.{whole};
ghost use Rattle.images.specs.Room.{free_under};
ghost use Rattle.system.specs.Room.{costs_on};
ghost use Rattle.system.specs.Systems.{HasState};

use crate::System;
use model::{ROOT_NUMBER, Usage, volumes_tell_used_numbers};
use station::Station;

/// The room of a disk, in blocks.
#[derive(Clone, Copy, Debug, PartialEq, Eq)]
pub struct Space {
    /// All blocks of the disk.
    pub blocks: u32,
    /// Those that are free under the settled root.
    pub free: u32,
    /// Those that a consistency point may store for what that root doesn't cover.
    pub pledged: u64,
}

impl<S: Station> System<S> {
    /// The room of the disk, with no device call.
    pub fn space(&self) -> Space
        ensures blocks { result.blocks ≡ self.now.root.geometry.blocks }
        ensures free { (table : ℕ → Option Description) (s : State)
            → (serves : HasState self.now table s) → let root = serves.settled.root in
            result.free
            ≡ free_under (whole (blocks_of serves.settled.disk) root).active root.geometry.blocks }
        ensures told { (table : ℕ → Option Description) (s : State)
            → (serves : HasState self.now table s) → (orphans : Name → ℕ) → (covered : Bool)
            → (stored : ℕ → ℕ → Bool)
            → (IsTrue covered
            → records.CoversAll serves.settled.volume serves.running serves.lasts.replayed.changes)
            → TellsRoom (limits_of serves.settled.root.geometry) serves.settled.volume serves.running
            serves.lasts.replayed.changes (record {
              costs = costs_on self.now;
              blocks = result.blocks;
              free = result.free;
              pledged = result.pledged;
              is_covered = covered;
              orphans_of = orphans;
              stored = stored;
            }) }
    {
        Space {
            blocks: self.map.count(),
            free: self.free,
            pledged: self.pledged,
        }
    }

    /// How much room there is, and for how many objects, with no device call.
    pub fn usage(&self) -> Usage
        ensures { (table : ℕ → Option Description) (s : State)
            → (serves : HasState self.now table s) → (room : Room) → let root = serves.settled.root in
            room.blocks ≡ self.now.root.geometry.blocks
            → room.free
            ≡ free_under (whole (blocks_of serves.settled.disk) root).active root.geometry.blocks
            → TellsRoom (limits_of root.geometry) serves.settled.volume serves.running
            serves.lasts.replayed.changes room
            → tells_usage room s (Reply.Usage result) s nothing }
    {
        volumes_tell_used_numbers();
        let Space {
            blocks,
            free,
            pledged,
        } = self.space();
        let kept = self.cost_of_point() + u64::from(self.costs().headroom);
        Usage {
            blocks,
            free,
            // A system that serves a state pledges free blocks alone, so this is the sum.
            reserved: pledged.saturating_add(kept),
            inodes: self.inodes.geometry().inodes() - ROOT_NUMBER,
            taken: self.inodes.count_taken(),
        }
    }
}
