//! Whether the disk has room for what is asked of it.

ghost use Rattle.std.specs.Prelude.{◌≡◌, ◌*◌, ◌<◌, ◌≤◌, ◌^◌, ◌↔◌, IsTrue};
ghost use Rattle.layout.specs.Record.{KeepsLimits, change_of};
ghost use Rattle.model.specs.Records.{work_of};
ghost use Rattle.model.specs.Room.{cost, headroom};
ghost use Rattle.model.specs.Volumes.{Volume};
ghost use Rattle.replay.specs.Costs.{IsSizeBefore};
ghost use Rattle.replay.specs.declared.costs.TheConstants.{MOST_COST};
ghost use Rattle.system.specs.Room.{HasRoomBesides, HasRoomForWork, HasRoomToLog, HasRoomToTake, costs_on};
ghost use Rattle.system.specs.Waiting.{HasRoomForWorkBehind};

use crate::{System, WaitingRecords};
use layout::Record;
use model::Costs;
use replay::{cost_of, headroom_of};
use station::Station;

impl<S: Station> System<S> {
    /// What records and consistency points cost on its disk.
    pub(crate) fn costs(&self) -> Costs
        ensures { result ≡ costs_on self.now }
    {
        self.root.geometry.limits().costs
    }

    /// The most blocks that a consistency point stores for a record, over a file of this size.
    pub(crate) fn cost_of(&self, change: &Record<'_>, size: u64) -> u64
        requires { KeepsLimits (change_of change.now) }
        ensures cost { (v : Volume) → IsSizeBefore v (change_of change.now) size
            → result ≡ cost (costs_on self.now) (work_of v (change_of change.now)) }
        ensures few { result ≤ MOST_COST }
    {
        cost_of(self.costs(), change, size)
    }

    /// The blocks that stay free behind a record, over a file of this size.
    fn headroom_of(&self, change: &Record<'_>, size: u64) -> u64
        ensures headroom { (v : Volume) → IsSizeBefore v (change_of change.now) size
            → result ≡ headroom (costs_on self.now) (work_of v (change_of change.now)) }
        ensures few { result < 2 ^ 32 }
    {
        headroom_of(self.costs(), change, size)
    }

    /// The blocks that each consistency point stores whatever changed.
    pub(crate) fn cost_of_point(&self) -> u64
        ensures is { result ≡ (costs_on self.now).point }
        ensures few { result < 2 ^ 32 }
    {
        u64::from(self.costs().point)
    }

    /// What so many orphans cost that the root has.
    pub(crate) fn cost_of_orphans(&self, orphans: u32) -> u64
        ensures { result ≡ (costs_on self.now).orphan * orphans }
    {
        u64::from(self.costs().orphan) * u64::from(orphans)
    }

    /// Whether the disk has room for a record whose change is prepared, where the file that it
    /// writes to or cuts has so many bytes: beside all that may be stored already and what stays
    /// free behind it.
    pub(crate) fn has_room(&self, change: &Record<'_>, size: u64) -> bool
        requires { KeepsLimits (change_of change.now) }
        ensures logs { IsTrue result → HasRoomToLog self.now (change_of change.now) size }
        ensures told { (v : Volume) → IsSizeBefore v (change_of change.now) size
            → IsTrue result ↔ HasRoomForWork self.now (work_of v (change_of change.now)) }
    {
        let asked = self.cost_of(change, size) + self.headroom_of(change, size);
        asked + self.cost_of_point() <= u64::from(self.free).saturating_sub(self.pledged)
    }

    /// The same beside what is pledged for the records that wait.
    pub(crate) fn has_room_behind(
        &self,
        waiting: &WaitingRecords,
        change: &Record<'_>,
        size: u64,
    ) -> bool
        requires { KeepsLimits (change_of change.now) }
        ensures { (v : Volume) → IsSizeBefore v (change_of change.now) size
            → IsTrue result ↔ HasRoomForWorkBehind self.now waiting.now (work_of v (change_of change.now)) }
    {
        let asked = self.cost_of(change, size) + self.headroom_of(change, size);
        let left = u64::from(self.free).saturating_sub(self.pledged);
        asked + self.cost_of_point() <= left.saturating_sub(waiting.pledged())
    }

    /// Whether it has room for a snapshot.
    pub(crate) fn has_room_to_take(&self) -> bool
        ensures { IsTrue result ↔ HasRoomToTake self.now }
    {
        2 * self.cost_of_point() < u64::from(self.free).saturating_sub(self.pledged)
    }

    /// Whether it has room to make the tree that of a snapshot, under which so many orphans are
    /// kept.
    pub(crate) fn has_room_besides(&self, orphans: u32) -> bool
        ensures { IsTrue result ↔ HasRoomBesides self.now orphans }
    {
        let asked = 2 * self.cost_of_point() + self.cost_of_orphans(orphans);
        asked < u64::from(self.free).saturating_sub(self.pledged)
    }
}
