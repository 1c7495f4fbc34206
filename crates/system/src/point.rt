//! A consistency point of a mounted system.

ghost use Rattle.std.specs.Prelude.{◌≡◌, None, OnOk};
ghost use Rattle.inofile.specs.Room.{memory_room};
ghost use Rattle.model.specs.States.{State};
ghost use Rattle.model.specs.Volumes.{Volume};
ghost use Rattle.planning.specs.Changes.{FitsSlots};
ghost use Rattle.planning.specs.declared.change.SnapshotChange.{SnapshotChange};
ghost use Rattle.system.specs.Points.{HasRoomToPlan, HasRoomToStep, KeepsSlots, MakesPoint, StaysAt, StepsTo, TurnsTo};
ghost use Rattle.system.specs.Serving.{ServesState};

use crate::laws::{cuts_open, new_roots_hold, points_go_on};
use crate::{PointError, System};
use inofile::InodeFile;
use planning::SnapshotChange;
use station::Station;
use std::mem;

impl<S: Station> System<S> {
    /// Makes a consistency point: a new root holds the running volume and covers all records. What
    /// the system serves stays the same, also at a cut at any moment. Where it is refused, nothing
    /// changed; after `NotWritten` the system serves nothing any more, but a cut leaves what it
    /// served. `NotPlanned(NoSpace)` doesn't come over a state that it serves.
    pub fn point(&mut self) -> Result<(), PointError>
        requires { self.old.blocks.pending ≡ None }
        ensures makes { MakesPoint StaysAt (λ _. Unit {0}) self.old self.new result }
        ensures slots { (s : State) → ServesState self.old s
            → OnOk result (KeepsSlots self.old self.new) }
    {
        self.point_with(&SnapshotChange::Unchanged)
    }

    /// Makes a consistency point that does with the snapshots what is asked for, too, and starts
    /// from the tree that is there. A cut at any moment leaves what the system served, or that with
    /// the snapshot taken or deleted; else as `point`. A snapshot that is taken has the tree that
    /// the root holds.
    pub(crate) fn point_with(&mut self, change: &SnapshotChange<'_>) -> Result<(), PointError>
        requires rests { self.old.blocks.pending ≡ None }
        requires fits { FitsSlots change.now }
        ensures makes { MakesPoint (StepsTo change.now) (HasRoomToStep change.now) self.old self.new result }
        ensures slots { (s : State) → ServesState self.old s → change.now ≡ SnapshotChange.Unchanged
            → OnOk result (KeepsSlots self.old self.new) }
    {
        cuts_open();
        new_roots_hold();
        points_go_on();
        self.begin_point(change)?;
        self.finish()
    }

    /// Makes a consistency point that settles these objects in place of those in memory, which come
    /// back where it is refused. A cut at any moment leaves what the system served, or what these
    /// stand for; else as `point_with`.
    pub(crate) fn point_over(
        &mut self,
        memory: InodeFile,
        change: &SnapshotChange<'_>,
    ) -> Result<(), PointError>
        requires rests { self.old.blocks.pending ≡ None }
        requires fits { FitsSlots change.now }
        requires sizes { memory.geometry ≡ self.old.root.geometry }
        ensures { (base v : Volume) → MakesPoint (TurnsTo change.now memory base v)
            (λ f. HasRoomToPlan change.now f (memory_room base memory v)) self.old self.new result }
    {
        cuts_open();
        new_roots_hold();
        points_go_on();
        let known = mem::replace(&mut self.inodes, memory);
        match self.begin_point(change) {
            Ok(()) => self.finish(),
            Err(error) => {
                self.inodes = known;
                Err(error)
            }
        }
    }
}
