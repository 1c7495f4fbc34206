//! A consistency point that is carried out in slices, between calls.

ghost use Rattle.std.specs.Prelude.{◌≢◌, ◌↔◌, IsTrue, None, Ok};
ghost use Rattle.system.specs.Serving.{IsPlanDue};
ghost use Rattle.system.specs.CheckpointCommands.{MakesCovered};
ghost use Rattle.system.specs.Slicing.{Finishes, StaysReady, Steps};

use crate::laws::{cuts_open, new_roots_hold, points_go_on, served_states_open};
use crate::{PointError, System};
use layout::RECORD_HEAD_BYTES;
use planning::SnapshotChange;
use station::Station;

/// So many blocks of the point under way are written by a call at most.
pub const SLICE_BLOCKS: usize = 8;

impl<S: Station> System<S> {
    /// Whether a point is to be planned: none is under way, the log is in the first epoch over the
    /// root, and less than a sixteenth of its half is left.
    pub fn is_plan_due(&self) -> bool
        ensures { IsTrue result ↔ IsPlanDue self.now }
    {
        let next = self.root.generation.epoch_after(1);
        let least = (self.root.geometry.half() / 16) as usize - (RECORD_HEAD_BYTES + 1);
        !self.blocks.is_under_way() && self.log.epoch() == next && !self.log.room(least)
    }

    /// Plans a point, if one can be planned, and else changes nothing: what the system serves
    /// stays.
    pub fn plan(&mut self)
        requires { IsPlanDue self.old }
        ensures { Steps self.old self.new (Ok tt) }
    {
        cuts_open();
        let _ = self.begin_point(&SnapshotChange::Unchanged);
    }

    /// Writes a slice of the point that is under way, and behind its last block the root. It takes
    /// no memory and reads nothing.
    pub fn advance(&mut self) -> Result<(), PointError>
        requires { self.old.blocks.pending ≢ None }
        ensures steps { Steps self.old self.new result }
        ensures ready { StaysReady self.old self.new result }
    {
        cuts_open();
        points_go_on();
        if self.blocks.left() <= SLICE_BLOCKS {
            return self.finish();
        }
        match self.blocks.write_some(SLICE_BLOCKS) {
            Ok(()) => Ok(()),
            Err(_) => Err(PointError::NotWritten),
        }
    }

    /// Brings the point that is under way to its end; where none is, it does nothing. It takes no
    /// memory and reads nothing.
    pub(crate) fn finish(&mut self) -> Result<(), PointError>
        ensures { Finishes self.old self.new result }
    {
        cuts_open();
        new_roots_hold();
        points_go_on();
        if !self.blocks.is_under_way() {
            return Ok(());
        }
        let written = self.blocks.finish();
        self.map.switch_to_new_root();
        self.free = self.map.free_count();
        self.pledged = self.pledged_then;
        self.inodes.let_past_go();
        match written {
            Ok(()) => Ok(()),
            Err(_) => Err(PointError::NotWritten),
        }
    }

    /// Brings all that the system has under its newest root: ends the point that is under way, and
    /// makes a whole one where something is left.
    pub fn checkpoint(&mut self) -> Result<(), PointError>
        ensures { MakesCovered self.old self.new result }
    {
        served_states_open(self);
        if let Err(error) = self.finish() {
            return Err(error);
        }
        if self.is_covered() {
            return Ok(());
        }
        self.point()
    }
}
