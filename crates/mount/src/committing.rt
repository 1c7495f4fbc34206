//! What a commit of commands that waited does: their records, and slices of a consistency point.

ghost use Rattle.std.specs.Prelude.{◌≢◌, IsFalse, None};
ghost use Rattle.oplog.specs.Batches.{FitsHalf};
ghost use Rattle.mount.specs.Batching.{LogsTogether, MakesSlices};

use crate::Fs;
use model::Errno;
use station::Station;
use system::{WaitingRecords, served_states_open};

impl<S: Station> Fs<S> {
    /// Puts the records that wait into the log together.
    pub(crate) fn log_together(&mut self, records: &mut WaitingRecords) -> Result<(), Errno>
        requires going { IsFalse self.old.has_failed }
        requires fits { FitsHalf self.old.system.log records.old.batch }
        ensures { LogsTogether self.old self.new records.old records.new result }
    {
        match self.system.commit(records) {
            Ok(()) => Ok(()),
            Err(_) => {
                self.has_failed = true;
                Err(Errno::EIO)
            }
        }
    }

    /// Writes so many slices of the consistency point that is under way at most; where none is,
    /// nothing is done.
    pub(crate) fn write_slices(&mut self, count: u64) -> Result<(), Errno>
        requires { IsFalse self.old.has_failed }
        ensures { MakesSlices self.old self.new result }
    {
        served_states_open(&self.system);
        for _ in 0..count {
            if !self.system.blocks.is_under_way() {
                return Ok(());
            }
            if let Err(errno) = self.write_slice() {
                return Err(errno);
            }
        }
        Ok(())
    }

    /// Writes a slice of the point that is under way.
    fn write_slice(&mut self) -> Result<(), Errno>
        requires going { IsFalse self.old.has_failed }
        requires under_way { self.old.system.blocks.pending ≢ None }
        ensures { MakesSlices self.old self.new result }
    {
        match self.system.advance() {
            Ok(()) => Ok(()),
            Err(_) => {
                self.has_failed = true;
                Err(Errno::EIO)
            }
        }
    }
}
