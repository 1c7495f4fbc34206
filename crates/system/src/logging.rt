//! Records put into the log of a mounted system.

ghost use Rattle.std.specs.Prelude.{◌≡◌, ◌≢◌, ◌⊎◌, ◌+◌, ℕ, Option, OnOk, OnErr, IfErr, IsErrOf, IsFalse, IsTrue, length, true};
ghost use Rattle.layout.specs.StateLimits.{limits_of};
ghost use Rattle.station.specs.Calls.{OnlyWrites};
ghost use Rattle.layout.specs.Record.{KeepsLimits, change_of};
ghost use Rattle.model.specs.Records.{work_of};
ghost use Rattle.model.specs.Room.{cost};
ghost use Rattle.model.specs.States.{State};
ghost use Rattle.model.specs.Trees.{Description};
ghost use Rattle.model.specs.Volumes.{Volume};
ghost use Rattle.descriptors.specs.Tables.{KeepsRoom, table_of};
ghost use Rattle.oplog.specs.LogEnd.{HasRoomInHalf, behind_record, logged_body};
ghost use Rattle.records.specs.Prepared.{IsReady};
ghost use Rattle.system.specs.Logging.{Advances, Appends, LogsAt};
ghost use Rattle.replay.specs.Costs.{IsSizeBefore, KnowsFile};
ghost use Rattle.system.specs.Room.{HasRoomToLog, costs_on};
ghost use Rattle.system.specs.Systems.{HasState, meaning_of, system_parts};

use crate::error::log_error;
use crate::laws::{cuts_open, records_lead_on, served_states_open};
use crate::{CallError, System};
use layout::Record;
use oplog::AppendError;
use records::{Prepared, commit_swept};
use replay::size_before;
use station::Station;

impl<S: Station> System<S> {
    /// Puts a record into the log; what it does to memory is to follow. A cut at any moment leaves
    /// the state before it or the one after it. What it costs is by the size of the file that it
    /// writes to or cuts. `LogFull`, where it doesn't fit what is left of the log's half, and
    /// `NoMemory` change nothing; after `Device` the log has stopped, and whether the record counts
    /// is known at the next mount.
    pub(crate) fn log_record(&mut self, change: &Record, size: u64) -> Result<(), AppendError>
        requires fits { KeepsLimits (change_of change.now) }
        requires room { HasRoomToLog self.old (change_of change.now) size }
        ensures writes { OnlyWrites
            (λ e. (e ≡ AppendError.Device) × IsFalse self.old.log.is_stopped)
            (meaning_of self.old) (meaning_of self.new) result }
        ensures refused { IfErr result (λ e. e ≢ AppendError.Device
            → (self.new.blocks ≡ self.old.blocks) × (self.new.log ≡ self.old.log)) }
        ensures errors { (IsErrOf result AppendError.LogFull
            → HasRoomInHalf self.old.log (length (logged_body (change_of change.now))) → ⊥)
            × (IsErrOf result AppendError.Device
            → self.new.log ≡ record self.old.log { is_stopped = true }) }
        ensures end { OnOk result
            (self.new.log ≡ behind_record self.old.log (logged_body (change_of change.now))) }
        ensures stays { (system_parts self.new ≡ record (system_parts self.old) {
          log = self.new.log;
          pledged = self.new.pledged;
          pledged_then = self.new.pledged_then;
        }) × OnErr result ((self.new.pledged ≡ self.old.pledged)
            × (self.new.pledged_then ≡ self.old.pledged_then)) }
        ensures pledges { (v : Volume) → IsSizeBefore v (change_of change.now) size
            → OnOk result ((self.new.pledged
            ≡ self.old.pledged + cost (costs_on self.old) (work_of v (change_of change.now)))
            × (self.new.pledged_then
            ≡ self.old.pledged_then + cost (costs_on self.old) (work_of v (change_of change.now)))) }
        ensures told { (table : ℕ → Option Description) (s : State)
            → (serves : HasState self.old table s) → IsSizeBefore serves.running (change_of change.now) size
            → Advances (limits_of self.old.root.geometry) serves.running table (change_of change.now)
            → Appends self.old self.new table s serves (change_of change.now) result }
    {
        cuts_open();
        records_lead_on();
        let cost = self.cost_of(change, size);
        match self
            .log
            .append(self.alloc, &mut self.blocks.buffers.station, change)
        {
            Ok(()) => {
                self.pledged += cost;
                self.pledged_then += cost;
                Ok(())
            }
            Err(error) => Err(error),
        }
    }

    /// Logs the record of a prepared change, and puts the change in force. `LogFull` where the log
    /// is in its second epoch over the root, and a point has to come first, or where the record
    /// doesn't fit what is left of the half, and before that `NoRoom` where the disk has no room
    /// for it; these and `NoMemory` change nothing. After `NotWritten` the log has stopped.
    pub fn log(&mut self, change: &Record, prepared: Prepared) -> Result<(), CallError>
        requires fits { KeepsLimits (change_of change.now) }
        requires ready { IsReady self.old.inodes prepared }
        ensures writes { OnlyWrites
            (λ e. (e ≡ CallError.NotWritten) × IsFalse self.old.log.is_stopped)
            (meaning_of self.old) (meaning_of self.new) result }
        ensures refused { IfErr result (λ e.
            (system_parts self.new ≡ record (system_parts self.old) { log = self.new.log })
            × (e ≢ CallError.NotWritten
            → (self.new.blocks ≡ self.old.blocks) × (self.new.log ≡ self.old.log))) }
        ensures own { IfErr result
            (λ e. (e ≢ CallError.NotRead) × (e ≢ CallError.Damaged)) }
        ensures stays { (self.new.root ≡ self.old.root)
            × (table_of self.new.files ≡ table_of self.old.files)
            × (self.new.blocks.pending ≡ self.old.blocks.pending)
            × (self.new.log.epoch ≡ self.old.log.epoch)
            × OnOk result (self.new.log.is_stopped ≡ self.old.log.is_stopped) }
        ensures keeps { KeepsRoom self.old.files self.new.files }
        ensures stops { IsErrOf result CallError.NotWritten → IsTrue self.new.log.is_stopped }
        ensures full { IsErrOf result CallError.LogFull
            → (self.old.log.epoch ≢ self.old.root.generation + 1)
            ⊎ (HasRoomInHalf self.old.log (length (logged_body (change_of change.now))) → ⊥) }
        ensures told { (table : ℕ → Option Description) (s : State)
            → (serves : HasState self.old table s) → KnowsFile self.old.inodes (change_of change.now)
            → LogsAt self.old self.new table s serves (change_of change.now) prepared result }
    {
        served_states_open(self);
        let size = size_before(&self.inodes, change);
        if !self.has_room(change, size) {
            return Err(CallError::NoRoom);
        }
        if self.log.epoch() != self.root.generation.epoch_after(1) {
            return Err(CallError::LogFull);
        }
        if let Err(error) = self.log_record(change, size) {
            return Err(log_error(error));
        }
        commit_swept(&mut self.inodes, &mut self.files, prepared);
        Ok(())
    }
}
