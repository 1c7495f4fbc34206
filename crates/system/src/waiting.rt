//! Records that wait, while memory goes on, and their commit.

ghost use Rattle.std.specs.Prelude.{◌≡◌, ◌≢◌, ◌⊎◌, ◌↔◌, ◌+◌, ℕ, [], Option, OnOk, OnErr, IfErr, IsErrOf, IsOk, IsTrue, length};
ghost use Rattle.layout.specs.Record.{KeepsLimits, change_of};
ghost use Rattle.model.specs.States.{State};
ghost use Rattle.model.specs.Trees.{Description};
ghost use Rattle.descriptors.specs.Tables.{KeepsRoom, table_of};
ghost use Rattle.oplog.specs.Batches.{FitsHalf, HasRoomBehind};
ghost use Rattle.oplog.specs.LogEnd.{logged_body};
ghost use Rattle.records.specs.Prepared.{IsReady};
ghost use Rattle.replay.specs.Costs.{KnowsFile};
ghost use Rattle.system.specs.Ahead.{HasStateAhead};
ghost use Rattle.system.specs.Counting.{Counted, call_failed};
ghost use Rattle.system.specs.Serving.{LeavesEither};
ghost use Rattle.system.specs.Systems.{HasState, meaning_of, system_parts};
ghost use Rattle.system.specs.Waiting.{IsPlanDueBehind, WaitsAt};
ghost use Rattle.system.specs.Waits.{none_waits};

use crate::laws::{cuts_open, records_lead_on};
use crate::{CallError, System, WaitError, WaitingRecords};
use layout::{RECORD_HEAD_BYTES, Record};
use records::{Prepared, commit_swept};
use replay::size_before;
use station::Station;

impl<S: Station> System<S> {
    /// Whether a point is to be planned, were the records that wait in the log: none is under way,
    /// the log is in the first epoch over the root, and less than a sixteenth of its half is left.
    pub fn is_plan_due_behind(&self, waiting: &WaitingRecords) -> bool
        ensures { IsTrue result ↔ IsPlanDueBehind self.now waiting.now }
    {
        let next = self.root.generation.epoch_after(1);
        let least = (self.root.geometry.half() / 16) as usize - (RECORD_HEAD_BYTES + 1);
        !self.blocks.is_under_way()
            && self.log.epoch() == next
            && !self.log.room_behind(&waiting.batch, least)
    }

    /// Whether one more may wait, as far as the half is concerned: what waits fits it, with a head
    /// and a closed gate behind.
    pub fn has_room_to_wait(&self, waiting: &WaitingRecords) -> bool
        ensures { IsTrue result → FitsHalf self.now.log waiting.now.batch }
    {
        self.log.room_behind(&waiting.batch, 0)
    }

    /// Puts a prepared change in force in memory; its record waits behind those that do. No device
    /// is called. `PlanDue` where a point is to be planned first, whose root would hold what waits;
    /// then `NoRoom` where the disk has no room for the record, and `LogFull` where the log is in
    /// its second epoch over the root, or the record doesn't fit what is left of the half. These
    /// and `NoMemory` change nothing.
    pub fn wait(
        &mut self,
        waiting: &mut WaitingRecords,
        change: &Record,
        prepared: Prepared,
    ) -> Result<(), WaitError>
        requires fits { KeepsLimits (change_of change.now) }
        requires ready { IsReady self.old.inodes prepared }
        ensures due { IsErrOf result WaitError.PlanDue ↔ IsPlanDueBehind self.old waiting.old }
        ensures full { IsErrOf result WaitError.LogFull
            → (self.old.log.epoch ≢ self.old.root.generation + 1)
            ⊎ ¬ HasRoomBehind self.old.log waiting.old.batch (length (logged_body (change_of change.now))) }
        ensures own { IfErr result (λ e. (e ≢ WaitError.NotRead) × (e ≢ WaitError.Damaged)) }
        ensures refused { OnErr result ((self.new ≡ self.old) × (waiting.new ≡ waiting.old)) }
        ensures memory { (self.new.blocks ≡ self.old.blocks)
            × (system_parts self.new ≡ record (system_parts self.old) {
              inodes = self.new.inodes;
              files = self.new.files;
            }) }
        ensures stays { (table_of self.new.files ≡ table_of self.old.files)
            × KeepsRoom self.old.files self.new.files }
        ensures half { FitsHalf self.old.log waiting.old.batch → FitsHalf self.new.log waiting.new.batch }
        ensures told { (table : ℕ → Option Description) (s kept : State)
            → (ahead : HasStateAhead self.old waiting.old table s kept)
            → KnowsFile self.old.inodes (change_of change.now)
            → WaitsAt self.old self.new waiting.old waiting.new table s kept ahead
            (change_of change.now) prepared result }
    {
        cuts_open();
        records_lead_on();
        if self.is_plan_due_behind(waiting) {
            return Err(WaitError::PlanDue);
        }
        let size = size_before(&self.inodes, change);
        if !self.has_room_behind(waiting, change, size) {
            return Err(WaitError::NoRoom);
        }
        if self.log.epoch() != self.root.generation.epoch_after(1) {
            return Err(WaitError::LogFull);
        }
        if !self.log.room_behind(&waiting.batch, change.encoded_len()) {
            return Err(WaitError::LogFull);
        }
        let cost = self.cost_of(change, size);
        let Ok(()) = waiting.add(self.alloc, change, cost) else {
            return Err(WaitError::NoMemory);
        };
        commit_swept(&mut self.inodes, &mut self.files, prepared);
        Ok(())
    }

    /// Puts the records that wait into the log together. A cut within it leaves what was left
    /// before, or the state that memory stands for, which is served at the answer: no cut leaves a
    /// part of them. Where none waits it does nothing. It takes no memory. After `NotWritten`, its
    /// one error, the log has stopped, and whether they count is known at the next mount.
    pub fn commit(&mut self, waiting: &mut WaitingRecords) -> Result<(), CallError>
        requires half { FitsHalf self.old.log waiting.old.batch }
        ensures counted { Counted (meaning_of self.old) (meaning_of self.new)
            (call_failed self.old.log.is_stopped result) }
        ensures own { IfErr result (λ e. e ≡ CallError.NotWritten) }
        ensures idle { waiting.old.batch ≡ [] → IsOk result × (self.new ≡ self.old) }
        ensures emptied { OnOk result (waiting.new ≡ none_waits) }
        ensures kept { OnErr result (waiting.new ≡ waiting.old) }
        ensures stays { system_parts self.new ≡ record (system_parts self.old) {
          log = self.new.log;
          pledged = self.new.pledged;
          pledged_then = self.new.pledged_then;
        } }
        ensures epoch { self.new.log.epoch ≡ self.old.log.epoch }
        ensures runs { OnOk result (self.new.log.is_stopped ≡ self.old.log.is_stopped) }
        ensures stops { OnErr result (IsTrue self.new.log.is_stopped) }
        ensures leaves { (table : ℕ → Option Description) (s kept : State)
            → HasStateAhead self.old waiting.old table s kept
            → LeavesEither (meaning_of self.old) (meaning_of self.new) kept s }
        ensures serves { (table : ℕ → Option Description) (s kept : State)
            → HasStateAhead self.old waiting.old table s kept → OnOk result (HasState self.new table s) }
    {
        cuts_open();
        if waiting.is_empty() {
            return Ok(());
        }
        let station = &mut self.blocks.buffers.station;
        let Ok(()) = self.log.append_all(station, &mut waiting.batch) else {
            return Err(CallError::NotWritten);
        };
        // The sum was tested against the blocks that are free when each of them came to wait.
        self.pledged = self.pledged.saturating_add(waiting.pledged);
        self.pledged_then += waiting.pledged;
        waiting.pledged = 0;
        Ok(())
    }
}
