//! Appending to the log.

ghost use Rattle.std.specs.Prelude.{◌≡◌, ◌≢◌, ◌⊎◌, ℕ, ◌+◌, ◌*◌, ◌<◌, ◌≤◌, ◌^◌, true, List, [], length, IsTrue, IsFalse, IsErrOf, IfOk, IsErr, IsOk, OnErr, OnOk, ◌↔◌};
ghost use Rattle.station.specs.Moments.{LeavesOnly, KeepsDisk, EachCut};
ghost use Rattle.station.specs.Calls.{OnlyWrites};
ghost use Rattle.oplog.specs.Internal.{start_of, IsBehind};
ghost use Rattle.oplog.specs.Batches.{FitsHalf, HasRoomBehind, IsBatchOf};
ghost use Rattle.oplog.specs.LogEnd.{AllOrNone, LogEnd, AreHalfBytes, next_of, HasRoomInHalf, behind_record, behind_records, Bodies, no_bodies, all_bodies, with_bodies, with_body, logged_body, StandsAt, LogStands, ReadsDisk, WithOrWithout};
ghost use Rattle.layout.specs.Record.{KeepsLimits, change_of};
ghost use Rattle.layout.specs.declared.log.TheConstants.{FIRST_GATE, RECORD_HEAD_BYTES};

use crate::Batch;
use crate::append::{behind_the_gate, write_records};
use layout::{Epoch, FIRST_GATE, RECORD_HEAD_BYTES, Record};
use station::{DeviceFault, Station};
use std::alloc::{AllocError, Global};
use std::marker::Model;
use thiserror::Error;

/// Why a record was not appended. The numbers are those of the file system's inner refusals.
#[derive(Clone, Copy, Debug, PartialEq, Eq, Error)]
pub enum AppendError {
    /// No memory. Nothing changed.
    #[error("no memory")]
    NoMemory = 1,
    /// A write failed, now or before: the log has stopped, and says so to every later call.
    #[error("a device call failed")]
    Device = 2,
    /// The record doesn't fit what is left of the half. Nothing changed.
    #[error("the log is full")]
    LogFull = 6,
}

impl From<AllocError> for AppendError {
    ghost use Rattle.oplog.specs.declared.log.AppendError.TheVariants.{NoMemory};

    ghost from_gives = { λ _ e. e ≡ NoMemory };

    fn from(_: AllocError) -> AppendError {
        AppendError::NoMemory
    }
}

/// Where the next record goes.
#[derive(Clone, Copy, Debug, PartialEq, Eq)]
pub enum End {
    /// It opens its epoch first.
    Unopened,
    /// Its epoch is open, and its gate stands at this place of the half.
    At(u32),
}

/// The end of the log: where the next record goes.
#[derive(Debug, Drop)]
pub struct Log {
    /// Bytes of a half.
    pub(crate) half: u32,
    /// The epoch that the next record goes to.
    pub(crate) epoch: Epoch,
    pub(crate) end: End,
    /// A write failed before.
    pub(crate) is_stopped: bool,
}

impl Model for Log {
    ghost Value = { LogEnd };

    ghost view = { λ l.
        record { half = l.half; epoch = l.epoch; end = l.end; is_stopped = l.is_stopped } };

    ghost invariant = { λ l. AreHalfBytes l.half
        × (FIRST_GATE ≤ next_of l.end) × (next_of l.end < l.half) };
}

impl Log {
    /// Later records go to this epoch, which the next `append` opens.
    pub fn go_on(&mut self, epoch: Epoch)
        ensures end { self.new ≡ record self.old { epoch = epoch; end = End.Unopened } }
        // Over the same root: what the log holds is older now.
        ensures newer { (g : ℕ) (bodies : Bodies) (nvram : List ℕ)
            → self.old.epoch ≡ g + 1 → epoch ≡ g + 2 → StandsAt self.old g bodies nvram
            → StandsAt self.new g (record { older = all_bodies bodies; newest = [] }) nvram }
        // Under a new root that covers the epoch so far: the log holds nothing.
        ensures covered { (g : ℕ) (bodies : Bodies) (nvram : List ℕ)
            → g < 2 ^ 62 → epoch ≡ self.old.epoch + 1 → StandsAt self.old g bodies nvram
            → StandsAt self.new self.old.epoch no_bodies nvram }
    {
        self.epoch = epoch;
        self.end = End::Unopened;
    }

    /// The epoch that the next record goes to.
    pub fn epoch(&self) -> Epoch
        ensures { result ≡ self.now.epoch }
    {
        self.epoch
    }

    /// Whether no record stands in the log of the epoch that the next one goes to. The epoch may be
    /// open: a cut behind its opening leaves it so.
    pub fn is_empty(&self) -> bool
        ensures { IsTrue result ↔ (next_of self.now.end ≡ FIRST_GATE) }
    {
        self.next() == FIRST_GATE
    }

    /// Whether a record with a body of this length fits what is left of the half.
    pub fn room(&self, length: usize) -> bool
        ensures { IsTrue result ↔ HasRoomInHalf self.now length }
    {
        let left = (self.half - self.next()) as usize;
        left >= RECORD_HEAD_BYTES + 1 && length <= left - (RECORD_HEAD_BYTES + 1)
    }

    /// Appends a record, and opens its epoch first where that isn't open. The record counts from
    /// the moment that its gate is written, with a write of its own. `LogFull` where it doesn't fit
    /// what is left of the half and `NoMemory` change nothing; after `Device` the log has stopped,
    /// and makes no more device call.
    pub fn append<S: Station>(
        &mut self,
        alloc: Global,
        station: &mut S,
        change: &Record,
    ) -> Result<(), AppendError>
        requires size { (S.meaning station.old).nvram_bytes ≡ 2 * self.old.half }
        requires fits { KeepsLimits (change_of change.now) }
        ensures writes { OnlyWrites (λ e. (e ≡ AppendError.Device) × IsFalse self.old.is_stopped)
            (S.meaning station.old) (S.meaning station.new) result }
        ensures disk { (disk : ℕ → List ℕ)
            → ReadsDisk (S.meaning station.old) disk → ReadsDisk (S.meaning station.new) disk }
        ensures stopped { IsTrue self.old.is_stopped → (result ≡ Err AppendError.Device)
            × (station.new ≡ station.old) × (self.new ≡ self.old) }
        ensures device { IsErrOf result AppendError.Device
            → self.new ≡ record self.old { is_stopped = true } }
        ensures full { IsErrOf result AppendError.LogFull ↔ (IsFalse self.old.is_stopped
            × ¬ HasRoomInHalf self.old (length (logged_body (change_of change.now)))) }
        ensures refused { IsErrOf result AppendError.LogFull ⊎ IsErrOf result AppendError.NoMemory
            → (station.new ≡ station.old) × (self.new ≡ self.old) }
        ensures end { OnOk result (self.new ≡ behind_record self.old (logged_body (change_of change.now))) }
        // A cut at any moment leaves the records that were there, with this one or without it; at
        // the answer, with it.
        ensures any_moment { (g : ℕ) (bodies : Bodies)
            → LogStands (S.meaning station.old) self.old g bodies
            → LeavesOnly (S.meaning station.old) (S.meaning station.new)
            (KeepsDisk (S.meaning station.old)
            (WithOrWithout self.old.half g bodies (logged_body (change_of change.now)))) }
        ensures appended { (g : ℕ) (bodies : Bodies)
            → LogStands (S.meaning station.old) self.old g bodies
            → OnOk result (EachCut (S.meaning station.new) (KeepsDisk (S.meaning station.old)
            (StandsAt self.new g (with_body bodies (logged_body (change_of change.now)))))) }
    {
        let behind = self.prepare(alloc, change)?;
        let Ok(()) = write_records(station, self.start(), self.epoch, self.end, &behind) else {
            self.is_stopped = true;
            return Err(AppendError::Device);
        };
        self.end = End::At(self.next() + behind.len() as u32);
        Ok(())
    }

    /// Whether a record with a body of this length fits what is left of the half behind the records
    /// of a batch.
    pub fn room_behind(&self, batch: &Batch, length: usize) -> bool
        ensures { IsTrue result ↔ HasRoomBehind self.now batch.now length }
    {
        let left = (self.half - self.next()) as usize;
        let head = RECORD_HEAD_BYTES + 1;
        left >= batch.len() && left - batch.len() >= head && length <= left - batch.len() - head
    }

    /// Appends the records of a batch together, and opens their epoch first where that isn't open.
    /// It makes the same two writes as for one record, so all of them count from the moment that
    /// the first one's gate is written. Then the batch is empty. Of an empty batch it writes
    /// nothing. After an error the log has stopped, and makes no more device call; what waits still
    /// stands in the batch.
    pub fn append_all<S: Station>(
        &mut self,
        station: &mut S,
        batch: &mut Batch,
    ) -> Result<(), DeviceFault>
        requires size { (S.meaning station.old).nvram_bytes ≡ 2 * self.old.half }
        requires room { FitsHalf self.old batch.old }
        ensures writes { OnlyWrites (λ _. IsFalse self.old.is_stopped)
            (S.meaning station.old) (S.meaning station.new) result }
        ensures disk { (disk : ℕ → List ℕ)
            → ReadsDisk (S.meaning station.old) disk → ReadsDisk (S.meaning station.new) disk }
        ensures stopped { IsTrue self.old.is_stopped → IsErr result
            × (station.new ≡ station.old) × (self.new ≡ self.old) }
        ensures device { OnErr result ((self.new ≡ record self.old { is_stopped = true })
            × (batch.new ≡ batch.old)) }
        ensures idle { IsFalse self.old.is_stopped → batch.old ≡ []
            → IsOk result × (station.new ≡ station.old) × (self.new ≡ self.old) }
        ensures emptied { OnOk result (batch.new ≡ []) }
        ensures moved { OnOk result (next_of self.new.end ≡ next_of self.old.end + length batch.old) }
        ensures end { (more : List (List ℕ)) → IsBatchOf more batch.old → more ≢ []
            → OnOk result (self.new ≡ behind_records self.old more) }
        // A cut at any moment leaves the records that were there, with all of the batch or with
        // none of it; at the answer, with all.
        ensures any_moment { (g : ℕ) (bodies : Bodies) (more : List (List ℕ))
            → IsBatchOf more batch.old → LogStands (S.meaning station.old) self.old g bodies
            → LeavesOnly (S.meaning station.old) (S.meaning station.new)
            (KeepsDisk (S.meaning station.old) (AllOrNone self.old.half g bodies more)) }
        ensures appended { (g : ℕ) (bodies : Bodies) (more : List (List ℕ))
            → IsBatchOf more batch.old → LogStands (S.meaning station.old) self.old g bodies
            → OnOk result (EachCut (S.meaning station.new) (KeepsDisk (S.meaning station.old)
            (StandsAt self.new g (with_bodies bodies more)))) }
    {
        if self.is_stopped {
            return Err(DeviceFault);
        }
        if batch.is_empty() {
            return Ok(());
        }
        let Ok(()) = write_records(station, self.start(), self.epoch, self.end, batch.bytes())
        else {
            self.is_stopped = true;
            return Err(DeviceFault);
        };
        self.end = End::At(self.next() + batch.len() as u32);
        batch.clear();
        Ok(())
    }

    /// What is to stand behind the gate of a record. It makes no device call: `Device` says that
    /// the log has stopped.
    fn prepare(&self, alloc: Global, change: &Record) -> Result<Vec<u8>, AppendError>
        requires fits { KeepsLimits (change_of change.now) }
        ensures stopped { IsErrOf result AppendError.Device ↔ IsTrue self.now.is_stopped }
        ensures full { IsErrOf result AppendError.LogFull ↔ (IsFalse self.now.is_stopped
            × ¬ HasRoomInHalf self.now (length (logged_body (change_of change.now)))) }
        ensures goes_on { IsOk result → IsFalse self.now.is_stopped }
        ensures room { IsOk result → HasRoomInHalf self.now (length (logged_body (change_of change.now))) }
        ensures length { IfOk result
            (λ v. length v.items ≡ length (logged_body (change_of change.now)) + RECORD_HEAD_BYTES) }
        ensures spelled { IfOk result (λ v. IsBehind (logged_body (change_of change.now)) v.items) }
    {
        if self.is_stopped {
            return Err(AppendError::Device);
        }
        if !self.room(change.encoded_len()) {
            return Err(AppendError::LogFull);
        }
        Ok(behind_the_gate(alloc, change)?)
    }

    /// Where the half of the epoch begins in the NVRAM.
    fn start(&self) -> u32
        ensures place { result ≡ start_of self.now }
        ensures within { result ≤ self.now.half }
    {
        self.half * (self.epoch.get() % 2) as u32
    }

    /// Where the next record's gate stands in the half.
    fn next(&self) -> u32
        ensures place { result ≡ next_of self.now.end }
        ensures within { (FIRST_GATE ≤ result) × (result < self.now.half) }
    {
        match self.end {
            End::Unopened => FIRST_GATE,
            End::At(next) => next,
        }
    }
}
