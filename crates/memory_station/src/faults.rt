//! Which of a station's calls are to fail, and where its power is to be cut.

ghost use Rattle.std.specs.Prelude.{◌≡◌, ◌≤◌, Some, is_ok};
ghost use Rattle.memory_station.specs.declared.cut_outcome.CutOutcome.TheVariants.{Nothing};
ghost use Rattle.station.specs.Moments.{counted_up};
ghost use Rattle.memory_station.specs.FaultPlan.{planned, no_plan, is_next, fate_of_read, fate_of_write, fate_of_sync, kept_of, is_done, cuts_power};

use crate::CutOutcome;
use station::DeviceFault;
use std::mem;

/// What is to come of a call.
#[derive(Clone, Copy, Debug, PartialEq, Eq)]
pub(crate) enum Fate {
    /// It succeeds.
    Done,
    /// It fails.
    Fails,
    /// The power is cut within it.
    IsCut,
}

impl Fate {
    /// Whether the call succeeds.
    pub(crate) fn is_done(self) -> bool
        ensures { result ≡ is_done self }
    {
        match self {
            Fate::Done => true,
            Fate::Fails | Fate::IsCut => false,
        }
    }

    /// Whether the power is cut within it.
    pub(crate) fn cuts_power(self) -> bool
        ensures { result ≡ cuts_power self }
    {
        match self {
            Fate::IsCut => true,
            Fate::Done | Fate::Fails => false,
        }
    }

    /// What the call answers.
    pub(crate) fn answer(self) -> Result<(), DeviceFault>
        ensures { is_ok result ≡ is_done self }
    {
        match self {
            Fate::Done => Ok(()),
            Fate::Fails | Fate::IsCut => Err(DeviceFault),
        }
    }
}

/// Which calls are to fail, each counted from 1, and how many there were.
#[derive(Drop)]
pub(crate) struct Faults {
    cut_write: Option<u32>,
    keep: CutOutcome,
    kept_bytes: u32,
    failing_call: Option<u32>,
    failing_sync: Option<u32>,
    pub(crate) calls: u64,
    pub(crate) writes: u64,
    syncs: u64,
}

impl Faults {
    /// No call is to fail.
    pub(crate) fn new() -> Self
        ensures calls { result.calls ≡ 0 }
        ensures writes { result.writes ≡ 0 }
        ensures syncs { result.syncs ≡ 0 }
        ensures plan { planned result ≡ no_plan }
    {
        Faults {
            cut_write: None,
            keep: CutOutcome::Nothing,
            kept_bytes: 0,
            failing_call: None,
            failing_sync: None,
            calls: 0,
            writes: 0,
            syncs: 0,
        }
    }

    /// The power is to be cut within this device write; of an NVRAM write so many bytes are kept.
    pub(crate) fn cut_at(&mut self, write: u32, keep: CutOutcome, bytes: u32)
        ensures { self.new
            ≡ record self.old { cut_write = Some write; keep = keep; kept_bytes = bytes } }
    {
        self.cut_write = Some(write);
        self.keep = keep;
        self.kept_bytes = bytes;
    }

    /// Which unsynced sector writes the cut is to keep.
    pub(crate) fn take_keep(&mut self) -> CutOutcome
        ensures taken { result ≡ self.old.keep }
        ensures left { self.new ≡ record self.old { keep = Nothing } }
    {
        mem::replace(&mut self.keep, CutOutcome::Nothing)
    }

    /// How many of so many bytes an NVRAM write keeps.
    pub(crate) fn kept_of(&self, fate: Fate, length: usize) -> usize
        ensures kept { result ≡ kept_of (planned self.now) fate length }
        ensures within { result ≤ length }
    {
        match fate {
            Fate::Done => length,
            Fate::Fails => 0,
            Fate::IsCut => length.min(self.kept_bytes as usize),
        }
    }

    /// This call is to fail.
    pub(crate) fn fail_at(&mut self, call: u32)
        ensures { self.new ≡ record self.old { failing_call = Some call } }
    {
        self.failing_call = Some(call);
    }

    /// This sync is to fail.
    pub(crate) fn fail_sync_at(&mut self, sync: u32)
        ensures { self.new ≡ record self.old { failing_sync = Some sync } }
    {
        self.failing_sync = Some(sync);
    }

    /// What is to come of the next call, if it is a read.
    pub(crate) fn of_read(&self) -> Fate
        ensures { result ≡ fate_of_read (planned self.now) self.now.calls }
    {
        if is_next(self.failing_call, self.calls) {
            Fate::Fails
        } else {
            Fate::Done
        }
    }

    /// What is to come of the next call, if it is a device write.
    pub(crate) fn of_write(&self) -> Fate
        ensures { result ≡ fate_of_write (planned self.now) self.now.calls self.now.writes }
    {
        if is_next(self.cut_write, self.writes) {
            Fate::IsCut
        } else {
            self.of_read()
        }
    }

    /// What is to come of the next call, if it is a sync.
    pub(crate) fn of_sync(&self) -> Fate
        ensures { result ≡ fate_of_sync (planned self.now) self.now.calls self.now.syncs }
    {
        if is_next(self.failing_sync, self.syncs) {
            Fate::Fails
        } else {
            self.of_read()
        }
    }

    /// There was a read.
    pub(crate) fn count_read(&mut self)
        ensures { self.new ≡ record self.old { calls = counted_up self.old.calls } }
    {
        self.calls = self.calls.saturating_add(1);
    }

    /// There was a device write.
    pub(crate) fn count_write(&mut self)
        ensures { self.new
            ≡ record self.old { calls = counted_up self.old.calls; writes = counted_up self.old.writes } }
    {
        self.calls = self.calls.saturating_add(1);
        self.writes = self.writes.saturating_add(1);
    }

    /// There was a sync.
    pub(crate) fn count_sync(&mut self)
        ensures { self.new
            ≡ record self.old { calls = counted_up self.old.calls; syncs = counted_up self.old.syncs } }
    {
        self.calls = self.calls.saturating_add(1);
        self.syncs = self.syncs.saturating_add(1);
    }
}

/// Whether this number, counted from 1, comes next after so many.
fn is_next(number: Option<u32>, so_far: u64) -> bool
    ensures { result ≡ is_next number so_far }
{
    match number {
        Some(number) => so_far.checked_add(1) == Some(u64::from(number)),
        None => false,
    }
}
