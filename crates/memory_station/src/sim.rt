//! A station in memory whose power can be cut at any write.

ghost use Rattle.std.specs.Prelude.{◌≡◌, ◌⊎◌, ◌+◌, ◌-◌, ◌*◌, ◌%◌, ◌^◌, ◌<◌, ◌≤◌, ◌↔◌, [], length, count_by, min, All, true, false, Some, IfOk, IsErrOf};
ghost use Rattle.station.specs.Moments.{MayLeave};
ghost use Rattle.std.specs.List.Sorted.{IsStrictlyIncreasing};
ghost use Rattle.memory_station.specs.Disk.{images_with, HasPast, HasZeros};
ghost use Rattle.memory_station.specs.Device.{IsBadSize};
ghost use Rattle.memory_station.specs.FaultPlan.{IsNumbered};

use crate::CutOutcome;
use crate::faults::{Fate, Faults};
use crate::media::Media;
use station::{DeviceFault, Station};
use std::alloc::{AllocError, Global};
use thiserror::Error;

/// Why images were not loaded.
#[derive(Clone, Copy, Debug, PartialEq, Eq, Error)]
pub enum LoadError {
    /// No memory for the copies that a station keeps.
    #[error("no memory")]
    NoMemory = 1,
    /// The disk is no whole number of sectors, or the NVRAM has more than `u32::MAX` bytes, or a
    /// sector that can't be read is past the disk.
    #[error("no station has this size")]
    BadSize = 2,
}

impl From<AllocError> for LoadError {
    ghost use Rattle.memory_station.specs.declared.sim.LoadError.TheVariants.{NoMemory};
    ghost use Rattle.std.specs.Prelude.{◌≡◌};

    ghost from_gives = { λ _ e. e ≡ NoMemory };

    fn from(_: AllocError) -> Self {
        LoadError::NoMemory
    }
}

/// A station in memory. It keeps its first images and the list of its calls, from which its meaning
/// tells what a cut at any moment so far might have left, and beside them what reads give. A call
/// for which it finds no memory to keep it fails and is counted, and changes nothing else.
#[derive(Drop)]
pub struct Sim {
    media: Media,
    faults: Faults,
    failed_reads: u64,
    failed_writes: u64,
    ghost numbered: { IsNumbered faults media.calls.items },
}

impl Sim {
    ghost use Rattle.memory_station.specs.FaultPlan.{no_plan, cuts_power, is_write};
    ghost use Rattle.memory_station.specs.Media.{Same};
    ghost use Rattle.memory_station.specs.Sim.{sim_meaning, plan_of, calls_of, was_cut, bad_of, IsLeftByCut, IsLoaded, KnowsSame, SameCounts};
    ghost use Rattle.memory_station.specs.Sim.{FollowsRead, FollowsWrite, FollowsNvWrite, FollowsSync, HasCountedRead, HasCountedWrite};

    /// A station with these images, all settled. BadSize exactly where the disk is no whole number
    /// of sectors, or the NVRAM has more than `u32::MAX` bytes; NoMemory where a growth was refused.
    pub fn load(alloc: Global, disk: Vec<u8>, nvram: Vec<u8>) -> Result<Sim, LoadError>
        ensures loaded { IfOk result (λ s. IsLoaded disk.items nvram.items [] (sim_meaning s)) }
        ensures power { IfOk result (λ s. was_cut s ≡ false) }
        ensures plan { IfOk result (λ s. plan_of s ≡ no_plan) }
        ensures bad_size { IsErrOf result LoadError.BadSize ↔ IsBadSize disk.items nvram.items }
    {
        Sim::load_bad(alloc, disk, nvram, &[])
    }

    /// A station with these images, all settled, of which these sectors can't be read: what the
    /// disk has there doesn't matter. The numbers may stand in any order. BadSize also where one of
    /// them is past the disk.
    pub fn load_bad(
        alloc: Global,
        disk: Vec<u8>,
        nvram: Vec<u8>,
        bad: &[u64],
    ) -> Result<Sim, LoadError>
        ensures loaded { IfOk result (λ s. IsLoaded disk.items nvram.items bad.now (sim_meaning s)) }
        ensures power { IfOk result (λ s. was_cut s ≡ false) }
        ensures plan { IfOk result (λ s. plan_of s ≡ no_plan) }
        ensures bad_size { IsErrOf result LoadError.BadSize
            ↔ (IsBadSize disk.items nvram.items ⊎ HasPast disk.items bad.now) }
    {
        Ok(Sim {
            media: Media::load(alloc, disk, nvram, bad)?,
            faults: Faults::new(),
            failed_reads: 0,
            failed_writes: 0,
        })
    }

    /// The power is to be cut within device write number `write`, counted from 1 since the load.
    /// Where it is an NVRAM write, its first `bytes` bytes are kept, all of them if it is shorter.
    pub fn cut_at(&mut self, write: u32, keep: CutOutcome, bytes: u32)
        ensures plan { plan_of self.new
            ≡ record (plan_of self.old) { cut_write = Some write; keep = keep; kept_bytes = bytes } }
        ensures same { KnowsSame (sim_meaning self.old) (sim_meaning self.new) }
        ensures calls { calls_of self.new ≡ calls_of self.old }
        ensures power { was_cut self.new ≡ was_cut self.old }
    {
        self.faults.cut_at(write, keep, bytes);
    }

    /// Call number `call` of any kind, counted from 1 since the load, is to fail. A disk write that
    /// fails counts as unsynced and is in no read; an NVRAM write that fails keeps none of its
    /// bytes.
    pub fn fail_at(&mut self, call: u32)
        ensures plan { plan_of self.new ≡ record (plan_of self.old) { failing_call = Some call } }
        ensures same { KnowsSame (sim_meaning self.old) (sim_meaning self.new) }
        ensures calls { calls_of self.new ≡ calls_of self.old }
        ensures power { was_cut self.new ≡ was_cut self.old }
    {
        self.faults.fail_at(call);
    }

    /// Sync number `sync`, counted from 1 since the load, is to fail.
    pub fn fail_sync_at(&mut self, sync: u32)
        ensures plan { plan_of self.new ≡ record (plan_of self.old) { failing_sync = Some sync } }
        ensures same { KnowsSame (sim_meaning self.old) (sim_meaning self.new) }
        ensures calls { calls_of self.new ≡ calls_of self.old }
        ensures power { was_cut self.new ≡ was_cut self.old }
    {
        self.faults.fail_sync_at(sync);
    }

    /// Whether the power was cut.
    pub fn is_cut(&self) -> bool
        ensures { result ≡ was_cut self.now }
    {
        self.media.is_cut
    }

    /// The disk and the NVRAM: what reads give, or after the cut what it left. Sectors that can't
    /// be read have zeros.
    pub fn images(&self) -> (&[u8], &[u8])
        ensures disk_size { length result.0.now ≡ 512 * (sim_meaning self.now).sectors }
        ensures nvram_size { length result.1.now ≡ (sim_meaning self.now).nvram_bytes }
        ensures zeros { HasZeros result.0.now (bad_of self.now) }
        ensures seen { was_cut self.now ≡ false
            → images_with result.0.now result.1.now (bad_of self.now)
            ≡ (sim_meaning self.now).seen }
        ensures left { MayLeave (sim_meaning self.now)
            (images_with result.0.now result.1.now (bad_of self.now)) }
        ensures kept { was_cut self.now ≡ true
            → IsLeftByCut self.now (images_with result.0.now result.1.now (bad_of self.now)) }
    {
        (&self.media.disk.bytes, &self.media.nvram)
    }

    /// The numbers of the sectors that can't be read, rising: those that reads tell, or after the
    /// cut those that it left.
    pub fn bad_sectors(&self) -> &[u64]
        ensures numbers { result.now ≡ bad_of self.now }
        ensures rising { IsStrictlyIncreasing result.now }
        ensures within { All (λ n. n < (sim_meaning self.now).sectors) result.now }
    {
        &self.media.disk.bad
    }

    /// How many device calls there were since the load; at `u32::MAX` the count stays. A call that
    /// came to nothing isn't counted: the power was off, or there was no memory to keep it.
    pub fn device_calls(&self) -> u32
        ensures { result ≡ min (length (calls_of self.now)) (2 ^ 32 - 1) }
    {
        self.faults.calls.min(u64::from(u32::MAX)) as u32
    }

    /// How many of them were device writes, to the disk or to the NVRAM.
    pub fn device_writes(&self) -> u32
        ensures { result ≡ min (count_by is_write (calls_of self.now)) (2 ^ 32 - 1) }
    {
        self.faults.writes.min(u64::from(u32::MAX)) as u32
    }

    /// Keeps a read, and tells whether it succeeds.
    fn try_read(&mut self) -> Result<(), DeviceFault>
        ensures follows { FollowsRead self.old self.new result }
        ensures counts { SameCounts self.old self.new }
    {
        if self.is_cut() {
            return Err(DeviceFault);
        }
        let fate = self.faults.of_read();
        let Ok(()) = self.media.note_read() else {
            return Err(DeviceFault);
        };
        self.faults.count_read();
        fate.answer()
    }

    /// Keeps a read, and counts it if it fails.
    fn begin_read(&mut self) -> Result<(), DeviceFault>
        ensures follows { FollowsRead self.old self.new result }
        ensures counts { HasCountedRead self.old self.new result }
    {
        let answer = self.try_read();
        if answer.is_err() {
            self.failed_reads = self.failed_reads.saturating_add(1);
        }
        answer
    }

    /// Writes whole sectors from sector `first` on, and tells whether that succeeds.
    fn try_write(&mut self, first: u64, bytes: &[u8]) -> Result<(), DeviceFault>
        requires place { 512 * first + length bytes.now ≤ 512 * self.old.media.sectors }
        requires whole { length bytes.now % 512 ≡ 0 }
        ensures follows { FollowsWrite first bytes.now self.old self.new result }
        ensures counts { SameCounts self.old self.new }
    {
        if self.is_cut() {
            return Err(DeviceFault);
        }
        let fate = self.faults.of_write();
        let Ok(()) = self.media.write(first, bytes, fate.is_done()) else {
            return Err(DeviceFault);
        };
        self.faults.count_write();
        self.end_write(fate);
        fate.answer()
    }

    /// Writes whole sectors from sector `first` on, and counts that if it fails.
    fn write_sectors(&mut self, first: u64, bytes: &[u8]) -> Result<(), DeviceFault>
        requires place { 512 * first + length bytes.now ≤ 512 * self.old.media.sectors }
        requires whole { length bytes.now % 512 ≡ 0 }
        ensures follows { FollowsWrite first bytes.now self.old self.new result }
        ensures counts { HasCountedWrite self.old self.new result }
    {
        let answer = self.try_write(first, bytes);
        self.count_write(answer)
    }

    /// Writes to the NVRAM, and tells whether that succeeds.
    fn try_nv_write(&mut self, at: u32, bytes: &[u8]) -> Result<(), DeviceFault>
        requires { at + length bytes.now ≤ self.old.media.nvram_bytes }
        ensures follows { FollowsNvWrite at bytes.now self.old self.new result }
        ensures counts { SameCounts self.old self.new }
    {
        if self.is_cut() {
            return Err(DeviceFault);
        }
        let fate = self.faults.of_write();
        let kept = self.faults.kept_of(fate, bytes.len());
        let Ok(()) = self.media.nv_write(at, bytes, kept) else {
            return Err(DeviceFault);
        };
        self.faults.count_write();
        self.end_write(fate);
        fate.answer()
    }

    /// Cuts the power where that is a write's fate.
    fn end_write(&mut self, fate: Fate)
        requires { self.old.media.is_cut ≡ false }
        ensures media { Same self.old.media self.new.media }
        ensures power { self.new.media.is_cut ≡ cuts_power fate }
        ensures cut { cuts_power fate ≡ true → self.new.media.keep ≡ self.old.faults.keep }
        ensures plan { cuts_power fate ≡ false → plan_of self.new ≡ plan_of self.old }
        ensures counts { SameCounts self.old self.new }
    {
        if fate.cuts_power() {
            self.media.cut(self.faults.take_keep());
        }
    }

    /// Makes durable what reads give, and tells whether that succeeds.
    fn try_sync(&mut self) -> Result<(), DeviceFault>
        ensures follows { FollowsSync self.old self.new result }
        ensures counts { SameCounts self.old self.new }
    {
        if self.is_cut() {
            return Err(DeviceFault);
        }
        let fate = self.faults.of_sync();
        let Ok(()) = self.media.sync(fate.is_done()) else {
            return Err(DeviceFault);
        };
        self.faults.count_sync();
        fate.answer()
    }

    /// Counts a write or a sync that failed.
    fn count_write(&mut self, answer: Result<(), DeviceFault>) -> Result<(), DeviceFault>
        ensures same { result ≡ answer }
        ensures media { self.new.media ≡ self.old.media }
        ensures faults { self.new.faults ≡ self.old.faults }
        ensures counts { HasCountedWrite self.old self.new result }
    {
        if answer.is_err() {
            self.failed_writes = self.failed_writes.saturating_add(1);
        }
        answer
    }
}

/// Each call also follows the plan: it fails, or the power is cut within it, just where that was
/// planned, or where the power was off before or there is no memory to keep it.
impl Station for Sim {
    ghost use Rattle.std.specs.Prelude.{take, drop, OnOk, IfOk};
    ghost use Rattle.station.specs.Images.{Unchanged, SectorsWritten, SomeSectorsWritten, NvramWritten, NvramPrefixWritten, Tells};
    ghost use Rattle.station.specs.Moments.{Shows, LeavesJust, SeenGoes, LeftGoes};
    ghost use Rattle.station.specs.Calls.{ReadCall, WriteCall};
    ghost use Rattle.memory_station.specs.Sim.{sim_meaning, FollowsRead, FollowsWrite, FollowsNvWrite, FollowsSync};
    ghost use Rattle.memory_station.specs.DeviceLaws as laws;

    ghost meaning = { sim_meaning };

    ghost sizes_fit = { λ s. record { sectors = s.media.fits; nvram = s.media.nvram_fits } };

    ghost seen_may_be_left = { λ s honest. laws.seen_may_be_left s };

    ghost sized = { laws.sized };

    fn sectors(&self) -> u64 {
        self.media.sectors
    }

    fn nv_bytes(&self) -> u32 {
        self.media.nvram_bytes
    }

    fn read_sector(&mut self, n: u64, out: &mut [u8; 512]) -> Result<bool, DeviceFault>
        requires { n < (sim_meaning self.old).sectors }
        ensures call { ReadCall (sim_meaning self.old) (sim_meaning self.new) result }
        ensures bytes { IfOk result (λ is.
            Shows (sim_meaning self.old) (λ c. Tells is out.new (c.disk n))) }
        ensures planned { FollowsRead self.old self.new result }
    {
        self.begin_read()?;
        Ok(self.media.disk.read(n, out))
    }

    fn write_sector(&mut self, n: u64, bytes: &[u8; 512]) -> Result<(), DeviceFault>
        requires { n < (sim_meaning self.old).sectors }
        ensures call { WriteCall (SomeSectorsWritten n bytes.now)
            (sim_meaning self.old) (sim_meaning self.new) result }
        ensures written { OnOk result
            (SeenGoes (SectorsWritten n bytes.now) (sim_meaning self.old) (sim_meaning self.new)) }
        ensures planned { FollowsWrite n bytes.now self.old self.new result }
    {
        self.write_sectors(n, bytes)
    }

    fn write_block(&mut self, b: u32, bytes: &[u8; 4096]) -> Result<(), DeviceFault>
        requires { 8 * b + 8 ≤ (sim_meaning self.old).sectors }
        ensures call { WriteCall (SomeSectorsWritten (8 * b) bytes.now)
            (sim_meaning self.old) (sim_meaning self.new) result }
        ensures written { OnOk result (SeenGoes (SectorsWritten (8 * b) bytes.now)
            (sim_meaning self.old) (sim_meaning self.new)) }
        ensures planned { FollowsWrite (8 * b) bytes.now self.old self.new result }
    {
        self.write_sectors(8 * u64::from(b), bytes)
    }

    fn sync(&mut self) -> Result<(), DeviceFault>
        ensures call { WriteCall Unchanged (sim_meaning self.old) (sim_meaning self.new) result }
        ensures settled { OnOk result
            (LeavesJust (sim_meaning self.new) (sim_meaning self.old).seen) }
        ensures planned { FollowsSync self.old self.new result }
    {
        let answer = self.try_sync();
        self.count_write(answer)
    }

    fn nv_read(&mut self, at: u32, out: &mut [u8]) -> Result<(), DeviceFault>
        requires { at + length out.old ≤ (sim_meaning self.old).nvram_bytes }
        ensures call { ReadCall (sim_meaning self.old) (sim_meaning self.new) result }
        ensures bytes { OnOk result
            (Shows (sim_meaning self.old) (λ c. out.new ≡ take (length out.old) (drop at c.nvram))) }
        ensures planned { FollowsRead self.old self.new result }
    {
        self.begin_read()?;
        let at = at as usize;
        out.copy_from_slice(&self.media.nvram[at..at + out.len()]);
        Ok(())
    }

    fn nv_write(&mut self, at: u32, bytes: &[u8]) -> Result<(), DeviceFault>
        requires { at + length bytes.now ≤ (sim_meaning self.old).nvram_bytes }
        ensures call { WriteCall (NvramPrefixWritten at bytes.now)
            (sim_meaning self.old) (sim_meaning self.new) result }
        ensures written { OnOk result
            (SeenGoes (NvramWritten at bytes.now) (sim_meaning self.old) (sim_meaning self.new)) }
        ensures kept { OnOk result
            (LeftGoes (NvramWritten at bytes.now) (sim_meaning self.old) (sim_meaning self.new)) }
        ensures planned { FollowsNvWrite at bytes.now self.old self.new result }
    {
        let answer = self.try_nv_write(at, bytes);
        self.count_write(answer)
    }
}
