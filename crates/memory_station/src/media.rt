//! The disk and the NVRAM of a station in memory, with the calls that made them.

ghost use Rattle.std.specs.Prelude.{◌≡◌, ◌+◌, ◌*◌, ◌%◌, ◌^◌, ◌<◌, ◌≤◌, ◌⊎◌, true, false, length, vec_len, vec_capacity, ◌↔◌, All, IfOk, OnOk, OnErr, IsErrOf, IsTrue};
ghost use Rattle.memory_station.specs.Device.{fresh, after_all, IsBadSize};
ghost use Rattle.memory_station.specs.Disk.{HasPast};
ghost use Rattle.memory_station.specs.Sectors.{sectors_at};
ghost use Rattle.memory_station.specs.Tied.{IsTied};
ghost use Rattle.memory_station.specs.Unsynced.{IsInRange, unsynced_writes};

use crate::disk::Disk;
use crate::history::{Call, SectorWrite, apply_marks, note_write, put};
use crate::{CutOutcome, LoadError};
use station::SECTOR_BYTES;
use std::alloc::{AllocError, Global};

/// A disk and an NVRAM, their first bytes, and the calls since.
#[derive(Drop)]
pub(crate) struct Media {
    alloc: Global,
    pub(crate) sectors: u64,
    pub(crate) nvram_bytes: u32,
    first_disk: Vec<u8>,
    first_nvram: Vec<u8>,
    first_bad: Vec<u64>,
    calls: Vec<Call>,
    /// What reads give; after the cut, what it left.
    pub(crate) disk: Disk,
    pub(crate) nvram: Vec<u8>,
    /// The settled value of each sector, and the sector writes since the last sync that succeeded,
    /// in their order.
    settled: Disk,
    unsynced: Vec<SectorWrite>,
    /// The power was cut, which did so with the unsynced sector writes.
    pub(crate) is_cut: bool,
    keep: CutOutcome,
    ghost fits: { sectors < 2 ^ 55 },
    ghost nvram_fits: { nvram_bytes < 2 ^ 32 },
    ghost disk_size: { length disk.bytes.items ≡ 512 * sectors },
    ghost settled_size: { length settled.bytes.items ≡ 512 * sectors },
    ghost nvram_size: { length nvram.items ≡ nvram_bytes },
    ghost in_range: { All (IsInRange (512 * sectors)) unsynced.items },
    ghost room: { vec_len settled.bad + vec_len unsynced ≤ vec_capacity disk.bad },
    ghost listed: { unsynced.items ≡ unsynced_writes calls.items },
    ghost tied: { IsTied (after_all (fresh first_disk.items first_nvram.items first_bad.items) calls.items)
        (sectors_at disk) nvram.items (sectors_at settled) unsynced.items is_cut keep },
}

impl Media {
    ghost use Rattle.memory_station.specs.Media.{IsLoadedFrom, Same, Adds, AddsWrite, AddsNvWrite};
    ghost use Rattle.memory_station.specs.declared.history.Call.TheVariants.{Read, Sync};

    /// These bytes, all settled, of which these sectors can't be read.
    pub(crate) fn load(
        alloc: Global,
        disk: Vec<u8>,
        nvram: Vec<u8>,
        bad: &[u64],
    ) -> Result<Media, LoadError>
        ensures loaded { IfOk result (IsLoadedFrom disk.items nvram.items bad.now) }
        ensures bad_size { IsErrOf result LoadError.BadSize
            ↔ (IsBadSize disk.items nvram.items ⊎ HasPast disk.items bad.now) }
    {
        if disk.len() % SECTOR_BYTES != 0 {
            return Err(LoadError::BadSize);
        }
        let sectors = (disk.len() / SECTOR_BYTES) as u64;
        if !are_below(bad, sectors) {
            return Err(LoadError::BadSize);
        }
        let Ok(nvram_bytes) = u32::try_from(nvram.len()) else {
            return Err(LoadError::BadSize);
        };
        Ok(Media {
            alloc,
            sectors,
            nvram_bytes,
            first_disk: Vec::from_slice(alloc, &disk)?,
            first_nvram: Vec::from_slice(alloc, &nvram)?,
            first_bad: Vec::from_slice(alloc, bad)?,
            calls: Vec::new(alloc),
            settled: Disk::load(alloc, Vec::from_slice(alloc, &disk)?, bad)?,
            unsynced: Vec::new(alloc),
            disk: Disk::load(alloc, disk, bad)?,
            nvram,
            is_cut: false,
            keep: CutOutcome::Nothing,
        })
    }

    /// Keeps a read.
    pub(crate) fn note_read(&mut self) -> Result<(), AllocError>
        ensures ok { OnOk result (Adds self.old self.new Read) }
        ensures err { OnErr result (Same self.old self.new) }
        ensures power { self.new.is_cut ≡ self.old.is_cut }
    {
        self.calls.push(Call::Read)?;
        Ok(())
    }

    /// Writes whole sectors from sector `first` on. Where it isn't to be `done`, reads stay as they
    /// were.
    pub(crate) fn write(&mut self, first: u64, bytes: &[u8], done: bool) -> Result<(), AllocError>
        requires place { 512 * first + length bytes.now ≤ 512 * self.old.sectors }
        requires whole { length bytes.now % 512 ≡ 0 }
        requires power { self.old.is_cut ≡ false }
        ensures ok { OnOk result (AddsWrite self.old self.new first bytes.now done) }
        ensures err { OnErr result (Same self.old self.new) }
        ensures power { self.new.is_cut ≡ false }
    {
        let parts = bytes.len() / SECTOR_BYTES;
        self.disk
            .reserve(self.settled.bad.len() + self.unsynced.len() + parts)?;
        note_write(
            self.alloc,
            &mut self.calls,
            &mut self.unsynced,
            first,
            bytes,
            done,
        )?;
        if done {
            self.disk.write(first, bytes);
        }
        Ok(())
    }

    /// Writes the first `kept` of these bytes to the NVRAM from byte `at` on.
    pub(crate) fn nv_write(&mut self, at: u32, bytes: &[u8], kept: usize) -> Result<(), AllocError>
        requires place { at + length bytes.now ≤ self.old.nvram_bytes }
        requires kept { kept ≤ length bytes.now }
        ensures ok { OnOk result (AddsNvWrite self.old self.new at bytes.now kept) }
        ensures err { OnErr result (Same self.old self.new) }
        ensures power { self.new.is_cut ≡ self.old.is_cut }
    {
        let copy = Vec::from_slice(self.alloc, bytes)?;
        self.calls.push(Call::NvWrite {
            at,
            bytes: copy,
            kept,
        })?;
        put(&mut self.nvram, at as usize, &bytes[..kept]);
        Ok(())
    }

    /// Makes durable what reads give, where it is to be `done`.
    pub(crate) fn sync(&mut self, done: bool) -> Result<(), AllocError>
        requires { self.old.is_cut ≡ false }
        ensures ok { OnOk result (Adds self.old self.new (Sync done)) }
        ensures err { OnErr result (Same self.old self.new) }
        ensures power { self.new.is_cut ≡ false }
    {
        self.settled.reserve(self.disk.bad.len())?;
        self.calls.push(Call::Sync { done })?;
        if done {
            self.settled.copy(&self.disk);
            self.unsynced.clear();
        }
        Ok(())
    }

    /// The power is cut: the disk becomes what that leaves of it.
    pub(crate) fn cut(&mut self, keep: CutOutcome)
        requires { self.old.is_cut ≡ false }
        ensures same { Same self.old self.new }
        ensures power { self.new.is_cut ≡ true }
        ensures keep { self.new.keep ≡ keep }
    {
        self.disk.copy(&self.settled);
        apply_marks(&mut self.disk, &self.unsynced, &keep);
        self.is_cut = true;
        self.keep = keep;
    }
}

/// Whether all these numbers are below this one.
fn are_below(numbers: &[u64], most: u64) -> bool
    ensures { IsTrue result ↔ All (λ n. n < most) numbers.now }
{
    numbers.iter().all(|n| *n < most)
}
