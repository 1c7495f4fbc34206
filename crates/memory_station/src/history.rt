//! The calls of a station in memory, as it keeps them.

ghost use Rattle.std.specs.Prelude.{◌≡◌, ℕ, ◌+◌, ◌*◌, ◌/◌, ◌^◌, ◌≤◌, ◌++◌, ◌∷◌, [], take, drop, length, vec_len, vec_capacity, All, OnOk, OnErr};
ghost use Rattle.memory_station.specs.declared.history.Call.TheVariants.{Write};
ghost use Rattle.station.specs.Images.{nvram_with};
ghost use Rattle.memory_station.specs.Sectors.{sectors_at};
ghost use Rattle.memory_station.specs.Unsynced.{parts_of, IsInRange, after_mark, kept_value};

use crate::disk::Disk;
use crate::{CutOutcome, Mark};
use station::SECTOR_BYTES;
use std::alloc::{AllocError, Global};

/// A call, with what came of it.
#[derive(Drop)]
pub(crate) enum Call {
    /// A read of the disk or of the NVRAM.
    Read,
    /// A write of whole sectors from sector `first` on. One that isn't `done` is in no read, and a
    /// cut may leave it.
    Write {
        first: u64,
        bytes: Vec<u8>,
        done: bool,
    },
    /// A write to the NVRAM from byte `at` on, of which the first `kept` bytes are kept.
    NvWrite {
        at: u32,
        bytes: Vec<u8>,
        kept: usize,
    },
    /// A sync.
    Sync {
        done: bool,
    },
}

/// A sector's part of a write.
#[derive(Drop)]
pub(crate) struct SectorWrite {
    sector: u64,
    bytes: [u8; 512],
}

/// Keeps a write of whole sectors, and its sectors' parts. At `Err` nothing is kept.
pub(crate) fn note_write(
    alloc: Global,
    calls: &mut Vec<Call>,
    unsynced: &mut Vec<SectorWrite>,
    first: u64,
    bytes: &[u8],
    done: bool,
) -> Result<(), AllocError>
    requires { first + length bytes.now / 512 ≤ 2 ^ 64 }
    ensures call { OnOk result ((v : _) × (v.items ≡ bytes.now)
        × (calls.new.items ≡ calls.old.items ++ Write first v done ∷ [])) }
    ensures parts { OnOk result (unsynced.new.items
        ≡ unsynced.old.items ++ parts_of first bytes.now (length bytes.now / 512)) }
    ensures same_calls { OnErr result (calls.new.items ≡ calls.old.items) }
    ensures same_parts { OnErr result (unsynced.new.items ≡ unsynced.old.items) }
{
    let copy = Vec::from_slice(alloc, bytes)?;
    unsynced.reserve(bytes.len() / SECTOR_BYTES)?;
    calls.push(Call::Write {
        first,
        bytes: copy,
        done,
    })?;
    push_parts(unsynced, first, bytes);
    Ok(())
}

/// Adds each sector's part of a write from sector `first` on, in rising order.
fn push_parts(unsynced: &mut Vec<SectorWrite>, first: u64, bytes: &[u8])
    requires place { first + length bytes.now / 512 ≤ 2 ^ 64 }
    requires room { vec_len unsynced.old + length bytes.now / 512 ≤ vec_capacity unsynced.old }
    ensures { unsynced.new.items
        ≡ unsynced.old.items ++ parts_of first bytes.now (length bytes.now / 512) }
{
    for part in 0..bytes.len() / SECTOR_BYTES {
        let sector = first + part as u64;
        unsynced.push(sector_write(sector, bytes, part)).unwrap();
    }
}

/// A write's part for its sector number `part`, counted from 0.
fn sector_write(sector: u64, bytes: &[u8], part: usize) -> SectorWrite
    requires { 512 * part + 512 ≤ length bytes.now }
    ensures { result ≡ record { sector = sector; bytes = take 512 (drop (512 * part) bytes.now) } }
{
    let mut taken = [0; SECTOR_BYTES];
    let at = part * SECTOR_BYTES;
    taken.copy_from_slice(&bytes[at..at + SECTOR_BYTES]);
    SectorWrite {
        sector,
        bytes: taken,
    }
}

/// Does with these sector writes what a power cut does.
pub(crate) fn apply_marks(disk: &mut Disk, unsynced: &[SectorWrite], keep: &CutOutcome)
    requires range { All (IsInRange (length disk.old.bytes.items)) unsynced.now }
    requires room { vec_len disk.old.bad + length unsynced.now ≤ vec_capacity disk.old.bad }
    ensures size { length disk.new.bytes.items ≡ length disk.old.bytes.items }
    ensures sectors { (n : ℕ) → sectors_at disk.new n
        ≡ kept_value keep.now 0 unsynced.now n (sectors_at disk.old n) }
    ensures room { vec_capacity disk.old.bad ≤ vec_capacity disk.new.bad }
{
    for (place, write) in unsynced.iter().enumerate() {
        apply_mark(disk, write, keep.mark(place));
    }
}

/// Does with this sector write what its mark says.
fn apply_mark(disk: &mut Disk, write: &SectorWrite, mark: Mark)
    requires range { IsInRange (length disk.old.bytes.items) write.now }
    requires room { vec_len disk.old.bad + 1 ≤ vec_capacity disk.old.bad }
    ensures size { length disk.new.bytes.items ≡ length disk.old.bytes.items }
    ensures sectors { (n : ℕ) → sectors_at disk.new n
        ≡ after_mark mark write.now n (sectors_at disk.old n) }
    ensures count { vec_len disk.new.bad ≤ vec_len disk.old.bad + 1 }
    ensures room { vec_capacity disk.old.bad ≤ vec_capacity disk.new.bad }
{
    match mark {
        Mark::Dropped => {}
        Mark::Kept => disk.write(write.sector, &write.bytes),
        Mark::Lost => disk.lose(write.sector),
    }
}

/// Writes these bytes over what is there.
pub(crate) fn put(image: &mut Vec<u8>, at: usize, bytes: &[u8])
    requires { at + length bytes.now ≤ length image.old.items }
    ensures after { image.new.items ≡ nvram_with at bytes.now image.old.items }
    ensures length { length image.new.items ≡ length image.old.items }
{
    image[at..at + bytes.len()].copy_from_slice(bytes);
}
