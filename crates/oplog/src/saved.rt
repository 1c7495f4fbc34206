//! Reading the log back.

ghost use Rattle.std.specs.Prelude.{◌≡◌, ℕ, ◌+◌, ◌*◌, ◌%◌, ◌<◌, ◌≤◌, List, length, take, drop, Some, None, IfOk, OnErr, IsErrOf};
ghost use Rattle.station.specs.Moments.{Shows};
ghost use Rattle.station.specs.Calls.{OnlyReads};
ghost use Rattle.layout.specs.Gates.{HeaderIs};
ghost use Rattle.layout.specs.declared.geometry.TheConstants.{MOST_HALF};
ghost use Rattle.layout.specs.declared.log.TheConstants.{FIRST_GATE, HEADER_BYTES};
ghost use Rattle.layout.specs.Log.{half_of, EpochHolds, LogHolds};
ghost use Rattle.oplog.specs.LogEnd.{AreHalfBytes};
ghost use Rattle.oplog.specs.SavedLog.{Saved, TellsLog, end_of};
ghost use Rattle.oplog.specs.Internal.{TellsHalf, TellsEpoch};

use crate::Log;
use crate::log::End;
use layout::{CLOSED, Epoch, FIRST_GATE, Generation, Geometry, HEADER_BYTES, Header};
use station::{DeviceFault, Station};
use std::alloc::{AllocError, Global};
use std::marker::Model;
use thiserror::Error;

/// Why the log was not read. The numbers are those of the file system's inner refusals.
#[derive(Clone, Copy, Debug, PartialEq, Eq, Error)]
pub enum SavedLogError {
    /// No memory.
    #[error("no memory")]
    NoMemory = 1,
    /// A read failed.
    #[error("a device call failed")]
    Device = 2,
    /// What stands in the NVRAM is no log over the root.
    #[error("the log is damaged")]
    Damaged = 11,
}

impl From<AllocError> for SavedLogError {
    ghost use Rattle.oplog.specs.declared.saved.SavedLogError.TheVariants.{NoMemory};

    ghost from_gives = { λ _ e. e ≡ NoMemory };

    fn from(_: AllocError) -> SavedLogError {
        SavedLogError::NoMemory
    }
}

impl From<DeviceFault> for SavedLogError {
    ghost use Rattle.oplog.specs.declared.saved.SavedLogError.TheVariants.{Device};

    ghost from_gives = { λ _ e. e ≡ Device };

    fn from(_: DeviceFault) -> SavedLogError {
        SavedLogError::Device
    }
}

/// What was read of the half of an epoch.
#[derive(Debug, Drop)]
struct Half {
    /// Whether the half is open for the epoch.
    is_open: bool,
    /// The bytes from the first record's gate on; just a closed gate where the half isn't open.
    records: Vec<u8>,
}

/// What the NVRAM holds of the two epochs after a root.
#[derive(Debug, Drop)]
pub struct SavedLog {
    /// Bytes of a half.
    half: u32,
    generation: Generation,
    first: Half,
    second: Half,
}

impl Model for SavedLog {
    ghost Value = { Saved };

    ghost view = { λ s. record {
      half = s.half;
      generation = s.generation;
      first = record { is_open = s.first.is_open; records = s.first.records.items };
      second = record { is_open = s.second.is_open; records = s.second.records.items };
    } };

    ghost invariant = { λ s. AreHalfBytes s.half
        × (length s.first.records.items + FIRST_GATE ≤ s.half)
        × (length s.second.records.items + FIRST_GATE ≤ s.half) };
}

impl SavedLog {
    /// Reads what the NVRAM holds of the two epochs that follow a root of this generation.
    /// `Damaged` where a header's gate is no gate, or an open half has an epoch of the other half
    /// or one past these two; `Device` where a read failed; `NoMemory`. It writes nothing.
    pub fn load<S: Station>(
        alloc: Global,
        station: &mut S,
        geometry: Geometry,
        generation: Generation,
    ) -> Result<SavedLog, SavedLogError>
        requires size { (S.meaning station.old).nvram_bytes ≡ 2 * geometry.half }
        ensures reads { OnlyReads (λ e. e ≡ SavedLogError.Device)
            (S.meaning station.old) (S.meaning station.new) result }
        ensures over { IfOk result
            (λ saved. (saved.half ≡ geometry.half) × (saved.generation ≡ generation)) }
        ensures tells { IfOk result
            (λ saved. Shows (S.meaning station.old) (λ c. TellsLog c.nvram saved)) }
        ensures damaged { IsErrOf result SavedLogError.Damaged → Shows (S.meaning station.old)
            (λ c. (bodies : List (List ℕ)) → LogHolds geometry.half generation c.nvram bodies → ⊥) }
    {
        let half = geometry.half();
        let first = read_half(alloc, station, half, generation.epoch_after(1))?;
        let second = read_half(alloc, station, half, generation.epoch_after(2))?;
        Ok(SavedLog {
            half,
            generation,
            first,
            second,
        })
    }

    /// The records of the epoch that follows the root: the bytes from the first one's gate on.
    pub fn first_records(&self) -> &[u8]
        ensures records { result.now ≡ self.now.first.records }
        ensures few { length result.now ≤ MOST_HALF }
    {
        &self.first.records
    }

    /// The records of the epoch after that one.
    pub fn second_records(&self) -> &[u8]
        ensures records { result.now ≡ self.now.second.records }
        ensures few { length result.now ≤ MOST_HALF }
    {
        &self.second.records
    }

    /// The log's end, where so many bytes of the records of each epoch are left from the closed
    /// gate on: it goes on in the newest epoch that is open, and opens the one after the root where
    /// none is.
    pub fn into_log(self, first_left: usize, second_left: usize) -> Log
        requires first { (1 ≤ first_left) × (first_left ≤ length self.first.records) }
        requires second { (1 ≤ second_left) × (second_left ≤ length self.second.records) }
        ensures end { result ≡ end_of self first_left second_left }
    {
        let SavedLog {
            half,
            generation,
            first,
            second,
        } = self;
        let (count, end) = if second.is_open {
            (2, End::At(half - second_left as u32))
        } else if first.is_open {
            (1, End::At(half - first_left as u32))
        } else {
            (1, End::Unopened)
        };
        drop(first);
        drop(second);
        Log {
            half,
            epoch: generation.epoch_after(count),
            end,
            is_stopped: false,
        }
    }
}

/// Reads the half of an epoch. `Damaged` where it can't hold the epoch: no gate, another half's
/// epoch, or a later one.
fn read_half<S: Station>(
    alloc: Global,
    station: &mut S,
    half: u32,
    epoch: Epoch,
) -> Result<Half, SavedLogError>
    requires half { AreHalfBytes half }
    requires size { (S.meaning station.old).nvram_bytes ≡ 2 * half }
    ensures reads { OnlyReads (λ e. e ≡ SavedLogError.Device)
        (S.meaning station.old) (S.meaning station.new) result }
    ensures short { IfOk result (λ read. length read.records.items + FIRST_GATE ≤ half) }
    ensures tells { IfOk result (λ read. Shows (S.meaning station.old)
        (λ c. TellsEpoch epoch (half_of half epoch c.nvram) read.is_open read.records.items)) }
    ensures damaged { IsErrOf result SavedLogError.Damaged → Shows (S.meaning station.old)
        (λ c. (bodies : List (List ℕ)) → EpochHolds epoch (half_of half epoch c.nvram) bodies → ⊥) }
{
    let start = half * (epoch.get() % 2) as u32;
    let header = read_header(station, start)?;
    if !is_open_for(header, epoch)? {
        let records = vec![in alloc; CLOSED; 1]?;
        return Ok(Half {
            is_open: false,
            records,
        });
    }
    let mut records = vec![in alloc; CLOSED; (half - FIRST_GATE) as usize]?;
    station.nv_read(start + FIRST_GATE, &mut records)?;
    Ok(Half {
        is_open: true,
        records,
    })
}

/// Reads the header of the half that begins at this byte. `Damaged` where its gate is no gate.
fn read_header<S: Station>(station: &mut S, start: u32) -> Result<Header, SavedLogError>
    requires { start + HEADER_BYTES ≤ (S.meaning station.old).nvram_bytes }
    ensures reads { OnlyReads (λ e. e ≡ SavedLogError.Device)
        (S.meaning station.old) (S.meaning station.new) result }
    ensures header { IfOk result (λ header. Shows (S.meaning station.old)
        (λ c. HeaderIs (take HEADER_BYTES (drop start c.nvram)) (Some header))) }
    ensures damaged { IsErrOf result SavedLogError.Damaged → Shows (S.meaning station.old)
        (λ c. HeaderIs (take HEADER_BYTES (drop start c.nvram)) None) }
{
    let mut bytes = [0; HEADER_BYTES];
    station.nv_read(start, &mut bytes)?;
    Header::read(&bytes).ok_or(SavedLogError::Damaged)
}

/// Whether a half with this header is open for the epoch. `Damaged` where it is open for another
/// half's epoch or a later one.
fn is_open_for(header: Header, epoch: Epoch) -> Result<bool, SavedLogError>
    ensures only { OnErr result (result ≡ Err SavedLogError.Damaged) }
    ensures tells { (half : List ℕ) → HeaderIs (take HEADER_BYTES half) (Some header)
        → IfOk result (TellsHalf epoch half) }
    ensures damaged { (half : List ℕ) → HeaderIs (take HEADER_BYTES half) (Some header)
        → OnErr result ((bodies : List (List ℕ)) → EpochHolds epoch half bodies → ⊥) }
{
    match header {
        Header::Closed => Ok(false),
        Header::Open(found) => {
            if found.get() % 2 != epoch.get() % 2 || found.get() > epoch.get() {
                return Err(SavedLogError::Damaged);
            }
            Ok(found.get() == epoch.get())
        }
    }
}
