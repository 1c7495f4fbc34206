//! The device writes of an append, in the order that keeps the log whole whenever the power is cut.

ghost use Rattle.std.specs.Prelude.{◌≡◌, ℕ, ◌+◌, ◌<◌, ◌≤◌, ◌^◌, List, ◌++◌, length, IfOk};
ghost use Rattle.byteorder.specs.Endian.{little_bytes};
ghost use Rattle.station.specs.Calls.{OnlyWrites};
ghost use Rattle.oplog.specs.LogEnd.{LogEnd, next_of, Bodies, logged_body, LogStands, ReadsDisk};
ghost use Rattle.oplog.specs.Batches.{AreBehind};
ghost use Rattle.oplog.specs.Internal.{start_of, IsBehind, IsAnyFault, OpensHalf, Appends};
ghost use Rattle.layout.specs.Record.{KeepsLimits, change_of};
ghost use Rattle.layout.specs.declared.geometry.TheConstants.{MOST_HALF};
ghost use Rattle.layout.specs.declared.log.TheConstants.{FIRST_GATE, LENGTH_BYTES, RECORD_HEAD_BYTES};

use crate::log::End;
use byteorder::{ByteOrder, LittleEndian};
use layout::{CLOSED, EPOCH_AT, Epoch, FIRST_GATE, HEADER_GATE, LENGTH_BYTES, OPEN, Record};
use station::{DeviceFault, Station};
use std::alloc::{AllocError, Global};

/// Bytes of an epoch and the first gate behind it.
const EPOCH_AND_GATE_BYTES: usize = 9;

/// Writes records, of which this is to stand behind the gate of the first, in the half of this
/// epoch, which begins at this byte. It opens the half first where that isn't open.
pub fn write_records<S: Station>(
    station: &mut S,
    start: u32,
    epoch: Epoch,
    end: End,
    behind: &[u8],
) -> Result<(), DeviceFault>
    requires room { start + next_of end + 1 + length behind.now
        ≤ (S.meaning station.old).nvram_bytes }
    requires opening { start + FIRST_GATE + 1 ≤ (S.meaning station.old).nvram_bytes }
    requires low { start + next_of end + FIRST_GATE < 2 ^ 32 }
    ensures writes { OnlyWrites IsAnyFault (S.meaning station.old) (S.meaning station.new) result }
    ensures disk { (disk : ℕ → List ℕ)
        → ReadsDisk (S.meaning station.old) disk → ReadsDisk (S.meaning station.new) disk }
    ensures appends { (log : LogEnd) (g : ℕ) (bodies : Bodies) (more : List (List ℕ))
        → AreBehind more behind.now → next_of end + 1 + length behind.now ≤ log.half
        → FIRST_GATE + 1 ≤ log.half → start ≡ start_of log → epoch ≡ log.epoch
        → LogStands (S.meaning station.old) (record log { end = end }) g bodies
        → Appends (S.meaning station.old) (S.meaning station.new)
        (record log { end = end }) g bodies more result }
{
    match end {
        End::Unopened => {
            open_half(station, start, epoch)?;
            add_records(station, start + FIRST_GATE, behind)
        }
        End::At(next) => add_records(station, start + next, behind),
    }
}

/// Opens the half of an epoch, which begins at this byte.
fn open_half<S: Station>(station: &mut S, start: u32, epoch: Epoch) -> Result<(), DeviceFault>
    requires room { start + FIRST_GATE + 1 ≤ (S.meaning station.old).nvram_bytes }
    requires low { start + 1 < 2 ^ 32 }
    ensures writes { OnlyWrites IsAnyFault (S.meaning station.old) (S.meaning station.new) result }
    ensures disk { (disk : ℕ → List ℕ)
        → ReadsDisk (S.meaning station.old) disk → ReadsDisk (S.meaning station.new) disk }
    ensures opens { (log : LogEnd) (g : ℕ) (bodies : Bodies)
        → FIRST_GATE + 1 ≤ log.half → start ≡ start_of log → epoch ≡ log.epoch
        → LogStands (S.meaning station.old) (record log { end = End.Unopened }) g bodies
        → OpensHalf (S.meaning station.old) (S.meaning station.new) log g bodies result }
{
    let mut behind = [CLOSED; EPOCH_AND_GATE_BYTES];
    LittleEndian::write_u64(&mut behind, epoch.get());
    // The gate is closed first: under an open one a cut would leave a part of the epoch, or the
    // epoch with the records that stood in the half before. It is opened last, when the epoch
    // stands and the first record's gate is closed.
    station.nv_write(start + HEADER_GATE, &[CLOSED])?;
    station.nv_write(start + EPOCH_AT, &behind)?;
    station.nv_write(start + HEADER_GATE, &[OPEN])?;
    Ok(())
}

/// Adds records to an open half, with the gate of the first at this byte.
fn add_records<S: Station>(station: &mut S, gate: u32, behind: &[u8]) -> Result<(), DeviceFault>
    requires room { gate + 1 + length behind.now ≤ (S.meaning station.old).nvram_bytes }
    requires low { gate + 1 < 2 ^ 32 }
    ensures writes { OnlyWrites IsAnyFault (S.meaning station.old) (S.meaning station.new) result }
    ensures disk { (disk : ℕ → List ℕ)
        → ReadsDisk (S.meaning station.old) disk → ReadsDisk (S.meaning station.new) disk }
    ensures appends { (log : LogEnd) (g next : ℕ) (bodies : Bodies) (more : List (List ℕ))
        → AreBehind more behind.now → next + 1 + length behind.now ≤ log.half
        → gate ≡ start_of log + next
        → LogStands (S.meaning station.old) (record log { end = End.At next }) g bodies
        → Appends (S.meaning station.old) (S.meaning station.new)
        (record log { end = End.At next }) g bodies more result }
{
    // The first gate comes last, in one byte that a cut can't tear: behind an open one the records
    // would count before they stand whole. The gates between them are open, so all count from that
    // byte on. Behind the last one the next gate is closed, or old bytes would count as records.
    station.nv_write(gate + 1, behind)?;
    station.nv_write(gate, &[OPEN])?;
    Ok(())
}

/// What stands behind a record's gate: its body's length, its body and the next gate, closed.
pub fn behind_the_gate(alloc: Global, change: &Record) -> Result<Vec<u8>, AllocError>
    requires fits { KeepsLimits (change_of change.now) }
    requires short { length (logged_body (change_of change.now)) ≤ MOST_HALF }
    ensures length { IfOk result
        (λ v. length v.items ≡ length (logged_body (change_of change.now)) + RECORD_HEAD_BYTES) }
    ensures spelled { IfOk result (λ v. IsBehind (logged_body (change_of change.now)) v.items) }
{
    let mut bytes = vec![in alloc; CLOSED; LENGTH_BYTES + change.encoded_len()]?;
    put_record(change, &mut bytes);
    bytes.push(CLOSED)?;
    Ok(bytes)
}

/// Writes a record's length and body.
fn put_record(change: &Record, out: &mut [u8])
    requires fits { KeepsLimits (change_of change.now) }
    requires short { length (logged_body (change_of change.now)) ≤ MOST_HALF }
    requires room { length out.old ≡ LENGTH_BYTES + length (logged_body (change_of change.now)) }
    ensures { out.new ≡ little_bytes LENGTH_BYTES (length (logged_body (change_of change.now)))
        ++ logged_body (change_of change.now) }
{
    let (head, body) = out.split_at_mut(LENGTH_BYTES);
    LittleEndian::write_u32(head, change.encoded_len() as u32);
    change.write(body);
}
