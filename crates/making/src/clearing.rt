//! A station without a root and without records.

ghost use Rattle.std.specs.Prelude.{◌≤◌, OnOk};
ghost use Rattle.station.specs.Moments.{IsSameStation, CountsWrite};
ghost use Rattle.making.specs.Images.{EmptiesSlots, HasClosedHalves, HasNoRoots, Suits};

use layout::{CLOSED, Geometry, SECTOR_BYTES, SLOT_A, SLOT_B};
use station::{DeviceFault, Station};

/// Takes both roots and all records from a station.
pub(crate) fn clear<S: Station>(station: &mut S, geometry: Geometry) -> Result<(), DeviceFault>
    requires suits { Suits (S.meaning station.old) geometry }
    ensures same { IsSameStation (S.meaning station.old) (S.meaning station.new) }
    ensures counts { CountsWrite (S.meaning station.old) (S.meaning station.new) result }
    ensures cleared { (S.meaning station.old).is_honest
        → OnOk result (HasNoRoots geometry.half (S.meaning station.new).seen) }
{
    // The gates first, so that no record stands behind a root that it isn't of: without its newest
    // root an image might open by an older one.
    close_halves(station, geometry)?;
    empty_slots(station)
}

/// Closes the gates of both halves of the NVRAM.
fn close_halves<S: Station>(station: &mut S, geometry: Geometry) -> Result<(), DeviceFault>
    requires suits { Suits (S.meaning station.old) geometry }
    ensures same { IsSameStation (S.meaning station.old) (S.meaning station.new) }
    ensures counts { CountsWrite (S.meaning station.old) (S.meaning station.new) result }
    ensures closed { (S.meaning station.old).is_honest
        → OnOk result (HasClosedHalves geometry.half (S.meaning station.new).seen.nvram) }
{
    station.nv_write(0, &[CLOSED])?;
    station.nv_write(geometry.half(), &[CLOSED])?;
    Ok(())
}

/// Empties both slots, and makes that durable.
fn empty_slots<S: Station>(station: &mut S) -> Result<(), DeviceFault>
    requires { 16 ≤ (S.meaning station.old).sectors }
    ensures same { IsSameStation (S.meaning station.old) (S.meaning station.new) }
    ensures counts { CountsWrite (S.meaning station.old) (S.meaning station.new) result }
    ensures emptied { (S.meaning station.old).is_honest → OnOk result
        (EmptiesSlots (S.meaning station.old).seen (S.meaning station.new).seen) }
{
    station.write_sector(SLOT_A, &[0; SECTOR_BYTES])?;
    station.write_sector(SLOT_B, &[0; SECTOR_BYTES])?;
    // Settled before any block is written: an old root would lead to new blocks.
    station.sync()?;
    Ok(())
}
