//! Making an image.

ghost use Rattle.std.specs.Prelude.{◌≡◌, IfOk, IfErr, MatchResult};
ghost use Rattle.layout.specs.StateLimits.{limits_of};
ghost use Rattle.station.specs.Moments.{IsSameStation, HasGrown, EachCut};
ghost use Rattle.model.specs.States.{empty};
ghost use Rattle.conspoint.specs.Cuts.{HasNewRoot};
ghost use Rattle.conspoint.specs.Plans.{FitsDisk};
ghost use Rattle.making.specs.Images.{HoldsMade, IsWritten, OpensAlone, Suits, new_sizes};

use crate::clearing::clear;
use crate::error::MakeError;
use crate::first::plan_first;
use buffers::Buffers;
use conspoint::{Plan, write_point};
use images::first_images_open_to_the_empty_state;
use layout::{Geometry, VERSION, layout_of};
use station::Station;
use std::alloc::Global;

/// Makes an image of an empty root directory on a station of just its size: `8 * blocks` sectors
/// and an NVRAM of `2 * half` bytes. Whatever the station held before is gone. It is planned whole,
/// then written as a consistency point is. `BadSize` where a number is out of its range or the
/// station has another size, and `NoMemory` where there was no memory for the plan, which is all
/// that can refuse one: no device call is made then. `Device` where a device call failed, and what
/// is left then is no image.
pub fn make<S: Station>(
    alloc: Global,
    station: S,
    blocks: u32,
    inodes: u32,
    half: u32,
) -> Result<S, (MakeError, S)>
    ensures suited { IfOk result (λ made. Suits (S.meaning station) (new_sizes blocks inodes half)) }
    ensures bad_size { IfErr result (λ e. e.0 ≡ MakeError.BadSize
        → (e.1 ≡ station) × ¬ Suits (S.meaning station) (new_sizes blocks inodes half)) }
    ensures memory { IfErr result (λ e. e.0 ≡ MakeError.NoMemory
        → (e.1 ≡ station) × Suits (S.meaning station) (new_sizes blocks inodes half)) }
    ensures device { IfErr result (λ e. e.0 ≡ MakeError.Device
        → Suits (S.meaning station) (new_sizes blocks inodes half)
        × HasGrown (S.meaning station).failed_writes (S.meaning e.1).failed_writes) }
    ensures same { MatchResult result (λ made. IsSameStation (S.meaning station) (S.meaning made))
        (λ e. IsSameStation (S.meaning station) (S.meaning e.1)) }
    ensures made { IfOk result (λ made. EachCut
        (S.meaning made) (HoldsMade (new_sizes blocks inodes half))) }
    ensures opens { let limits = limits_of (new_sizes blocks inodes half) in IfOk result
        (λ made. EachCut (S.meaning made) (OpensAlone (S.meaning made) (empty limits))) }
{
    first_images_open_to_the_empty_state();
    let Some(geometry) = Geometry::new(layout_of(VERSION), blocks, inodes, half) else {
        return Err((MakeError::BadSize, station));
    };
    if station.sectors() != geometry.sectors() || station.nv_bytes() != geometry.nvram_bytes() {
        return Err((MakeError::BadSize, station));
    }
    let Ok(point) = plan_first(alloc, geometry) else {
        return Err((MakeError::NoMemory, station));
    };
    match write_image(alloc, station, geometry, point.plan) {
        Ok(station) => Ok(station),
        Err(station) => Err((MakeError::Device, station)),
    }
}

/// Clears a station, and writes a plan to it.
fn write_image<S: Station>(
    alloc: Global,
    mut station: S,
    geometry: Geometry,
    plan: Plan,
) -> Result<S, S>
    requires suits { Suits (S.meaning station) geometry }
    requires fits { FitsDisk (S.meaning station).sectors plan }
    requires none { plan.written ≡ 0 }
    ensures same { MatchResult result (λ made. IsSameStation (S.meaning station) (S.meaning made))
        (λ left. IsSameStation (S.meaning station) (S.meaning left)) }
    ensures device { IfErr result
        (λ left. HasGrown (S.meaning station).failed_writes (S.meaning left).failed_writes) }
    ensures written { (S.meaning station).is_honest → IfOk result
        (λ made. EachCut (S.meaning made) (IsWritten geometry.half plan)) }
{
    if let Err(_) = clear(&mut station, geometry) {
        return Err(station);
    }
    let written = write_plan(alloc, station, plan)?;
    Ok(written)
}

/// Writes the blocks of a plan, and then its root.
fn write_plan<S: Station>(alloc: Global, station: S, plan: Plan) -> Result<S, S>
    requires fits { FitsDisk (S.meaning station).sectors plan }
    requires none { plan.written ≡ 0 }
    ensures same { MatchResult result (λ made. IsSameStation (S.meaning station) (S.meaning made))
        (λ left. IsSameStation (S.meaning station) (S.meaning left)) }
    ensures device { IfErr result
        (λ left. HasGrown (S.meaning station).failed_writes (S.meaning left).failed_writes) }
    ensures written { (S.meaning station).is_honest → IfOk result
        (λ made. EachCut (S.meaning made) (HasNewRoot plan (S.meaning station).seen)) }
{
    let mut buffers = Buffers::new(alloc, station);
    match write_point(plan, &mut buffers) {
        Ok(()) => Ok(buffers.into_station()),
        Err(_) => Err(buffers.into_station()),
    }
}
