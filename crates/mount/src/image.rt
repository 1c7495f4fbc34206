//! Making an image.

ghost use Rattle.std.specs.Prelude.{◌≡◌, IfOk, IfErr, MatchResult};
ghost use Rattle.station.specs.Moments.{IsSameStation, HasGrown, EachCut};
ghost use Rattle.layout.specs.StateLimits.{limits_of};
ghost use Rattle.model.specs.States.{empty};
ghost use Rattle.making.specs.Images.{HoldsMade, Suits, new_sizes};
ghost use Rattle.system.specs.Images.{OpensTo};

use making::MakeError;
use station::Station;
use std::alloc::Global;

/// Makes an image of an empty root directory on a station of just its size: `8 * blocks` sectors
/// and an NVRAM of `2 * half` bytes. Whatever the station held before is gone. `BadSize` where a
/// number is out of its range or the station has another size, `NoMemory` where there is no memory
/// for the plan of the image, and then no device call is made; `Device` where one failed, and what
/// is left then is no image.
pub fn make<S: Station>(
    alloc: Global,
    station: S,
    blocks: u32,
    inodes: u32,
    half: u32,
) -> Result<S, (MakeError, S)>
    ensures suited { IfOk result (λ made. Suits (S.meaning station) (new_sizes blocks inodes half)) }
    ensures bad_size { IfErr result (λ e. e.0 ≡ MakeError.BadSize
        → (e.1 ≡ station) × ¬ Suits (S.meaning station) (new_sizes blocks inodes half)) }
    ensures memory { IfErr result (λ e. e.0 ≡ MakeError.NoMemory
        → (e.1 ≡ station) × Suits (S.meaning station) (new_sizes blocks inodes half)) }
    ensures device { IfErr result (λ e. e.0 ≡ MakeError.Device
        → Suits (S.meaning station) (new_sizes blocks inodes half)
        × HasGrown (S.meaning station).failed_writes (S.meaning e.1).failed_writes) }
    ensures same { MatchResult result (λ made. IsSameStation (S.meaning station) (S.meaning made))
        (λ e. IsSameStation (S.meaning station) (S.meaning e.1)) }
    ensures made { IfOk result (λ made. EachCut
        (S.meaning made) (HoldsMade (new_sizes blocks inodes half))) }
    ensures opens { let limits = limits_of (new_sizes blocks inodes half) in IfOk result
        (λ made. EachCut (S.meaning made) (OpensTo (S.meaning made) (empty limits))) }
{
    making::make(alloc, station, blocks, inodes, half)
}
