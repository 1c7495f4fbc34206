//! Mounting an image.

ghost use Rattle.std.specs.Prelude.{◌≡◌, ◌⊎◌, IsFalse, IfOk, IfErr, MatchResult};
ghost use Rattle.station.specs.Images.{Unchanged};
ghost use Rattle.station.specs.Moments.{IsSameStation, Goes};
ghost use Rattle.model.specs.States.{State, Forgets};
ghost use Rattle.images.specs.Faults.{HasNoFault};
ghost use Rattle.system.specs.Images.{OpensTo};
ghost use Rattle.loading.specs.Slots.{HasNoRoot};
ghost use Rattle.system.specs.Opening.{HasFailed, HasNewest};
ghost use Rattle.system.specs.Systems.{meaning_of, system_parts};
ghost use Rattle.mount.specs.Systems.{mounted, Serves};

use crate::Fs;
use station::Station;
use std::alloc::Global;
use system::{MountError, System};

/// Mounts an image: reads its newest root and what hangs from it, and replays its log. Reads give
/// what they gave before, and a cut leaves what it might have left before. Where what the station
/// reads opens to a state, Ok serves that state, without open files; `NoRoot` comes where neither
/// slot holds a root, `Damaged` only where one does but what the station reads opens to no state,
/// `Device` only where a device call failed. Whatever else the station holds, Ok has taken the
/// newest root, the station has its sizes, the NVRAM holds a log over it, and each of its slots
/// that isn't free has a snapshot; and where no fault stands in its tree, every record of that log
/// was applied, and none was passed over. Over images without a fault neither `NoRoot` nor
/// `Damaged` comes, whatever blocks of files can be read.
pub fn mount<S: Station>(alloc: Global, station: S) -> Result<Fs<S>, (MountError, S)>
    ensures same { MatchResult result
        (λ fs. IsSameStation (S.meaning station) (meaning_of fs.system))
        (λ e. IsSameStation (S.meaning station) (S.meaning e.1)) }
    ensures device { IfErr result (λ e. e.0 ≡ MountError.Device
        → HasFailed (S.meaning station) (S.meaning e.1)) }
    ensures goes { MatchResult result
        (λ fs. Goes Unchanged (S.meaning station) (meaning_of fs.system))
        (λ e. Goes Unchanged (S.meaning station) (S.meaning e.1)) }
    ensures going { IfOk result (λ fs. IsFalse fs.has_failed) }
    ensures opens { (S.meaning station).is_honest → (s : State)
        → OpensTo (S.meaning station) s (S.meaning station).seen
        → MatchResult result (λ fs. (t : State) × Forgets s t × Serves (mounted fs t))
        (λ e. (e.0 ≡ MountError.NoMemory) ⊎ (e.0 ≡ MountError.Device)) }
    ensures found { (S.meaning station).is_honest
        → IfOk result (λ fs. HasNewest (S.meaning station) (system_parts fs.system)) }
    ensures no_root { (S.meaning station).is_honest
        → IfErr result (λ e. e.0 ≡ MountError.NoRoot
        → HasNoRoot (S.meaning station).sectors (S.meaning station).seen.disk) }
    ensures rootless { (S.meaning station).is_honest
        → HasNoRoot (S.meaning station).sectors (S.meaning station).seen.disk
        → MatchResult result (λ _. ⊥)
        (λ e. (e.0 ≡ MountError.NoRoot) ⊎ (e.0 ≡ MountError.Device)) }
    ensures faultless { (S.meaning station).is_honest
        → HasNoFault (S.meaning station).sectors (S.meaning station).seen.disk
        (S.meaning station).seen.nvram
        → IfErr result (λ e. (e.0 ≡ MountError.NoMemory) ⊎ (e.0 ≡ MountError.Device)) }
{
    match System::open(alloc, station) {
        Ok(system) => Ok(Fs {
            alloc,
            system,
            has_failed: false,
        }),
        Err((error, station)) => Err((error, station)),
    }
}
