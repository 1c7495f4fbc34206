//! The writing of a whole consistency point.

ghost use Rattle.std.specs.Prelude.{◌≡◌, ◌⊎◌, ℕ, List, OnOk, IfErr};
ghost use Rattle.station.specs.Moments.{After, EachCut, LeavesJust, LeavesOnly, Shows};
ghost use Rattle.station.specs.Calls.{OnlyWrites};
ghost use Rattle.buffers.specs.Disks.{ShowsDisk, disk_with_sector};
ghost use Rattle.conspoint.specs.Plans.{FitsDisk, IsPlanned};
ghost use Rattle.conspoint.specs.Cuts.{StaysOutside, HoldsWritten, HasNewRoot, HasRootOrLost, IsFault, disk_so_far, disk_with_blocks};

use crate::plan::Plan;
use buffers::{BlockError, Buffers};
use station::Station;

/// Writes the blocks of a plan that aren't written yet, and then its root. It takes no memory.
pub fn write_rest<S: Station>(mut plan: Plan, buffers: &mut Buffers<S>) -> Result<(), BlockError>
    requires { FitsDisk (S.meaning buffers.old.station).sectors plan }
    ensures planned { IsPlanned plan }
    ensures writes { OnlyWrites IsFault
        (S.meaning buffers.old.station) (S.meaning buffers.new.station) result }
    ensures device { IfErr result IsFault }
    ensures any_moment { Shows (S.meaning buffers.old.station) (HoldsWritten plan)
        → LeavesOnly (S.meaning buffers.old.station) (S.meaning buffers.new.station)
        (λ c. After (StaysOutside plan.blocks) (S.meaning buffers.old.station) c
        ⊎ HasRootOrLost plan (S.meaning buffers.old.station).seen c) }
    ensures settled { Shows (S.meaning buffers.old.station) (HoldsWritten plan)
        → OnOk result (EachCut (S.meaning buffers.new.station)
        (HasNewRoot plan (S.meaning buffers.old.station).seen)) }
    ensures just { OnOk result
        (LeavesJust (S.meaning buffers.new.station) (S.meaning buffers.new.station).seen) }
    ensures shows { (disk : ℕ → List ℕ)
        → ShowsDisk (S.meaning buffers.old.station) buffers.old.kept (disk_so_far plan disk)
        → OnOk result (ShowsDisk (S.meaning buffers.new.station) buffers.new.kept
        (disk_with_sector (S.meaning buffers.new.station).seen.disk plan.slot
        (disk_with_blocks plan.blocks disk))) }
{
    let left = plan.left();
    plan.write_some(buffers, left)?;
    plan.finish(buffers)
}

/// Writes all blocks of a plan, and then its root. It takes no memory.
pub fn write_point<S: Station>(plan: Plan, buffers: &mut Buffers<S>) -> Result<(), BlockError>
    requires fits { FitsDisk (S.meaning buffers.old.station).sectors plan }
    requires none { plan.written ≡ 0 }
    ensures writes { OnlyWrites IsFault
        (S.meaning buffers.old.station) (S.meaning buffers.new.station) result }
    ensures device { IfErr result IsFault }
    // A cut at any moment leaves what one might have left before, with some of the blocks, or all
    // of them with the new root, or such a disk with the root's sector lost.
    ensures any_moment { LeavesOnly (S.meaning buffers.old.station) (S.meaning buffers.new.station)
        (λ c. After (StaysOutside plan.blocks) (S.meaning buffers.old.station) c
        ⊎ HasRootOrLost plan (S.meaning buffers.old.station).seen c) }
    ensures settled { (S.meaning buffers.old.station).is_honest
        → OnOk result (EachCut (S.meaning buffers.new.station)
        (HasNewRoot plan (S.meaning buffers.old.station).seen)) }
    ensures just { OnOk result
        (LeavesJust (S.meaning buffers.new.station) (S.meaning buffers.new.station).seen) }
    ensures shows { (disk : ℕ → List ℕ)
        → ShowsDisk (S.meaning buffers.old.station) buffers.old.kept disk
        → OnOk result (ShowsDisk (S.meaning buffers.new.station) buffers.new.kept
        (disk_with_sector (S.meaning buffers.new.station).seen.disk plan.slot
        (disk_with_blocks plan.blocks disk))) }
{
    write_rest(plan, buffers)
}
