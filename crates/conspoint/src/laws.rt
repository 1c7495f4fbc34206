//! What a power cut leaves, read block by block.

ghost use Rattle.std.specs.Prelude.{◌≡◌, ◌≢◌, ℕ, ◌+◌, ◌*◌, ◌<◌, ◌≤◌, List, All};
ghost use Rattle.station.specs.Images.{Images, Sector};
ghost use Rattle.station.specs.Moments.{IsSector};
ghost use Rattle.layout.specs.Places.{blocks_of};
ghost use Rattle.images.specs.Cuts as points;
ghost use Rattle.conspoint.specs.Writes.{writes_of};
ghost use Rattle.conspoint.specs.Plans.{AreApart, Planned, IsPlanned, IsSlot, FitsDisk};
ghost use Rattle.conspoint.specs.Cuts.{StaysOutside, HasNewRoot, LosesSlot, ReadsAs, disk_with_blocks};
ghost use Rattle.conspoint.specs.Finished.{IsAbsent, disk_after};
ghost use Rattle.conspoint.specs.declared.plan.PlannedBlock.{PlannedBlock};

/// Before the root is written every block that isn't planned reads as it did. After it all the
/// planned ones are there, and every other block behind those of the slots reads as it did.
pub fn cuts_leave_blocks()
    ensures before { (sectors : ℕ) (blocks : List PlannedBlock) (old new : Images)
        (d e : ℕ → List ℕ) (b : ℕ)
        → ReadsAs sectors old d → ReadsAs sectors new e → StaysOutside blocks old new
        → 8 * b + 8 ≤ sectors → All (λ x. x.place ≢ b) blocks → e b ≡ d b }
    ensures after { (sectors : ℕ) (p : Planned) (old new : Images) (d e : ℕ → List ℕ) (b : ℕ)
        → ReadsAs sectors old d → ReadsAs sectors new e → HasNewRoot p old new → IsSlot p.slot
        → 2 ≤ b → 8 * b + 8 ≤ sectors → All (λ x. x.place ≢ b) p.blocks → e b ≡ d b }
    ensures planned { (sectors : ℕ) (p : Planned) (old new : Images) (e : ℕ → List ℕ)
        → ReadsAs sectors new e → HasNewRoot p old new → FitsDisk sectors p
        → All (λ x. e x.place ≡ x.bytes) p.blocks }
{}

/// A disk with the blocks of a plan written has them, and else is as it was. It does nothing.
pub fn written_disks_have_the_blocks()
    ensures has { (blocks : List PlannedBlock) (disk : ℕ → List ℕ) → AreApart blocks
        → All (λ b. disk_with_blocks blocks disk b.place ≡ b.bytes) blocks }
    ensures others { (blocks : List PlannedBlock) (disk : ℕ → List ℕ) (n : ℕ)
        → All (λ b. b.place ≢ n) blocks → disk_with_blocks blocks disk n ≡ disk n }
{}

/// What a cut leaves of a plan is what images' laws on points speak of: before the root is written
/// only sectors of planned blocks differ, after it they all are there with the new root, and where
/// its sector is lost that differs too. It does nothing.
pub fn cuts_are_those_of_images()
    ensures unfinished { (blocks : List PlannedBlock) (old new : Images)
        → StaysOutside blocks old new
        → points.StaysOutsideWrites (writes_of blocks) old.disk new.disk }
    ensures finished { (p : Planned) (old new : Images) → HasNewRoot p old new
        → points.HasRootWritten (writes_of p.blocks) p.slot p.root old.disk new.disk }
    ensures lost { (p : Planned) (old new : Images) → LosesSlot p old new
        → points.LosesSlot (writes_of p.blocks) p.slot old.disk new.disk }
{}

/// A point that is carried out leaves just one disk, whatever stood where its blocks and its root
/// go, and other blocks behind the slots stay. It does nothing.
pub fn finished_disks_are_one()
    ensures is { (p : Planned) (old : Images) → IsPlanned p
        → HasNewRoot p old (record { disk = disk_after p old.disk; nvram = old.nvram }) }
    ensures one { (sectors : ℕ) (p : Planned) (old new : Images) → IsPlanned p
        → FitsDisk sectors p → ((n : ℕ) → n < sectors → IsSector (new.disk n))
        → HasNewRoot p old new → new.disk ≡ disk_after p old.disk }
    ensures stays { (p : Planned) (old new : Images) → IsPlanned p
        → StaysOutside p.blocks old new → disk_after p new.disk ≡ disk_after p old.disk }
    ensures others { (p : Planned) (disk : ℕ → Sector) (b : ℕ) → IsPlanned p → 2 ≤ b
        → IsAbsent p.blocks b → blocks_of (disk_after p disk) b ≡ blocks_of disk b }
{}
