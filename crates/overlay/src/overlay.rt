//! The blocks of a disk while a consistency point is under way.

ghost use Rattle.std.specs.Prelude.{◌≡◌, ◌≢◌, ◌⊎◌, ◌↔◌, ◌≤◌, ℕ, List, Some, None, OnOk, IfErr, IfSome, IfNone, IsTrue};
ghost use Rattle.std.specs.BTreeMap.{IsEmpty};
ghost use Rattle.station.specs.Calls.{OnlyWrites};
ghost use Rattle.station.specs.Moments.{After, Goes, EachCut, LeavesJust, LeavesOnly};
ghost use Rattle.layout.specs.Places.{blocks_of};
ghost use Rattle.buffers.specs.Disks.{IsWhole, ShowsDisk, numbered_blocks};
ghost use Rattle.conspoint.specs.Cuts.{IsFault, StaysOutside, HasNewRoot, HasRootOrLost};
ghost use Rattle.overlay.specs.Overlays.{FitsOver, HoldsHere, IsHere, IsPlannedAt, ReadsOver, ShowsOver, SlicesOn, unwritten};
ghost use Rattle.overlay.specs.Props.{FitsOver-prop, HoldsHere-prop};
ghost use Rattle.conspoint.specs.Finished.{disk_after};
ghost use Rattle.conspoint.specs.Plans.{FitsDisk};

use crate::pending::PendingPoint;
use buffers::{BlockError, Blocks, Buffers, SharedBlock};
use conspoint::{finished_disks_are_one, write_rest, written_disks_have_the_blocks};
use layout::{BLOCK_BYTES, BlockNumber, Layout, is_indirect_block};
use station::Station;

/// The blocks of a station, and over them those of a consistency point under way: a place reads as
/// it does once the point is carried out.
#[derive(Drop)]
pub struct Overlay<S: Station> {
    pub buffers: Buffers<S>,
    pending: Option<PendingPoint>,
    ghost fits: { FitsOver (S.meaning buffers.station).sectors pending } by { FitsOver-prop (S.meaning buffers.station).sectors pending },
    ghost written: { HoldsHere (S.meaning buffers.station) pending } by { HoldsHere-prop (S.meaning buffers.station) pending },
}

impl<S: Station> Blocks for Overlay<S> {
    ghost use Rattle.std.specs.Prelude.{refl};
    ghost use Rattle.buffers.specs.Readings.{reads_none};

    ghost Shows = { λ b disk. ShowsOver (S.meaning b.buffers.station) b.buffers.kept b.pending disk };

    ghost ReadsOn = { λ a b. ReadsOver (S.meaning a.buffers.station)
        (S.meaning b.buffers.station) a.pending b.pending };

    ghost IsResident = { λ b place. IsHere b.buffers.kept b.pending place };

    ghost failed = { λ b. (S.meaning b.buffers.station).failed_reads };

    ghost count = { λ b. numbered_blocks (S.meaning b.buffers.station).sectors };

    fn count(&self) -> u32 {
        self.buffers.count()
    }

    fn make_resident(&mut self, place: BlockNumber) -> Result<(), BlockError> {
        if let Some(_) = self.planned(place) {
            return Ok(());
        }
        self.buffers.make_resident(place)
    }

    fn bytes(&self, place: BlockNumber) -> &[u8; BLOCK_BYTES] {
        match self.planned(place) {
            Some(block) => block.bytes(),
            None => self.buffers.bytes(place),
        }
    }

    fn is_indirect(&mut self, place: BlockNumber, layout: Layout, used: u32) -> bool {
        if let Some(block) = self.planned(place) {
            return is_indirect_block(block.bytes(), layout, self.count(), used);
        }
        self.buffers.is_indirect(place, layout, used)
    }

    ghost reads_nothing = { λ s.
        record { below = reads_none (S.meaning s.buffers.station); pending = refl } };
}

impl<S: Station> Overlay<S> {
    /// The blocks of a station; no point is under way.
    pub fn new(buffers: Buffers<S>) -> Overlay<S>
        ensures buffers { result.buffers ≡ buffers }
        ensures none { result.pending ≡ None }
        ensures shows { ShowsDisk (S.meaning buffers.station) buffers.kept
            (blocks_of (S.meaning buffers.station).seen.disk)
            → ShowsOver (S.meaning result.buffers.station) result.buffers.kept result.pending
            (blocks_of (S.meaning result.buffers.station).seen.disk) }
    {
        Overlay {
            buffers,
            pending: None,
        }
    }

    /// Whether a point is under way.
    pub fn is_under_way(&self) -> bool
        ensures { IsTrue result ↔ (self.now.pending ≢ None) }
    {
        self.pending.is_some()
    }

    /// How many blocks of the point under way aren't written yet.
    pub fn left(&self) -> usize
        ensures { result ≡ unwritten self.now.pending }
    {
        match &self.pending {
            Some(pending) => pending.plan.left(),
            None => 0,
        }
    }

    /// The block that the point under way has for this place, if it has one.
    fn planned(&self, place: BlockNumber) -> Option<&SharedBlock>
        requires { 2 ≤ place }
        ensures here { IfSome result (λ b. IsPlannedAt self.now.pending place) }
        ensures whole { IfSome result (λ b. IsWhole b.now) }
        ensures bytes { (disk : ℕ → List ℕ)
            → ShowsOver (S.meaning self.now.buffers.station) self.now.buffers.kept self.now.pending
            disk
            → IfSome result (λ b. b.now ≡ disk place) }
        ensures none { IfNone result (IsPlannedAt self.now.pending place → ⊥) }
        ensures below { (disk : ℕ → List ℕ)
            → ShowsOver (S.meaning self.now.buffers.station) self.now.buffers.kept self.now.pending
            disk
            → IfNone result (disk place
            ≡ blocks_of (S.meaning self.now.buffers.station).seen.disk place) }
    {
        finished_disks_are_one();
        match &self.pending {
            Some(pending) => pending.find(place.get()),
            None => None,
        }
    }

    /// Lets go of the blocks of the disk below that were made resident: they have to be made
    /// resident again.
    pub fn let_go(&mut self)
        ensures station { self.new.buffers.station ≡ self.old.buffers.station }
        ensures reads { ReadsOver (S.meaning self.old.buffers.station)
            (S.meaning self.new.buffers.station) self.old.pending self.new.pending }
        ensures same { (disk : ℕ → List ℕ)
            → ShowsOver (S.meaning self.old.buffers.station) self.old.buffers.kept self.old.pending
            disk
            → ShowsOver (S.meaning self.new.buffers.station) self.new.buffers.kept self.new.pending
            disk }
        ensures none { IsEmpty self.new.buffers.kept.held }
    {
        self.buffers.let_go();
    }

    /// Lays a plan over the blocks, of which nothing is written yet. None is under way.
    pub fn begin(&mut self, pending: PendingPoint)
        requires none { self.old.pending ≡ None }
        requires unwritten { pending.plan.written ≡ 0 }
        requires fits { FitsDisk (S.meaning self.old.buffers.station).sectors pending.plan }
        ensures buffers { self.new.buffers ≡ self.old.buffers }
        ensures pending { self.new.pending ≡ Some pending }
        ensures shows { (disk : ℕ → List ℕ)
            → ShowsOver (S.meaning self.old.buffers.station) self.old.buffers.kept self.old.pending
            disk
            → ShowsOver (S.meaning self.new.buffers.station) self.new.buffers.kept self.new.pending
            (blocks_of (disk_after pending.plan
            (S.meaning self.old.buffers.station).seen.disk)) }
    {
        self.pending = Some(pending);
    }

    /// Writes up to so many blocks of the point under way, and nothing else. What blocks read as
    /// stays. It takes no memory. Where a write failed, the point is given up.
    pub fn write_some(&mut self, count: usize) -> Result<(), BlockError>
        ensures writes { OnlyWrites IsFault (S.meaning self.old.buffers.station)
            (S.meaning self.new.buffers.station) result }
        ensures device { IfErr result IsFault }
        ensures idle { self.old.pending ≡ None → self.new.buffers ≡ self.old.buffers }
        ensures slice { SlicesOn count self.old.pending self.new.pending result }
        // Where a write failed, each sector of a planned block is as before, or written, or can't
        // be read.
        ensures goes { IfSome self.old.pending (λ l. Goes (StaysOutside l.plan.blocks)
            (S.meaning self.old.buffers.station) (S.meaning self.new.buffers.station)) }
        ensures shows { (disk : ℕ → List ℕ)
            → ShowsOver (S.meaning self.old.buffers.station) self.old.buffers.kept self.old.pending
            disk
            → OnOk result (ShowsOver (S.meaning self.new.buffers.station)
            self.new.buffers.kept self.new.pending disk) }
    {
        finished_disks_are_one();
        written_disks_have_the_blocks();
        match &mut self.pending {
            Some(pending) => match pending.plan.write_some(&mut self.buffers, count) {
                Ok(()) => Ok(()),
                Err(error) => {
                    self.pending = None;
                    Err(error)
                }
            },
            None => Ok(()),
        }
    }

    /// Writes what is left of the point under way, and then brings its root into force. What blocks
    /// read as stays, and no point is under way any longer. It takes no memory.
    pub fn finish(&mut self) -> Result<(), BlockError>
        ensures none { self.new.pending ≡ None }
        ensures writes { OnlyWrites IsFault (S.meaning self.old.buffers.station)
            (S.meaning self.new.buffers.station) result }
        ensures device { IfErr result IsFault }
        ensures idle { self.old.pending ≡ None → self.new.buffers ≡ self.old.buffers }
        // A cut at any moment leaves what one might have left before, with some of the blocks, or
        // all of them with the new root, or such a disk with the root's sector lost.
        ensures any_moment { IfSome self.old.pending
            (λ l. LeavesOnly (S.meaning self.old.buffers.station)
            (S.meaning self.new.buffers.station)
            (λ c. After (StaysOutside l.plan.blocks) (S.meaning self.old.buffers.station) c
            ⊎ HasRootOrLost l.plan (S.meaning self.old.buffers.station).seen c)) }
        ensures settled { IfSome self.old.pending (λ l. OnOk result
            (EachCut (S.meaning self.new.buffers.station)
            (HasNewRoot l.plan (S.meaning self.old.buffers.station).seen))) }
        ensures just { IfSome self.old.pending (λ l. OnOk result (LeavesJust
            (S.meaning self.new.buffers.station) (S.meaning self.new.buffers.station).seen)) }
        ensures shows { (disk : ℕ → List ℕ)
            → ShowsOver (S.meaning self.old.buffers.station) self.old.buffers.kept self.old.pending
            disk
            → OnOk result (ShowsOver (S.meaning self.new.buffers.station)
            self.new.buffers.kept self.new.pending disk) }
    {
        finished_disks_are_one();
        written_disks_have_the_blocks();
        match self.pending.take() {
            Some(pending) => write_rest(pending.plan, &mut self.buffers),
            None => Ok(()),
        }
    }
}
