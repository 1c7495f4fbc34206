//! A planned consistency point, and how it is written.

ghost use Rattle.std.specs.Prelude.{◌≡◌, ◌⊎◌, ℕ, ◌+◌, ◌-◌, ◌<◌, List, OnOk, IfErr, length, min};
ghost use Rattle.station.specs.Moments.{MayLeave, EachCut, LeavesJust, Shows, Goes, LeavesOnly};
ghost use Rattle.station.specs.Calls.{OnlyWrites};
ghost use Rattle.buffers.specs.Disks.{ShowsDisk, disk_with_sector};
ghost use Rattle.conspoint.specs.Plans.{Planned, ArePlacedBehindSlots, IsPlanned, IsSlot, FitsDisk};
ghost use Rattle.conspoint.specs.Cuts.{StaysOutside, HoldsWritten, HasNewRoot, HasRootOrLost, IsFault, disk_so_far};

use buffers::{BlockError, Buffers, SharedBlock};
use layout::{BlockNumber, ROOT_BYTES};
use station::Station;
use std::marker::Model;

/// A block that is to be written.
#[derive(Debug, Drop)]
pub struct PlannedBlock {
    pub place: BlockNumber,
    pub bytes: SharedBlock,
}

/// All blocks of a consistency point and its root, and how much of it is written. Where a call
/// fails, the plan is given up: what its blocks hold isn't known then.
#[derive(Debug, Drop)]
pub struct Plan {
    /// In the order of their writing.
    blocks: Vec<PlannedBlock>,
    written: usize,
    /// The sector of the new root.
    slot: u64,
    root: [u8; ROOT_BYTES],
}

impl Model for Plan {
    ghost Value = { Planned };

    ghost view = { λ p.
        record { blocks = p.blocks.items; written = p.written; slot = p.slot; root = p.root } };

    ghost invariant = { λ p. IsPlanned
        (record { blocks = p.blocks.items; written = p.written; slot = p.slot; root = p.root }) };
}

impl Plan {
    /// A plan of which nothing is written. The slot is the sector of the root.
    pub fn new(blocks: Vec<PlannedBlock>, slot: u64, root: [u8; ROOT_BYTES]) -> Plan
        requires blocks { ArePlacedBehindSlots blocks.items }
        requires slot { IsSlot slot }
        ensures { result
            ≡ record { blocks = blocks.items; written = 0; slot = slot; root = root } }
    {
        Plan {
            blocks,
            written: 0,
            slot,
            root,
        }
    }

    /// Its blocks, in the order of their writing.
    pub fn blocks(&self) -> &[PlannedBlock]
        ensures blocks { result.now ≡ self.now.blocks }
        ensures planned { IsPlanned self.now }
    {
        &self.blocks
    }

    /// How many blocks aren't written yet.
    pub fn left(&self) -> usize
        ensures { result ≡ length self.now.blocks - self.now.written }
    {
        self.blocks.len() - self.written
    }

    /// Writes up to so many of the blocks that aren't written yet, and what is kept of the disk
    /// follows. It takes no memory.
    pub fn write_some<S: Station>(
        &mut self,
        buffers: &mut Buffers<S>,
        count: usize,
    ) -> Result<(), BlockError>
        requires fits { FitsDisk (S.meaning buffers.old.station).sectors self.old }
        ensures planned { IsPlanned self.old }
        ensures plan { self.new ≡ record self.old { written = self.new.written } }
        ensures next { OnOk result (self.new.written
            ≡ min (length self.old.blocks) (self.old.written + count)) }
        ensures writes { OnlyWrites IsFault
            (S.meaning buffers.old.station) (S.meaning buffers.new.station) result }
        ensures device { IfErr result IsFault }
        ensures goes { Goes (StaysOutside self.old.blocks)
            (S.meaning buffers.old.station) (S.meaning buffers.new.station) }
        ensures written { Shows (S.meaning buffers.old.station) (HoldsWritten self.old)
            → OnOk result (Shows (S.meaning buffers.new.station) (HoldsWritten self.new)) }
        ensures shows { (disk : ℕ → List ℕ)
            → ShowsDisk (S.meaning buffers.old.station) buffers.old.kept
            (disk_so_far self.old disk)
            → OnOk result (ShowsDisk (S.meaning buffers.new.station) buffers.new.kept
            (disk_so_far self.new disk)) }
    {
        let left = self.blocks.len() - self.written;
        for _ in 0..count.min(left) {
            self.write_next(buffers)?;
        }
        Ok(())
    }

    /// Writes the next block.
    fn write_next<S: Station>(&mut self, buffers: &mut Buffers<S>) -> Result<(), BlockError>
        requires fits { FitsDisk (S.meaning buffers.old.station).sectors self.old }
        requires more { self.old.written < length self.old.blocks }
        ensures plan { self.new ≡ record self.old { written = self.new.written } }
        ensures next { OnOk result (self.new.written ≡ self.old.written + 1) }
        ensures writes { OnlyWrites IsFault
            (S.meaning buffers.old.station) (S.meaning buffers.new.station) result }
        ensures device { IfErr result IsFault }
        ensures goes { Goes (StaysOutside self.old.blocks)
            (S.meaning buffers.old.station) (S.meaning buffers.new.station) }
        ensures written { Shows (S.meaning buffers.old.station) (HoldsWritten self.old)
            → OnOk result (Shows (S.meaning buffers.new.station) (HoldsWritten self.new)) }
        ensures shows { (disk : ℕ → List ℕ)
            → ShowsDisk (S.meaning buffers.old.station) buffers.old.kept
            (disk_so_far self.old disk)
            → OnOk result (ShowsDisk (S.meaning buffers.new.station) buffers.new.kept
            (disk_so_far self.new disk)) }
    {
        let block = &self.blocks[self.written];
        buffers.store(block.place, block.bytes.bytes())?;
        self.written += 1;
        Ok(())
    }

    /// Brings the new root into force, once all blocks are written. It takes no memory.
    pub fn finish<S: Station>(&self, buffers: &mut Buffers<S>) -> Result<(), BlockError>
        requires fits { FitsDisk (S.meaning buffers.old.station).sectors self.now }
        requires all { self.now.written ≡ length self.now.blocks }
        ensures writes { OnlyWrites IsFault
            (S.meaning buffers.old.station) (S.meaning buffers.new.station) result }
        ensures device { IfErr result IsFault }
        // A cut at any moment leaves what one might have left before, or all the blocks with the
        // new root, or what was there before with the root's sector lost.
        ensures any_moment { Shows (S.meaning buffers.old.station) (HoldsWritten self.now)
            → LeavesOnly (S.meaning buffers.old.station) (S.meaning buffers.new.station)
            (λ c. MayLeave (S.meaning buffers.old.station) c
            ⊎ HasRootOrLost self.now (S.meaning buffers.old.station).seen c) }
        ensures settled { Shows (S.meaning buffers.old.station) (HoldsWritten self.now)
            → OnOk result (EachCut (S.meaning buffers.new.station)
            (HasNewRoot self.now (S.meaning buffers.old.station).seen)) }
        ensures just { OnOk result
            (LeavesJust (S.meaning buffers.new.station) (S.meaning buffers.new.station).seen) }
        ensures shows { (disk : ℕ → List ℕ)
            → ShowsDisk (S.meaning buffers.old.station) buffers.old.kept disk
            → OnOk result (ShowsDisk (S.meaning buffers.new.station) buffers.new.kept
            (disk_with_sector (S.meaning buffers.new.station).seen.disk self.now.slot disk)) }
    {
        // The blocks are settled before the root is written: it would lead to what isn't there.
        buffers.sync()?;
        // The root is settled before the answer: a cut could take it back.
        buffers.store_sector(self.slot, &self.root)?;
        buffers.sync()?;
        Ok(())
    }
}
