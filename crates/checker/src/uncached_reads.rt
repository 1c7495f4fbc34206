//! Blocks that may be let go of.

ghost use Rattle.std.specs.Prelude.{◌≡◌, ◌<◌, ◌≤◌, ℕ, List, IfOk, IsErrOf, IsFalse, IsTrue, OnOk};
ghost use Rattle.layout.specs.Pointer.{PointsBelow};
ghost use Rattle.station.specs.Moments.{HasGrown, MayGrow};
ghost use Rattle.buffers.specs.Disks.{IsWhole};
ghost use Rattle.checker.specs.Errors.{IsFault, ReadsForFaults};

use crate::CheckError;
use buffers::{Block, BlockError, Blocks, Buffers, read_sectors};
use layout::{BlockNumber, Pointer};
use station::Station;

/// Blocks of a disk that are let go of, so that no more are kept than are needed at once.
pub trait UncachedReads: Blocks {
    /// Lets go of the blocks that are resident: each has to be made resident again.
    fn forget(&mut self)
        ensures count { Self.count self.new ≡ Self.count self.old }
        ensures counted { Self.failed self.new ≡ Self.failed self.old }
        ensures reads { (start : Self) → Self.ReadsOn start self.old → Self.ReadsOn start self.new }
        ensures same { (disk : ℕ → List ℕ) → Self.Shows self.old disk → Self.Shows self.new disk };

    /// Reads the block at a place into this one, as `make_resident` reads it, and keeps nothing of
    /// it.
    fn read(&mut self, place: BlockNumber, block: &mut Block) -> Result<(), BlockError>
        requires behind { 2 ≤ place }
        requires within { place < Self.count self.old }
        ensures count { Self.count self.new ≡ Self.count self.old }
        ensures counted { OnOk result (Self.failed self.new ≡ Self.failed self.old) }
        ensures device { IsErrOf result BlockError.Device
            → HasGrown (Self.failed self.old) (Self.failed self.new) }
        ensures damaged { (disk : ℕ → List ℕ) → Self.Shows self.old disk
            → IsErrOf result BlockError.Damaged → IsWhole (disk place) → ⊥ }
        ensures reads { (start : Self) → Self.ReadsOn start self.old → Self.ReadsOn start self.new }
        ensures same { (disk : ℕ → List ℕ) → Self.Shows self.old disk → Self.Shows self.new disk }
        ensures block { (disk : ℕ → List ℕ) → Self.Shows self.old disk
            → OnOk result (block.new ≡ disk place) };

    /// Where nothing was done but reading, the count of failed reads is as it was, or has grown.
    ghost grows: { (s t : Self) → Self.ReadsOn s t → MayGrow (Self.failed s) (Self.failed t) };
}

impl<S: Station> UncachedReads for Buffers<S> {
    fn forget(&mut self) {
        self.let_go();
    }

    fn read(&mut self, place: BlockNumber, block: &mut Block) -> Result<(), BlockError> {
        read_sectors(&mut self.station, place.get(), block)
    }

    ghost grows = { λ s t reads. reads.reads };
}

/// Reads the block at a place into memory, and tells whether all of it can be read.
pub(crate) fn read_block<B: UncachedReads>(
    blocks: &mut B,
    place: BlockNumber,
) -> Result<bool, CheckError>
    requires { PointsBelow (B.count blocks.old) (Pointer.Block place) }
    ensures reads { ReadsForFaults B.Blocks IsFault blocks.old blocks.new result }
    ensures resident { IfOk result (λ whole. IsTrue whole → B.IsResident blocks.new place) }
    ensures whole { (disk : ℕ → List ℕ) → B.Shows blocks.old disk
        → IfOk result (λ whole. IsFalse whole → IsWhole (disk place) → ⊥) }
{
    match blocks.make_resident(place) {
        Ok(()) => Ok(true),
        Err(BlockError::NoMemory) => Err(CheckError::NoMemory),
        Err(BlockError::Device) => Err(CheckError::Device),
        Err(BlockError::Damaged) => {
            // It isn't resident.
            Ok(false)
        }
    }
}

/// Reads the block at a place into this one, and tells whether all of it can be read.
pub(crate) fn read_into<B: UncachedReads>(
    blocks: &mut B,
    place: BlockNumber,
    block: &mut Block,
) -> Result<bool, CheckError>
    requires { PointsBelow (B.count blocks.old) (Pointer.Block place) }
    ensures reads { ReadsForFaults B.Blocks IsFault blocks.old blocks.new result }
    ensures block { (disk : ℕ → List ℕ) → B.Shows blocks.old disk
        → IfOk result (λ whole. IsTrue whole → block.new ≡ disk place) }
    ensures whole { (disk : ℕ → List ℕ) → B.Shows blocks.old disk
        → IfOk result (λ whole. IsFalse whole → IsWhole (disk place) → ⊥) }
{
    match blocks.read(place, block) {
        Ok(()) => Ok(true),
        Err(BlockError::NoMemory) => Err(CheckError::NoMemory),
        Err(BlockError::Device) => Err(CheckError::Device),
        Err(BlockError::Damaged) => Ok(false),
    }
}
