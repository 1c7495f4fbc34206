//! The blocks of the disk as the layers above read them.

ghost use Rattle.std.specs.Prelude.{◌≡◌, ◌↔◌, ℕ, ◌<◌, ◌≤◌, List, OnOk, IsErrOf, IsTrue};
ghost use Rattle.layout.specs.Maps.{IsIndirectBlock};
ghost use Rattle.buffers.specs.Disks.{IsWhole};
ghost use Rattle.buffers.specs.Failures.{HasGrown};

use crate::BlockError;
use layout::{BLOCK_BYTES, BlockNumber, Layout};

/// The blocks of a disk. A place reads as the disk does, whatever of it is kept in memory.
pub trait Blocks {
    /// The disk is known: each of its blocks reads so.
    ghost Shows: { Self → (ℕ → List ℕ) → Type 0 };

    /// From one moment to another nothing was done but reading.
    ghost ReadsOn: { Self → Self → Type 0 };

    /// The block at this place is in memory.
    ghost IsResident: { Self → ℕ → Type 0 };

    /// How many reads of the device failed so far.
    ghost failed: { Self → ℕ };

    /// How many blocks the disk has, as far as 32 bits count them.
    ghost count: { Self → ℕ };

    /// How many blocks the disk has; `u32::MAX` where there are more.
    fn count(&self) -> u32
        ensures { result ≡ count self.now };

    /// Reads the block at a place into memory, where it isn't there: one behind the two that hold
    /// the roots, since a root may come while blocks read as they do. A place that was resident
    /// stays so. `Damaged` where the block isn't whole, since a sector of it can't be read.
    fn make_resident(&mut self, place: BlockNumber) -> Result<(), BlockError>
        requires behind { 2 ≤ place }
        requires within { place < count self.old }
        ensures count { count self.new ≡ count self.old }
        ensures counted { OnOk result (failed self.new ≡ failed self.old) }
        ensures device { IsErrOf result BlockError.Device
            → HasGrown (failed self.old) (failed self.new) }
        ensures damaged { (disk : ℕ → List ℕ) → Shows self.old disk
            → IsErrOf result BlockError.Damaged → IsWhole (disk place) → ⊥ }
        ensures whole { (disk : ℕ → List ℕ) → Shows self.old disk
            → OnOk result (IsWhole (disk place)) }
        ensures reads { (start : Self) → ReadsOn start self.old → ReadsOn start self.new }
        ensures same { (disk : ℕ → List ℕ) → Shows self.old disk → Shows self.new disk }
        ensures resident { OnOk result (IsResident self.new place) }
        ensures stays { (p : ℕ) → IsResident self.old p → IsResident self.new p };

    /// The bytes of a resident block.
    fn bytes(&self, place: BlockNumber) -> &[u8; BLOCK_BYTES]
        requires { IsResident self.now place }
        ensures { (disk : ℕ → List ℕ) → Shows self.now disk → result.now ≡ disk place };

    /// Whether a resident block is an indirect block of this layout over so many blocks of a file.
    /// It may be remembered of it.
    fn is_indirect(&mut self, place: BlockNumber, layout: Layout, used: u32) -> bool
        requires { IsResident self.old place }
        ensures count { count self.new ≡ count self.old }
        ensures counted { failed self.new ≡ failed self.old }
        ensures is { (disk : ℕ → List ℕ) → Shows self.old disk
            → (IsTrue result ↔ IsIndirectBlock layout (count self.old) used (disk place)) }
        ensures reads { (start : Self) → ReadsOn start self.old → ReadsOn start self.new }
        ensures same { (disk : ℕ → List ℕ) → Shows self.old disk → Shows self.new disk }
        ensures stays { (p : ℕ) → IsResident self.old p → IsResident self.new p };

    ghost reads_nothing: { (s : Self) → ReadsOn s s };
}
