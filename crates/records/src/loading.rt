//! Objects on their way into memory.

ghost use Rattle.std.specs.Prelude.{◌≡◌, ◌≢◌, None, IsFalse, IsTrue};
ghost use Rattle.layout.specs.StateLimits.{limits_of};
ghost use Rattle.model.specs.Volumes.{Volume};
ghost use Rattle.images.specs.Soundness.{Detail};
ghost use Rattle.inofile.specs.Inodes.{IsKnown};
ghost use Rattle.paths.specs.Numbers.{IsInodeNumber};
ghost use Rattle.records.specs.Looking.{Brings};
ghost use Rattle.records.specs.Planning.{IsKnownVolume};
ghost use Rattle.records.specs.Steps.{IsAtHand};

use buffers::{BlockError, Blocks};
use inofile::InodeFile;
use layout::{InodeNumber, ROOT_NUMBER};
use std::alloc::Global;

/// Whether a number is that of the root or of another object; a volume has nothing of any other.
pub(crate) fn is_number(inodes: &InodeFile, number: InodeNumber) -> bool
    ensures yes { IsTrue result → IsInodeNumber inodes.now.geometry.inodes number }
    ensures no { IsFalse result
        → (detail : Detail) (v : Volume) → IsKnownVolume detail (limits_of inodes.now.geometry) v
        → v number ≡ None }
{
    number.get() >= ROOT_NUMBER && number.get() < inodes.geometry().inodes()
}

/// Whether two numbers are the same.
pub(crate) fn is_same(one: InodeNumber, other: InodeNumber) -> bool
    ensures yes { IsTrue result → one ≡ other }
    ensures no { IsFalse result → one ≢ other }
{
    one.get() == other.get()
}

/// Takes an object into memory.
pub fn load<B: Blocks>(
    alloc: Global,
    inodes: &mut InodeFile,
    blocks: &mut B,
    number: InodeNumber,
) -> Result<(), BlockError>
    requires { IsInodeNumber inodes.old.geometry.inodes number }
    ensures { Brings B.Blocks blocks.old blocks.new inodes.old inodes.new
        (λ s. IsKnown s number) result }
{
    paths::load(alloc, inodes, blocks, number)
}

/// Takes an object into memory, with room for a change of it. NoMemory; Device where a read failed;
/// Damaged where a block on the way is outside its format.
pub fn load_to_change<B: Blocks>(
    alloc: Global,
    inodes: &mut InodeFile,
    blocks: &mut B,
    number: InodeNumber,
) -> Result<(), BlockError>
    requires { IsInodeNumber inodes.old.geometry.inodes number }
    ensures { Brings B.Blocks blocks.old blocks.new inodes.old inodes.new
        (λ s. IsAtHand s number) result }
{
    load(alloc, inodes, blocks, number)?;
    inodes.prepare_set(number.get())?;
    Ok(())
}
