//! An object on its way into memory, and there.

ghost use Rattle.std.specs.Prelude.{◌≡◌, ℕ, List, None, Some, IfNone, IfSome};
ghost use Rattle.layout.specs.declared.inode.Inode.{Inode};
ghost use Rattle.model.specs.Volumes.{Volume};
ghost use Rattle.images.specs.Soundness.{Detail};
ghost use Rattle.inofile.specs.Inodes.{IsKnown, loaded};
ghost use Rattle.inofile.specs.Objects.{IsObjectIn};
ghost use Rattle.inofile.specs.Volumes.{IsVolumeIn};
ghost use Rattle.paths.specs.Loads.{TakesIn};
ghost use Rattle.paths.specs.Numbers.{IsInodeNumber};

use buffers::{BlockError, Blocks};
use inode::Object;
use inofile::InodeFile;
use layout::InodeNumber;
use std::alloc::Global;

/// Takes an object into memory. NoMemory; Device where a read failed; Damaged where a block on the
/// way is outside its format.
pub fn load<B: Blocks>(
    alloc: Global,
    inodes: &mut InodeFile,
    blocks: &mut B,
    number: InodeNumber,
) -> Result<(), BlockError>
    requires { IsInodeNumber inodes.old.geometry.inodes number }
    ensures { TakesIn B.Blocks blocks.old blocks.new inodes.old inodes.new number result }
{
    inodes.load(alloc, blocks, number.get())
}

/// The object with a number, if there is one; what is known of it is in memory.
pub fn object(inodes: &InodeFile, number: InodeNumber) -> Option<&Object>
    requires { IsKnown inodes.now number }
    ensures loaded { IfSome result (λ o. loaded inodes.now number ≡ Some o.now) }
    ensures stands { (detail : Detail) (count : ℕ) (disk : ℕ → List ℕ) (settled : ℕ → Inode)
        (v : Volume) → IsVolumeIn detail count disk settled inodes.now v → IfSome result (λ o.
        IsObjectIn detail disk inodes.now.geometry.inodes (settled number) o.now (v number)) }
    ensures stands_for_none { (detail : Detail) (count : ℕ) (disk : ℕ → List ℕ)
        (settled : ℕ → Inode) (v : Volume) → IsVolumeIn detail count disk settled inodes.now v → IfNone result (v number ≡ None) }
{
    inodes.get(number.get())
}
