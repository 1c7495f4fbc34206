//! What stands at a number.

ghost use Rattle.std.specs.Prelude.{◌≡◌};
ghost use Rattle.paths.specs.Numbers.{IsInodeNumber};
ghost use Rattle.paths.specs.Steps.{found_in};
ghost use Rattle.records.specs.Looking.{Finds};

use buffers::{BlockError, Blocks};
use inofile::InodeFile;
use layout::InodeNumber;
use paths::Found;
use std::alloc::Global;

/// What stands at a number.
pub fn kind_at<B: Blocks>(
    alloc: Global,
    inodes: &mut InodeFile,
    blocks: &mut B,
    number: InodeNumber,
) -> Result<Found, BlockError>
    requires { IsInodeNumber inodes.old.geometry.inodes number }
    ensures { Finds B.Blocks blocks.old blocks.new inodes.old inodes.new
        (λ detail disk settled v f. f ≡ found_in (v number)) result }
{
    paths::object_at(alloc, inodes, blocks, number)
}
