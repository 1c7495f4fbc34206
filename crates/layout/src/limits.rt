//! What a file system may hold that stands in these formats: the numbers of its versions.

ghost use Rattle.std.specs.Prelude.{◌≡◌};
ghost use Rattle.layout.specs.StateLimits.{costs_of, limits_of, limits_under};

use crate::{
    Geometry, LEAST_BLOCKS, Layout, SINGLE_BYTES, SNAPSHOT_SLOTS, greatest_under, snapshot_slots,
};
use model::{Costs, Limits};

/// Greatest number of names of one file.
pub const FILE_NAMES: u32 = 1000;

/// Greatest number of names in one directory.
pub const DIRECTORY_NAMES: u32 = 65_536;

/// Greatest length in bytes of a path, and of a symbolic link's text, which is one.
pub const PATH_BYTES: u32 = 1023;

/// What a record costs that changes names, in blocks; where objects have times, one that takes a
/// name away.
pub const NAMES_COST: u32 = 24;

/// Where objects have times, what one costs that adds a name. Beside the names it touches the
/// inodes of both directories, of what moves and of what that replaces.
pub const SUMMED_NAMES_COST: u32 = 48;

/// What one costs that changes a file's size; and one that writes to a file, beside two for each
/// block that it touches.
pub const FILE_COST: u32 = 6;

/// What one costs that writes to a file that is or becomes larger than `SINGLE_BYTES`, likewise:
/// two more for the third height over its blocks.
pub const GREAT_FILE_COST: u32 = 8;

/// The same where objects have times, of any size: an indirect block has half as many pointers, and
/// what touches the file alone changes its inode too.
pub const SUMMED_FILE_COST: u32 = 16;

/// What one costs that changes a mode.
pub const MODE_COST: u32 = 2;

/// The same where objects have times.
pub const SUMMED_MODE_COST: u32 = 4;

/// What an orphan costs that the root has, a file that no directory names: it is taken away.
pub const ORPHAN_COST: u32 = 4;

/// What each consistency point costs whatever changed, beside one block of the block map for each
/// 1,024 blocks of the disk.
pub const POINT_COST: u32 = 4;

/// Blocks that stay free behind a record that adds to the tree, so that files can still be taken
/// away.
pub const HEADROOM_BLOCKS: u32 = 16;

/// The same where objects have times.
pub const SUMMED_HEADROOM_BLOCKS: u32 = 24;

/// What records and consistency points cost in an image of this layout, on a disk of so many
/// blocks.
pub fn costs_of(layout: Layout, blocks: u32) -> Costs
    ensures { result ≡ costs_of layout blocks }
{
    let plain = Costs {
        adds_name: NAMES_COST,
        removes_name: NAMES_COST,
        file: FILE_COST,
        great_file: GREAT_FILE_COST,
        single_file: SINGLE_BYTES,
        mode: MODE_COST,
        orphan: ORPHAN_COST,
        point: blocks.div_ceil(1024) + POINT_COST,
        headroom: HEADROOM_BLOCKS,
    };
    match layout {
        Layout::Plain => plain,
        Layout::Summed => Costs {
            adds_name: SUMMED_NAMES_COST,
            file: SUMMED_FILE_COST,
            great_file: SUMMED_FILE_COST,
            mode: SUMMED_MODE_COST,
            headroom: SUMMED_HEADROOM_BLOCKS,
            ..plain
        },
    }
}

impl Geometry {
    /// The limits of its file system.
    pub fn limits(&self) -> Limits
        ensures { result ≡ limits_of self.now }
    {
        Limits {
            inodes: self.inodes(),
            file_bytes: self.layout().greatest_size(),
            file_names: FILE_NAMES,
            directory_names: DIRECTORY_NAMES,
            path_bytes: PATH_BYTES,
            snapshots: SNAPSHOT_SLOTS as u32,
            least_blocks: LEAST_BLOCKS,
            has_attributes: self.layout().has_attributes(),
            costs: costs_of(self.layout(), self.blocks()),
        }
    }

    /// What its root may hold by its version: the same, or less.
    pub fn limits_under(&self, version: u32) -> Limits
        ensures { result ≡ limits_under version self.now }
    {
        Limits {
            file_bytes: greatest_under(version),
            snapshots: snapshot_slots(version) as u32,
            ..self.limits()
        }
    }
}
