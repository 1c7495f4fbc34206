//! What differs from one version of the layout to the next, in one place.

ghost use Rattle.std.specs.Prelude.{◌≡◌, ◌↔◌, IsTrue};
ghost use Rattle.layout.specs.Version.{IsVersion, greatest_under, layout_of, snapshot_slots};

use crate::{Layout, SINGLE_BYTES};

/// The first version, which is read only: the first consistency point over such a root writes the
/// newest version.
pub const FIRST_VERSION: u32 = 1;

/// The newest version, which is read and written.
pub const VERSION: u32 = 2;

/// The version whose indirect blocks have sums. No root of it is read yet.
pub const SUMMED_VERSION: u32 = 4;

/// The slots of snapshots in a root of the first version.
pub const FIRST_SLOTS: usize = 20;

/// The slots of snapshots in a root of the newest version: one for each that there may be. Those
/// that a version doesn't have are free in it.
pub const SNAPSHOT_SLOTS: usize = 30;

/// Whether this is a version that is read.
pub fn is_version(version: u32) -> bool
    ensures { IsTrue result ↔ IsVersion version }
{
    FIRST_VERSION <= version && version <= VERSION
}

/// The layout of a version's trees.
pub fn layout_of(version: u32) -> Layout
    ensures { result ≡ layout_of version }
{
    if version == SUMMED_VERSION {
        Layout::Summed
    } else {
        Layout::Plain
    }
}

/// The greatest size of a file under a root of this version, in bytes.
pub fn greatest_under(version: u32) -> u64
    ensures { result ≡ greatest_under version }
{
    if version == FIRST_VERSION {
        SINGLE_BYTES
    } else {
        layout_of(version).greatest_size()
    }
}

/// The slots of snapshots that a root has.
pub fn snapshot_slots(version: u32) -> usize
    ensures { result ≡ snapshot_slots version }
{
    if version == FIRST_VERSION {
        FIRST_SLOTS
    } else {
        SNAPSHOT_SLOTS
    }
}
