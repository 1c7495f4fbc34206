//! Sizes and times of the protocol that this server chooses.

ghost use Rattle.std.specs.Prelude.{◌≡◌, ◌%◌};

use fuse::Timeout;
use model::Mode;

/// The most bytes of one write, and of one read.
pub(crate) const MOST_BYTES: u32 = 1_048_576;

/// The most bytes of a request: a write's, and its head.
pub const REQUEST_BYTES: usize = 1_048_576 + 4096;

/// The most parts that a read or a write is done in.
pub(crate) const MOST_PARTS: u32 = 16;

/// So long the kernel may keep what it was told: it is the only one that changes anything.
pub(crate) const FOREVER: Timeout = Timeout {
    seconds: 1_000_000_000,
    nanoseconds: 0,
};

/// Bytes of a block, as `st_blksize` tells them.
pub(crate) const BLOCK_BYTES: u64 = 4096;

/// Parts of 512 bytes in a block, as `st_blocks` counts them.
pub(crate) const PARTS_OF_BLOCK: u64 = 8;

/// The mode bits of a mode that has those of a kind too.
pub(crate) fn mode_of(mode: u32) -> Mode
    ensures { result ≡ mode % 4096 }
{
    match Mode::new((mode % 4096) as u16) {
        Some(mode) => mode,
        None => Mode::NEW_DIRECTORY,
    }
}
