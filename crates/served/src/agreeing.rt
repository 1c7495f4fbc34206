//! The first request: what kernel and server agree on.

ghost use Rattle.std.specs.Prelude.{◌≡◌};
ghost use Rattle.served.specs.Agreeing.{agree};

use crate::answer::Answer;
use crate::numbers::MOST_BYTES;
use fuse::{
    ASYNC_DIO, ASYNC_READ, BIG_WRITES, CACHE_SYMLINKS, DO_READDIRPLUS, InitReply, MAJOR_VERSION,
    MAX_PAGES, MINOR_VERSION, PARALLEL_DIROPS, READDIRPLUS_AUTO,
};

/// What the server can do of what a kernel offers. It leaves set-user and set-group bits to the
/// kernel, and cuts a file by a request of its own.
pub(crate) const OFFERED: u32 = ASYNC_READ
    | BIG_WRITES
    | DO_READDIRPLUS
    | READDIRPLUS_AUTO
    | ASYNC_DIO
    | PARALLEL_DIROPS
    | MAX_PAGES
    | CACHE_SYMLINKS;

/// Agrees with a kernel that speaks this version, or a later one.
pub(crate) fn agree(major: u32, minor: u32, max_readahead: u32, flags: u32) -> Answer
    ensures { result ≡ agree major minor max_readahead flags }
{
    if major != MAJOR_VERSION || minor < MINOR_VERSION {
        return Answer::OtherVersion;
    }
    Answer::Agreed(InitReply {
        max_readahead,
        flags: flags & OFFERED,
        max_background: 16,
        congestion_threshold: 12,
        max_write: MOST_BYTES,
        time_granularity: 1,
        max_pages: 256,
    })
}
