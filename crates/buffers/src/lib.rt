//! The buffers: blocks of the disk in memory. A block is named by its place on the disk, or it is
//! changed, has no place yet, and is owned by whoever changed it; so two files can't share a
//! changed block. A place reads as the disk does, whatever of it is kept. Only `make_resident`
//! reads the device.
#![tactic(auto)]

mod block;
mod block_cache;
mod blocks;
mod cache;
mod error;
mod shared;

pub use block::Block;
pub use block_cache::{BlockCache, CACHED_BLOCKS};
pub use blocks::Blocks;
pub use cache::{Buffers, read_sectors};
pub use error::BlockError;
pub use shared::SharedBlock;
