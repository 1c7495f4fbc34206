//! The checkpoint's plan (planning): every place and every byte of it, before anything is written.
#![tactic(auto)]

mod block_map;
mod change;
mod inode_blocks;
mod inode_map;
mod number;
mod placing;
mod points;
mod top;

pub use change::SnapshotChange;
pub use points::{Point, plan};
