//! The block tree: the blocks of a file. What a consistency point settled stays as it is on the
//! disk, indirect blocks too, until the next one: a change is laid over it in memory. So a file is
//! a function from a block's index to 4,096 bytes, and a write or a truncation an update of that
//! function, whatever the file's level.
#![tactic(auto)]

mod group;
mod laws;
mod names;
mod nodes;
mod place;
mod place_map;
mod slot;
mod stored;
mod tree;

pub use laws::holes_are_zeros;
pub use place_map::{PlaceMap, StoredNode};
pub use slot::Slot;
pub use tree::{BlockTree, Location};
