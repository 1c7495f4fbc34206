//! The block map in memory: for each block of the disk an entry, bit k of which is the set of
//! blocks that tree k names. Bit 0 is the active tree, bits 1 to 30 are the snapshots, bit 31 the
//! system's own blocks. The settled entries stay beside the changed ones until the next root: a
//! block that only the settled root names isn't free yet.
#![tactic(auto)]

mod bits;
mod lanes;
mod map;
mod part;

pub use map::{BlockMap, SYSTEM_PLANE};
pub use part::MapPart;
