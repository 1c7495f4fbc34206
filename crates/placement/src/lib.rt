//! The checkpoint's places of a changed file (placement): its blocks and the indirect blocks over
//! them get places on the disk, and from them comes its new inode, at whichever level its size has.
#![tactic(auto)]

mod blocks;
mod but_first;
mod file;
mod inline;
mod nodes;
mod raising;
mod settled;

pub use but_first::place_file_but_first;
pub use file::{PlacedFile, place_file};
pub use nodes::Nodes;
pub use settled::settled_nodes;
