//! The inode map (inofile): the inodes of an image, a map from numbers to objects. It reads as the
//! settled inode file does, with the changes since laid over it in memory, and knows the least
//! number that none has.
#![tactic(auto)]

mod changing;
mod hints;
mod inode_file;
mod laws;
mod numbers;
mod past;
mod settled;

pub use hints::ParentHint;
pub use inode_file::{InodeFile, ObjectSlot};
pub use laws::{
    memory_holds_its_volume, objects_stand_in_their_grammar, unchanged_memory_is_settled,
};
pub use layout::FIRST_NUMBER;
pub use numbers::Numbers;
