//! The inodes: files in memory, each an inode that a consistency point settled, and the changes
//! since. Inside, a file is a function from a block's index to 4,096 bytes, and a size past which
//! every byte is 0; above, it is its list of bytes. A change is prepared, which takes all memory
//! and does all reads and changes nothing, and then put in force, which can't fail.
#![tactic(auto)]

mod changing;
mod error;
mod extent;
mod file;
mod file_update;
mod laws;
mod loading;
mod object;

pub use error::ChangeError;
pub use file::File;
pub use file_update::FileUpdate;
pub use laws::{based_trees_are_sound, nodes_are_where_pointers_lead, settled_files_are_as_held};
pub use object::{Object, Status};
