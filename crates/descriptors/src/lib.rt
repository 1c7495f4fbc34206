//! The open file table (descriptors): the open files of a mounted system, by their descriptors. The
//! table takes memory by use, and none to close a file. It keeps each open file's size and links
//! once, however many descriptors are open for it, so that no call on a descriptor has to look for
//! these.
#![tactic(auto)]

mod description;
mod laws;
mod open_file;
mod shared;
mod slots;
mod table;

pub use laws::tables_follow_volumes;
pub use open_file::OpenFile;
pub use table::Descriptors;
