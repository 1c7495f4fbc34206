//! The checkpoint as a mount reads it (loading): the newest root, and under it the inode file, the
//! inode map and the block map. Each is tested against its format; no directory and no other file
//! is read.
#![tactic(auto)]

mod error;
mod inodes;
mod laws;
mod maps;
mod slots;
mod snapshots;
mod under_root;

pub use error::RootError;
pub use inodes::{inode_at, is_zero_from, own_inode};
pub use laws::{
    files_without_holes_are_stored, readable_files_are_whole, readable_inodes_are_settled,
    snapshots_are_readable, sound_files_have_sound_paths, sound_files_read_as_held,
    volumes_are_readable,
};
pub use maps::{load_numbers, map_file};
pub use slots::{Newest, newest_root};
pub use snapshots::{are_apart, check_snapshot, check_snapshots};
pub use under_root::{Loaded, load, load_inodes};
