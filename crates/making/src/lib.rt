//! The first checkpoint (making), which makes an image: a consistency point of an empty root
//! directory and the file system's own three files, is planned over a disk of which no block is in
//! use, and written to a station that is cleared before.
#![tactic(auto)]

mod clearing;
mod empty_disk;
mod error;
mod first;
mod image;
mod inode_file;
mod inode_map;
mod map;

pub use error::MakeError;
pub use first::{FirstPoint, plan_first};
pub use image::make;
