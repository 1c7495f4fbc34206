//! The devices over files: a station over the two files of an image, a disk's and an NVRAM's.
#![tactic(auto)]

mod file_fault;
mod file_station;
mod image_files;
mod memory_files;
mod open_files;
mod patched_files;

pub use file_fault::{FileCall, FileFault};
pub use file_station::{FileStation, SizeError};
pub use image_files::{ImageFiles, Part};
pub use memory_files::MemoryFiles;
pub use open_files::OpenFiles;
pub use patched_files::{Patch, PatchedFiles};
