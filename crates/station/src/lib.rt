//! The devices under the file system: a disk of sectors and an NVRAM, and what a power cut may
//! leave of them.
#![tactic(auto)]

mod station;

pub use station::{BLOCK_BYTES, DeviceFault, SECTOR_BYTES, Station};
