//! The checkpoint, or consistency point (conspoint): all places and bytes of one are planned first;
//! then its blocks are written, at places that the settled root doesn't need; then its root comes
//! into force by a write of one sector. So a power cut leaves the tree of before or the new one.
//! After Hitz, Lau and Malcolm, "File System Design for an NFS File Server Appliance", USENIX
//! Winter 1994.
#![tactic(auto)]

mod blocks;
mod closure;
mod draft;
mod error;
mod group;
mod laws;
mod map_file;
mod map_inode;
mod marks;
mod plan;
mod writing;

pub use blocks::place_blocks;
pub use closure::reserve_map;
pub use draft::Draft;
pub use error::PlanError;
pub use group::{place_group, place_over};
pub use laws::{
    cuts_are_those_of_images, cuts_leave_blocks, finished_disks_are_one,
    written_disks_have_the_blocks,
};
pub use map_file::store_map;
pub use map_inode::store_own_map;
pub use marks::mark_all;
pub use plan::{Plan, PlannedBlock};
pub use writing::{write_point, write_rest};
