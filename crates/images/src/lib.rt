//! The meaning of the images: which tree a root names, from the inode of its inode file down, and
//! which state it stands for. It has no code, only definitions and laws of them.
#![tactic(auto)]

mod cut;
mod first;
mod frame;
mod inode_file;
mod new_root;
mod point;
mod reading;
mod room;
mod states;

pub use cut::{
    finished_points_hold, finished_points_open, lost_slots_open_as_before,
    needed_blocks_are_of_the_disk, nothing_can_be_planned, unfinished_points_open_as_before,
};
pub use first::{first_images_open_to_the_empty_state, first_roots_hold, free_files_hold_nothing};
pub use frame::disks_that_agree_hold_the_same;
pub use inode_file::inodes_are_put_one_by_one;
pub use new_root::{later_roots_are_newest, roots_cover_epochs};
pub use point::{
    files_stand_as_laid, files_stand_inline, free_blocks_are_unneeded, planned_points_hold,
    planned_points_settle, trees_are_bases,
};
pub use reading::{
    blocks_are_where_pointers_lead, inline_bytes_are_the_first_block,
    inodes_are_what_their_bytes_spell, snapshots_are_what_their_bytes_spell,
};
pub use room::points_leave_room;
pub use states::{
    faultless_images_have_one_root, faultless_trees_hold_graphs, files_hold_one_volume,
    free_blocks_are_no_matter, images_open_to_one_state, images_that_open_have_no_fault,
};
