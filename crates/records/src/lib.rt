//! The journal's records: what they do to the image in memory, by numbers. A change is prepared,
//! with all memory taken and all blocks read, and then committed, which can't fail; a replay goes
//! the same way as a call. Beside them the reading and rewriting of a file with a number, and files
//! that are left with no name.
#![tactic(auto)]

mod attributes;
mod below;
mod contents;
mod directory_names;
mod failure;
mod kinds;
mod links;
mod loading;
mod marks;
mod name_removal;
mod naming;
mod new_objects;
mod orphans;
mod plans;
mod prepared;
mod reading;
mod renaming;
mod rewriting;
mod steps;

pub use attributes::{attributes_at, prepare_attributes};
pub use failure::Failure;
pub use kinds::kind_at;
pub use links::prepare_link;
pub use loading::{load, load_to_change};
pub use name_removal::prepare_remove_name;
pub use new_objects::{is_vacant, new_object};
pub use orphans::{commit_swept, drop_orphan, is_orphan};
pub use prepared::{Prepared, commit, prepare, prepare_new};
pub use reading::{read_bytes, read_extent};
pub use renaming::{goes_below, is_directory_at, prepare_move};
pub use rewriting::{set_bytes, truncate_bytes, write_bytes};
