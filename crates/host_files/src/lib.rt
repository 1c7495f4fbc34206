//! Files of the host's: opening them under locks, where their names lead, replacing them whole, and
//! the holes and modes of new ones; and the files of an image, as a station over them or as one in
//! memory.
#![tactic(auto)]

mod bad_list;
mod error;
mod faults;
mod image;
mod image_files;
mod image_station;
mod locking;
mod new_list;
mod places;
mod replacement;
mod sparse;
mod stand_ins;
mod storing;

pub use bad_list::{read_list, write_list};
pub use error::{FileError, on};
pub use faults::tell_fault;
pub use image::{Image, list_name};
pub use image_files::{
    Held, hold_both, load_station, open_image, open_shared, open_to_read, read_script,
};
pub use image_station::ImageStation;
pub use locking::Patience;
pub use new_list::NewList;
pub use places::{Found, Place, find_place, is_one_file, place_in};
pub use replacement::{NewFile, Replacement, make_beside, remove};
pub use sparse::Sparse;
pub use stand_ins::open_descriptors;
