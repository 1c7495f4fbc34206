//! The program `wafl` as a library: what its words ask for, over an image's files.
#![tactic(auto)]

mod asking;
mod explain;
mod image_error;
mod image_making;
mod names;
mod obeying;
mod replies;
mod rooms;
mod salvaging;
mod spelling;
mod statuses;
mod talk;
mod typing;
mod warnings;

pub use image_error::ImageError;
pub use image_making::make_image;
pub use obeying::{Terminals, obey};
pub use statuses::{
    status_of_check, status_of_file, status_of_line, status_of_report, status_of_serving,
    status_of_transfer,
};
