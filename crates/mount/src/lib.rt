//! The file system: making an image, mounting one, and applying commands to it. A changing command
//! is logged before it is answered, so that a power cut at any moment leaves it whole or not at
//! all: the contracts of `make`, `mount`, `Fs::apply` and `Fs::into_station` say so over an honest
//! station, and the law `cut_opens_to_prefix` joins them.
#![tactic(auto)]

mod batches;
mod committing;
mod fs;
mod image;
mod limits;
mod mounting;
mod numbers;
mod open_files;
mod path_calls;
mod prefix;
mod refusals;
mod replies;
mod saying;
mod waiting;
mod whole_image;
mod within_snapshots;

pub use batches::cut_opens_to_batches;
pub use file_system::path_from;
pub use fs::{Fs, POINTS};
pub use image::make;
pub use making::MakeError;
pub use mounting::mount;
pub use prefix::cut_opens_to_prefix;
pub use system::{MountError, Space};
pub use waiting::Waiting;
