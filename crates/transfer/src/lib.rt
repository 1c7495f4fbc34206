//! The transfers, a user's way in and out: a file of the host's is stored in an image, a file of an
//! image is brought back, and what a snapshot has comes back into the running tree, by the same
//! calls that scripts have.
#![tactic(auto)]

mod applying;
mod error;
mod getting;
mod input;
mod looking;
mod missing;
mod parts;
mod progress;
mod putting;
mod restoring;
mod room;
mod runs;
mod steps;
mod storing;
mod target;
mod what;
mod working;

pub use error::TransferError;
pub use getting::{get_file, get_from};
pub use progress::Progress;
pub use putting::put_file;
pub use restoring::restore_file;
pub use room::Needs;
pub use what::{Ended, Transfer};
