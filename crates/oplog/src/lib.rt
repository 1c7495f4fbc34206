//! The journal (oplog): the log in the NVRAM, with what came since the last root. Each epoch's
//! records stand in one half of the NVRAM, the half of its parity; a record counts once its gate is
//! open.
#![tactic(auto)]

mod append;
mod batch;
mod laws;
mod log;
mod saved;

pub use batch::Batch;
pub use laws::roots_cover_the_older_epoch;
pub use log::{AppendError, Log};
pub use saved::{SavedLog, SavedLogError};
