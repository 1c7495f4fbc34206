//! The snapshots under a root, as they are read: finding one by its name, the names of all, and the
//! tree of one. Nothing here changes a block.
#![tactic(auto)]

mod finding;
mod listing;
mod preparing;
mod taking;
mod viewing;

pub use finding::{FoundSnapshot, find};
pub use listing::names;
pub use preparing::{PreparedSnapshot, SnapshotRequest, prepare_snapshot};
pub use taking::Taking;
pub use viewing::view;
