//! A mounted system: what it has in memory and on its station, over any root, and its consistency
//! points.
#![tactic(auto)]

mod begin_point;
mod covered;
mod error;
mod laws;
mod letting_go;
mod logging;
mod mount_error;
mod numbers;
mod opening;
mod point;
mod restoring;
mod room;
mod slicing;
mod snapshot_taking;
mod snapshot_view;
mod space;
mod system;
mod waiting;
mod waiting_records;

pub use error::{CallError, PointError, WaitError, call_error, wait_error};
pub use laws::{cuts_open, kept_states_open, records_lead_on, served_states_open};
pub use mount_error::MountError;
pub use snapshot_view::{View, keep_view};
pub use snapshots::{PreparedSnapshot, SnapshotRequest};
pub use space::Space;
pub use system::System;
pub use waiting_records::WaitingRecords;
