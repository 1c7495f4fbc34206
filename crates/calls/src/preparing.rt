//! Calls that change something, each prepared as its record.

pub mod attributes;
pub mod chmod;
pub mod chown;
pub mod link;
pub mod mkdir;
pub mod open;
pub mod rename;
pub mod rmdir;
pub mod set;
pub mod store;
pub mod symlink;
pub mod truncate;
pub mod unlink;
pub mod utimens;
