//! Calls that only look.

pub mod attr;
pub mod extent;
pub mod get;
pub mod list;
mod part;
pub mod readlink;
pub mod stat;
pub mod tell_entries;
