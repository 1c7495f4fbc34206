//! The checker: whether one of nine faults stands in an image. It reads each tree's inodes,
//! indirect blocks, maps and directories, and replays the log in memory; it writes nothing.
#![tactic(auto)]

mod checking;
mod error;
mod fault;
mod fault_text;
mod findings;
mod log;
mod map;
mod marks;
mod names;
mod nodes;
mod numbers;
mod owners;
mod report;
mod rows;
mod seen;
mod snapshots;
mod table;
mod tree;
mod trees;
mod uncached_reads;

pub use checking::check;
pub use error::CheckError;
pub use fault::{
    DirectoryFault, Fault, FileNode, Finding, LogFault, RootsFault, SnapshotFault, SnapshotName,
    TreeFault, TreeName,
};
pub use findings::Watch;
pub use report::{Report, Summary};
pub use uncached_reads::UncachedReads;
