//! A station in memory whose power can be cut at any write.
#![tactic(auto)]

mod cut_outcome;
mod disk;
mod faults;
mod history;
mod media;
mod sim;

pub use cut_outcome::{CutOutcome, Mark};
pub use sim::{LoadError, Sim};
