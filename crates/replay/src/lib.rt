//! The journal's replay, which is what the saved log does to the inodes in memory at a mount: its
//! records, one after the other, and behind the last one the orphans are dropped. What its records
//! cost a consistency point.
#![tactic(auto)]

mod costs;
mod orphans;
mod replaying;
mod saved;

pub use costs::{MOST_COST, cost_of, headroom_of, size_before};
pub use orphans::{count_orphans, drop_orphans};
pub use replaying::replay_record;
pub use saved::{Replayed, replay};
