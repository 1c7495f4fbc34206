//! What a check comes to.

use crate::Finding;
use std::fmt;

/// What a check of an image comes to.
#[derive(Clone, Copy, Debug)]
pub enum Report {
    /// None of the nine faults stands in the image.
    Good(Summary),
    /// The first fault that was found, in the order of their numbers.
    Bad(Finding),
}

/// Figures of an image without faults.
#[derive(Clone, Copy, Debug, PartialEq, Eq)]
pub struct Summary {
    /// The generation of the newest root.
    pub generation: u64,
    /// How many snapshots it has.
    pub snapshots: usize,
    /// How many records of the log it doesn't cover.
    pub records: u64,
    /// How many blocks are free in its map.
    pub free: u32,
    /// Whether these are as many as the next consistency point may store. The program keeps so many
    /// free.
    pub has_reserve: bool,
}

impl fmt::Display for Report {
    fn fmt<W: fmt::Write>(&self, f: &mut fmt::Formatter<W>) -> fmt::Result {
        match self {
            Report::Good(
                Summary {
                    generation,
                    snapshots,
                    records,
                    free,
                    ..
                },
            ) => write!(
                f,
                "ok generation {generation} snapshots {snapshots} records {records} free {free}"
            ),
            Report::Bad(finding) => {
                let number = finding.fault.number();
                let name = finding.fault.name();
                write!(f, "bad {number} {name}")
            }
        }
    }
}
