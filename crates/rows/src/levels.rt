//! Files of rows on a file over a station in memory: its levels, what reading costs in calls of the
//! device, and what comes of a call that fails. A row is a line with the answer that it is to have
//! behind ` -> `, or `ok`. The rows from a line `group NAME` on are a group: it begins with a disk
//! of zeros up to block 7, block b from there on full of the letter with the code 65 + b % 26, and
//! an empty file. Lines with `#` first, and empty ones, say nothing.
//!
//!     put BLOCK OFFSET HEX    these bytes lie on the disk
//!     fail N                  device call N from the last `put` on, counted from 1, is to fail
//!     let_go                  lets go of the blocks that were read
//!
//! The other rows are told in `file_row`.

mod bodies;
mod disk;
mod file_row;
mod world;

use crate::fault::Fault;
use std::io;
use world::World;

/// Checks the groups of a file's text: names each row with another answer, and tells how many of a
/// group's rows answered as they are to. Whether all did.
pub fn check_groups(rt: &HostRuntime, text: &str) -> io::Result<bool> {
    let mut all_hold = true;
    // What stands before the first group is about the file itself.
    for group in text.split("\ngroup ").skip(1) {
        let (name, lines) = group.split_once('\n').unwrap_or((group, ""));
        match check_group(rt, name, lines) {
            Ok(holds) => all_hold &= holds,
            Err(fault) => {
                all_hold = false;
                println!(rt; "{name}: {fault}")?;
            }
        }
    }
    Ok(all_hold)
}

/// How many rows a group has, and how many of them answered as they are to.
#[derive(Clone, Copy)]
struct Tally {
    rows: u64,
    right: u64,
}

/// Checks a group's lines. Whether all its rows answered as they are to.
fn check_group(rt: &HostRuntime, name: &str, lines: &str) -> Result<bool, Fault> {
    let mut world = World::new(rt.alloc())?;
    let mut tally = Tally { rows: 0, right: 0 };
    for line in lines.lines() {
        tally.check(rt, &mut world, name, line)?;
    }
    println!(rt; "{name}: {} of {} rows", tally.right, tally.rows)?;
    Ok(tally.right == tally.rows)
}

impl Tally {
    /// Runs the row that a line is, and names it where it gives another answer.
    fn check(
        &mut self,
        rt: &HostRuntime,
        world: &mut World,
        name: &str,
        line: &str,
    ) -> Result<(), Fault> {
        if line.is_empty() || line.starts_with('#') {
            return Ok(());
        }
        let (row, wanted) = line.split_once(" -> ").unwrap_or((line, "ok"));
        let answer = world.run(rt.alloc(), row)?;
        self.rows = self.rows.saturating_add(1);
        if answer.as_str() == wanted {
            self.right = self.right.saturating_add(1);
        } else {
            println!(rt; "{name}: '{row}' answers '{answer}' and not '{wanted}'")?;
        }
        Ok(())
    }
}
