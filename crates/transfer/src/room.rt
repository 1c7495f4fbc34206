//! The room of a disk, and what a call needs of it.

use crate::error::{TransferError, at};
use model::{Costs, Errno};
use mount::Fs;
use station::{BLOCK_BYTES, Station};
use std::fmt;

/// Blocks that a call may cost. Some more have to stay free behind it.
#[derive(Clone, Copy, Debug)]
pub struct Cost {
    /// For bytes, and for what tells where they are.
    bytes: u64,
    /// For a name.
    name: u64,
    /// For a size.
    size: u64,
}

/// To make a file, or to give one its name.
pub fn naming(costs: Costs) -> Cost {
    Cost {
        bytes: 0,
        name: u64::from(costs.adds_name),
        size: 0,
    }
}

/// To give a file a greater size.
pub fn sizing(costs: Costs) -> Cost {
    Cost {
        bytes: 0,
        name: 0,
        size: u64::from(costs.file),
    }
}

/// To write so many bytes at a block's first one, behind all others of their file.
pub fn writing(costs: Costs, offset: u64, bytes: usize) -> Cost {
    let touched = bytes.div_ceil(BLOCK_BYTES) as u64;
    let is_single = offset.saturating_add(bytes as u64) <= costs.single_file;
    let beside = if is_single {
        costs.file
    } else {
        costs.great_file
    };
    Cost {
        bytes: touched.saturating_mul(2).saturating_add(u64::from(beside)),
        name: 0,
        size: 0,
    }
}

/// To store so many blocks of a file, and then to give it its name.
pub fn storing(costs: Costs, blocks: u64) -> Cost {
    Cost {
        bytes: blocks,
        ..naming(costs)
    }
}

/// What blocks are needed for.
#[derive(Clone, Copy, Debug)]
pub struct Needs {
    cost: Cost,
    /// For the next consistency point, whatever changed.
    point: u64,
    /// For what was answered and isn't stored in blocks yet.
    pledged: u64,
    /// That stay free behind it.
    headroom: u64,
}

impl Needs {
    fn sum(&self) -> u64 {
        let Cost { bytes, name, size } = self.cost;
        bytes
            .saturating_add(name)
            .saturating_add(size)
            .saturating_add(self.headroom)
            .saturating_add(self.point)
            .saturating_add(self.pledged)
    }
}

impl fmt::Display for Needs {
    fn fmt<W: fmt::Write>(&self, f: &mut fmt::Formatter<W>) -> fmt::Result {
        let Cost { bytes, name, size } = self.cost;
        let Needs {
            point,
            pledged,
            headroom,
            ..
        } = self;
        if bytes > 0 {
            write!(f, "{bytes} for its bytes, ")?;
        }
        if name > 0 {
            write!(f, "{name} for its name, ")?;
        }
        if size > 0 {
            write!(f, "{size} for its size, ")?;
        }
        if *pledged > 0 {
            write!(f, "{pledged} for what was answered before, ")?;
        }
        write!(
            f,
            "{point} for the next consistency point, {headroom} that stay free"
        )
    }
}

/// What the room of a disk is short of.
#[derive(Clone, Copy)]
struct Shortage {
    free: u64,
    needs: Needs,
}

/// Whether a call lacks room, even behind a consistency point.
pub fn lacks_room<S: Station>(fs: &mut Fs<S>, cost: Cost) -> Result<bool, Errno> {
    Ok(find_shortage(fs, cost)?.is_some())
}

/// Tells where a call has no room beside what is pledged, not even behind a consistency point.
fn find_shortage<S: Station>(fs: &mut Fs<S>, cost: Cost) -> Result<Option<Shortage>, Errno> {
    if shortage_now(fs, cost)?.is_none() {
        return Ok(None);
    }
    // Behind a consistency point the blocks are free that were given up before.
    fs.sync()?;
    shortage_now(fs, cost)
}

fn shortage_now<S: Station>(fs: &mut Fs<S>, cost: Cost) -> Result<Option<Shortage>, Errno> {
    let space = fs.df()?;
    let costs = fs.limits().costs;
    let needs = Needs {
        cost,
        point: u64::from(costs.point),
        pledged: space.pledged,
        headroom: u64::from(costs.headroom),
    };
    let free = u64::from(space.free);
    Ok((free < needs.sum()).then_some(Shortage { free, needs }))
}

/// Refuses what has no room from this byte on.
pub fn check_room<'a, S: Station>(
    fs: &mut Fs<S>,
    path: &'a str,
    offset: u64,
    cost: Cost,
) -> Result<(), TransferError<'a>> {
    match at(path, offset, find_shortage(fs, cost))? {
        Some(Shortage { free, needs }) => Err(TransferError::NoRoom {
            path,
            offset,
            free,
            needed: needs.sum(),
            needs,
        }),
        None => Ok(()),
    }
}

/// Names the place of a call that was refused, and where that is for want of room, how much this
/// call needs.
pub fn with_room<'a, S: Station, T>(
    fs: &mut Fs<S>,
    path: &'a str,
    offset: u64,
    cost: Cost,
    answer: Result<T, Errno>,
) -> Result<T, TransferError<'a>> {
    if let Err(Errno::ENOSPC) = answer {
        check_room(fs, path, offset, cost)?;
    }
    at(path, offset, answer)
}
