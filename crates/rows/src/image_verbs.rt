//! The images of a row.

use crate::fault::Fault;
use crate::image::put;
use crate::text::is_one_of;
use memory_station::Sim;
use station::SECTOR_BYTES;
use std::alloc::{AllocError, Global};

/// Both images, and the sectors of the disk that can't be read, in rising order.
#[derive(Drop)]
pub struct Images {
    pub disk: Vec<u8>,
    pub nvram: Vec<u8>,
    pub bad: Vec<u64>,
}

impl Images {
    /// Images without bytes.
    pub fn new(alloc: Global) -> Images {
        Images {
            disk: Vec::new(alloc),
            nvram: Vec::new(alloc),
            bad: Vec::new(alloc),
        }
    }

    /// What a station holds. It ends there: what it takes is given back in this one place.
    pub fn of(alloc: Global, sim: Sim) -> Result<Images, AllocError> {
        copied(alloc, &sim)
    }

    /// A station in memory with these.
    pub fn load(&self, alloc: Global) -> Result<Sim, Fault> {
        let disk = Vec::from_slice(alloc, &self.disk)?;
        let nvram = Vec::from_slice(alloc, &self.nvram)?;
        match Sim::load_bad(alloc, disk, nvram, &self.bad) {
            Ok(sim) => Ok(sim),
            Err(_) => Err(Fault::misread(alloc, "no station has these sizes")),
        }
    }

    /// Whether these are the same.
    pub fn is_same(&self, other: &Images) -> bool {
        self.disk.as_slice() == other.disk.as_slice()
            && self.nvram.as_slice() == other.nvram.as_slice()
            && self.bad.as_slice() == other.bad.as_slice()
    }

    /// `bad N ..`: from here on these sectors can't be read. `bad -> N ..`: just these can't be;
    /// `bad of N`: so many can't be. False where the words aren't understood.
    pub fn obey_bad(&mut self, alloc: Global, words: &str) -> Result<bool, Fault> {
        if let Some(count) = words.strip_prefix("of ") {
            let came = format!(in alloc; "{}", self.bad.len())?;
            return compare(alloc, came.as_str(), count);
        }
        if let Some(expected) = words.strip_prefix("->") {
            return compare_numbers(alloc, &self.bad, expected);
        }
        self.bad.clear();
        for word in words.split_ascii_whitespace() {
            let Ok(number) = word.parse() else {
                return Ok(false);
            };
            // A station in memory gives zeros there.
            let Ok(start) = u32::try_from(SECTOR.saturating_mul(number)) else {
                return Ok(false);
            };
            if !put(&mut self.disk, start, &[0; SECTOR_BYTES]) {
                return Ok(false);
            }
            self.bad.push(number)?;
        }
        Ok(true)
    }

    /// `slots -> N ..`: of the sectors in the first two blocks, where roots stand, just these can't
    /// be read.
    pub fn compare_slots(&self, alloc: Global, words: &str) -> Result<bool, Fault> {
        let Some(expected) = words.strip_prefix("->") else {
            return Ok(false);
        };
        let mut slots = Vec::new(alloc);
        for sector in self.bad.iter() {
            if *sector < SLOT_SECTORS {
                slots.push(*sector)?;
            }
        }
        compare_numbers(alloc, &slots, expected)
    }
}

/// Bytes of a sector.
const SECTOR: u64 = SECTOR_BYTES as u64;

/// Sectors of the two blocks that roots stand in.
const SLOT_SECTORS: u64 = 16;

fn copied(alloc: Global, sim: &Sim) -> Result<Images, AllocError> {
    let (disk, nvram) = sim.images();
    Ok(Images {
        disk: Vec::from_slice(alloc, disk)?,
        nvram: Vec::from_slice(alloc, nvram)?,
        bad: Vec::from_slice(alloc, sim.bad_sectors())?,
    })
}

/// Whether words behind `bad` change nothing.
pub fn looks_at_bad(words: &str) -> bool {
    words.starts_with("->") || words.starts_with("of ")
}

/// Compares numbers with a text of them, with a space before each.
fn compare_numbers(alloc: Global, numbers: &[u64], expected: &str) -> Result<bool, Fault> {
    let came = shown(alloc, numbers)?;
    compare(alloc, came.as_str(), expected.trim_start())
}

fn compare(alloc: Global, came: &str, expected: &str) -> Result<bool, Fault> {
    if !is_one_of(alloc, came.as_bytes(), expected)? {
        return Err(Fault::differs(alloc, "sectors", came.as_bytes(), expected));
    }
    Ok(true)
}

/// Numbers with a space between.
fn shown(alloc: Global, numbers: &[u64]) -> Result<String, AllocError> {
    let mut text = String::new(alloc);
    for (i, number) in numbers.iter().enumerate() {
        text = if i == 0 {
            format!(in alloc; "{number}")?
        } else {
            format!(in alloc; "{text} {number}")?
        };
    }
    Ok(text)
}
