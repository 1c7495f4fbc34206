//! The disk that the rows read.

use crate::fault::Fault;
use layout::BLOCK_BYTES;
use memory_station::Sim;
use std::alloc::{AllocError, Global};

const BLOCKS: u8 = 210;

/// A disk of zeros up to block 7; block b from there on is full of the letter with the code 65 + b
/// % 26.
pub fn made_disk(alloc: Global) -> Result<Vec<u8>, AllocError> {
    let mut disk = Vec::new(alloc);
    for block in 0..BLOCKS {
        let letter = if block < 8 { 0 } else { 65 + block % 26 };
        disk.extend_from_slice(&[letter; BLOCK_BYTES])?;
    }
    Ok(disk)
}

/// A station with this disk.
pub fn station_of(alloc: Global, disk: &[u8]) -> Result<Sim, Fault> {
    match Sim::load(alloc, Vec::from_slice(alloc, disk)?, Vec::new(alloc)) {
        Ok(sim) => Ok(sim),
        Err(_) => Err(Fault::misread(alloc, "no station has these sizes")),
    }
}
