//! Images, and stations in memory that hold them.

use crate::fault::Fault;
use memory_station::Sim;
use mount::make;
use std::alloc::{AllocError, Global};

/// Both images, and the sectors of the disk that can't be read, in rising order.
#[derive(Drop)]
pub struct Images {
    pub disk: Vec<u8>,
    pub nvram: Vec<u8>,
    pub bad: Vec<u64>,
}

impl Images {
    /// Those of a new file system. A story's `image` line has these sizes.
    pub fn made(alloc: Global, blocks: u32, inodes: u32, half: u32) -> Result<Images, Fault> {
        let disk = vec![in alloc; 0xaa; 4096_usize.saturating_mul(blocks as usize)]?;
        let nvram = vec![in alloc; 0x55; 2_usize.saturating_mul(half as usize)]?;
        let Ok(sim) = Sim::load(alloc, disk, nvram) else {
            return Err(Fault::misread(alloc, "image"));
        };
        match make(alloc, sim, blocks, inodes, half) {
            Ok(sim) => Ok(Images::of(alloc, &sim)?),
            Err(_) => Err(Fault::misread(alloc, "image")),
        }
    }

    /// Zeros, as many as images of these sizes have.
    pub fn empty(alloc: Global, blocks: u32, half: u32) -> Result<Images, AllocError> {
        Ok(Images {
            disk: vec![in alloc; 0; 4096_usize.saturating_mul(blocks as usize)]?,
            nvram: vec![in alloc; 0; 2_usize.saturating_mul(half as usize)]?,
            bad: Vec::new(alloc),
        })
    }

    /// Puts bytes in the place of others, two hexadecimal digits each. False where they are none,
    /// or the image ends before.
    pub fn put(
        &mut self,
        alloc: Global,
        is_of_disk: bool,
        at: u32,
        digits: &str,
    ) -> Result<bool, AllocError> {
        let Ok(bytes) = hex::decode(alloc, digits) else {
            return Ok(false);
        };
        if is_of_disk {
            Ok(put(&mut self.disk, at, &bytes))
        } else {
            Ok(put(&mut self.nvram, at, &bytes))
        }
    }

    /// What a station holds.
    pub fn of(alloc: Global, sim: &Sim) -> Result<Images, AllocError> {
        let (disk, nvram) = sim.images();
        Ok(Images {
            disk: Vec::from_slice(alloc, disk)?,
            nvram: Vec::from_slice(alloc, nvram)?,
            bad: Vec::from_slice(alloc, sim.bad_sectors())?,
        })
    }

    /// A station in memory with these.
    pub fn load(&self, alloc: Global) -> Result<Sim, Fault> {
        let disk = Vec::from_slice(alloc, &self.disk)?;
        let nvram = Vec::from_slice(alloc, &self.nvram)?;
        match Sim::load_bad(alloc, disk, nvram, &self.bad) {
            Ok(sim) => Ok(sim),
            Err(_) => Err(Fault::misread(alloc, "no station has these sizes")),
        }
    }

    /// Whether these are the same.
    pub fn is_same(&self, other: &Images) -> bool {
        self.disk.as_slice() == other.disk.as_slice()
            && self.nvram.as_slice() == other.nvram.as_slice()
            && self.bad.as_slice() == other.bad.as_slice()
    }
}

/// Puts bytes in the place of others. False where the image ends before.
fn put(image: &mut Vec<u8>, at: u32, bytes: &[u8]) -> bool {
    let start = at as usize;
    let Some(end) = start.checked_add(bytes.len()) else {
        return false;
    };
    if end > image.len() {
        return false;
    }
    image.as_mut_slice()[start..end].copy_from_slice(bytes);
    true
}
