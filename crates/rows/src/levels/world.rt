//! What the rows of a group are about.

use super::bodies::inline_inode;
use super::disk::{made_disk, station_of};
use super::file_row::file_row;
use crate::fault::Fault;
use crate::image::put;
use buffers::Buffers;
use inode::File;
use layout::Layout;
use memory_station::Sim;
use std::alloc::Global;

/// The disk, and what stands on it.
#[derive(Drop)]
pub struct World {
    disk: Vec<u8>,
    buffers: Buffers<Sim>,
    layout: Layout,
    file: File,
}

impl World {
    /// The one with which a group begins.
    pub fn new(alloc: Global) -> Result<World, Fault> {
        let disk = made_disk(alloc)?;
        let buffers = Buffers::new(alloc, station_of(alloc, &disk)?);
        Ok(World {
            disk,
            buffers,
            layout: Layout::Plain,
            file: File::load(alloc, inline_inode(Layout::Plain, ""))?,
        })
    }

    /// Runs a row, and answers what it gives.
    pub fn run(&mut self, alloc: Global, row: &str) -> Result<String, Fault> {
        let (word, rest) = row.split_once(' ').unwrap_or((row, ""));
        match word {
            "put" => {
                put_digits(alloc, &mut self.disk, rest)?;
                self.load(alloc)?;
            }
            "fail" => self
                .buffers
                .station
                .fail_at(rest.parse::<u32>().unwrap_or(0)),
            "let_go" => self.buffers.let_go(),
            _ => {
                let (layout, file) = (&mut self.layout, &mut self.file);
                return Ok(file_row(alloc, &mut self.buffers, layout, file, word, rest)?);
            }
        }
        Ok(String::from_str(alloc, "ok")?)
    }

    /// From here on the disk is read as it stands now.
    fn load(&mut self, alloc: Global) -> Result<(), Fault> {
        let station = station_of(alloc, &self.disk)?;
        self.buffers = Buffers::new(alloc, station);
        Ok(())
    }
}

/// `BLOCK OFFSET HEX`: puts bytes on the disk, before anything is read. They are left out where
/// they don't fit there.
fn put_digits(alloc: Global, disk: &mut Vec<u8>, words: &str) -> Result<(), Fault> {
    let (block, rest) = words.split_once(' ').unwrap_or((words, ""));
    let (offset, digits) = rest.split_once(' ').unwrap_or((rest, ""));
    match hex::decode(alloc, digits) {
        Ok(bytes) => {
            put(disk, place_of(block, offset), &bytes);
            Ok(())
        }
        Err(_) => Err(Fault::misread(alloc, words)),
    }
}

/// The byte of a block, each by its number.
fn place_of(block: &str, offset: &str) -> u32 {
    let block = u32::from(block.parse::<u8>().unwrap_or(0));
    let offset = u32::from(offset.parse::<u16>().unwrap_or(0));
    block.saturating_mul(4096).saturating_add(offset)
}
