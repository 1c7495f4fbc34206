//! An image that is open, as the one station that is mounted, whatever holds its bytes.

ghost use Rattle.std.specs.Prelude.{◌≡◌};
ghost use Rattle.host_files.specs.ImageStations.{ClosesAs, is_cut_off};

use crate::error::FileError;
use crate::image::Image;
use crate::image_files::Held;
use crate::storing::store_image;
use file_station::{FileFault, FileStation, OpenFiles, PatchedFiles};
use memory_station::Sim;
use station::{DeviceFault, Station};
use std::fs::File;
use std::rt::Files;

/// What a command works on. It keeps its files' locks as long as it lives.
#[derive(Drop)]
pub enum ImageStation {
    /// A station over the files themselves.
    Files(FileStation<OpenFiles<File>>),
    /// A station over the files with other bytes over theirs, which are never written.
    Patched(FileStation<PatchedFiles<File>>),
    /// Where an image has a list of sectors that can't be read, or something is to go wrong: a
    /// station in memory, and what holds the files until the image is stored again.
    Memory(Sim, Held),
}

impl ImageStation {
    /// Whether the power was cut, as only that of a station in memory is.
    pub fn is_cut(&self) -> bool
        ensures { result ≡ is_cut_off self.now }
    {
        match self {
            ImageStation::Files(_) | ImageStation::Patched(_) => false,
            ImageStation::Memory(sim, _) => sim.is_cut(),
        }
    }

    /// Lets go of the image, and gives the first call of the system that failed on one of its
    /// files, if one did. What was done in memory is stored in the files where that is asked for;
    /// else they stay as they were. The locks are held until all is done.
    pub fn close<'a, R: Files<File = File> + AllocGlobal>(
        self,
        rt: &R,
        image: Image<'a>,
        stores: bool,
    ) -> Result<Option<FileFault>, FileError<'a>>
        ensures { ClosesAs self stores image.entry result }
    {
        match self {
            ImageStation::Files(station) => Ok(station.into_fault()),
            ImageStation::Memory(sim, held) if stores => {
                store_image(rt, image, &sim, &held)?;
                Ok(None)
            }
            ImageStation::Memory(..) | ImageStation::Patched(_) => Ok(None),
        }
    }
}

impl Station for ImageStation {
    ghost use Rattle.host_files.specs.ImageStations as stations;

    ghost meaning = { stations.meaning_of };

    ghost sizes_fit = { stations.sizes_fit };

    ghost seen_may_be_left = { stations.seen_may_be_left };

    ghost sized = { stations.sized };

    fn sectors(&self) -> u64 {
        match self {
            ImageStation::Files(station) => station.sectors(),
            ImageStation::Patched(station) => station.sectors(),
            ImageStation::Memory(sim, _) => sim.sectors(),
        }
    }

    fn nv_bytes(&self) -> u32 {
        match self {
            ImageStation::Files(station) => station.nv_bytes(),
            ImageStation::Patched(station) => station.nv_bytes(),
            ImageStation::Memory(sim, _) => sim.nv_bytes(),
        }
    }

    fn read_sector(&mut self, n: u64, out: &mut [u8; 512]) -> Result<bool, DeviceFault> {
        match self {
            ImageStation::Files(station) => station.read_sector(n, out),
            ImageStation::Patched(station) => station.read_sector(n, out),
            ImageStation::Memory(sim, _) => sim.read_sector(n, out),
        }
    }

    fn write_sector(&mut self, n: u64, bytes: &[u8; 512]) -> Result<(), DeviceFault> {
        match self {
            ImageStation::Files(station) => station.write_sector(n, bytes),
            ImageStation::Patched(station) => station.write_sector(n, bytes),
            ImageStation::Memory(sim, _) => sim.write_sector(n, bytes),
        }
    }

    fn write_block(&mut self, b: u32, bytes: &[u8; 4096]) -> Result<(), DeviceFault> {
        match self {
            ImageStation::Files(station) => station.write_block(b, bytes),
            ImageStation::Patched(station) => station.write_block(b, bytes),
            ImageStation::Memory(sim, _) => sim.write_block(b, bytes),
        }
    }

    fn sync(&mut self) -> Result<(), DeviceFault> {
        match self {
            ImageStation::Files(station) => station.sync(),
            ImageStation::Patched(station) => station.sync(),
            ImageStation::Memory(sim, _) => sim.sync(),
        }
    }

    fn nv_read(&mut self, at: u32, out: &mut [u8]) -> Result<(), DeviceFault> {
        match self {
            ImageStation::Files(station) => station.nv_read(at, out),
            ImageStation::Patched(station) => station.nv_read(at, out),
            ImageStation::Memory(sim, _) => sim.nv_read(at, out),
        }
    }

    fn nv_write(&mut self, at: u32, bytes: &[u8]) -> Result<(), DeviceFault> {
        match self {
            ImageStation::Files(station) => station.nv_write(at, bytes),
            ImageStation::Patched(station) => station.nv_write(at, bytes),
            ImageStation::Memory(sim, _) => sim.nv_write(at, bytes),
        }
    }
}
