//! The two files of an image in memory.

ghost use Rattle.std.specs.Prelude.{◌≡◌, ◌+◌, ◌≤◌, length, OnOk, OnErr};
ghost use Rattle.file_station.specs.Files.{file_with};
ghost use Rattle.file_station.specs.Memory.{contents_after, IsAdded};
ghost use Rattle.file_station.specs.declared.image_files.Part.TheVariants.{Disk, Nvram};

use crate::{ImageFiles, Part};
use std::alloc::{AllocError, Global};
use std::io;

/// A write to one of the files.
#[derive(Drop)]
pub(crate) struct FileWrite {
    part: Part,
    at: u64,
    bytes: Vec<u8>,
}

/// Two files in memory, where each write is settled at once. They keep the list of their writes,
/// from which their meaning tells past moments. A write for which there is no memory fails and
/// changes nothing.
///
/// They show that the rules at `ImageFiles` can be met, and serve tests.
#[derive(Drop)]
pub struct MemoryFiles {
    alloc: Global,
    disk: Vec<u8>,
    nvram: Vec<u8>,
    first_disk: Vec<u8>,
    first_nvram: Vec<u8>,
    writes: Vec<FileWrite>,
    ghost disk_is: { disk.items ≡ contents_after Disk first_disk.items writes.items },
    ghost nvram_is: { nvram.items ≡ contents_after Nvram first_nvram.items writes.items },
    ghost disk_size: { length disk.items ≡ length first_disk.items },
    ghost nvram_size: { length nvram.items ≡ length first_nvram.items },
}

impl MemoryFiles {
    ghost use Rattle.std.specs.Prelude.{IfOk};
    ghost use Rattle.file_station.specs.MemoryMeaning.{memory_meaning, AreLoadedFiles};

    /// Files of these bytes.
    pub fn new(alloc: Global, disk: Vec<u8>, nvram: Vec<u8>) -> Result<MemoryFiles, AllocError>
        ensures { IfOk result (λ s. AreLoadedFiles disk.items nvram.items (memory_meaning s)) }
    {
        Ok(MemoryFiles {
            alloc,
            first_disk: Vec::from_slice(alloc, &disk)?,
            first_nvram: Vec::from_slice(alloc, &nvram)?,
            disk,
            nvram,
            writes: Vec::new(alloc),
        })
    }
}

/// Keeps a write.
fn note_write(
    alloc: Global,
    writes: &mut Vec<FileWrite>,
    part: Part,
    at: u64,
    bytes: &[u8],
) -> Result<(), AllocError>
    ensures ok { OnOk result (IsAdded writes.old.items writes.new.items part at bytes.now) }
    ensures err { OnErr result (writes.new.items ≡ writes.old.items) }
{
    let bytes = Vec::from_slice(alloc, bytes)?;
    writes.push(FileWrite { part, at, bytes })?;
    Ok(())
}

/// Writes these bytes over what is there.
fn put(file: &mut Vec<u8>, at: usize, bytes: &[u8])
    requires { at + length bytes.now ≤ length file.old.items }
    ensures after { file.new.items ≡ file_with at bytes.now file.old.items }
    ensures length { length file.new.items ≡ length file.old.items }
{
    file[at..at + bytes.len()].copy_from_slice(bytes);
}

impl ImageFiles for MemoryFiles {
    ghost use Rattle.file_station.specs.MemoryMeaning.{memory_meaning};
    ghost use Rattle.file_station.specs.MemoryMeaning as laws;

    ghost meaning = { memory_meaning };

    ghost seen_may_be_left = { λ s part honest. laws.seen_may_be_left s part };

    ghost lengths = { λ s part file honest left. laws.lengths s part file left };

    fn len(&self, part: Part) -> u64 {
        match part {
            Part::Disk => self.disk.len() as u64,
            Part::Nvram => self.nvram.len() as u64,
        }
    }

    fn read(&mut self, part: Part, at: u64, out: &mut [u8]) -> io::Result<()> {
        let file = match part {
            Part::Disk => &self.disk,
            Part::Nvram => &self.nvram,
        };
        let at = at as usize;
        out.copy_from_slice(&file[at..at + out.len()]);
        Ok(())
    }

    fn write(&mut self, part: Part, at: u64, bytes: &[u8]) -> io::Result<()> {
        let Ok(()) = note_write(self.alloc, &mut self.writes, part, at, bytes) else {
            return Err(io::Error::from(io::ErrorKind::OutOfMemory));
        };
        match part {
            Part::Disk => put(&mut self.disk, at as usize, bytes),
            Part::Nvram => put(&mut self.nvram, at as usize, bytes),
        }
        Ok(())
    }

    fn sync(&mut self, _part: Part) -> io::Result<()> {
        Ok(())
    }
}
