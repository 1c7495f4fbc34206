//! The two files of an image as open files of the operating system.

ghost use Rattle.std.specs.Prelude.{◌≡◌, IfOk};
ghost use Rattle.file_station.specs.Files.{claims_nothing};
ghost use Rattle.file_station.specs.Stations.{FitStation};
ghost use Rattle.file_station.specs.declared.image_files.Part.TheVariants.{Disk, Nvram};

use crate::file_fault::kept;
use crate::{FileCall, FileFault, FileStation, ImageFiles, Part, SizeError};
use std::fs::OpenFile;
use std::io;
use std::os::unix::fs::FileExt;

/// Two open files, of the lengths that they had when they were given. A station tells of a call
/// only that it failed, so the first one that the system let fail is kept here.
#[derive(Drop)]
pub struct OpenFiles<F> {
    disk: F,
    nvram: F,
    disk_bytes: u64,
    nvram_bytes: u64,
    fault: Option<FileFault>,
}

impl<F: FileExt + OpenFile + Drop> FileStation<OpenFiles<F>> {
    /// A station over these files, open for reading and writing. Unreadable where a file's length
    /// can't be had, BadSize where the disk's is no whole number of sectors, or the NVRAM's is past
    /// `u32::MAX`.
    pub fn new(disk: F, nvram: F) -> Result<FileStation<OpenFiles<F>>, SizeError>
        ensures files { IfOk result (λ s. (s.files.disk ≡ disk) × (s.files.nvram ≡ nvram)) }
        ensures sizes { IfOk result
            (λ s. FitStation (claims_nothing s.files.disk_bytes s.files.nvram_bytes)) }
        ensures no_fault { IfOk result (λ s. (s.failed_reads ≡ 0) × (s.failed_writes ≡ 0)) }
    {
        let disk_bytes = size_of_file(&disk)?;
        let nvram_bytes = size_of_file(&nvram)?;
        FileStation::over(OpenFiles {
            disk,
            nvram,
            disk_bytes,
            nvram_bytes,
            fault: None,
        })
    }

    /// The first call that the system let fail on one of the files, if one did.
    pub fn into_fault(self) -> Option<FileFault>
        ensures { result ≡ self.files.fault }
    {
        self.into_files().fault
    }
}

pub(crate) fn size_of_file<F: OpenFile>(file: &F) -> Result<u64, SizeError> {
    match file.metadata() {
        Ok(metadata) => Ok(metadata.len()),
        Err(_) => Err(SizeError::Unreadable),
    }
}

// No contract can say what a file of the operating system keeps, so nothing is claimed of one:
// these files are never honest, and no clause on honest files or on an honest station says anything
// of them. That a file system keeps to the rules at `ImageFiles` is a premise outside the proof,
// and this block, which calls it, is all that rests on it.
impl<F: FileExt + OpenFile + Drop> ImageFiles for OpenFiles<F> {
    ghost meaning = { λ s. claims_nothing s.disk_bytes s.nvram_bytes };

    ghost seen_may_be_left = { λ s part honest. absurd honest };

    ghost lengths = { λ s part file honest left. absurd honest };

    fn len(&self, part: Part) -> u64 {
        match part {
            Part::Disk => self.disk_bytes,
            Part::Nvram => self.nvram_bytes,
        }
    }

    fn read(&mut self, part: Part, at: u64, out: &mut [u8]) -> io::Result<()> {
        let done = match part {
            Part::Disk => self.disk.read_exact_at(out, at),
            Part::Nvram => self.nvram.read_exact_at(out, at),
        };
        kept(&mut self.fault, part, FileCall::Read, done)
    }

    fn write(&mut self, part: Part, at: u64, bytes: &[u8]) -> io::Result<()> {
        let done = match part {
            Part::Disk => self.disk.write_all_at(bytes, at),
            Part::Nvram => self.nvram.write_all_at(bytes, at),
        };
        kept(&mut self.fault, part, FileCall::Write, done)
    }

    fn sync(&mut self, part: Part) -> io::Result<()> {
        let done = match part {
            Part::Disk => self.disk.sync_data(),
            Part::Nvram => self.nvram.sync_data(),
        };
        kept(&mut self.fault, part, FileCall::Sync, done)
    }
}
