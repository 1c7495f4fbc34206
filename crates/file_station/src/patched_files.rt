//! The two files of an image as open files that are read with other bytes over theirs, and never
//! written.

ghost use Rattle.std.specs.Prelude.{◌≡◌, IfOk};
ghost use Rattle.file_station.specs.Files.{claims_nothing};
ghost use Rattle.file_station.specs.Stations.{FitStation};

use crate::open_files::size_of_file;
use crate::{FileStation, ImageFiles, Part, SizeError};
use std::fs::OpenFile;
use std::io;
use std::os::unix::fs::FileExt;

/// Bytes that are read in place of a file's own, from byte `at` on.
#[derive(Drop)]
pub struct Patch {
    pub part: Part,
    pub at: u64,
    pub bytes: Vec<u8>,
}

/// Two open files with patches over them, of any lengths: behind a file's end there are zeros. A
/// write fails, and a sync has nothing to settle.
#[derive(Drop)]
pub struct PatchedFiles<F> {
    disk: F,
    nvram: F,
    disk_bytes: u64,
    nvram_bytes: u64,
    /// So many bytes the files themselves have.
    disk_has: u64,
    nvram_has: u64,
    /// Later ones lie over earlier ones.
    patches: Vec<Patch>,
}

impl<F: FileExt + OpenFile + Drop> FileStation<PatchedFiles<F>> {
    /// A station over these files, open for reading, as if they had these lengths and were patched
    /// so. Unreadable where a file's own length can't be had, BadSize where the disk's length is no
    /// whole number of sectors, or the NVRAM's is past `u32::MAX`.
    pub fn patched(
        disk: F,
        nvram: F,
        disk_bytes: u64,
        nvram_bytes: u64,
        patches: Vec<Patch>,
    ) -> Result<FileStation<PatchedFiles<F>>, SizeError>
        ensures files { IfOk result (λ s. (s.files.disk ≡ disk) × (s.files.nvram ≡ nvram)) }
        ensures patches { IfOk result (λ s. s.files.patches ≡ patches) }
        ensures lengths { IfOk result
            (λ s. (s.files.disk_bytes ≡ disk_bytes) × (s.files.nvram_bytes ≡ nvram_bytes)) }
        ensures sizes { IfOk result (λ s. FitStation (claims_nothing disk_bytes nvram_bytes)) }
        ensures no_fault { IfOk result (λ s. (s.failed_reads ≡ 0) × (s.failed_writes ≡ 0)) }
    {
        let disk_has = size_of_file(&disk)?;
        let nvram_has = size_of_file(&nvram)?;
        FileStation::over(PatchedFiles {
            disk,
            nvram,
            disk_bytes,
            nvram_bytes,
            disk_has,
            nvram_has,
            patches,
        })
    }
}

/// Reads from byte `at` on, and zeros behind the end of a file that has so many bytes.
fn read_padded<F: FileExt>(file: &F, has: u64, at: u64, out: &mut [u8]) -> io::Result<()> {
    let count = has.saturating_sub(at).min(out.len() as u64) as usize;
    out[count..].fill(0);
    file.read_exact_at(&mut out[..count], at)
}

/// Puts a patch over what stands at byte `at` and behind it, as far as it reaches.
fn lay_over(patch: &Patch, at: u64, out: &mut [u8]) {
    let from = patch.at.max(at);
    let patch_end = patch.at.saturating_add(patch.bytes.len() as u64);
    let end = at.saturating_add(out.len() as u64).min(patch_end);
    if from < end {
        let count = (end - from) as usize;
        let first = (from - at) as usize;
        let first_of_patch = (from - patch.at) as usize;
        let bytes = &patch.bytes[first_of_patch..first_of_patch + count];
        out[first..first + count].copy_from_slice(bytes);
    }
}

// As of `OpenFiles`, nothing is claimed of these: they are never honest.
impl<F: FileExt + OpenFile + Drop> ImageFiles for PatchedFiles<F> {
    ghost meaning = { λ s. claims_nothing s.disk_bytes s.nvram_bytes };

    ghost seen_may_be_left = { λ s part honest. absurd honest };

    ghost lengths = { λ s part file honest left. absurd honest };

    fn len(&self, part: Part) -> u64 {
        match part {
            Part::Disk => self.disk_bytes,
            Part::Nvram => self.nvram_bytes,
        }
    }

    fn read(&mut self, part: Part, at: u64, out: &mut [u8]) -> io::Result<()> {
        match part {
            Part::Disk => read_padded(&self.disk, self.disk_has, at, out)?,
            Part::Nvram => read_padded(&self.nvram, self.nvram_has, at, out)?,
        }
        for patch in self.patches.iter() {
            if patch.part == part {
                lay_over(patch, at, out);
            }
        }
        Ok(())
    }

    fn write(&mut self, _part: Part, _at: u64, _bytes: &[u8]) -> io::Result<()> {
        Err(io::Error::from(io::ErrorKind::PermissionDenied))
    }

    fn sync(&mut self, _part: Part) -> io::Result<()> {
        Ok(())
    }
}
