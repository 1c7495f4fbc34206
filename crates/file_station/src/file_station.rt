//! A station over the two files of an image.

ghost use Rattle.std.specs.Prelude.{◌≡◌, ◌↔◌, ◌+◌, ◌*◌, ◌<◌, ◌≤◌, ◌/◌, Some, length, take, drop, is_ok, IfOk, IsTrue, OnOk, OnErr, IsErrOf};
ghost use Rattle.station.specs.Moments.{counted_up};
ghost use Rattle.file_station.specs.Files.{AreSameFiles, FilesGo, LeavesFile, PrefixKept, ShowsFile, LeavesJustFile, file_with};
ghost use Rattle.file_station.specs.Stations.{FitStation, HasBadSize, IsAtHand};
ghost use Rattle.file_station.specs.declared.image_files.Part.TheVariants.{Disk, Nvram};

use crate::{ImageFiles, Part};
use station::{BLOCK_BYTES, DeviceFault, SECTOR_BYTES, Station};
use std::io;
use thiserror::Error;

/// Sectors of a block.
const BLOCK_SECTORS: u64 = (BLOCK_BYTES / SECTOR_BYTES) as u64;

/// Why two files are no station.
#[derive(Clone, Copy, Debug, PartialEq, Eq, Error)]
pub enum SizeError {
    /// A file's size can't be read.
    #[error("the file's size can't be read")]
    Unreadable,
    /// The disk's size is no multiple of 512 bytes, or the NVRAM's doesn't fit 32 bits.
    #[error("no station has a file of this size")]
    BadSize,
}

/// A station over two files: the disk's sectors one after the other, and the NVRAM's bytes. It is
/// honest where the files are. Each NVRAM write is followed by a sync of the NVRAM's file, since a
/// station keeps what such a write wrote. A sync is one of both files, so that an NVRAM write whose
/// own sync failed is settled by the next sync. A block's sectors are read at once, and are at hand
/// until another block is read or the disk is written.
#[derive(Drop)]
pub struct FileStation<M: ImageFiles> {
    files: M,
    /// The block that is at hand, and its bytes.
    block: Option<u64>,
    bytes: [u8; BLOCK_BYTES],
    failed_reads: u64,
    failed_writes: u64,
    ghost fits: { FitStation (M.meaning files) },
    ghost at_hand: { IsAtHand (M.meaning files) block bytes },
}

impl<M: ImageFiles + Drop> FileStation<M> {
    /// A station over these files. BadSize exactly where the disk's file is no whole number of
    /// sectors, or the NVRAM has more than `u32::MAX` bytes.
    pub fn over(files: M) -> Result<FileStation<M>, SizeError>
        ensures files { IfOk result (λ s. s.files ≡ files) }
        ensures no_fault { IfOk result (λ s. (s.failed_reads ≡ 0) × (s.failed_writes ≡ 0)) }
        ensures bad_size { IsErrOf result SizeError.BadSize ↔ HasBadSize (M.meaning files) }
        ensures readable { IsErrOf result SizeError.Unreadable → ⊥ }
    {
        if files.len(Part::Disk) % SECTOR_BYTES as u64 != 0 {
            return Err(SizeError::BadSize);
        }
        if u32::try_from(files.len(Part::Nvram)).is_err() {
            return Err(SizeError::BadSize);
        }
        Ok(FileStation {
            files,
            block: None,
            bytes: [0; BLOCK_BYTES],
            failed_reads: 0,
            failed_writes: 0,
        })
    }

    /// The files, which have no station over them then.
    pub(crate) fn into_files(self) -> M
        ensures { result ≡ self.files }
    {
        self.files
    }

    /// Syncs both files, as `sync` does, and answers with the error. It isn't counted.
    pub fn sync_both(&mut self) -> io::Result<()>
        ensures same { AreSameFiles (M.meaning self.old.files) (M.meaning self.new.files) }
        ensures reads { self.new.failed_reads ≡ self.old.failed_reads }
        ensures writes { self.new.failed_writes ≡ self.old.failed_writes }
        ensures goes { FilesGo LeavesFile LeavesFile (M.meaning self.old.files) (M.meaning self.new.files) }
        ensures disk { OnOk result
            (ShowsFile (M.meaning self.old.files) Disk (LeavesJustFile (M.meaning self.new.files) Disk)) }
        ensures nvram { OnOk result
            (ShowsFile (M.meaning self.old.files) Nvram (LeavesJustFile (M.meaning self.new.files) Nvram)) }
    {
        sync_files(&mut self.files)
    }

    /// Whether a block is at hand.
    fn has(&self, block: u64) -> bool
        ensures { IsTrue result → self.now.block ≡ Some block }
    {
        match self.block {
            Some(number) => number == block,
            None => false,
        }
    }

    /// Reads a block, as far as the disk has its sectors. It is at hand then, but where the file
    /// can't be read so.
    fn fetch(&mut self, block: u64)
        requires { 8 * block < (M.meaning self.old.files).disk.length / 512 }
        ensures same { AreSameFiles (M.meaning self.old.files) (M.meaning self.new.files) }
        ensures reads { self.new.failed_reads ≡ self.old.failed_reads }
        ensures writes { self.new.failed_writes ≡ self.old.failed_writes }
        ensures goes { FilesGo LeavesFile LeavesFile (M.meaning self.old.files) (M.meaning self.new.files) }
    {
        self.block = None;
        let at = BLOCK_BYTES as u64 * block;
        let count = (self.files.len(Part::Disk) - at).min(BLOCK_BYTES as u64) as usize;
        let done = read_first(&mut self.files, at, &mut self.bytes, count);
        if done.is_ok() {
            self.block = Some(block);
        }
    }
}

/// Syncs both files.
fn sync_files<M: ImageFiles>(files: &mut M) -> io::Result<()>
    ensures same { AreSameFiles (M.meaning files.old) (M.meaning files.new) }
    ensures goes { FilesGo LeavesFile LeavesFile (M.meaning files.old) (M.meaning files.new) }
    ensures disk { OnOk result
        (ShowsFile (M.meaning files.old) Disk (LeavesJustFile (M.meaning files.new) Disk)) }
    ensures nvram { OnOk result
        (ShowsFile (M.meaning files.old) Nvram (LeavesJustFile (M.meaning files.new) Nvram)) }
{
    files.sync(Part::Disk)?;
    files.sync(Part::Nvram)
}

/// Reads the first bytes of a block from the disk's file.
fn read_first<M: ImageFiles>(
    files: &mut M,
    at: u64,
    block: &mut [u8; BLOCK_BYTES],
    count: usize,
) -> io::Result<()>
    requires within { at + count ≤ (M.meaning files.old).disk.length }
    requires few { count ≤ 4096 }
    ensures same { AreSameFiles (M.meaning files.old) (M.meaning files.new) }
    ensures goes { FilesGo LeavesFile LeavesFile (M.meaning files.old) (M.meaning files.new) }
    ensures bytes { OnOk result (ShowsFile (M.meaning files.old) Disk
        (λ file. take count block.new ≡ take count (drop at file))) }
{
    files.read(Part::Disk, at, &mut block[..count])
}

/// Writes to the NVRAM's file and syncs it.
fn write_nvram<M: ImageFiles>(files: &mut M, at: u64, bytes: &[u8]) -> io::Result<()>
    requires { at + length bytes.now ≤ (M.meaning files.old).nvram.length }
    ensures same { AreSameFiles (M.meaning files.old) (M.meaning files.new) }
    ensures goes { FilesGo LeavesFile (PrefixKept at bytes.now)
        (M.meaning files.old) (M.meaning files.new) }
    ensures written { OnOk result (ShowsFile (M.meaning files.old) Nvram
        (λ file. (M.meaning files.new).nvram.seen ≡ file_with at bytes.now file)) }
    ensures kept { OnOk result (ShowsFile (M.meaning files.old) Nvram
        (λ file. LeavesJustFile (M.meaning files.new) Nvram (file_with at bytes.now file))) }
{
    let file = Part::Nvram;
    files.write(file, at, bytes)?;
    files.sync(file)
}

/// Counts a call that failed.
fn note(failed: &mut u64, done: io::Result<()>) -> Result<(), DeviceFault>
    ensures answer { is_ok result ≡ is_ok done }
    ensures ok { OnOk result (failed.new ≡ failed.old) }
    ensures err { OnErr result (failed.new ≡ counted_up failed.old) }
{
    if done.is_err() {
        *failed = failed.saturating_add(1);
        return Err(DeviceFault);
    }
    Ok(())
}

impl<M: ImageFiles + Drop> Station for FileStation<M> {
    ghost use Rattle.file_station.specs.Stations.{station_of};
    ghost use Rattle.file_station.specs.Laws as laws;

    ghost meaning = { λ s. station_of (M.meaning s.files) s.failed_reads s.failed_writes };

    ghost sizes_fit = { λ s. record { sectors = s.fits.sectors; nvram = s.fits.nvram } };

    ghost seen_may_be_left = { λ s honest.
        laws.seen_may_be_left (M.meaning s.files) s.failed_reads s.failed_writes
        (M.seen_may_be_left s.files Disk honest) (M.seen_may_be_left s.files Nvram honest) };

    ghost sized = { λ s. laws.sized (M.meaning s.files) s.failed_reads s.failed_writes s.fits
        (M.lengths s.files Disk) (M.lengths s.files Nvram) };

    fn sectors(&self) -> u64 {
        self.files.len(Part::Disk) / SECTOR_BYTES as u64
    }

    fn nv_bytes(&self) -> u32 {
        self.files.len(Part::Nvram) as u32
    }

    /// Always true where it succeeds: a file that can't be read is a call that fails. Where the
    /// block can't be read at once, the sector alone may be.
    fn read_sector(&mut self, n: u64, out: &mut [u8; 512]) -> Result<bool, DeviceFault> {
        let block = n / BLOCK_SECTORS;
        if !self.has(block) {
            self.fetch(block);
        }
        if self.has(block) {
            let at = (n % BLOCK_SECTORS) as usize * SECTOR_BYTES;
            out.copy_from_slice(&self.bytes[at..at + SECTOR_BYTES]);
            return Ok(true);
        }
        let done = self.files.read(Part::Disk, SECTOR_BYTES as u64 * n, out);
        note(&mut self.failed_reads, done)?;
        Ok(true)
    }

    fn write_sector(&mut self, n: u64, bytes: &[u8; 512]) -> Result<(), DeviceFault> {
        self.block = None;
        let done = self.files.write(Part::Disk, SECTOR_BYTES as u64 * n, bytes);
        note(&mut self.failed_writes, done)
    }

    fn write_block(&mut self, b: u32, bytes: &[u8; 4096]) -> Result<(), DeviceFault> {
        self.block = None;
        let done = self
            .files
            .write(Part::Disk, BLOCK_BYTES as u64 * u64::from(b), bytes);
        note(&mut self.failed_writes, done)
    }

    fn sync(&mut self) -> Result<(), DeviceFault> {
        let done = sync_files(&mut self.files);
        note(&mut self.failed_writes, done)
    }

    fn nv_read(&mut self, at: u32, out: &mut [u8]) -> Result<(), DeviceFault> {
        let done = self.files.read(Part::Nvram, u64::from(at), out);
        note(&mut self.failed_reads, done)
    }

    fn nv_write(&mut self, at: u32, bytes: &[u8]) -> Result<(), DeviceFault> {
        let done = write_nvram(&mut self.files, u64::from(at), bytes);
        note(&mut self.failed_writes, done)
    }
}
