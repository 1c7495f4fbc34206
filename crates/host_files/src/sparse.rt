//! Writing files with holes in place of zeros.

use std::fs::OpenFile;
use std::io;
use std::io::{Seek, SeekFrom, Write};

/// Bytes of a block of most file systems, the least that a hole takes.
const BLOCK: usize = 4096;

/// Writes a new, empty file from its start on. Whole blocks of zeros become holes of it.
#[derive(Drop)]
pub struct Sparse<'f, F> {
    file: &'f mut F,
    /// So many bytes were written, holes among them.
    bytes: u64,
}

impl<'f, F: Write + Seek + OpenFile> Sparse<'f, F> {
    pub fn new(file: &'f mut F) -> Sparse<'f, F> {
        Sparse { file, bytes: 0 }
    }

    /// Gives the file its size, which a hole at its end doesn't, and syncs it.
    pub fn end(self) -> io::Result<()> {
        let Sparse { file, bytes } = self;
        file.set_len(bytes)?;
        file.sync_all()
    }
}

impl<F: Write + Seek + OpenFile> Write for Sparse<'_, F> {
    fn write(&mut self, bytes: &[u8]) -> io::Result<usize> {
        let block = &bytes[..bytes.len().min(BLOCK)];
        let is_hole = block.len() == BLOCK && block.iter().all(|byte| *byte == 0);
        if !is_hole {
            self.file.seek(SeekFrom::Start(self.bytes))?;
            self.file.write_all(block)?;
        }
        self.bytes = self.bytes.saturating_add(block.len() as u64);
        Ok(block.len())
    }

    fn flush(&mut self) -> io::Result<()> {
        self.file.flush()
    }
}
