//! What the bytes are read from that an image stores, part by part.

use crate::applying::ReadsKept;
use crate::error::{TransferError, at};
use host_files::on;
use model::TRANSFER_BYTES;
use std::alloc::Global;
use std::fs::File;
use std::io;
use std::io::{Read, Seek, SeekFrom};

/// What bytes are read from.
#[derive(Drop)]
pub enum Input<'a, 'i, I> {
    /// A pipe, a device or the like, which is read in its order.
    Stream(Stream<'a, 'i, I>),
    /// A file, which may be read again from its start.
    File(HostFile<'a>),
    /// A file of a snapshot of the image that stores it.
    Kept(KeptFile<'a>),
}

/// A pipe, a device or the like.
#[derive(Drop)]
pub struct Stream<'a, 'i, I> {
    pub name: &'a str,
    pub reader: &'i mut I,
    /// It may give nothing because the one failed that was to write into it.
    pub is_pipe: bool,
}

/// A file of the host's.
#[derive(Drop)]
pub struct HostFile<'a> {
    pub name: &'a str,
    pub file: File,
    /// Its bytes when it was opened.
    pub size: u64,
}

/// A file of a snapshot.
#[derive(Drop)]
pub struct KeptFile<'a> {
    pub snapshot: &'a [u8],
    pub path: &'a [u8],
    /// The path as the user spells it.
    pub name: &'a str,
    pub size: u64,
    /// So many bytes were read.
    pub offset: u64,
}

impl<'a, I: Read> Input<'a, '_, I> {
    /// How many bytes it has, where that is known.
    pub fn size(&self) -> Option<u64> {
        match self {
            Input::Stream(_) => None,
            Input::File(file) => Some(file.size),
            Input::Kept(file) => Some(file.size),
        }
    }

    /// How it is called, where it may give nothing because the one failed that was to write into
    /// it.
    pub fn pipe(&self) -> Option<&'a str> {
        match self {
            Input::Stream(stream) if stream.is_pipe => Some(stream.name),
            _ => None,
        }
    }

    /// Goes back to the first byte. What has no size can't, and stays where it is.
    pub fn rewind(&mut self) -> Result<(), TransferError<'a>> {
        match self {
            Input::Stream(_) => {}
            Input::File(file) => {
                on(file.name, file.file.seek(SeekFrom::Start(0)))?;
            }
            Input::Kept(file) => file.offset = 0,
        }
        Ok(())
    }

    /// The next part: as many bytes as one call writes, fewer at the end.
    pub fn read_part<F: ReadsKept>(
        &mut self,
        alloc: Global,
        files: &mut F,
    ) -> Result<Vec<u8>, TransferError<'a>> {
        match self {
            Input::Stream(stream) => Ok(on(stream.name, read_part(alloc, stream.reader))?),
            Input::File(file) => Ok(on(file.name, read_part(alloc, &mut file.file))?),
            Input::Kept(file) => file.read_part(alloc, files),
        }
    }
}

impl<'a> KeptFile<'a> {
    /// The next part.
    fn read_part<F: ReadsKept>(
        &mut self,
        alloc: Global,
        files: &mut F,
    ) -> Result<Vec<u8>, TransferError<'a>> {
        let read = files.read_kept(self.snapshot, self.path, self.offset);
        let part = at(self.name, self.offset, read)?;
        let bytes = Vec::from_slice(alloc, part.as_bytes())?;
        self.offset = self.offset.saturating_add(bytes.len() as u64);
        Ok(bytes)
    }
}

fn read_part<I: Read>(alloc: Global, reader: &mut I) -> io::Result<Vec<u8>> {
    let mut part = Vec::with_capacity(alloc, TRANSFER_BYTES)?;
    reader.take(TRANSFER_BYTES as u64).read_to_end(&mut part)?;
    Ok(part)
}
