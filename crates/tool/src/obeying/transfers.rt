//! Storing a file of the host's in an image, bringing one back, and bringing back what a snapshot
//! has.

use super::Streams;
use crate::explain::explain_mount;
use crate::salvaging::{SalvageError, open_salvaged};
use crate::spelling::bytes_of;
use crate::statuses::{status_of_file, status_of_transfer};
use host_files::{FileError, Image, tell_fault};
use session::Status;
use std::io::{Read, Write};
use transfer::{
    Ended, Progress, Transfer, TransferError, get_file, get_from, put_file, restore_file,
};

/// Stores a file of the host's.
pub(super) fn put<I: Read, O: Write, E: Write>(
    rt: &HostRuntime,
    image: Image<'_>,
    file: &str,
    name: &str,
    streams: &mut Streams<I, O, E>,
) -> Status {
    let path = match path_of(rt, name, streams) {
        Ok(path) => path,
        Err(status) => return status,
    };
    let what = Transfer {
        image,
        path: path.as_slice(),
        name,
        file,
        patience: streams.patience,
    };
    let mut progress = Progress::new(&mut streams.err, streams.terminals.err);
    let is_pipe = streams.terminals.is_pipe;
    let ended = put_file(rt, what, &mut streams.input, is_pipe, &mut progress);
    progress.end();
    tell(rt, image, &ended, streams)
}

/// Brings a file of the image back, from as much of it as can be read where that is asked for.
pub(super) fn get<I: Read, O: Write, E: Write>(
    rt: &HostRuntime,
    image: Image<'_>,
    name: &str,
    file: &str,
    snapshot: Option<&str>,
    streams: &mut Streams<I, O, E>,
) -> Status {
    let path = match path_of(rt, name, streams) {
        Ok(path) => path,
        Err(status) => return status,
    };
    let what = Transfer {
        image,
        path: path.as_slice(),
        name,
        file,
        patience: streams.patience,
    };
    let ended = bring(rt, what, snapshot, streams);
    tell(rt, image, &ended, streams)
}

fn bring<'a, I, O: Write, E: Write>(
    rt: &HostRuntime,
    what: Transfer<'a>,
    snapshot: Option<&'a str>,
    streams: &mut Streams<I, O, E>,
) -> Ended<'a> {
    let snapshot = snapshot.map(|name| name.as_bytes());
    if streams.options.salvages {
        return salvage(rt, what, snapshot, streams);
    }
    let mut progress = Progress::new(&mut streams.err, streams.terminals.err);
    let ended = get_file(rt, what, snapshot, &mut streams.out, &mut progress);
    progress.end();
    ended
}

/// Brings a file back from what of an image can be read.
fn salvage<'a, I, O: Write, E: Write>(
    rt: &HostRuntime,
    what: Transfer<'a>,
    snapshot: Option<&'a [u8]>,
    streams: &mut Streams<I, O, E>,
) -> Ended<'a> {
    let opened = open_salvaged(rt, what.image, snapshot, what.patience, &mut streams.err);
    let station = match opened {
        Ok(station) => station,
        Err(error) => {
            return Ended {
                done: Err(salvage_refused(error)),
                fault: None,
            };
        }
    };
    let mut progress = Progress::new(&mut streams.err, streams.terminals.err);
    let ended = get_from(rt, station, what, snapshot, &mut streams.out, &mut progress);
    progress.end();
    ended
}

fn salvage_refused(error: SalvageError<'_>) -> TransferError<'_> {
    match error {
        SalvageError::File(error) => TransferError::File(error),
        SalvageError::Mount(error) => TransferError::Mount(error),
    }
}

/// Brings what a snapshot has into the running tree.
pub(super) fn restore<I, O, E: Write>(
    rt: &HostRuntime,
    image: Image<'_>,
    snapshot: &str,
    name: &str,
    new_name: Option<&str>,
    streams: &mut Streams<I, O, E>,
) -> Status {
    let path = match path_of(rt, name, streams) {
        Ok(path) => path,
        Err(status) => return status,
    };
    let new_path = match path_of(rt, new_name.unwrap_or(name), streams) {
        Ok(path) => path,
        Err(status) => return status,
    };
    let what = Transfer {
        image,
        path: path.as_slice(),
        name,
        file: "",
        patience: streams.patience,
    };
    let mut progress = Progress::new(&mut streams.err, streams.terminals.err);
    let ended = restore_file(
        rt,
        what,
        snapshot.as_bytes(),
        snapshot,
        new_name.map(|_| new_path.as_slice()),
        new_name,
        &mut progress,
    );
    progress.end();
    tell(rt, image, &ended, streams)
}

/// The path that a word names, or what the program ends with where it names none.
fn path_of<I, O, E: Write>(
    rt: &HostRuntime,
    name: &str,
    streams: &mut Streams<I, O, E>,
) -> Result<Vec<u8>, Status> {
    match bytes_of(rt.alloc(), name, streams.options.is_encoded) {
        Ok(Some(path)) => Ok(path),
        Ok(None) => {
            let _ = writeln!(
                streams.err,
                "wafl: {name}: no path is spelled so: each byte but 0x21 to 0x7e, and %, is % and two lower-case hexadecimal digits"
            );
            Err(Status::NotUnderstood)
        }
        Err(_) => {
            let error = FileError::NoMemory;
            let _ = writeln!(streams.err, "wafl: {error}");
            Err(status_of_file(&error))
        }
    }
}

/// Says on standard error why a transfer failed, and what the program ends with.
fn tell<I, O, E: Write>(
    rt: &HostRuntime,
    image: Image<'_>,
    ended: &Ended<'_>,
    streams: &mut Streams<I, O, E>,
) -> Status {
    tell_fault(image, ended.fault.as_ref(), &mut streams.err);
    let Err(error) = &ended.done else {
        return Status::Done;
    };
    let _ = writeln!(streams.err, "wafl: {error}");
    if let TransferError::Mount(error) = error {
        if streams.explains && !streams.options.salvages {
            explain_mount(rt, image, *error, &mut streams.err);
        }
    }
    status_of_transfer(error)
}
