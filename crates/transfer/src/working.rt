//! Working on a mounted image.

use crate::error::TransferError;
use crate::what::Ended;
use host_files::{Image, ImageStation};
use layout::{ROOT_BYTES, Root, SLOT_A, SLOT_B};
use model::Errno;
use mount::{Fs, mount};
use station::Station;
use std::fs::File;
use std::rt::Files;

/// Mounts an image that is open. Where that fails, how the transfer ended.
pub fn mount_image<'a, R: Files<File = File> + AllocGlobal>(
    rt: &R,
    image: Image<'a>,
    station: ImageStation,
) -> Result<Fs<ImageStation>, Ended<'a>> {
    match mount(rt.alloc(), station) {
        Ok(fs) => Ok(fs),
        Err((error, station)) => Err(close(rt, image, station, Err(TransferError::Mount(error)))),
    }
}

/// Ends a transfer over a mounted image.
pub fn end<'a, R: Files<File = File> + AllocGlobal>(
    rt: &R,
    image: Image<'a>,
    fs: Fs<ImageStation>,
    done: Result<(), TransferError<'a>>,
) -> Ended<'a> {
    let mut station = fs.into_station();
    let done = with_inodes(&mut station, done);
    close(rt, image, station, done)
}

/// Lets go of an image. One in memory is stored where the transfer is done, and else stays as it
/// was.
fn close<'a, R: Files<File = File> + AllocGlobal>(
    rt: &R,
    image: Image<'a>,
    station: ImageStation,
    done: Result<(), TransferError<'a>>,
) -> Ended<'a> {
    match station.close(rt, image, done.is_ok()) {
        Ok(fault) => Ended { done, fault },
        Err(error) => Ended {
            done: Err(TransferError::File(error)),
            fault: None,
        },
    }
}

/// Tells how many inodes an image has, where it was refused for want of one.
fn with_inodes<'a, S: Station>(
    station: &mut S,
    done: Result<(), TransferError<'a>>,
) -> Result<(), TransferError<'a>> {
    let Err(
        TransferError::Refused {
            path,
            offset,
            errno: Errno::NONUMBER,
        },
    ) = &done
    else {
        return done;
    };
    let (path, offset) = (*path, *offset);
    match root_of(station) {
        Some(root) => Err(TransferError::NoNumber {
            path,
            offset,
            inodes: root.geometry.inodes(),
        }),
        None => done,
    }
}

/// A root of an image. Each of its roots has its sizes.
fn root_of<S: Station>(station: &mut S) -> Option<Root> {
    match root_in(station, SLOT_A) {
        Some(root) => Some(root),
        None => root_in(station, SLOT_B),
    }
}

fn root_in<S: Station>(station: &mut S, slot: u64) -> Option<Root> {
    if slot >= station.sectors() {
        return None;
    }
    let mut bytes = [0; ROOT_BYTES];
    match station.read_sector(slot, &mut bytes) {
        Ok(true) => Root::read(&bytes),
        _ => None,
    }
}
