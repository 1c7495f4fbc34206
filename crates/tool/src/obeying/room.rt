//! The room of an image's disk.

use super::sessions::{Ran, end_run, run_bytes};
use super::{Streams, open_as_asked, tell_salvage};
use crate::rooms::{inodes_of, room_of, show_human};
use host_files::{Image, ImageStation};
use mount::{Fs, mount};
use session::{Ending, Status};
use std::io::{Read, Write};

/// The script that asks for the room.
const DF: &[u8] = b"df\n";

/// Tells the room of the image's disk, and for people what it comes to.
pub(super) fn show_room<I: Read, O: Write, E: Write>(
    rt: &HostRuntime,
    image: Image<'_>,
    streams: &mut Streams<I, O, E>,
) -> Status {
    match open_as_asked(rt, image, None, streams) {
        Ok(station) => {
            let ran = show_on(rt, image, station, streams);
            end_run(rt, image, DF, ran, streams)
        }
        Err(error) => tell_salvage(&error, &mut streams.err),
    }
}

/// Tells the room of an image that is open.
fn show_on<I, O: Write, E: Write>(
    rt: &HostRuntime,
    image: Image<'_>,
    station: ImageStation,
    streams: &mut Streams<I, O, E>,
) -> Ran {
    let (ending, station) = run_bytes(rt, station, DF, false, streams);
    if streams.options.is_human && ending == Ending::Ran(Status::Done) {
        let station = show_to_people(rt, image, station, streams);
        return (ending, station);
    }
    (ending, station)
}

/// Tells what the room of an image comes to, which is mounted once more.
fn show_to_people<I, O: Write, E: Write>(
    rt: &HostRuntime,
    image: Image<'_>,
    station: ImageStation,
    streams: &mut Streams<I, O, E>,
) -> ImageStation {
    let inodes = inodes_of(rt, image);
    match mount(rt.alloc(), station) {
        Ok(mut fs) => {
            show_room_of(rt, &mut fs, inodes, streams);
            fs.into_station()
        }
        Err((_, station)) => station,
    }
}

fn show_room_of<I, O: Write, E: Write>(
    rt: &HostRuntime,
    fs: &mut Fs<ImageStation>,
    inodes: u32,
    streams: &mut Streams<I, O, E>,
) {
    match room_of(rt.alloc(), fs, inodes) {
        Ok(room) => {
            let _ = show_human(&mut streams.out, &room);
        }
        Err(errno) => {
            let _ = writeln!(streams.err, "wafl: {errno}: the objects aren't counted");
        }
    }
}
