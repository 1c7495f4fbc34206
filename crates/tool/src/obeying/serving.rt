//! A folder of the kernel's, answered over an image.

use super::{Streams, close, tell, tell_salvage};
use crate::salvaging::SalvageError;
use crate::statuses::status_of_serving;
use channel::Streams as Device;
use command_line::{Durability as Asked, Options};
use handles::Numbered;
use host_files::{Image, ImageStation, open_image};
use mount::{Fs, Waiting, mount};
use served::{Durability, Ending, Owner, serve};
use session::Status;
use std::io::{Read, Write};

/// Where what was answered isn't durable at once, so many bytes of the log wait at the most, but for
/// those of the last request.
const MOST_WAITING: usize = 1_048_576;

/// What the program ends with, and the image.
type Ended = (Status, ImageStation);

/// Answers the kernel's requests, which come by standard input, until the folder is unmounted.
pub(super) fn serve_folder<I: Read, O: Write, E: Write>(
    rt: &HostRuntime,
    image: Image<'_>,
    owner: Owner,
    streams: &mut Streams<I, O, E>,
) -> Status {
    match open_image(rt, image, streams.patience) {
        Ok(station) => {
            let (status, station) = serve_station(rt, image, station, owner, streams);
            match close(rt, image, station, false, &mut streams.err) {
                Ok(()) => status,
                Err(error) => tell(&error, &mut streams.err),
            }
        }
        Err(error) => tell(&error, &mut streams.err),
    }
}

/// The same of an image that is open. One that is in memory isn't served, since what is answered
/// has to be in the files then.
fn serve_station<I: Read, O: Write, E: Write>(
    rt: &HostRuntime,
    image: Image<'_>,
    station: ImageStation,
    owner: Owner,
    streams: &mut Streams<I, O, E>,
) -> Ended {
    if let ImageStation::Memory(..) = station {
        let _ = writeln!(
            streams.err,
            "wafl: {}: an image with such a list isn't served",
            image.bad
        );
        return (Status::FileFault, station);
    }
    match mount(rt.alloc(), station) {
        Ok(fs) => serve_mounted(rt, fs, owner, streams),
        Err((error, station)) => (
            tell_salvage(&SalvageError::Mount(error), &mut streams.err),
            station,
        ),
    }
}

/// The same of an image that is mounted.
fn serve_mounted<I: Read, O: Write, E: Write>(
    rt: &HostRuntime,
    fs: Fs<ImageStation>,
    owner: Owner,
    streams: &mut Streams<I, O, E>,
) -> Ended {
    let numbers = fs.count_inodes();
    let durability = durability_of(&streams.options);
    match Numbered::new(rt.alloc(), Waiting::new(rt.alloc(), fs)) {
        Ok(mut files) => {
            tell_deferred(durability, &mut streams.err);
            let mut device = Device::new(&mut streams.input, &mut streams.out);
            let ending = serve(
                rt,
                rt.alloc(),
                &mut files,
                numbers,
                owner,
                durability,
                &mut device,
            );
            tell_ending(ending, durability, &mut streams.err);
            (
                status_of_serving(ending),
                files.into_files().into_fs().into_station(),
            )
        }
        Err((_, files)) => {
            tell_ending(Ending::NoMemory, durability, &mut streams.err);
            (Status::NoMemory, files.into_fs().into_station())
        }
    }
}

/// When what was answered is durable, as the words ask for it: with its answer, if they don't.
fn durability_of(options: &Options) -> Durability {
    match options.durability {
        Asked::Usual | Asked::Together => Durability::Together,
        Asked::Deferred(milliseconds) => Durability::Deferred {
            milliseconds,
            bytes: MOST_WAITING,
        },
    }
}

/// Says what may be lost, where answers go before they are durable.
fn tell_deferred<E: Write>(durability: Durability, err: &mut E) {
    if let Durability::Deferred { milliseconds, .. } = durability {
        let _ = writeln!(
            err,
            "wafl: deferred: a power cut or a kill may lose what was answered in the last {milliseconds} milliseconds, but for what was synced or closed"
        );
    }
}

/// Says why no more is answered, where the folder wasn't unmounted.
fn tell_ending<E: Write>(ending: Ending, durability: Durability, err: &mut E) {
    let _ = match ending {
        Ending::Unmounted => Ok(()),
        Ending::Failed => writeln!(err, "wafl: the kernel's requests can't be read or answered"),
        Ending::NoMemory => writeln!(err, "wafl: no memory"),
        Ending::Refused(errno) => writeln!(err, "wafl: {errno}: the snapshots aren't listed"),
        Ending::Lost => writeln!(err, "wafl: {}", lost_text(durability)),
    };
}

/// What is told where the last of what was done couldn't be made durable.
fn lost_text(durability: Durability) -> &'static str {
    match durability {
        Durability::Together => {
            "a write to the image failed: the last calls may be lost, none of which was answered as done; all before them is kept"
        }
        Durability::Deferred { .. } => {
            "a write to the image failed: what was answered last, and not synced, may be lost; all before it is kept"
        }
    }
}
