//! A script's commands on an image.

use super::faults::failing_image;
use super::{Streams, close, tell};
use crate::explain::explain_ending;
use command_line::{Durability, RunFaults};
use host_files::{FileError, Image, ImageStation, open_image, read_script};
use session::{Durability as Batching, Ending, Manners, Sink, Status, session, session_in_batches};
use std::io::{Read, Write};

/// Runs a script: on the image's files, or in memory where something is to go wrong or can't be
/// read.
pub(super) fn run_script<I: Read, O: Write, E: Write>(
    rt: &HostRuntime,
    image: Image<'_>,
    script: &str,
    stops: bool,
    faults: RunFaults<'_>,
    streams: &mut Streams<I, O, E>,
) -> Status {
    let script = match read_script(rt, script, &mut streams.input) {
        Ok(script) => script,
        Err(error) => return tell(&error, &mut streams.err),
    };
    let opened = match faults {
        RunFaults {
            cut: None,
            fail_sync: None,
            ..
        } => open_image(rt, image, streams.patience),
        _ => failing_image(rt, image, faults, streams.patience),
    };
    match opened {
        Ok(station) => {
            let ran = run_bytes(rt, station, script.as_slice(), stops, streams);
            end_run(rt, image, script.as_slice(), ran, streams)
        }
        Err(error) => tell(&error, &mut streams.err),
    }
}

/// How a run ended, and the image that it was on.
pub(super) type Ran = (Ending, ImageStation);

/// Runs a script's bytes on an image, until the power is cut.
pub(super) fn run_bytes<I, O: Write, E: Write>(
    rt: &HostRuntime,
    station: ImageStation,
    script: &[u8],
    stops: bool,
    streams: &mut Streams<I, O, E>,
) -> Ran {
    run_on(
        rt,
        station,
        script,
        stops,
        streams.options.durability,
        &mut streams.out,
        &mut streams.err,
    )
}

/// The same with the streams that it writes to.
fn run_on<O: Write, E: Write>(
    rt: &HostRuntime,
    station: ImageStation,
    script: &[u8],
    stops: bool,
    durability: Durability,
    out: &mut O,
    err: &mut E,
) -> Ran {
    let mut out = Sink::new(out);
    let mut err = Sink::new(err);
    match batching(durability) {
        None => session(
            rt.alloc(),
            station,
            script,
            stops,
            |station: &ImageStation| station.is_cut(),
            &mut out,
            &mut err,
        ),
        Some(durability) => session_in_batches(
            rt,
            rt.alloc(),
            station,
            script,
            Manners {
                durability,
                prompts: false,
                stops,
            },
            |station: &ImageStation| station.is_cut(),
            &mut out,
            &mut err,
        ),
    }
}

/// So many bytes of the log wait at the most where answers are given before they are durable.
const MOST_WAITING: usize = 1_048_576;

/// How commands wait, where the words ask that they do.
pub(super) fn batching(durability: Durability) -> Option<Batching> {
    match durability {
        Durability::Usual => None,
        Durability::Together => Some(Batching::Together),
        Durability::Deferred(milliseconds) => Some(Batching::Deferred {
            milliseconds,
            bytes: MOST_WAITING,
        }),
    }
}

/// Lets go of an image. One in memory is stored where it came to a run.
pub(super) fn close_run<'a, E: Write>(
    rt: &HostRuntime,
    image: Image<'a>,
    ran: Ran,
    err: &mut E,
) -> Result<Ending, FileError<'a>> {
    let (ending, station) = ran;
    close(rt, image, station, matches!(ending, Ending::Ran(_)), err)?;
    Ok(ending)
}

/// Lets go of an image, and tells in a second line, where that is wanted, why nothing was run.
pub(super) fn end_run<I, O, E: Write>(
    rt: &HostRuntime,
    image: Image<'_>,
    script: &[u8],
    ran: Ran,
    streams: &mut Streams<I, O, E>,
) -> Status {
    match close_run(rt, image, ran, &mut streams.err) {
        Ok(ending) => explain(rt, image, script, ending, streams),
        Err(error) => tell(&error, &mut streams.err),
    }
}

/// Tells in a second line, where that is wanted, why nothing was run.
pub(super) fn explain<I, O, E: Write>(
    rt: &HostRuntime,
    image: Image<'_>,
    script: &[u8],
    ending: Ending,
    streams: &mut Streams<I, O, E>,
) -> Status {
    if streams.explains {
        explain_ending(rt, image, script, ending, &mut streams.err);
    }
    ending.status()
}
