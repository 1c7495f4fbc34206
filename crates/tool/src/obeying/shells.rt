//! Lines of standard input, answered one by one.

use super::sessions::{Ran, batching, end_run};
use super::{Streams, tell};
use crate::replies::Replies;
use crate::talk::{SharedError, Talk};
use crate::typing::TypedLines;
use command_line::Durability;
use host_files::{Image, ImageStation, open_image};
use session::{
    Ending, Fault, Manners as SessionManners, Sink, Source, Status, shell, shell_in_batches,
};
use std::cell::RefCell;
use std::io::{Read, Write};

/// Answers each line of standard input: at once, when what it did is durable, or as the options say.
pub(super) fn run_shell<I: Read, O: Write, E: Write>(
    rt: &HostRuntime,
    image: Image<'_>,
    streams: &mut Streams<I, O, E>,
) -> Status {
    match open_image(rt, image, streams.patience) {
        Ok(station) => {
            let ran = answer_lines(rt, image, station, streams);
            end_run(rt, image, b"", ran, streams)
        }
        Err(error) => tell(&error, &mut streams.err),
    }
}

/// Answers each line of standard input on an image whose power isn't cut. What a refusal means, and
/// why a line is no command, is told behind its reply.
fn answer_lines<I: Read, O: Write, E: Write>(
    rt: &HostRuntime,
    image: Image<'_>,
    station: ImageStation,
    streams: &mut Streams<I, O, E>,
) -> Ran {
    let durability = streams.options.durability;
    let gathers = matches!(durability, Durability::Together);
    let manners = Manners {
        prompts: streams.terminals.input && streams.terminals.out,
        // Several lines are read before the first is answered: which of them is spoken of isn't known.
        explains: streams.explains && !gathers,
        gathers,
        durability,
    };
    let talk = RefCell::new(Talk {
        err: &mut streams.err,
        line: None,
    });
    converse(
        rt,
        image,
        station,
        &mut streams.input,
        &mut streams.out,
        &talk,
        manners,
    )
}

/// What is told beside the replies.
#[derive(Clone, Copy, Debug)]
struct Manners {
    /// A prompt before each line.
    prompts: bool,
    /// What refusals mean.
    explains: bool,
    /// Lines that wait are read together.
    gathers: bool,
    durability: Durability,
}

/// Answers each line of an input.
fn converse<I: Read, O: Write, E: Write>(
    rt: &HostRuntime,
    image: Image<'_>,
    station: ImageStation,
    input: &mut I,
    out: &mut O,
    talk: &RefCell<Talk<'_, E>>,
    manners: Manners,
) -> Ran {
    let Ok(lines) = TypedLines::new(rt.alloc(), input, talk, manners.prompts, manners.gathers)
    else {
        return (Ending::Unrun(Fault::NoMemory, Status::NoMemory), station);
    };
    let replies = Replies {
        rt,
        image,
        out,
        talk,
        explains: manners.explains,
        head: Vec::new(rt.alloc()),
    };
    let mut input = Source::new(lines);
    let mut out = Sink::new(replies);
    let mut err = Sink::new(SharedError { talk });
    match batching(manners.durability) {
        None => shell(
            rt.alloc(),
            station,
            manners.prompts,
            &mut input,
            |_| false,
            &mut out,
            &mut err,
        ),
        Some(durability) => shell_in_batches(
            rt,
            rt.alloc(),
            station,
            SessionManners {
                durability,
                prompts: manners.prompts,
                stops: false,
            },
            &mut input,
            |_| false,
            &mut out,
            &mut err,
        ),
    }
}
