//! Runs of scripts over stations in memory.

use crate::fault::Fault;
use crate::image_pair::Images;
use memory_station::{CutOutcome, Mark, Sim};
use session::{Durability, Ending, Manners, Sink, Source, session, shell_in_batches};
use std::alloc::{AllocError, Global};
use std::io;
use std::io::Read;
use std::rt::Clock;
use std::time::Duration;

/// What befalls the station in a run.
#[derive(Clone, Copy, Drop)]
pub enum Trouble<'a> {
    Nothing,
    /// The power is cut within this device write; of the sectors written since the last sync those
    /// stay that `keep` says, and so many bytes of an NVRAM write.
    Cut {
        write: u32,
        keep: &'a str,
        bytes: u32,
    },
    /// This device call fails.
    Failing(u32),
}

/// What a run gave.
#[derive(Drop)]
pub struct Outcome {
    pub status: u8,
    pub out: Vec<u8>,
    pub err: Vec<u8>,
    pub sim: Sim,
}

impl Outcome {
    /// The replies before `cut`, with which the replies of a run end whose power was cut; None
    /// where it wasn't.
    pub fn before_cut(&self) -> Option<&[u8]> {
        self.out.as_slice().strip_suffix(b"cut\n")
    }
}

/// Mounts images and runs a script on them.
pub fn run(
    alloc: Global,
    images: &Images,
    script: &[u8],
    trouble: Trouble<'_>,
) -> Result<Outcome, Fault> {
    let sim = station(alloc, images, trouble)?;
    let mut out = Vec::new(alloc);
    let mut err = Vec::new(alloc);
    let ran = session(
        alloc,
        sim,
        script,
        false,
        |sim: &Sim| sim.is_cut(),
        &mut Sink::new(&mut out),
        &mut Sink::new(&mut err),
    );
    Ok(outcome_of(ran, out, err))
}

/// The same, with so many lines at once, which are answered together.
pub fn run_together(
    alloc: Global,
    images: &Images,
    script: &[u8],
    at_once: usize,
    trouble: Trouble<'_>,
) -> Result<Outcome, Fault> {
    let sim = station(alloc, images, trouble)?;
    let mut out = Vec::new(alloc);
    let mut err = Vec::new(alloc);
    let ran = shell_in_batches(
        &Still,
        alloc,
        sim,
        Manners {
            durability: Durability::Together,
            prompts: false,
            stops: false,
        },
        &mut Source::new(Lines { script, at_once }),
        |sim: &Sim| sim.is_cut(),
        &mut Sink::new(&mut out),
        &mut Sink::new(&mut err),
    );
    Ok(outcome_of(ran, out, err))
}

/// A station that has these images, and this trouble before it.
fn station(alloc: Global, images: &Images, trouble: Trouble<'_>) -> Result<Sim, Fault> {
    let mut sim = images.load(alloc)?;
    match trouble {
        Trouble::Nothing => {}
        Trouble::Cut { write, keep, bytes } => sim.cut_at(
            write,
            cut_outcome_of(alloc, keep)?,
            bytes,
        ),
        Trouble::Failing(call) => sim.fail_at(call),
    }
    Ok(sim)
}

fn outcome_of(ran: (Ending, Sim), out: Vec<u8>, err: Vec<u8>) -> Outcome {
    let (ending, sim) = ran;
    Outcome {
        status: ending.status().number(),
        out,
        err,
        sim,
    }
}

/// A clock that stands still.
#[derive(Drop)]
struct Still;

impl Clock for Still {
    fn monotonic(&self) -> io::Result<Duration> {
        Ok(Duration::ZERO)
    }

    fn since_1970(&self) -> io::Result<Duration> {
        Ok(Duration::ZERO)
    }
}

/// The lines of a script, of which a read gives so many, as far as they have room.
#[derive(Drop)]
struct Lines<'a> {
    script: &'a [u8],
    at_once: usize,
}

impl Read for Lines<'_> {
    fn read(&mut self, bytes: &mut [u8]) -> io::Result<usize> {
        let count = end_of_lines(self.script, self.at_once)
            .min(self.script.len())
            .min(bytes.len());
        let (lines, rest) = self.script.split_at(count);
        bytes[..count].copy_from_slice(lines);
        self.script = rest;
        Ok(count)
    }
}

/// How many bytes so many lines have.
fn end_of_lines(script: &[u8], lines: usize) -> usize {
    let mut left = lines;
    for (i, byte) in script.iter().enumerate() {
        if *byte == b'\n' {
            left = left.saturating_sub(1);
            if left == 0 {
                return i.saturating_add(1);
            }
        }
    }
    script.len()
}

/// The replies to a script that is run on images without trouble.
pub fn replies(alloc: Global, images: &Images, script: &[u8]) -> Result<Vec<u8>, Fault> {
    let outcome = run(alloc, images, script, Trouble::Nothing)?;
    if outcome.status != 0 {
        return Err(Fault::differs(alloc, "mount", &outcome.err, b""));
    }
    Ok(outcome.out)
}

fn cut_outcome_of(alloc: Global, word: &str) -> Result<CutOutcome, AllocError> {
    match word {
        "none" => Ok(CutOutcome::Nothing),
        "all" => Ok(CutOutcome::Everything),
        bits => Ok(CutOutcome::Bits(bits.bytes().map(|byte| mark_of(byte)).collect(alloc)?)),
    }
}

fn mark_of(byte: u8) -> Mark {
    match byte {
        b'1' => Mark::Kept,
        b'2' => Mark::Lost,
        _ => Mark::Dropped,
    }
}
