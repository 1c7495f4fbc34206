//! One run of a row: a script over a station in memory, or lines that are answered one by one, and
//! what is expected of it.

use crate::choices::Choices;
use crate::fault::Fault;
use crate::image_verbs::Images;
use crate::text::{is_one_of, push_text};
use memory_station::{CutOutcome, Mark, Sim};
use session::{
    Durability, Ending, Manners, Sink, Source, session, session_in_batches, shell, shell_in_batches,
};
use std::alloc::{AllocError, Global};
use std::io;
use std::rt::Clock;
use std::time::Duration;

/// What fails in a run, by the numbers that a station counts.
#[derive(Drop)]
struct FaultPlan<'a> {
    /// The device write within which the power is cut, what of the unsynced sectors stays, and the
    /// bytes of an NVRAM write.
    cut: Option<u32>,
    keep: &'a str,
    bytes: u32,
    /// The device call that fails.
    call: Option<u32>,
    /// The sync that fails.
    sync: Option<u32>,
}

/// A run that is being read.
#[derive(Drop)]
pub struct Run<'a> {
    plan: FaultPlan<'a>,
    /// Each line is answered before the next is read.
    is_shell: bool,
    /// The first reply that is a refusal ends it.
    stops: bool,
    /// When what a line did is durable, where commands may wait.
    durability: Option<Durability>,
    script: Vec<u8>,
    /// The reply to each line that brings one, in order.
    replies: Vec<&'a str>,
    /// The exit statuses that may come.
    statuses: Option<&'a str>,
    /// What stands on standard error where the status is 2, 4 or 5.
    says: &'a str,
    is_unchanged: bool,
}

/// What a run gave.
#[derive(Drop)]
struct Outcome {
    status: u8,
    out: Vec<u8>,
    err: Vec<u8>,
    images: Images,
}

impl<'a> Run<'a> {
    /// A run by the words behind `run` or `shell`: none, or some of `cut=N`, `keep=none|all|BITS`,
    /// `bytes=K`, `fail=N`, `fail-sync=N`, `stop`, `together`, `deferred` and `deferred=N`.
    pub fn new(
        alloc: Global,
        is_shell: bool,
        words: &'a str,
        choices: &mut Choices,
    ) -> Result<Run<'a>, Fault> {
        let mut run = Run {
            plan: FaultPlan {
                cut: None,
                keep: "none",
                bytes: 0,
                call: None,
                sync: None,
            },
            is_shell,
            stops: false,
            durability: None,
            script: Vec::new(alloc),
            replies: Vec::new(alloc),
            statuses: None,
            says: "",
            is_unchanged: false,
        };
        for word in words.split_ascii_whitespace() {
            let is_known = match word.split_once('=') {
                Some(("deferred", value)) => run.defer(choices.number(value)),
                Some((name, value)) => run.plan.set(name, value, choices),
                None => run.set_flag(word),
            };
            if !is_known {
                return Err(Fault::misread(alloc, words));
            }
        }
        Ok(run)
    }

    /// Has each reply shown before it is durable, where no more than so many bytes wait. False where
    /// these are no number.
    fn defer(&mut self, bytes: Option<u32>) -> bool {
        let Some(bytes) = bytes else {
            return false;
        };
        self.durability = Some(Durability::Deferred {
            milliseconds: 1_000,
            bytes: bytes as usize,
        });
        true
    }

    /// Sets what a word says. False where there is no such word.
    fn set_flag(&mut self, word: &str) -> bool {
        match word {
            "stop" => self.stops = true,
            "together" => self.durability = Some(Durability::Together),
            "deferred" => return self.defer(Some(1_048_576)),
            _ => return false,
        }
        true
    }

    /// Adds `COMMAND -> REPLY`, or behind `| ` a line that brings no reply, and behind `|- ` one
    /// without its end.
    pub fn add_line(&mut self, alloc: Global, line: &'a str) -> Result<(), Fault> {
        if let Some(text) = line.strip_prefix("|- ") {
            return push_text(alloc, &mut self.script, text);
        }
        let text = match line.strip_prefix("|") {
            Some(text) => text.strip_prefix(" ").unwrap_or(text),
            None => {
                let Some((command, reply)) = line.split_once(" -> ") else {
                    return Err(Fault::misread(alloc, line));
                };
                self.replies.push(reply)?;
                command
            }
        };
        push_text(alloc, &mut self.script, text)?;
        self.script.push(b'\n')?;
        Ok(())
    }

    /// The exit statuses that may come, with ` | ` between.
    pub fn expect_status(&mut self, statuses: &'a str) {
        self.statuses = Some(statuses);
    }

    pub fn expect_fault(&mut self, text: &'a str) {
        self.says = text;
    }

    /// The images are to stay as they are.
    pub fn expect_unchanged(&mut self) {
        self.is_unchanged = true;
    }

    /// Runs it on these images, compares what it gives, and leaves the images that it left.
    pub fn finish(&self, alloc: Global, images: &mut Images) -> Result<(), Fault> {
        let outcome = self.outcome(alloc, images)?;
        self.compare(alloc, &outcome, images)?;
        *images = outcome.images;
        Ok(())
    }

    /// What it gives on these images.
    fn outcome(&self, alloc: Global, images: &Images) -> Result<Outcome, Fault> {
        let mut out = Vec::new(alloc);
        let mut err = Vec::new(alloc);
        let station = self.plan.station(alloc, images)?;
        let (ending, sim) = self.run_on(alloc, station, &mut out, &mut err);
        let images = Images::of(alloc, sim)?;
        Ok(Outcome {
            status: ending.status().number(),
            out,
            err,
            images,
        })
    }

    /// Runs it on a station.
    fn run_on(
        &self,
        alloc: Global,
        station: Sim,
        out: &mut Vec<u8>,
        err: &mut Vec<u8>,
    ) -> (Ending, Sim) {
        let script = self.script.as_slice();
        let was_cut = |sim: &Sim| sim.is_cut();
        let mut input = Source::new(script);
        let mut out = Sink::new(out);
        let mut err = Sink::new(err);
        let manners = |durability: Durability| Manners {
            durability,
            prompts: false,
            stops: self.stops,
        };
        match (self.durability, self.is_shell) {
            (None, true) => shell(
                alloc, station, false, &mut input, was_cut, &mut out, &mut err,
            ),
            (None, false) => session(
                alloc, station, script, self.stops, was_cut, &mut out, &mut err,
            ),
            (Some(durability), true) => shell_in_batches(
                &Still,
                alloc,
                station,
                manners(durability),
                &mut input,
                was_cut,
                &mut out,
                &mut err,
            ),
            (Some(durability), false) => session_in_batches(
                &Still,
                alloc,
                station,
                script,
                manners(durability),
                was_cut,
                &mut out,
                &mut err,
            ),
        }
    }

    /// Compares what it gave on some images with what is expected.
    fn compare(&self, alloc: Global, outcome: &Outcome, before: &Images) -> Result<(), Fault> {
        let is_refused = outcome.status == 4 || outcome.status == 5;
        self.compare_status(alloc, outcome.status)?;
        self.compare_replies(alloc, &outcome.out, is_refused)?;
        self.compare_fault(alloc, &outcome.err, is_refused || outcome.status == 2)?;
        if !outcome.images.is_same(before) && (self.is_unchanged || is_refused) {
            return Err(Fault::differs(alloc, "images", b"others", "the same"));
        }
        Ok(())
    }

    /// Where nothing else is said, the status is 3 if the last reply is `cut`, and else 0.
    fn compare_status(&self, alloc: Global, status: u8) -> Result<(), Fault> {
        let came = format!(in alloc; "{status}")?;
        let by_reply = match self.replies.last() {
            Some(reply) if **reply == *"cut" => "3",
            _ => "0",
        };
        let expected = self.statuses.unwrap_or(by_reply);
        if !is_one_of(alloc, came.as_bytes(), expected)? {
            return Err(Fault::differs(alloc, "status", came.as_bytes(), expected));
        }
        Ok(())
    }

    fn compare_replies(&self, alloc: Global, out: &[u8], is_refused: bool) -> Result<(), Fault> {
        let mut lines = out.split(|byte| *byte == b'\n');
        // Where nothing was run there is no reply.
        let count = if is_refused { 0 } else { self.replies.len() };
        let expected = &self.replies.as_slice()[..count];
        for reply in expected {
            let Some(came) = lines.next() else {
                return Err(Fault::differs(alloc, "reply", b"nothing", reply));
            };
            if !is_one_of(alloc, came, reply)? {
                return Err(Fault::differs(alloc, "reply", came, reply));
            }
            // A cut ends the replies.
            if came == b"cut".as_slice() {
                break;
            }
        }
        // Behind the last line's end stands nothing.
        for rest in lines {
            if !rest.is_empty() {
                return Err(Fault::differs(alloc, "reply", rest, "no more"));
            }
        }
        Ok(())
    }

    /// Where something is told, it is one line.
    fn compare_fault(&self, alloc: Global, err: &[u8], is_told: bool) -> Result<(), Fault> {
        let holds = if is_told {
            match err.strip_suffix(b"\n") {
                Some(line) => is_one_of(alloc, line, self.says)?,
                None => false,
            }
        } else {
            err.is_empty()
        };
        if !holds {
            return Err(Fault::differs(alloc, "standard error", err, self.says));
        }
        Ok(())
    }
}

/// A clock that stands still.
#[derive(Drop)]
struct Still;

impl Clock for Still {
    fn monotonic(&self) -> io::Result<Duration> {
        Ok(Duration::ZERO)
    }

    fn since_1970(&self) -> io::Result<Duration> {
        Ok(Duration::ZERO)
    }
}

impl<'a> FaultPlan<'a> {
    /// Sets what a word names. False where there is no such word, or its value isn't one.
    fn set(&mut self, name: &str, value: &'a str, choices: &mut Choices) -> bool {
        if name == "keep" {
            let Some(word) = choices.word(value) else {
                return false;
            };
            self.keep = word;
            return true;
        }
        let Some(number) = choices.number(value) else {
            return false;
        };
        match name {
            "cut" => self.cut = Some(number),
            "bytes" => self.bytes = number,
            "fail" => self.call = Some(number),
            "fail-sync" => self.sync = Some(number),
            _ => return false,
        }
        true
    }

    /// A station in memory on these images, with what is to fail.
    fn station(&self, alloc: Global, images: &Images) -> Result<Sim, Fault> {
        let mut sim = images.load(alloc)?;
        if let Some(write) = self.cut {
            sim.cut_at(write, cut_outcome_of(alloc, self.keep)?, self.bytes);
        }
        if let Some(call) = self.call {
            sim.fail_at(call);
        }
        if let Some(sync) = self.sync {
            sim.fail_sync_at(sync);
        }
        Ok(sim)
    }
}

fn cut_outcome_of(alloc: Global, word: &str) -> Result<CutOutcome, AllocError> {
    match word {
        "none" => Ok(CutOutcome::Nothing),
        "all" => Ok(CutOutcome::Everything),
        bits => Ok(CutOutcome::Bits(bits.bytes().map(|byte| mark_of(byte)).collect(alloc)?)),
    }
}

fn mark_of(byte: u8) -> Mark {
    match byte {
        b'1' => Mark::Kept,
        b'2' => Mark::Lost,
        _ => Mark::Dropped,
    }
}
