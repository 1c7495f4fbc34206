//! What a row works on: its images, its locks, and the run or the command line that is being read.

use crate::checks::{compare_check, expect_faultless};
use crate::choices::Choices;
use crate::fault::Fault;
use crate::file_lines::obey_file;
use crate::guards::Locks;
use crate::image::obey;
use crate::image_verbs::{Images, looks_at_bad};
use crate::obeying::Obeyed;
use crate::run::Run;
use crate::text::{is_one_of, random_bytes};
use command_line::{Asked, Durability, LineError, Options, Wait, read_line};
use memory_station::Sim;
use mount::make;
use std::alloc::{AllocError, Global};
use std::mem;

/// A row under way.
#[derive(Drop)]
pub struct Bench<'a> {
    alloc: Global,
    choices: Choices,
    images: Images,
    /// What runs leave is checked. Of a row with many choices it is for every fourth.
    is_checked: bool,
    /// The images are as runs left them, and no line changed them otherwise.
    are_left: bool,
    locks: Locks<'a>,
    open: Open<'a>,
}

/// What is being read.
#[derive(Drop)]
enum Open<'a> {
    Nothing,
    Run(Run<'a>),
    Obeyed(Obeyed<'a>),
}

impl<'a> Bench<'a> {
    pub fn new(alloc: Global, choice: u64) -> Bench<'a> {
        Bench {
            alloc,
            choices: Choices::new(choice),
            images: Images::new(alloc),
            is_checked: choice % 4 == 0,
            are_left: false,
            locks: Locks::new(alloc),
            open: Open::Nothing,
        }
    }

    /// Does what a row's lines say, but for the first, its title, and says how many choices it has.
    pub fn check(&mut self, rt: &HostRuntime, row: &'a str) -> Result<u64, Fault> {
        for line in row.lines().skip(1) {
            self.take(rt, line)?;
        }
        self.end_open(rt)?;
        Ok(self.choices.count())
    }

    /// Does what a line says.
    fn take(&mut self, rt: &HostRuntime, line: &'a str) -> Result<(), Fault> {
        if line.is_empty() || line.starts_with('#') {
            return Ok(());
        }
        if let Some(text) = line.strip_prefix("  ") {
            return match &mut self.open {
                Open::Run(run) => run.add_line(self.alloc, text),
                Open::Obeyed(obeyed) => obeyed.add_line(self.alloc, text),
                Open::Nothing => Err(Fault::misread(self.alloc, line)),
            };
        }
        let (verb, words) = line.split_once(' ').unwrap_or((line, ""));
        if self.is_about_open(verb, words) {
            return Ok(());
        }
        self.end_open(rt)?;
        if !self.obey(rt, verb, words)? {
            return Err(Fault::misread(self.alloc, line));
        }
        Ok(())
    }

    /// Whether a line says what is expected of what is being read.
    fn is_about_open(&mut self, verb: &str, words: &'a str) -> bool {
        match &mut self.open {
            Open::Run(run) => is_about_run(run, verb, words),
            Open::Obeyed(obeyed) if verb == "status" => {
                obeyed.expect_status(words);
                true
            }
            _ => false,
        }
    }

    fn end_open(&mut self, rt: &HostRuntime) -> Result<(), Fault> {
        match mem::replace(&mut self.open, Open::Nothing) {
            Open::Nothing => Ok(()),
            Open::Run(run) => self.end_run(&run),
            Open::Obeyed(obeyed) => obeyed.finish(rt),
        }
    }

    fn end_run(&mut self, run: &Run<'a>) -> Result<(), Fault> {
        run.finish(self.alloc, &mut self.images)?;
        if self.is_checked && self.are_left {
            return expect_faultless(self.alloc, &self.images);
        }
        Ok(())
    }

    /// Begins to read a run or a command line.
    fn begin_reading(&mut self, open: Open<'a>) -> Result<bool, Fault> {
        self.open = open;
        Ok(true)
    }

    /// Does what a line says that begins something. False where it isn't understood.
    fn obey(&mut self, rt: &HostRuntime, verb: &str, words: &'a str) -> Result<bool, Fault> {
        if let Some(is_known) = self.locks.obey(rt, verb, words)? {
            return Ok(is_known);
        }
        match obey_file(rt, verb, words)? {
            Some(is_known) => Ok(is_known),
            None => self.begin(verb, words),
        }
    }

    /// Does what a line says that isn't about files. False where it isn't understood.
    fn begin(&mut self, verb: &str, words: &'a str) -> Result<bool, Fault> {
        match verb {
            "run" | "shell" => {
                let run = Run::new(self.alloc, verb == "shell", words, &mut self.choices)?;
                self.begin_reading(Open::Run(run))
            }
            "obey" => self.begin_reading(Open::Obeyed(Obeyed::new(self.alloc, words))),
            "words" => compare_words(self.alloc, words),
            "image" => self.make_image(words),
            "random" => self.randomize(words),
            _ => self.obey_images(verb, words),
        }
    }

    /// Does what a line says that changes the images or looks at them. False where it isn't
    /// understood.
    fn obey_images(&mut self, verb: &str, words: &str) -> Result<bool, Fault> {
        match verb {
            "slots" => self.images.compare_slots(self.alloc, words),
            "check" => compare_check(self.alloc, &self.images, words),
            _ => {
                self.are_left &= verb == "bad" && looks_at_bad(words);
                self.change_images(verb, words)
            }
        }
    }

    fn change_images(&mut self, verb: &str, words: &str) -> Result<bool, Fault> {
        match verb {
            "bad" => self.images.obey_bad(self.alloc, words),
            "disk" => obey(self.alloc, &mut self.choices, &mut self.images.disk, words),
            "nvram" => obey(self.alloc, &mut self.choices, &mut self.images.nvram, words),
            _ => Ok(false),
        }
    }

    /// `image BLOCKS INODES HALF`: a new image, on a station that held other bytes before.
    fn make_image(&mut self, words: &str) -> Result<bool, Fault> {
        let [Some(blocks), Some(inodes), Some(half)] = self.choices.numbers(words) else {
            return Ok(false);
        };
        let Some(images) = new_images(self.alloc, blocks, inodes, half)? else {
            return Ok(false);
        };
        self.images = images;
        self.are_left = true;
        Ok(true)
    }

    /// `random SEED DISK NVRAM`: images of so many bytes that follow no format.
    fn randomize(&mut self, words: &str) -> Result<bool, Fault> {
        let [Some(seed), Some(disk), Some(nvram)] = self.choices.numbers(words) else {
            return Ok(false);
        };
        self.are_left = false;
        self.images = Images {
            disk: random_bytes(self.alloc, seed, disk)?,
            nvram: random_bytes(self.alloc, seed, nvram)?,
            bad: Vec::new(self.alloc),
        };
        Ok(true)
    }
}

/// Whether a line says what is expected of a run.
fn is_about_run<'a>(run: &mut Run<'a>, verb: &str, words: &'a str) -> bool {
    match verb {
        "status" => run.expect_status(words),
        "says" => run.expect_fault(words),
        "unchanged" => run.expect_unchanged(),
        _ => return false,
    }
    true
}

/// The images of a new image, on a station that held other bytes before. None where none is made.
fn new_images(
    alloc: Global,
    blocks: u32,
    inodes: u32,
    half: u32,
) -> Result<Option<Images>, AllocError> {
    let disk = vec![in alloc; 0xaa; 4096_usize.saturating_mul(blocks as usize)]?;
    let nvram = vec![in alloc; 0x55; 2_usize.saturating_mul(half as usize)]?;
    match Sim::load(alloc, disk, nvram) {
        Ok(sim) => made(alloc, sim, blocks, inodes, half),
        Err(_) => Ok(None),
    }
}

fn made(
    alloc: Global,
    sim: Sim,
    blocks: u32,
    inodes: u32,
    half: u32,
) -> Result<Option<Images>, AllocError> {
    match make(alloc, sim, blocks, inodes, half) {
        Ok(sim) => Ok(Some(Images::of(alloc, sim)?)),
        Err(_) => Ok(None),
    }
}

/// `words WORDS -> LINE`: what the program's words are read as; `nothing` where they aren't
/// understood.
fn compare_words(alloc: Global, text: &str) -> Result<bool, Fault> {
    let Some((words, expected)) = text.split_once(" -> ") else {
        return Ok(false);
    };
    let came = line_of(alloc, words)?;
    if !is_one_of(alloc, came.as_bytes(), expected)? {
        return Err(Fault::differs(alloc, "words", came.as_bytes(), expected));
    }
    Ok(true)
}

/// What words with a space between are read as.
fn line_of(alloc: Global, text: &str) -> Result<String, Fault> {
    let words: Vec<&str> = text.split(' ').collect(alloc)?;
    shown_line(alloc, words.as_slice())
}

fn shown_line(alloc: Global, words: &[&str]) -> Result<String, Fault> {
    let mut others = Vec::new(alloc);
    match read_line(alloc, words, &mut others) {
        Ok(asked) => shown_asked(alloc, &asked),
        Err(LineError::NotUnderstood(_)) => Ok(String::from_str(alloc, "nothing")?),
        Err(LineError::OutOfRange(text)) => Ok(String::from_str(alloc, text.trim_end())?),
        Err(LineError::NoMemory) => Err(Fault::NoMemory),
    }
}

/// A line, and behind it which options are set.
fn shown_asked(alloc: Global, asked: &Asked<'_>) -> Result<String, Fault> {
    let line = &asked.line;
    let mut text = format!(in alloc; "{line:?}")?;
    for (is_set, name) in flags_of(asked.options) {
        if is_set {
            write!(text, ", {name}")?;
        }
    }
    match asked.options.durability {
        Durability::Usual => {}
        Durability::Together => write!(text, ", together")?,
        Durability::Deferred(milliseconds) => {
            write!(text, ", deferred {milliseconds} milliseconds")?
        }
    }
    match asked.options.wait {
        Wait::No => {}
        Wait::Seconds(seconds) => write!(text, ", waits {seconds} seconds")?,
        Wait::Forever => write!(text, ", waits")?,
    }
    Ok(text)
}

fn flags_of(options: Options) -> [(bool, &'static str); 5] {
    [
        (options.explains, "explained"),
        (options.is_encoded, "encoded"),
        (options.is_human, "human"),
        (options.salvages, "salvaged"),
        (options.forces, "forced"),
    ]
}
