//! Stories: a list of commands over an image, and what is to come of them whatever befalls the
//! station.

use crate::batching::Together;
use crate::commands::Commands;
use crate::fault::Fault;
use crate::image_pair::Images;
use crate::states::States;
use crate::text::range_of;
use std::alloc::Global;

/// Cuts within the writes of one command.
#[derive(Drop)]
pub struct Cuts<'a> {
    /// How many commands are answered before it.
    pub answered: usize,
    /// The first and the last write.
    pub writes: (u32, u32),
    /// What of the unsynced sectors stays, with commas between.
    pub keeps: &'a str,
    /// The fewest and the most bytes that stay of a write to the NVRAM.
    pub bytes: (u32, u32),
}

/// Bytes of an image that isn't made.
#[derive(Clone, Copy, Drop)]
pub struct Part<'a> {
    pub is_of_disk: bool,
    pub at: u32,
    /// Two hexadecimal digits each.
    pub digits: &'a str,
}

/// Bytes of an image that are changed one at a time.
#[derive(Clone, Copy, Drop)]
pub struct Sweep {
    pub is_of_disk: bool,
    pub places: (u32, u32),
}

/// The reply to a command in a run from which another one is left out.
#[derive(Clone, Copy, Drop)]
pub struct Without<'a> {
    pub left_out: usize,
    pub command: usize,
    pub reply: &'a str,
}

/// A story as it is read. The head of `data/forty.story` says how one is written.
#[derive(Drop)]
pub struct Story<'a> {
    alloc: Global,
    pub sizes: [u32; 3],
    /// What the images hold that its commands run on; none where they are made.
    pub parts: Vec<Part<'a>>,
    pub before: Commands,
    pub commands: Commands,
    pub tail: Commands,
    pub states: States<'a>,
    pub cuts: Vec<Cuts<'a>>,
    /// Of all second cuts each so-manieth is tried.
    pub again: u32,
    /// Each device call is to fail in turn.
    pub is_failing: bool,
    /// Only the first commands make device calls, so many.
    pub quiet: Option<usize>,
    pub withouts: Vec<Without<'a>>,
    pub sweeps: Vec<Sweep>,
    /// Its commands run in batches, too.
    pub together: Option<Together>,
}

impl<'a> Story<'a> {
    /// Reads a story.
    pub fn read(alloc: Global, text: &'a str) -> Result<Story<'a>, Fault> {
        let mut story = Story {
            alloc,
            sizes: [0; 3],
            parts: Vec::new(alloc),
            before: Commands::new(alloc)?,
            commands: Commands::new(alloc)?,
            tail: Commands::new(alloc)?,
            states: States::new(alloc)?,
            cuts: Vec::new(alloc),
            again: 1,
            is_failing: false,
            quiet: None,
            withouts: Vec::new(alloc),
            sweeps: Vec::new(alloc),
            together: None,
        };
        for line in text.lines() {
            if !line.is_empty() && !line.starts_with('#') && !story.take(line)? {
                return Err(Fault::misread(alloc, line));
            }
        }
        story.states.end()?;
        Ok(story)
    }

    /// The images on which its commands run.
    pub fn images(&self) -> Result<Images, Fault> {
        let [blocks, inodes, half] = self.sizes;
        if self.parts.is_empty() {
            return Images::made(self.alloc, blocks, inodes, half);
        }
        let mut images = Images::empty(self.alloc, blocks, half)?;
        for part in self.parts.iter() {
            if !images.put(self.alloc, part.is_of_disk, part.at, part.digits)? {
                return Err(Fault::misread(self.alloc, part.digits));
            }
        }
        Ok(images)
    }

    /// Takes a line. False where it isn't understood.
    fn take(&mut self, line: &'a str) -> Result<bool, Fault> {
        if let Some(text) = line.strip_prefix("  ") {
            let (verb, words) = text.split_once(' ').unwrap_or((text, ""));
            return self.take_part(text, verb, words);
        }
        let (verb, words) = line.split_once(' ').unwrap_or((line, ""));
        match verb {
            "image" => Ok(self.set_sizes(words)),
            "again" => Ok(self.set_again(words)),
            "failing" => {
                self.is_failing = true;
                Ok(words.is_empty())
            }
            "quiet" => {
                self.quiet = words.parse().ok();
                Ok(self.quiet.is_some())
            }
            "together" => Ok(self.set_together(words)),
            "start" => Ok(true),
            "sweep" => self.add_sweep(words),
            "disk" | "nvram" => self.add_part(verb == "disk", words),
            _ => self.take_command(verb, words),
        }
    }

    /// Takes a line that has a command and its reply.
    fn take_command(&mut self, verb: &str, words: &'a str) -> Result<bool, Fault> {
        let Some((command, reply)) = words.split_once(" -> ") else {
            return Ok(false);
        };
        match verb {
            "before" => self.before.add(command, reply)?,
            "probe" => self.states.add_probe(command, reply)?,
            "tail" => {
                self.tail.add(command, reply)?;
                self.states.lengthen_tail();
            }
            "command" => {
                self.commands.add(command, reply)?;
                self.states.begin_step()?;
            }
            _ => return Ok(false),
        }
        Ok(true)
    }

    /// Takes a line about the last command.
    fn take_part(&mut self, text: &'a str, verb: &'a str, words: &'a str) -> Result<bool, Fault> {
        match verb {
            "cut" => self.add_cuts(words),
            "without" => self.add_without(words),
            "+" | "++" | "+++" => self.change(verb.len(), words),
            _ => self.change(0, text),
        }
    }

    /// Another reply is shown than before, behind so many commands of the tail.
    fn change(&mut self, tail: usize, text: &'a str) -> Result<bool, Fault> {
        let Some((command, reply)) = text.split_once(" -> ") else {
            return Ok(false);
        };
        Ok(self.states.change(tail, command, reply)?)
    }

    /// `A..B KEEP,KEEP A..B`: cuts within these writes.
    fn add_cuts(&mut self, words: &'a str) -> Result<bool, Fault> {
        let mut words = words.split(' ');
        let (Some(writes), Some(keeps), Some(bytes)) = (words.next(), words.next(), words.next())
        else {
            return Ok(false);
        };
        let (Some(writes), Some(bytes)) = (range_of(writes), range_of(bytes)) else {
            return Ok(false);
        };
        let answered = self.commands.count().saturating_sub(1);
        self.cuts.push(Cuts {
            answered,
            writes,
            keeps,
            bytes,
        })?;
        Ok(true)
    }

    /// `N COMMAND -> REPLY`: what command N is answered in a run without this one.
    fn add_without(&mut self, words: &'a str) -> Result<bool, Fault> {
        let Some((number, text)) = words.split_once(' ') else {
            return Ok(false);
        };
        let (Ok(number), Some((_, reply))) = (number.parse::<usize>(), text.split_once(" -> "))
        else {
            return Ok(false);
        };
        self.withouts.push(Without {
            left_out: self.commands.count().saturating_sub(1),
            command: number.saturating_sub(1),
            reply,
        })?;
        Ok(true)
    }

    /// `AT DIGITS`: these bytes of an image.
    fn add_part(&mut self, is_of_disk: bool, words: &'a str) -> Result<bool, Fault> {
        let Some((at, digits)) = words.split_once(' ') else {
            return Ok(false);
        };
        let Ok(at) = at.parse() else {
            return Ok(false);
        };
        self.parts.push(Part {
            is_of_disk,
            at,
            digits,
        })?;
        Ok(true)
    }

    fn add_sweep(&mut self, words: &str) -> Result<bool, Fault> {
        let Some((device, places)) = words.split_once(' ') else {
            return Ok(false);
        };
        let Some(places) = range_of(places) else {
            return Ok(false);
        };
        self.sweeps.push(Sweep {
            is_of_disk: device == "disk",
            places,
        })?;
        Ok(device == "disk" || device == "nvram")
    }

    /// `LINES WRITES`: its commands run with so many lines at once, and make so many writes.
    fn set_together(&mut self, words: &str) -> bool {
        let Some((lines, writes)) = words.split_once(' ') else {
            return false;
        };
        let (Ok(lines), Ok(writes)) = (lines.parse(), writes.parse()) else {
            return false;
        };
        self.together = Some(Together { lines, writes });
        true
    }

    fn set_again(&mut self, words: &str) -> bool {
        match words.parse() {
            Ok(number) => {
                self.again = number;
                number > 0
            }
            Err(_) => false,
        }
    }

    fn set_sizes(&mut self, words: &str) -> bool {
        for (size, word) in self.sizes.iter_mut().zip(words.split(' ')) {
            let Ok(number) = word.parse() else {
                return false;
            };
            *size = number;
        }
        true
    }
}
