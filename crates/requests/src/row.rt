//! Rows, as they are read.

use crate::fault::Fault;
use crate::message::{Message, Way, bytes_of};
use crate::session::Session;
use served::{Durability, Owner};
use std::alloc::{AllocError, Global};
use std::time::Duration;

/// A new image, and its servers, one after the other.
#[derive(Drop)]
pub struct Row<'a> {
    alloc: Global,
    /// How many blocks and inodes the image has.
    pub blocks: u32,
    pub inodes: u32,
    pub owner: Owner,
    /// The kernel can be asked for messages.
    pub has_questions: bool,
    /// The commands that are done before the first server.
    pub before: Vec<&'a str>,
    pub sessions: Vec<Session<'a>>,
    /// When the next message passes, and what it is.
    at: Duration,
    about: &'a str,
}

impl<'a> Row<'a> {
    /// Reads a row's lines, the first of which is its title.
    pub fn read(alloc: Global, text: &'a str) -> Result<Row<'a>, Fault> {
        let mut row = Row {
            alloc,
            blocks: 64,
            inodes: 32,
            owner: Owner { uid: 0, gid: 0 },
            has_questions: false,
            before: Vec::new(alloc),
            sessions: Vec::new(alloc),
            at: Duration::from_secs(0),
            about: "",
        };
        row.begin_session()?;
        for line in text.lines().skip(1) {
            if !line.is_empty() {
                row.take(line)?;
            }
        }
        Ok(row)
    }

    /// How many messages its kernel sends.
    pub fn count(&self) -> usize {
        let mut count = 0_usize;
        for session in self.sessions.iter() {
            count = count.saturating_add(session.count());
        }
        count
    }

    fn begin_session(&mut self) -> Result<(), AllocError> {
        self.sessions.push(Session::new(self.alloc))?;
        Ok(())
    }

    /// Takes a line.
    fn take(&mut self, line: &'a str) -> Result<(), Fault> {
        let (verb, words) = line.split_once(' ').unwrap_or((line, ""));
        let is_understood = match verb {
            "#" => {
                self.about = words;
                true
            }
            "ask" => self.pass(Way::Asked, words)?,
            "told" if words == "-" => true,
            "told" => self.pass(Way::Told, words)?,
            "taken" => self.pass(Way::Taken, words)?,
            "refused" => self.pass(Way::Refused, words)?,
            "at" => self.set_time(words),
            "before" => {
                self.before.push(words)?;
                true
            }
            "again" => {
                self.begin_session()?;
                words.is_empty()
            }
            _ => self.set(verb, words),
        };
        if !is_understood {
            return Err(Fault::misread(self.alloc, line));
        }
        Ok(())
    }

    /// A message passes.
    fn pass(&mut self, way: Way, words: &str) -> Result<bool, Fault> {
        let message = Message {
            about: self.about,
            at: self.at,
            way,
            bytes: bytes_of(self.alloc, words)?,
        };
        let Some(session) = self.sessions.last_mut() else {
            return Ok(false);
        };
        session.messages.push(message)?;
        Ok(true)
    }

    /// `at SECONDS NANOSECONDS`: what the clock tells from here on, and when the next server begins.
    fn set_time(&mut self, words: &str) -> bool {
        let Some((seconds, nanoseconds)) = two_numbers(words) else {
            return false;
        };
        self.at = Duration::from_secs(u64::from(seconds)).saturating_add(Duration::from_nanos(
            u64::from(nanoseconds),
        ));
        true
    }

    /// Sets what a line tells of the row, or of the server at which it stands.
    fn set(&mut self, verb: &str, words: &str) -> bool {
        match verb {
            "image" => self.set_image(words),
            "owner" => self.set_owner(words),
            "questions" => {
                self.has_questions = true;
                words.is_empty()
            }
            _ => match self.sessions.last_mut() {
                Some(session) => set_session(session, verb, words),
                None => false,
            },
        }
    }

    /// `image BLOCKS INODES`
    fn set_image(&mut self, words: &str) -> bool {
        let Some((blocks, inodes)) = two_numbers(words) else {
            return false;
        };
        self.blocks = blocks;
        self.inodes = inodes;
        true
    }

    /// `owner UID GID`: whose folder it is.
    fn set_owner(&mut self, words: &str) -> bool {
        let Some((uid, gid)) = two_numbers(words) else {
            return false;
        };
        self.owner = Owner { uid, gid };
        true
    }
}

/// Sets what a line tells of a server.
fn set_session(session: &mut Session<'_>, verb: &str, words: &str) -> bool {
    match verb {
        "deferred" => set_deferred(session, words),
        "cut" => {
            session.cut = two_numbers(words);
            session.cut.is_some()
        }
        "lost" => {
            session.is_lost = true;
            words.is_empty()
        }
        "writes" => {
            session.writes = words.parse().ok();
            session.writes.is_some()
        }
        _ => false,
    }
}

/// `deferred MILLISECONDS BYTES`
fn set_deferred(session: &mut Session<'_>, words: &str) -> bool {
    let Some((milliseconds, bytes)) = two_numbers(words) else {
        return false;
    };
    session.durability = Durability::Deferred {
        milliseconds,
        bytes: bytes as usize,
    };
    true
}

fn two_numbers(words: &str) -> Option<(u32, u32)> {
    let (first, second) = words.split_once(' ')?;
    Some((first.parse().ok()?, second.parse().ok()?))
}
