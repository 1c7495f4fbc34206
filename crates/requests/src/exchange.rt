//! The kernel's side of a row: its messages come in their order, and what the server sends is compared
//! with what is to go then. Its clock tells when.

use crate::fault::Fault;
use crate::message::{Message, Way};
use channel::{Channel, Ended, Received, Sent};
use std::alloc::Global;
use std::cell::Cell;
use std::io;
use std::rt::Clock;
use std::time::Duration;

/// Messages that pass, and what differed from them.
#[derive(Drop)]
pub struct Exchange<'a> {
    alloc: Global,
    clock: &'a Cell<Duration>,
    messages: &'a [Message<'a>],
    /// The kernel can be asked.
    has_questions: bool,
    /// So many of the messages passed.
    passed: usize,
    pub faults: Vec<Fault>,
}

impl<'a> Exchange<'a> {
    /// Of these messages none passed; each that comes sets the clock as it is.
    pub fn new(
        alloc: Global,
        clock: &'a Cell<Duration>,
        messages: &'a [Message<'a>],
        has_questions: bool,
    ) -> Exchange<'a> {
        Exchange {
            alloc,
            clock,
            messages,
            has_questions,
            passed: 0,
            faults: Vec::new(alloc),
        }
    }

    /// The next message.
    fn next(&self) -> Option<&'a Message<'a>> {
        let messages: &'a [Message<'a>] = self.messages;
        messages.get(self.passed)
    }

    /// Notes what is to go before the server waits for another message, and passes it over.
    fn note_owed(&mut self) -> Result<(), Fault> {
        for _ in 0..self.messages.len() {
            let Some(message) = self.next() else {
                return Ok(());
            };
            if message.way == Way::Asked {
                return Ok(());
            }
            self.compare(message, b"")?;
        }
        Ok(())
    }

    /// Notes a reply.
    fn note_reply(&mut self, sent: &[u8]) -> Result<(), Fault> {
        match self.next() {
            Some(message) if message.way == Way::Told => self.compare(message, sent),
            _ => self.note_needless(sent),
        }
    }

    /// Notes a question. Whether the kernel takes it.
    fn note_question(&mut self, sent: &[u8]) -> Result<bool, Fault> {
        match self.next() {
            Some(message) if matches!(message.way, Way::Taken | Way::Refused) => {
                self.compare(message, sent)?;
                Ok(message.way == Way::Taken)
            }
            _ => {
                self.note_needless(sent)?;
                Ok(false)
            }
        }
    }

    /// Compares what went with the next message, which passed so.
    fn compare(&mut self, message: &Message<'_>, sent: &[u8]) -> Result<(), Fault> {
        self.passed = self.passed.saturating_add(1);
        let wanted = message.bytes.as_slice();
        if wanted != sent {
            self.faults
                .push(Fault::differs(self.alloc, message.about, wanted, sent))?;
        }
        Ok(())
    }

    /// Notes what went where nothing is to go.
    fn note_needless(&mut self, sent: &[u8]) -> Result<(), Fault> {
        let about = match self.next() {
            Some(message) => message.about,
            None => "behind all messages",
        };
        self.faults
            .push(Fault::differs(self.alloc, about, b"", sent))?;
        Ok(())
    }
}

/// What comes and goes is compared with the row, so nothing is said of it here.
impl<'a> Channel for Exchange<'a> {
    ghost use Rattle.std.specs.Prelude.{None};

    ghost receives = { λ old new room found. Unit {0} };

    ghost sends = { λ old new reply result. Unit {0} };

    ghost asks = { λ old new question taken. Unit {0} };

    ghost coming = { λ exchange. None };

    ghost gone = { λ exchange. None };

    fn receive(&mut self, room: &mut [u8]) -> Result<Received, Ended> {
        if self.note_owed().is_err() {
            return Err(Ended::Failed);
        }
        let Some(message) = self.next() else {
            return Err(Ended::Unmounted);
        };
        let asked = message.bytes.as_slice();
        let count = asked.len();
        if count == 0 || count > room.len() {
            return Err(Ended::Failed);
        }
        room[..count].copy_from_slice(asked);
        self.clock.set(message.at);
        self.passed = self.passed.saturating_add(1);
        Ok(Received { count })
    }

    fn send(&mut self, reply: &[u8]) -> Result<Sent, Ended> {
        if self.note_reply(reply).is_err() {
            return Err(Ended::Failed);
        }
        Ok(Sent::Whole)
    }

    fn ask(&mut self, question: &[u8]) -> bool {
        if !self.has_questions {
            return false;
        }
        if !self.note_question(question).unwrap_or(false) {
            return false;
        }
        true
    }
}

/// The clock of a row.
#[derive(Clone, Copy)]
pub struct RowClock<'a> {
    pub time: &'a Cell<Duration>,
}

impl<'a> Clock for RowClock<'a> {
    fn monotonic(&self) -> io::Result<Duration> {
        Ok(self.time.get())
    }

    fn since_1970(&self) -> io::Result<Duration> {
        Ok(self.time.get())
    }
}
