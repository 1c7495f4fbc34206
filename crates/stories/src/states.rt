//! What reading commands show in each state of a story.

use crate::fault::Fault;
use crate::text::push_line;
use std::alloc::{AllocError, Global};

/// Reading commands, and their replies in each state that a cut may leave. Each step of a story has
/// several states: that behind its command, and those behind each command of the tail, done from
/// there.
#[derive(Drop)]
pub struct States<'a> {
    alloc: Global,
    commands: Vec<&'a str>,
    script: Vec<u8>,
    /// How many commands the tail has.
    tail: usize,
    /// The replies in each state so far.
    shown: Vec<Vec<&'a str>>,
    /// The same, as they come.
    texts: Vec<Vec<u8>>,
}

impl<'a> States<'a> {
    pub fn new(alloc: Global) -> Result<States<'a>, AllocError> {
        let mut shown = Vec::new(alloc);
        shown.push(Vec::new(alloc))?;
        Ok(States {
            alloc,
            commands: Vec::new(alloc),
            script: Vec::new(alloc),
            tail: 0,
            shown,
            texts: Vec::new(alloc),
        })
    }

    /// The script of all reading commands.
    pub fn script(&self) -> &[u8] {
        self.script.as_slice()
    }

    /// Adds a reading command, and its reply in the first state.
    pub fn add_probe(&mut self, command: &'a str, reply: &'a str) -> Result<(), Fault> {
        push_line(self.alloc, &mut self.script, command)?;
        self.commands.push(command)?;
        if let Some(first) = self.shown.first_mut() {
            first.push(reply)?;
        }
        Ok(())
    }

    /// The tail has a further command.
    pub fn lengthen_tail(&mut self) {
        self.tail = self.tail.saturating_add(1);
    }

    /// Begins the next step, in whose first state all is shown as in the first one of the step
    /// before.
    pub fn begin_step(&mut self) -> Result<(), AllocError> {
        let before = self.start_of_last();
        self.fill(before.saturating_add(self.tail))?;
        self.copy_state(before)
    }

    /// Behind so many commands of the tail another reply is shown than in the state before.
    pub fn change(
        &mut self,
        tail: usize,
        command: &str,
        reply: &'a str,
    ) -> Result<bool, AllocError> {
        let state = self.start_of_last().saturating_add(tail);
        self.fill(state)?;
        let Some(place) = self.commands.iter().position(|it| **it == *command) else {
            return Ok(false);
        };
        match self
            .shown
            .get_mut(state)
            .and_then(|replies| replies.get_mut(place))
        {
            Some(shown) => {
                *shown = reply;
                Ok(true)
            }
            None => Ok(false),
        }
    }

    /// The place of the first state of the last step.
    fn start_of_last(&self) -> usize {
        let last = self.shown.len().saturating_sub(1);
        last - last % self.tail.saturating_add(1)
    }

    /// Adds states like the last one, up to this place.
    fn fill(&mut self, place: usize) -> Result<(), AllocError> {
        for last in self.shown.len().saturating_sub(1)..place {
            self.copy_state(last)?;
        }
        Ok(())
    }

    fn copy_state(&mut self, place: usize) -> Result<(), AllocError> {
        let copy = match self.shown.get(place) {
            Some(replies) => Vec::from_slice(self.alloc, replies)?,
            None => Vec::new(self.alloc),
        };
        self.shown.push(copy)?;
        Ok(())
    }

    /// No further state comes: writes the replies as they come.
    pub fn end(&mut self) -> Result<(), Fault> {
        let last = self.start_of_last().saturating_add(self.tail);
        self.fill(last)?;
        for replies in self.shown.iter() {
            self.texts.push(text_of(self.alloc, replies)?)?;
        }
        Ok(())
    }

    /// The replies in the state behind a step and so many commands of the tail.
    pub fn text(&self, step: usize, tail: usize) -> &[u8] {
        let place = step
            .saturating_mul(self.tail.saturating_add(1))
            .saturating_add(tail);
        match self.texts.get(place) {
            Some(text) => text.as_slice(),
            None => b"",
        }
    }
}

/// Replies as they come, a line each.
fn text_of(alloc: Global, replies: &[&str]) -> Result<Vec<u8>, Fault> {
    let mut text = Vec::new(alloc);
    for reply in replies {
        push_line(alloc, &mut text, reply)?;
    }
    Ok(text)
}
