//! Cuts within each write of a story's commands, and second cuts behind them.

use crate::fault::Fault;
use crate::image_pair::Images;
use crate::running::{Trouble, replies, run};
use crate::story::{Cuts, Story};
use crate::text::count_lines;
use std::alloc::Global;

/// What of the sectors written since the last sync stays, in second cuts by turns: `2` loses one,
/// `1` keeps it, `0` drops it.
const KEEPS: [&str; 5] = ["none", "all", "10", "2", "021"];

/// How many bytes of a write to the NVRAM stay, in second cuts by turns.
const BYTES: [u32; 3] = [0, 5, 1_000];

/// A story under test.
#[derive(Drop)]
pub struct Cutting<'a> {
    alloc: Global,
    story: &'a Story<'a>,
    /// The images on which its commands run.
    images: &'a Images,
    /// How many cuts there were, how many second ones might come behind them, and how many were
    /// tried.
    pub firsts: u32,
    places: u32,
    pub seconds: u32,
}

impl<'a> Cutting<'a> {
    pub fn new(alloc: Global, story: &'a Story<'a>, images: &'a Images) -> Cutting<'a> {
        Cutting {
            alloc,
            story,
            images,
            firsts: 0,
            places: 0,
            seconds: 0,
        }
    }

    /// Cuts within each write.
    pub fn check(&mut self) -> Result<(), Fault> {
        self.check_count()?;
        for cuts in self.story.cuts.iter() {
            for write in cuts.writes.0..=cuts.writes.1 {
                self.check_write(cuts, write)?;
            }
        }
        Ok(())
    }

    /// Behind the last cut there is no write.
    fn check_count(&self) -> Result<(), Fault> {
        let script = &self.story.commands.script;
        let outcome = run(self.alloc, self.images, script, Trouble::Nothing)?;
        match self.story.cuts.last() {
            Some(cuts) if cuts.writes.1 != outcome.sim.device_writes() => {
                Err(Fault::differs(self.alloc, "writes", b"others", b"those that are cut"))
            }
            _ => Ok(()),
        }
    }

    fn check_write(&mut self, cuts: &Cuts<'a>, write: u32) -> Result<(), Fault> {
        for keep in cuts.keeps.split(',') {
            for bytes in cuts.bytes.0..=cuts.bytes.1 {
                if let Err(fault) = self.check_cut(cuts.answered, write, keep, bytes) {
                    let place = format!(in self.alloc; "cut {write} {keep} {bytes}")?;
                    return Err(fault.at(self.alloc, place.as_str()));
                }
            }
        }
        Ok(())
    }

    /// A cut leaves what stands behind the answered commands, or behind one more.
    fn check_cut(
        &mut self,
        answered: usize,
        write: u32,
        keep: &str,
        bytes: u32,
    ) -> Result<(), Fault> {
        let left = self.cut(answered, Trouble::Cut { write, keep, bytes })?;
        let step = self.find_state(&left, answered, 0, answered.saturating_add(1), 0)?;
        self.firsts = self.firsts.saturating_add(1);
        self.check_again(&left, step.0)
    }

    /// What a cut leaves, before which so many commands are answered.
    fn cut(&self, answered: usize, trouble: Trouble<'_>) -> Result<Images, Fault> {
        let commands = &self.story.commands;
        let outcome = run(self.alloc, self.images, &commands.script, trouble)?;
        let expected = commands.replies_to(answered);
        match outcome.before_cut() {
            Some(replies) if replies == expected => Ok(Images::of(self.alloc, &outcome.sim)?),
            _ => Err(Fault::differs(self.alloc, "reply", &outcome.out, expected)),
        }
    }

    /// Which of two states images have, each told by its step and how many commands of the tail
    /// stand behind that.
    fn find_state(
        &self,
        images: &Images,
        step: usize,
        tail: usize,
        other_step: usize,
        other_tail: usize,
    ) -> Result<(usize, usize), Fault> {
        let came = replies(self.alloc, images, self.story.states.script())?;
        if came.as_slice() == self.story.states.text(step, tail) {
            return Ok((step, tail));
        }
        let other = self.story.states.text(other_step, other_tail);
        if came.as_slice() == other {
            return Ok((other_step, other_tail));
        }
        Err(Fault::differs(self.alloc, "state", &came, other))
    }

    /// The tail, and those cuts within its writes whose turn it is, on what a cut left that has the
    /// state behind this step.
    fn check_again(&mut self, left: &Images, step: usize) -> Result<(), Fault> {
        for write in 1..=self.writes_of_tail(left)? {
            self.places = self.places.wrapping_add(1);
            if self.places % self.story.again.max(1) != 0 {
                continue;
            }
            if let Err(fault) = self.check_second(left, step, write) {
                let place = format!(in self.alloc; "second cut {write}")?;
                return Err(fault.at(self.alloc, place.as_str()));
            }
        }
        Ok(())
    }

    /// Runs the tail, and counts its writes.
    fn writes_of_tail(&self, left: &Images) -> Result<u32, Fault> {
        let tail = &self.story.tail;
        let outcome = run(self.alloc, left, &tail.script, Trouble::Nothing)?;
        if outcome.out.as_slice() != tail.replies.as_slice() {
            return Err(Fault::differs(self.alloc, "reply", &outcome.out, &tail.replies));
        }
        Ok(outcome.sim.device_writes())
    }

    /// A second cut.
    fn check_second(&mut self, left: &Images, step: usize, write: u32) -> Result<(), Fault> {
        let turn = self.firsts.wrapping_add(write) as usize;
        let trouble = Trouble::Cut {
            write,
            keep: KEEPS[turn % KEEPS.len()],
            bytes: BYTES[turn % BYTES.len()],
        };
        let (images, answered) = self.cut_tail(left, trouble)?;
        self.find_state(&images, step, answered, step, answered.saturating_add(1))?;
        self.seconds = self.seconds.saturating_add(1);
        Ok(())
    }

    /// What a cut within the tail leaves, and how many of its commands are answered before.
    fn cut_tail(&self, left: &Images, trouble: Trouble<'_>) -> Result<(Images, usize), Fault> {
        let tail = &self.story.tail;
        let outcome = run(self.alloc, left, &tail.script, trouble)?;
        let Some(shown) = outcome.before_cut() else {
            return Err(Fault::differs(self.alloc, "reply", &outcome.out, b"cut"));
        };
        let answered = count_lines(shown);
        let expected = tail.replies_to(answered);
        if shown != expected {
            return Err(Fault::differs(self.alloc, "reply", shown, expected));
        }
        Ok((Images::of(self.alloc, &outcome.sim)?, answered))
    }
}
