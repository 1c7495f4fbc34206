//! A story's commands in batches, cut within each write.

use crate::fault::Fault;
use crate::image_pair::Images;
use crate::running::{Outcome, Trouble, replies, run_together};
use crate::story::Story;
use crate::text::count_lines;
use std::alloc::Global;

/// How a story's commands run in batches.
#[derive(Clone, Copy, Drop)]
pub struct Together {
    /// So many lines wait at once.
    pub lines: usize,
    /// So many device writes they make.
    pub writes: u32,
}

/// What of the sectors written since the last sync stays, and how many bytes of a write to the
/// NVRAM.
const CUTS: [(&str, u32); 5] = [
    ("none", 0),
    ("all", 0),
    ("10", 0),
    ("none", 1),
    ("none", 12),
];

/// Cuts within each write of the commands in batches. The replies are those of whole batches, and a
/// cut leaves what stands behind these, or behind the whole of one more.
pub fn check_together(
    alloc: Global,
    story: &Story<'_>,
    images: &Images,
    together: Together,
) -> Result<(), Fault> {
    let batches = Batches {
        alloc,
        story,
        images,
        together,
    };
    let borders = batches.borders()?;
    for write in 1..=together.writes {
        for (keep, bytes) in CUTS {
            if let Err(fault) = batches.check_cut(borders.as_slice(), write, keep, bytes) {
                let place = format!(in alloc; "in batches, cut {write} {keep} {bytes}")?;
                return Err(fault.at(alloc, place.as_str()));
            }
        }
    }
    Ok(())
}

/// A story's commands in batches.
#[derive(Clone, Copy, Drop)]
struct Batches<'a> {
    alloc: Global,
    story: &'a Story<'a>,
    images: &'a Images,
    together: Together,
}

impl Batches<'_> {
    /// How many commands are answered when a batch ends, in rising order; that of the last is all.
    fn borders(&self) -> Result<Vec<usize>, Fault> {
        let mut borders = Vec::new(self.alloc);
        for write in 1..=self.together.writes {
            let answered = self.answered(&self.cut(write, "none", 0)?)?;
            if borders.last() != Some(&answered) {
                borders.push(answered)?;
            }
        }
        let whole = self.run(Trouble::Nothing)?;
        let expected = &self.story.commands.replies;
        if whole.out.as_slice() != expected.as_slice() {
            return Err(Fault::differs(self.alloc, "reply", &whole.out, expected));
        }
        if whole.sim.device_writes() != self.together.writes {
            return Err(Fault::differs(self.alloc, "writes", b"others", b"those in batches"));
        }
        borders.push(self.story.commands.count())?;
        Ok(borders)
    }

    fn run(&self, trouble: Trouble<'_>) -> Result<Outcome, Fault> {
        run_together(
            self.alloc,
            self.images,
            &self.story.commands.script,
            self.together.lines,
            trouble,
        )
    }

    fn cut(&self, write: u32, keep: &str, bytes: u32) -> Result<Outcome, Fault> {
        self.run(Trouble::Cut { write, keep, bytes })
    }

    /// How many commands are answered before a cut, with just their replies.
    fn answered(&self, outcome: &Outcome) -> Result<usize, Fault> {
        let Some(shown) = outcome.before_cut() else {
            return Err(Fault::differs(self.alloc, "reply", &outcome.out, b"cut"));
        };
        let answered = count_lines(shown);
        let expected = self.story.commands.replies_to(answered);
        if shown != expected {
            return Err(Fault::differs(self.alloc, "reply", shown, expected));
        }
        Ok(answered)
    }

    fn check_cut(
        &self,
        borders: &[usize],
        write: u32,
        keep: &str,
        bytes: u32,
    ) -> Result<(), Fault> {
        let outcome = self.cut(write, keep, bytes)?;
        let answered = self.answered(&outcome)?;
        let next = borders.iter().find(|border| **border > answered);
        let images = Images::of(self.alloc, &outcome.sim)?;
        let states = &self.story.states;
        let came = replies(self.alloc, &images, states.script())?;
        let before = states.text(answered, 0);
        let behind = match next {
            Some(next) => states.text(*next, 0),
            None => before,
        };
        if came.as_slice() != before && came.as_slice() != behind {
            return Err(Fault::differs(self.alloc, "state", &came, behind));
        }
        Ok(())
    }
}
