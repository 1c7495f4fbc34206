//! Bytes of an image changed one at a time: whatever they become, a mount, a run and a check come
//! to an end.

use crate::fault::Fault;
use crate::image_pair::Images;
use crate::running::{Trouble, run};
use crate::story::{Story, Sweep};
use checker::{Finding, Watch, check};
use std::alloc::Global;

/// What a byte becomes.
const VALUES: [u8; 2] = [0x00, 0xff];

/// What images with a changed byte came to.
#[derive(Drop)]
pub struct Swept {
    pub mounted: u32,
    pub refused: u32,
}

/// Nobody looks what a check finds.
#[derive(Drop)]
struct Unwatched;

impl Watch for Unwatched {
    fn goes_on(&mut self, _done: u32, _of: u32) {}

    fn finds(&mut self, _finding: &Finding) {}
}

impl Swept {
    pub fn new() -> Swept {
        Swept {
            mounted: 0,
            refused: 0,
        }
    }

    /// Changes each byte of some places.
    pub fn check(
        &mut self,
        alloc: Global,
        story: &Story<'_>,
        images: &mut Images,
        sweep: Sweep,
    ) -> Result<(), Fault> {
        for place in sweep.places.0..=sweep.places.1 {
            if let Err(fault) = self.check_place(alloc, story, images, sweep.is_of_disk, place) {
                let text = format!(in alloc; "byte {place}")?;
                return Err(fault.at(alloc, text.as_str()));
            }
        }
        Ok(())
    }

    /// Changes a byte to each of the values, and back.
    fn check_place(
        &mut self,
        alloc: Global,
        story: &Story<'_>,
        images: &mut Images,
        is_of_disk: bool,
        place: u32,
    ) -> Result<(), Fault> {
        let Some(before) = byte_of(images, is_of_disk, place) else {
            return Err(Fault::misread(alloc, "sweep"));
        };
        for value in VALUES {
            if value != before {
                set_byte(images, is_of_disk, place, value);
                self.check_images(alloc, story, images)?;
            }
        }
        set_byte(images, is_of_disk, place, before);
        Ok(())
    }

    /// A mount, the commands and a check come to an end. What isn't mounted isn't good.
    fn check_images(
        &mut self,
        alloc: Global,
        story: &Story<'_>,
        images: &Images,
    ) -> Result<(), Fault> {
        let outcome = run(alloc, images, &story.commands.script, Trouble::Nothing)?;
        let Ok((report, _sim)) = check(alloc, images.load(alloc)?, &mut Unwatched) else {
            return Err(Fault::differs(alloc, "check", b"no report", b"a report"));
        };
        let report = format!(in alloc; "{report}")?;
        let is_good = report.starts_with("ok ");
        match outcome.status {
            0 if line_count(&outcome.out) == story.commands.count() => {
                self.mounted = self.mounted.saturating_add(1);
                Ok(())
            }
            4 if outcome.out.is_empty() && !is_good => {
                self.refused = self.refused.saturating_add(1);
                Ok(())
            }
            _ => Err(Fault::differs(alloc, report.as_str(), &outcome.err, &outcome.out)),
        }
    }
}

fn line_count(text: &[u8]) -> usize {
    text.split(|byte| *byte == b'\n').count().saturating_sub(1)
}

fn byte_of(images: &Images, is_of_disk: bool, place: u32) -> Option<u8> {
    let bytes = if is_of_disk {
        &images.disk
    } else {
        &images.nvram
    };
    bytes.get(place as usize).copied()
}

fn set_byte(images: &mut Images, is_of_disk: bool, place: u32, value: u8) {
    if is_of_disk {
        set_in(&mut images.disk, place as usize, value);
    } else {
        set_in(&mut images.nvram, place as usize, value);
    }
}

fn set_in(bytes: &mut [u8], place: usize, value: u8) {
    if place < bytes.len() {
        bytes[place] = value;
    }
}
