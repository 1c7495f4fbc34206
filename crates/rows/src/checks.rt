//! A check of a row's images.

use crate::fault::Fault;
use crate::image_verbs::Images;
use crate::text::is_one_of;
use checker::{CheckError, Finding, Watch, check};
use std::alloc::{AllocError, Global};

/// What a check finds, a text for each tree.
#[derive(Drop)]
struct Told {
    alloc: Global,
    text: Result<String, AllocError>,
}

impl Watch for Told {
    fn goes_on(&mut self, _done: u32, _of: u32) {}

    fn finds(&mut self, finding: &Finding) {
        if let Ok(text) = &self.text {
            self.text = format!(in self.alloc; "{text}; {finding}");
        }
    }
}

/// `check -> REPORT; FINDING ..`: what a check of the images comes to, and behind it what it finds
/// in each tree. False where the line isn't understood.
pub fn compare_check(alloc: Global, images: &Images, words: &str) -> Result<bool, Fault> {
    let Some(expected) = words.strip_prefix("-> ") else {
        return Ok(false);
    };
    let came = check_text(alloc, images)?;
    if !is_one_of(alloc, came.as_bytes(), expected)? {
        return Err(Fault::differs(alloc, "check", came.as_bytes(), expected));
    }
    Ok(true)
}

/// No fault is to stand in the images.
pub fn expect_faultless(alloc: Global, images: &Images) -> Result<(), Fault> {
    let came = check_text(alloc, images)?;
    if !came.as_bytes().starts_with(b"ok ") {
        return Err(Fault::differs(alloc, "check", came.as_bytes(), "ok"));
    }
    Ok(())
}

fn check_text(alloc: Global, images: &Images) -> Result<String, Fault> {
    let sim = images.load(alloc)?;
    let mut told = Told {
        alloc,
        text: Ok(String::new(alloc)),
    };
    let report = match check(alloc, sim, &mut told) {
        Ok((report, _sim)) => report,
        Err((CheckError::NoMemory, _)) => return Err(Fault::NoMemory),
        Err((CheckError::Device, _)) => return Ok(String::from_str(alloc, "device")?),
    };
    let text = told.text?;
    Ok(format!(in alloc; "{report}{text}")?)
}
