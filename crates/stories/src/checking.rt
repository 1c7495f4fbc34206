//! Stories in files, and whether they hold.

use crate::batching::check_together;
use crate::cutting::Cutting;
use crate::failing::{check_failing, check_quiet};
use crate::fault::Fault;
use crate::image_pair::Images;
use crate::running::{Outcome, Trouble, run};
use crate::story::Story;
use crate::sweeping::Swept;
use std::alloc::{AllocError, Global};
use std::process::ExitCode;
use std::{env, fs, io};

/// Checks the stories in the files that the program's words name, and shows a line for each: how
/// much of it was tried, or the first thing that came otherwise. Success where all hold.
pub fn check_files(rt: &HostRuntime) -> ExitCode {
    if keep_memory(rt.alloc()).is_err() {
        return ExitCode::from(2);
    }
    match check_all(rt) {
        Ok(true) => ExitCode::SUCCESS,
        Ok(false) => ExitCode::FAILURE,
        Err(error) => {
            let _ = eprintln!(rt; "{error}");
            ExitCode::from(2)
        }
    }
}

/// Takes a big part of the heap and gives it back: from then on the C library's heap keeps what it
/// has for the next image, in place of giving it back to the system each time, which makes a run
/// five times as long.
fn keep_memory(alloc: Global) -> Result<(), AllocError> {
    let mut bytes: Vec<u8> = Vec::with_capacity(alloc, 32_000_000)?;
    bytes.push(0)?;
    Ok(())
}

/// Checks the stories that the program's words name. Whether all hold.
fn check_all(rt: &HostRuntime) -> io::Result<bool> {
    let mut all_hold = true;
    for name in env::args(rt)?.skip(1) {
        let text = fs::read_to_string(rt, name.as_str())?;
        match check_story(rt, text.as_str()) {
            Ok(told) => println!(rt; "{name}: {told}")?,
            Err(fault) => {
                all_hold = false;
                println!(rt; "{name}: {fault}")?;
            }
        }
    }
    Ok(all_hold)
}

/// Checks a story, and says what of it was tried. What the program alone can count goes to standard
/// error: no expected text has it.
fn check_story(rt: &HostRuntime, text: &str) -> Result<String, Fault> {
    let alloc = rt.alloc();
    let story = Story::read(alloc, text)?;
    let mut images = begin(alloc, &story)?;
    let (firsts, seconds) = count_cuts(alloc, &story, &images)?;
    if let Some(together) = story.together {
        check_together(alloc, &story, &images, together)?;
    }
    let failing = count_failing(alloc, &story, &images)?;
    let (mounted, refused) = count_changed(alloc, &story, &mut images)?;
    let _ = eprintln!(rt;
        "{failing} calls failed, {mounted} changed images were mounted, {refused} weren't"
    );
    let commands = story.commands.count();
    Ok(format!(in alloc; "{commands} commands, {firsts} cuts, {seconds} second cuts")?)
}

/// The images that a story's commands run on. Those commands are run once, but where bytes are to
/// be changed.
fn begin(alloc: Global, story: &Story<'_>) -> Result<Images, Fault> {
    let fresh = story.images()?;
    let before = run_whole(alloc, &fresh, &story.before.script, &story.before.replies)?;
    let images = Images::of(alloc, &before.sim)?;
    if story.sweeps.is_empty() {
        run_whole(
            alloc,
            &images,
            &story.commands.script,
            &story.commands.replies,
        )?;
    }
    Ok(images)
}

/// Checks each cut of a story, and counts them: first ones, and those of what was done behind a
/// first.
fn count_cuts(alloc: Global, story: &Story, images: &Images) -> Result<(u32, u32), Fault> {
    let mut cutting = Cutting::new(alloc, story, images);
    cutting.check()?;
    Ok((cutting.firsts, cutting.seconds))
}

/// Checks what a story says of device calls, and counts those that failed.
fn count_failing(alloc: Global, story: &Story, images: &Images) -> Result<u32, Fault> {
    if let Some(most) = story.quiet {
        check_quiet(alloc, story, images, most)?;
    }
    if story.is_failing {
        return check_failing(alloc, story, images);
    }
    Ok(0)
}

/// Checks the images of which bytes are changed, and counts those that are mounted and those that
/// aren't.
fn count_changed(
    alloc: Global,
    story: &Story<'_>,
    images: &mut Images,
) -> Result<(u32, u32), Fault> {
    let mut swept = Swept::new();
    for sweep in story.sweeps.iter() {
        swept.check(alloc, story, images, *sweep)?;
    }
    Ok((swept.mounted, swept.refused))
}

/// Runs commands without trouble, and compares their replies.
fn run_whole(
    alloc: Global,
    images: &Images,
    script: &[u8],
    replies: &[u8],
) -> Result<Outcome, Fault> {
    let outcome = run(alloc, images, script, Trouble::Nothing)?;
    if outcome.status != 0 || outcome.out.as_slice() != replies {
        return Err(Fault::differs(alloc, "reply", &outcome.out, replies));
    }
    Ok(outcome)
}
