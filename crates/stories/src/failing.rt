//! The device calls of a story: each of them fails in turn.

use crate::fault::Fault;
use crate::image_pair::Images;
use crate::running::{Outcome, Trouble, replies, run};
use crate::story::Story;
use std::alloc::Global;

/// What came of a call that failed.
#[derive(Clone, Copy, Debug, PartialEq, Eq)]
enum Came {
    /// Nothing was mounted.
    Unmounted,
    /// One command was refused for it.
    Refused,
    /// This command, counted from 0, was refused for it, and then all others.
    Failed(usize),
}

/// Has each device call fail in turn, and says how many there are.
pub fn check_failing(alloc: Global, story: &Story<'_>, images: &Images) -> Result<u32, Fault> {
    let calls = calls_of(alloc, images, &story.commands.script)?;
    for call in 1..=calls {
        if let Err(fault) = check_call(alloc, story, images, call) {
            let place = format!(in alloc; "failing call {call}")?;
            return Err(fault.at(alloc, place.as_str()));
        }
    }
    Ok(calls)
}

/// The commands behind the first ones, so many, make no device call.
pub fn check_quiet(
    alloc: Global,
    story: &Story<'_>,
    images: &Images,
    most: usize,
) -> Result<(), Fault> {
    let of_first = calls_of(alloc, images, story.commands.script_to(most))?;
    if calls_of(alloc, images, &story.commands.script)? != of_first {
        return Err(Fault::differs(alloc, "device calls", b"some", b"none"));
    }
    Ok(())
}

/// How many device calls a mount and a run of these commands make.
fn calls_of(alloc: Global, images: &Images, script: &[u8]) -> Result<u32, Fault> {
    Ok(
        run(alloc, images, script, Trouble::Nothing)?
            .sim
            .device_calls(),
    )
}

fn check_call(alloc: Global, story: &Story<'_>, images: &Images, call: u32) -> Result<(), Fault> {
    let outcome = run(
        alloc,
        images,
        &story.commands.script,
        Trouble::Failing(call),
    )?;
    let left = Images::of(alloc, &outcome.sim)?;
    match what_came(alloc, story, &outcome)? {
        Came::Unmounted if !left.is_same(images) => {
            Err(Fault::differs(alloc, "images", b"others", b"the same"))
        }
        Came::Failed(command) => {
            let shown = replies(alloc, &left, story.states.script())?;
            let behind = story.states.text(command.saturating_add(1), 0);
            if shown.as_slice() != story.states.text(command, 0) && shown.as_slice() != behind {
                return Err(Fault::differs(alloc, "state", &shown, behind));
            }
            Ok(())
        }
        Came::Unmounted | Came::Refused => Ok(()),
    }
}

/// What the replies of a run show.
fn what_came(alloc: Global, story: &Story<'_>, outcome: &Outcome) -> Result<Came, Fault> {
    if outcome.status == 4 {
        let expected = b"wafl: mount DEVICE\n".as_slice();
        if outcome.err.as_slice() == expected && outcome.out.is_empty() {
            return Ok(Came::Unmounted);
        }
        return Err(Fault::differs(alloc, "mount", &outcome.err, expected));
    }
    let came = outcome.out.as_slice();
    let failed = first_failed(came);
    let without = replies_without(alloc, story, failed)?;
    if came == without.as_slice() {
        return Ok(Came::Refused);
    }
    let down = replies_failed(alloc, story, failed)?;
    if came == down.as_slice() {
        return Ok(Came::Failed(failed));
    }
    Err(Fault::differs(alloc, "reply", came, &without))
}

/// The first command that was answered `err EIO`.
fn first_failed(came: &[u8]) -> usize {
    let place = came
        .split(|byte| *byte == b'\n')
        .position(|line| line == b"err EIO".as_slice());
    place.unwrap_or(0)
}

/// The replies where a command finds that a read fails: those of a run without it, and `err EIO` in
/// its place.
fn replies_without(alloc: Global, story: &Story<'_>, failed: usize) -> Result<Vec<u8>, Fault> {
    let mut text = Vec::new(alloc);
    for (place, line) in story
        .commands
        .replies
        .split(|byte| *byte == b'\n')
        .enumerate()
    {
        if place == story.commands.count() {
            break;
        }
        let reply = if place == failed {
            b"err EIO"
        } else {
            reply_without(story, failed, place).unwrap_or(line)
        };
        text.extend_from_slice(reply)?;
        text.push(b'\n')?;
    }
    Ok(text)
}

/// What a command is answered in a run without another one, where that is another reply.
fn reply_without<'a>(story: &Story<'a>, left_out: usize, command: usize) -> Option<&'a [u8]> {
    let mut withouts = story.withouts.iter();
    let found = withouts.find(|it| it.left_out == left_out && it.command == command)?;
    Some(found.reply.as_bytes())
}

/// The replies where a write or a sync fails within a command: `err EIO`, and behind it `err
/// FAILED` to all.
fn replies_failed(alloc: Global, story: &Story<'_>, failed: usize) -> Result<Vec<u8>, Fault> {
    let mut text = Vec::from_slice(alloc, story.commands.replies_to(failed))?;
    text.extend_from_slice(b"err EIO\n")?;
    for _ in failed.saturating_add(1)..story.commands.count() {
        text.extend_from_slice(b"err FAILED\n")?;
    }
    Ok(text)
}
