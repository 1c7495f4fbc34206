//! A channel over a reader and a writer: the kernel's device, open as two streams.

ghost use Rattle.std.specs.Io.KnownBytes.{Appends, Consumes, Keeps};
ghost use Rattle.std.specs.Prelude.{◌≡◌, ◌<◌, ◌≤◌, ℕ, List, MatchResult, length};
ghost use Rattle.channel.specs.Sending.{Asked, Went};

use crate::{Channel, Ended, Received, Sent};
use std::io::{Error, Read, Write};

/// A reader that gives a whole request by each read, and a writer that takes a whole reply by each
/// write, as `/dev/fuse` does.
#[derive(Drop)]
pub struct Streams<R, W> {
    input: R,
    output: W,
}

impl<R: Read, W: Write> Streams<R, W> {
    pub fn new(input: R, output: W) -> Streams<R, W> {
        Streams { input, output }
    }
}

/// ENOENT: the request was taken back. EINTR and EAGAIN: nothing came yet.
const TAKEN_BACK: i32 = 2;

const INTERRUPTED: i32 = 4;

const TRY_AGAIN: i32 = 11;
/// ENODEV: the folder was unmounted.
const UNMOUNTED: i32 = 19;

/// Whether a read is to be tried again.
fn is_passing(error: &Error) -> bool {
    matches!(
        error.raw_os_error(),
        Some(TAKEN_BACK | INTERRUPTED | TRY_AGAIN)
    )
}

impl<R: Read, W: Write> Channel for Streams<R, W> {
    ghost receives = { λ s t room found. (t.output ≡ s.output) × MatchResult found
        (λ request. (0 < length request) × (length request ≤ room)
        × Consumes (R.remaining s.input) (R.remaining t.input) request)
        (λ ended. Keeps (R.remaining s.input) (R.remaining t.input)) };

    ghost sends = { λ s t reply result. (t.input ≡ s.input) × ((part : List ℕ)
        × Went reply result part × Appends (W.contents s.output) (W.contents t.output) part) };

    ghost asks = { λ s t question taken. (t.input ≡ s.input) × ((part : List ℕ)
        × Asked question taken part × Appends (W.contents s.output) (W.contents t.output) part) };

    ghost coming = { λ s. R.remaining s.input };

    ghost gone = { λ s. W.contents s.output };

    fn receive(&mut self, room: &mut [u8]) -> Result<Received, Ended> {
        for _ in 0..u64::MAX {
            match self.input.read(room) {
                Ok(0) => return Err(Ended::Unmounted),
                Ok(count) => return Ok(Received { count }),
                Err(error) if is_passing(&error) => continue,
                Err(error) if error.raw_os_error() == Some(UNMOUNTED) => {
                    return Err(Ended::Unmounted);
                }
                Err(_) => return Err(Ended::Failed),
            }
        }
        Err(Ended::Failed)
    }

    fn send(&mut self, reply: &[u8]) -> Result<Sent, Ended> {
        match self.output.write(reply) {
            Ok(count) if count == reply.len() => Ok(Sent::Whole),
            Ok(_) => Err(Ended::Failed),
            Err(error) => match error.raw_os_error() {
                Some(TAKEN_BACK) => Ok(Sent::Unwanted),
                Some(UNMOUNTED) => Err(Ended::Unmounted),
                _ => Err(Ended::Failed),
            },
        }
    }

    fn ask(&mut self, question: &[u8]) -> bool {
        match self.output.write(question) {
            Ok(count) if count == question.len() => true,
            Ok(_) => false,
            Err(_) => false,
        }
    }
}
