//! Replies that are kept, in the order of their requests, until what they tell is durable.

ghost use Rattle.std.specs.Io.KnownBytes.{Appends};
ghost use Rattle.std.specs.Prelude.{◌≡◌, ◌++◌, ◌∷◌, [], ◌≤◌, List, ℕ, length, map, OnErr, OnOk, IfOk};
ghost use Rattle.served.specs.Kept.{AreWithin, Owed, lost_by, owed, owed_at, owed_behind};
ghost use Rattle.served.specs.Replying.{spelled};
ghost use Rattle.served.specs.Serving.{AreSent, IsSent};

use crate::answer::Answer;
use crate::errno::linux_number;
use crate::numbers::MOST_BYTES;
use crate::replying::write_answer;
use channel::{Channel, Ended};
use fuse::error_bytes;
use model::Errno;
use std::alloc::{AllocError, Global};
use std::marker::Model;

/// So many bytes of replies are kept at the most, but for the last one: as many as a read may ask.
const MOST_KEPT: usize = MOST_BYTES as usize;
/// So many messages have their replies kept at the most. The kernel itself lets so many requests wait
/// only where as many programs wait for each.
const MOST_PLACES: usize = 1024;
/// A reply has no more bytes than a read may ask, and its head.
const MOST_REPLY_BYTES: usize = MOST_BYTES as usize + 4096;

/// Where a reply lies, and the number of its request.
#[derive(Clone, Copy, Debug)]
pub(crate) struct Place {
    unique: u64,
    begin: usize,
    end: usize,
}

/// Replies that are kept, with a place for each message, though it have no reply.
#[derive(Drop)]
pub(crate) struct Kept {
    bytes: Vec<u8>,
    places: Vec<Place>,
}

impl Model for Kept {
    ghost Value = { List Owed };

    ghost view = { λ k. map (owed_at k.bytes.items) k.places.items };

    ghost invariant = { λ k. AreWithin (length k.bytes.items) k.places.items };
}

impl Kept {
    /// Keeps none. The memory for all that may be kept is taken here.
    pub(crate) fn new(alloc: Global) -> Result<Kept, AllocError>
        ensures { IfOk result (λ kept. kept ≡ []) }
    {
        Ok(Kept {
            bytes: Vec::with_capacity(alloc, MOST_KEPT + MOST_REPLY_BYTES)?,
            places: Vec::with_capacity(alloc, MOST_PLACES)?,
        })
    }

    /// Whether one message alone has a place.
    pub(crate) fn is_lone(&self) -> bool {
        self.places.len() == 1
    }

    /// Whether no more should be kept.
    pub(crate) fn is_full(&self) -> bool {
        self.bytes.len() >= MOST_KEPT || self.places.len() >= MOST_PLACES
    }

    /// Keeps the reply to the request of this number, behind the others.
    pub(crate) fn keep(&mut self, unique: u64, answer: &Answer) -> Result<(), AllocError>
        ensures ok { OnOk result
            (self.new ≡ self.old ++ owed unique (spelled unique answer.now) ∷ []) }
        ensures err { OnErr result (self.new ≡ self.old) }
    {
        let begin = self.bytes.len();
        match write_answer(&mut self.bytes, unique, answer) {
            Ok(()) => {}
            Err(error) => return Err(error),
        }
        let end = self.bytes.len();
        match self.places.push(Place { unique, begin, end }) {
            Ok(()) => {}
            Err(_) => return Err(AllocError),
        }
        Ok(())
    }

    /// Sends what is kept behind a commit that came to this, until the channel ends.
    pub(crate) fn send<K: Channel>(
        &self,
        done: Result<(), Errno>,
        channel: &mut K,
    ) -> Result<(), Ended>
        ensures sends { (went : List ℕ) × AreSent K.Channel channel.old channel.new (map (owed_behind done) self.now) went result
            × Appends (K.gone channel.old) (K.gone channel.new) went }
        ensures coming { K.coming channel.new ≡ K.coming channel.old }
    {
        let bytes = self.bytes.as_slice();
        let places = self.places.as_slice();
        for place in places {
            match send_one(bytes, *place, done, channel) {
                Ok(()) => {}
                Err(ended) => return Err(ended),
            }
        }
        Ok(())
    }

    /// Keeps none any more.
    pub(crate) fn clear(&mut self)
        ensures { self.new ≡ [] }
    {
        self.places.clear();
        self.bytes.clear();
    }
}

/// Sends what lies at a place behind a commit that came to this.
fn send_one<K: Channel>(
    bytes: &[u8],
    place: Place,
    done: Result<(), Errno>,
    channel: &mut K,
) -> Result<(), Ended>
    requires order { place.begin ≤ place.end }
    requires within { place.end ≤ length bytes.now }
    ensures sends { (part : List ℕ) × IsSent K.Channel channel.old channel.new (owed_behind done (owed_at bytes.now place)) part result
        × Appends (K.gone channel.old) (K.gone channel.new) part }
    ensures coming { K.coming channel.new ≡ K.coming channel.old }
{
    let text = &bytes[place.begin..place.end];
    match done {
        Ok(()) => send_reply(channel, text),
        Err(_) => send_lost(channel, text, place.unique),
    }
}

/// Sends that the request of this number failed, in the place of a reply; in that of an empty one
/// nothing.
fn send_lost<K: Channel>(channel: &mut K, text: &[u8], unique: u64) -> Result<(), Ended>
    ensures sends { (part : List ℕ) × IsSent K.Channel channel.old channel.new (lost_by unique text.now) part result
        × Appends (K.gone channel.old) (K.gone channel.new) part }
    ensures coming { K.coming channel.new ≡ K.coming channel.old }
{
    if text.is_empty() {
        return Ok(());
    }
    send_reply(channel, &error_bytes(unique, linux_number(Errno::EIO)))
}

/// Sends a reply; an empty one is none.
#[tactic(none)]
fn send_reply<K: Channel>(channel: &mut K, reply: &[u8]) -> Result<(), Ended>
    ensures sends { (part : List ℕ)
        × IsSent K.Channel channel.old channel.new reply.now part result
        × Appends (K.gone channel.old) (K.gone channel.new) part }
    ensures coming { K.coming channel.new ≡ K.coming channel.old }
{
    if reply.is_empty() {
        return Ok(());
    }
    match channel.send(reply) {
        Ok(_) => Ok(()),
        Err(ended) => Err(ended),
    }
}
