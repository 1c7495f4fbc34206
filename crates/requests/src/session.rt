//! What passes between one server and the kernel.

use crate::message::{Message, Way};
use served::Durability;
use std::alloc::Global;

/// A server over an image, from the mount to the end.
#[derive(Drop)]
pub struct Session<'a> {
    pub durability: Durability,
    /// The device write within which the power is cut, counted from 1, and how many of its bytes
    /// stay.
    pub cut: Option<(u32, u32)>,
    /// Not all that was done is durable in the end.
    pub is_lost: bool,
    /// How many device writes there are; None where the row doesn't say.
    pub writes: Option<u32>,
    /// In the order in which they pass.
    pub messages: Vec<Message<'a>>,
}

impl<'a> Session<'a> {
    /// One in which nothing passes.
    pub fn new(alloc: Global) -> Session<'a> {
        Session {
            durability: Durability::Together,
            cut: None,
            is_lost: false,
            writes: None,
            messages: Vec::new(alloc),
        }
    }

    /// How many messages the kernel sends.
    pub fn count(&self) -> usize {
        let mut count = 0_usize;
        for message in self.messages.iter() {
            if message.way == Way::Asked {
                count = count.saturating_add(1);
            }
        }
        count
    }
}
