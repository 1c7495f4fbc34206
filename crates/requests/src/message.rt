//! Messages between a kernel and a server, and bytes as rows write them.

use crate::fault::Fault;
use std::alloc::Global;
use std::time::Duration;

/// Which way a message goes.
#[derive(Clone, Copy, Debug, PartialEq, Eq)]
pub enum Way {
    /// The kernel asks the server.
    Asked,
    /// The server replies.
    Told,
    /// The server asks the kernel for a message, and the kernel takes that.
    Taken,
    /// The same, and the kernel refuses it.
    Refused,
}

/// A message.
#[derive(Drop)]
pub struct Message<'a> {
    /// What it is, as a reader is told.
    pub about: &'a str,
    /// The time of it, from 1970 on.
    pub at: Duration,
    pub way: Way,
    pub bytes: Vec<u8>,
}

/// The bytes of some words: two hexadecimal digits each, and `HH*N` for so many of one; `-` for none.
pub fn bytes_of(alloc: Global, words: &str) -> Result<Vec<u8>, Fault> {
    let mut bytes = Vec::new(alloc);
    if words == "-" {
        return Ok(bytes);
    }
    for word in words.split(' ') {
        let (digits, count) = match word.split_once('*') {
            Some((digits, count)) => (digits, count.parse().ok()),
            None => (word, Some(1)),
        };
        let (Ok(part), Some(count)) = (hex::decode(alloc, digits), count) else {
            return Err(Fault::misread(alloc, words));
        };
        push_times(&mut bytes, &part, count)?;
    }
    Ok(bytes)
}

fn push_times(bytes: &mut Vec<u8>, part: &[u8], count: u32) -> Result<(), Fault> {
    for _ in 0..count {
        bytes.extend_from_slice(part)?;
    }
    Ok(())
}
