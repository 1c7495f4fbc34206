//! How the kernel asks and is answered: whole requests come in, whole replies go out.
#![tactic(auto)]

mod channel;
mod streams;

pub use channel::{Channel, Ended, Received, Sent};
pub use streams::Streams;
