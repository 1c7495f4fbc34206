//! A mounted folder: what the kernel asks of it comes to commands on a file system, and to an
//! answer, as the table of requests says (`specs/Requests.antt`). Proved is that each message that
//! comes is answered so, and that its reply goes behind the commit that makes durable what it tells,
//! or, where that is deferred, within a bound of bytes and time before it (`specs/Serving.antt`); and
//! that each function is safe and ends, whatever the kernel sends and the file system replies.
#![tactic(auto)]

mod agreeing;
mod answer;
mod answering;
mod asking;
mod attributes;
mod batch;
mod changing;
mod commands;
mod durability;
mod errno;
mod files;
mod finding;
mod keeping;
mod kept;
mod listing;
mod looking;
mod making;
mod marks;
mod memory;
mod message;
mod node;
mod numbers;
mod question;
mod removing;
mod replying;
mod serving;
mod setting;
mod snapshots;

pub use changing::requests_change_once;
pub use durability::Durability;
pub use serving::{Ending, Owner, serve};
