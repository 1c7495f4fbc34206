//! Stories: lists of commands over an image, with what is to come of them while the power is cut
//! within each write, each device call fails, or bytes of the image change one at a time. The head
//! of each story says how one is written; they were written by a plain model in Python, see the
//! folder `plain`. Of this crate it is proved that it is safe and total, and no more: what a story
//! says is compared with what comes.
#![tactic(auto)]

mod batching;
mod checking;
mod commands;
mod cutting;
mod failing;
mod fault;
mod image_pair;
mod running;
mod states;
mod story;
mod sweeping;
mod text;

pub use checking::check_files;
