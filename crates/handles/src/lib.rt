//! Objects that are named by handles: a number with its generation, by which a number that comes
//! again is told from the one before.
#![tactic(auto)]

mod generations;
mod given;
mod numbered;
mod telling;

pub use file_system::Handle;
pub use given::fresh_numbers_are_given;
pub use numbered::Numbered;
pub use telling::handles_tell_objects;
