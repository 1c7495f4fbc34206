//! What a server needs of a file system: it applies commands, in whose paths objects go by their
//! numbers, and it tells a number that comes again from the one before.
#![tactic(auto)]

mod file_system;
mod handle;
mod starts;

pub use file_system::FileSystem;
pub use handle::Handle;
pub use starts::path_from;
