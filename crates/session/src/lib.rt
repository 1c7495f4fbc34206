//! A session: commands done on a mounted station, each one answered before the next begins, and the
//! status that tells how it ended. The commands are those of a script, which is read and tested
//! whole first, or of lines that are read one by one.
#![tactic(auto)]

mod answering;
mod durability;
mod ending;
mod in_batches;
mod kept;
mod line_by_line;
mod lines;
mod reading;
mod running;
mod settling;
mod status;
mod streams;
mod telling;
mod unsettled;

pub use durability::Durability;
pub use ending::{Ending, Fault};
pub use in_batches::{Manners, session_in_batches, shell_in_batches};
pub use line_by_line::shell;
pub use reading::LINE_BYTES;
pub use running::session;
pub use status::Status;
pub use streams::{Sink, Source};
