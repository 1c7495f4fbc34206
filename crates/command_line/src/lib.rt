//! The command line: what the words of the program ask for, which `clap` reads, and what its help
//! says; the line of a script that words of the program spell; and why a line of a script is no
//! command, and how it would be spelled.
#![tactic(auto)]

mod arguments;
mod commands;
mod durability;
mod forms;
mod help_texts;
mod line;
mod near_misses;
mod numbers;
mod options;
mod script_lines;
mod script_words;
mod spelled_line;
mod values;
mod waiting;

pub use durability::Durability;
pub use help_texts::COMMAND_NOTES;
pub use line::{Asked, Kept, Line, LineError, Options, RunFaults, read_line};
pub use script_lines::explain_line;
pub use spelled_line::{are_words, line_of_typed, line_of_words, typed_line};
pub use waiting::Wait;
