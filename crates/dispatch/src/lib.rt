//! Calls, served on a mounted system: each is answered from the image in memory, or prepared, logged
//! and put in force; or put in force while its record waits.
#![tactic(auto)]

mod changing;
mod open_file_change;
mod open_file_reading;
mod open_files;
mod path_change;
mod prepared_call;
mod preparing;
mod reading;
mod saying;
mod serving;
mod snapshot_reading;
mod table_move;
mod waiting;

pub use serving::{call, call_waiting};
