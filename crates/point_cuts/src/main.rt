//! Cuts amid points: stories of commands that write a consistency point in slices, cut within each
//! write and behind that once more.
#![tactic(auto)]

use std::process::ExitCode;
use stories::check_files;

fn main(rt: HostRuntime) -> ExitCode {
    check_files(&rt)
}
