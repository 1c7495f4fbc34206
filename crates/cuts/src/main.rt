//! Cuts and failures: stories of forty commands of all kinds, cut within each write and behind that
//! once more, of bytes of an image that change, of two thousand commands, and of an image of the
//! formats' first version.
#![tactic(auto)]

use std::process::ExitCode;
use stories::check_files;

fn main(rt: HostRuntime) -> ExitCode {
    check_files(&rt)
}
