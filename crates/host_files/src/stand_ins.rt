//! The first three descriptors of the program: standard input, standard output and standard error.

use std::fs;
use std::fs::{File, OpenOptions};
use std::os::fd::{AsRawFd, IntoRawFd};

/// The descriptor of standard input.
const STANDARD_INPUT: i32 = 0;

/// The descriptor of standard error, the last of the three.
const STANDARD_ERROR: i32 = 2;

/// What is opened in place of a closed descriptor.
const STAND_IN: &str = "/dev/null";

/// Opens a stand-in for each of the descriptors 0, 1 and 2 that is closed, which stays open. It has
/// to be called before any file is opened: else that file would get the number, and what the
/// program tells would be written into it. A stand-in refuses what its descriptor is for: a closed
/// standard input can't be read, and neither a closed standard output nor a closed standard error
/// can be written.
pub fn open_descriptors(rt: &HostRuntime) {
    for _ in STANDARD_INPUT..=STANDARD_ERROR {
        // The system gives a file the lowest number that is free.
        let Ok(file) = fs::open(rt, STAND_IN) else {
            return;
        };
        if file.as_raw_fd() > STANDARD_ERROR {
            return;
        }
        keep_open(rt, file);
    }
}

/// Keeps a stand-in open for good. The one of standard input is opened anew, for writing alone.
fn keep_open(rt: &HostRuntime, file: File) {
    if file.as_raw_fd() != STANDARD_INPUT {
        let _ = file.into_raw_fd();
        return;
    }
    drop(file);
    if let Ok(file) = OpenOptions::new().write(true).open(rt, STAND_IN) {
        let _ = file.into_raw_fd();
    }
}
