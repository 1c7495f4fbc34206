//! A copy-on-write file system with snapshots, over a disk image and an NVRAM image: the program.
#![tactic(auto)]

use host_files::open_descriptors;
use session::Status;
use std::io::{ErrorKind, IsTerminal};
use std::os::unix::fs::FileTypeExt;
use std::process::ExitCode;
use std::{env, fs, io};
use tool::{Terminals, obey};

/// The name of standard input among the host's files.
const STANDARD_INPUT: &str = "/dev/stdin";

fn main(rt: HostRuntime) -> ExitCode {
    // Before any file is opened, so that none gets the number of a standard stream.
    open_descriptors(&rt);
    match obey_words(&rt) {
        Ok(status) => ExitCode::from(status),
        Err(error) => ExitCode::from(refuse(&rt, &error).number()),
    }
}

/// Does what the program's words ask for, over the standard streams.
fn obey_words(rt: &HostRuntime) -> io::Result<u8> {
    let words: Vec<String> = env::args(rt)?.collect(rt.alloc())?;
    let terminals = Terminals {
        input: rt.stdin().is_terminal(),
        out: rt.stdout().is_terminal(),
        err: rt.stderr().is_terminal(),
        is_pipe: is_pipe(rt, STANDARD_INPUT),
    };
    Ok(obey(
        rt,
        words.as_slice(),
        terminals,
        &mut rt.reader(),
        &mut rt.stdout(),
        &mut rt.stderr(),
    ))
}

/// Whether a file is one that another program writes while it is read. Where that can't be seen it
/// isn't.
fn is_pipe(rt: &HostRuntime, path: &str) -> bool {
    match fs::metadata(rt, path) {
        Ok(found) => found.file_type().is_fifo(),
        Err(_) => false,
    }
}

/// Says why the words can't be had, and what the program ends with.
fn refuse(rt: &HostRuntime, error: &io::Error) -> Status {
    if error.kind() == ErrorKind::OutOfMemory {
        let _ = eprintln!(rt; "wafl: no memory");
        return Status::NoMemory;
    }
    let _ = eprintln!(rt; "wafl: {error}");
    Status::NotUnderstood
}
