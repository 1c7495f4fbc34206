//! The tests of a mounted folder: reads files of rows, each the requests that a kernel sends to a new
//! image's server and the replies that are wanted, and says what differs. The heads of
//! `data/recorded.requests` and `data/batches.requests` say how rows are written.
#![tactic(auto)]

mod exchange;
mod fault;
mod message;
mod row;
mod serving;
mod session;

use fault::Fault;
use row::Row;
use serving::check_row;
use std::process::ExitCode;
use std::{env, fs, io};

fn main(rt: HostRuntime) -> ExitCode {
    match check_all(&rt) {
        Ok(true) => ExitCode::SUCCESS,
        Ok(false) => ExitCode::FAILURE,
        Err(error) => {
            let _ = eprintln!(rt; "requests: {error}");
            ExitCode::from(2)
        }
    }
}

/// Checks the files that the program's words name. Whether all their rows hold.
fn check_all(rt: &HostRuntime) -> io::Result<bool> {
    let mut all_hold = true;
    for name in env::args(rt)?.skip(1) {
        let text = fs::read_to_string(rt, name.as_str())?;
        all_hold &= check_file(rt, name.as_str(), text.as_str())?;
    }
    Ok(all_hold)
}

/// Checks the rows of a file's text and prints what differs, and then how many rows and requests
/// there are. Whether all rows hold.
fn check_file(rt: &HostRuntime, name: &str, text: &str) -> io::Result<bool> {
    let mut rows = 0_u64;
    let mut requests = 0_usize;
    let mut all_hold = true;
    // What stands before the first row is about the file itself.
    for part in text.split("\nrow ").skip(1) {
        rows = rows.saturating_add(1);
        let title = part.lines().next().unwrap_or("");
        match check_part(rt, name, title, part) {
            Ok((count, holds)) => {
                requests = requests.saturating_add(count);
                all_hold &= holds;
            }
            Err(fault) => {
                println!(rt; "{name}: {title}: {fault}")?;
                all_hold = false;
            }
        }
    }
    println!(rt; "{name}: {rows} rows, {requests} requests")?;
    Ok(all_hold)
}

/// Checks the lines of a row and prints what differs: how many requests it has, and whether it holds.
fn check_part(
    rt: &HostRuntime,
    name: &str,
    title: &str,
    part: &str,
) -> Result<(usize, bool), Fault> {
    let row = Row::read(rt.alloc(), part)?;
    let faults = check_row(rt.alloc(), &row)?;
    for fault in faults.iter() {
        println!(rt; "{name}: {title}: {fault}")?;
    }
    Ok((row.count(), faults.is_empty()))
}
