//! The tests: reads files of rows, worked examples written as text, runs each, and says which don't
//! hold. What a file's name ends with says what its rows are: sessions over a station in memory
//! (`.rows`; the head of `data/sessions.rows` says how they are written), tables of bytes in a
//! format (`.tables`), or calls on a file and a directory (`.groups`).
#![tactic(auto)]

mod bench;
mod checks;
mod choices;
mod expected;
mod fault;
mod file_lines;
mod formats;
mod guards;
mod image;
mod image_verbs;
mod levels;
mod obeying;
mod run;
mod text;
mod transfers;
mod written;

use bench::Bench;
use fault::Fault;
use formats::check_tables;
use levels::check_groups;
use std::process::ExitCode;
use std::{env, fs, io};

fn main(rt: HostRuntime) -> ExitCode {
    match check_all(&rt) {
        Ok(true) => ExitCode::SUCCESS,
        Ok(false) => ExitCode::FAILURE,
        Err(error) => {
            let _ = eprintln!(rt; "rows: {error}");
            ExitCode::from(2)
        }
    }
}

/// Checks the files that the program's words name. Whether all their rows hold.
fn check_all(rt: &HostRuntime) -> io::Result<bool> {
    let mut all_hold = true;
    for name in env::args(rt)?.skip(1) {
        let text = fs::read_to_string(rt, name.as_str())?;
        all_hold &= check_file(rt, name.as_str(), text.as_str())?;
    }
    Ok(all_hold)
}

/// Checks a file's text, as its name says. Whether all its rows hold.
fn check_file(rt: &HostRuntime, name: &str, text: &str) -> io::Result<bool> {
    if name.ends_with(".groups") {
        return check_groups(rt, text);
    }
    if name.ends_with(".tables") {
        return check_tables(rt, text);
    }
    check_rows(rt, name, text)
}

/// Checks the rows of a file's text and prints each that fails, and then how many there are.
fn check_rows(rt: &HostRuntime, name: &str, text: &str) -> io::Result<bool> {
    let mut rows = 0_u64;
    let mut failed = 0_u64;
    // What stands before the first row is about the file itself.
    for row in text.split("\nrow ").skip(1) {
        rows = rows.saturating_add(1);
        if let Err(fault) = check_row(rt, row) {
            failed = failed.saturating_add(1);
            let title = row.lines().next().unwrap_or("");
            println!(rt; "{name}: {title}: {fault}")?;
        }
    }
    println!(rt; "{name}: {rows} rows")?;
    Ok(failed == 0)
}

/// Checks a row once for each of its choices.
fn check_row(rt: &HostRuntime, row: &str) -> Result<(), Fault> {
    let count = check_choice(rt, row, 0)?;
    for choice in 1..count {
        if let Err(fault) = check_choice(rt, row, choice) {
            return Err(fault.at_choice(rt.alloc(), choice));
        }
    }
    Ok(())
}

/// Checks a row for one of its choices, and says how many it has.
fn check_choice(rt: &HostRuntime, row: &str, choice: u64) -> Result<u64, Fault> {
    let mut bench = Bench::new(rt.alloc(), choice);
    bench.check(rt, row)
}
