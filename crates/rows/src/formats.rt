//! Files of tables of bytes, each row against the readers and the writers of `layout`. The rows
//! come from the text of the formats, not from this program; the head of `data/formats.tables` says
//! how they are written.

mod format;
mod table;

use std::io;
use table::{RowError, Table, obey};

/// Checks the tables of a file's text: prints how many rows each has, and names a row that isn't as
/// it says. Whether all hold.
pub fn check_tables(rt: &HostRuntime, text: &str) -> io::Result<bool> {
    let alloc = rt.alloc();
    let mut table = None;
    let mut all_hold = true;
    for line in text.lines() {
        if line.is_empty() || line.starts_with('#') {
            continue;
        }
        match obey(alloc, &mut table, line) {
            Ok(None) => {}
            Ok(Some(done)) => show(rt, &done)?,
            Err(RowError::NoMemory) => return Err(io::ErrorKind::OutOfMemory.into()),
            Err(error) => {
                all_hold = false;
                tell(rt, error, line)?;
            }
        }
    }
    if let Some(done) = table {
        show(rt, &done)?;
    }
    Ok(all_hold)
}

/// Names a row that doesn't hold.
fn tell(rt: &HostRuntime, error: RowError, line: &str) -> io::Result<()> {
    match error {
        RowError::NoMemory => println!(rt; "no memory: {line}"),
        RowError::NoRow => println!(rt; "not understood: {line}"),
        RowError::Otherwise => println!(rt; "not as it says: {line}"),
    }
}

fn show(rt: &HostRuntime, table: &Table) -> io::Result<()> {
    println!(rt; "{:?}: {} rows", table.format, table.rows)
}
