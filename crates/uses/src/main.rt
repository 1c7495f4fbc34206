//! A caller of the file system, as small as it can be: it keeps a note on a station in memory, and
//! shows what it reads back.
#![tactic(auto)]

mod keeping;

use crate::keeping::keep_on_new_image;
use memory_station::Sim;
use std::alloc::AllocError;
use std::process::ExitCode;

/// Bytes of a disk of 64 blocks, and of an NVRAM of two halves.
const DISK_BYTES: usize = 64 * 4096;

const NVRAM_BYTES: usize = 2 * 131_072;

fn main(rt: HostRuntime) -> ExitCode {
    match keep(&rt) {
        Ok(true) => ExitCode::SUCCESS,
        _ => ExitCode::FAILURE,
    }
}

/// Keeps a note on a new station, and shows what is read back. Whether a note was kept.
fn keep(rt: &HostRuntime) -> Result<bool, AllocError> {
    let alloc = rt.alloc();
    let disk = vec![in alloc; 0; DISK_BYTES]?;
    let nvram = vec![in alloc; 0; NVRAM_BYTES]?;
    let Ok(sim) = Sim::load(alloc, disk, nvram) else {
        return Ok(false);
    };
    let (kept, _) = keep_on_new_image(alloc, sim, b"what is answered is kept");
    match kept {
        Ok(note) => {
            let note = String::from_utf8_lossy(alloc, note.as_bytes())?;
            Ok(println!(rt; "{note}").is_ok())
        }
        Err(trouble) => {
            let _ = eprintln!(rt; "{trouble:?}");
            Ok(false)
        }
    }
}
