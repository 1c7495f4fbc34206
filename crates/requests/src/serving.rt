//! Makes a row's image, serves what the row asks, and compares what comes of it.

use crate::exchange::{Exchange, RowClock};
use crate::fault::Fault;
use crate::row::Row;
use crate::session::Session;
use handles::Numbered;
use memory_station::{CutOutcome, Sim};
use model::Reply;
use mount::{Fs, Waiting, make, mount};
use script::read_command;
use served::{Ending, serve};
use std::alloc::Global;
use std::cell::Cell;
use std::time::Duration;

const BLOCK_BYTES: usize = 4096;
/// Bytes of a half of the NVRAM.
const HALF_BYTES: u32 = 131_072;

/// Serves a row's requests over a new image, which is mounted anew for each session: what differs.
pub fn check_row(alloc: Global, row: &Row<'_>) -> Result<Vec<Fault>, Fault> {
    let mut faults = Vec::new(alloc);
    let mut sim = new_image(alloc, row.blocks, row.inodes)?;
    if !row.before.is_empty() {
        sim = prepared(alloc, sim, row.before.as_slice())?;
    }
    for session in row.sessions.iter() {
        sim = check_session(alloc, sim, row, session, &mut faults)?;
    }
    Ok(faults)
}

/// A new image in memory.
fn new_image(alloc: Global, blocks: u32, inodes: u32) -> Result<Sim, Fault> {
    let disk = vec![in alloc; 0; BLOCK_BYTES.saturating_mul(blocks as usize)]?;
    let nvram = vec![in alloc; 0; 2 * HALF_BYTES as usize]?;
    let Ok(sim) = Sim::load(alloc, disk, nvram) else {
        return Err(Fault::other(alloc, "no station has these sizes"));
    };
    match make(alloc, sim, blocks, inodes, HALF_BYTES) {
        Ok(sim) => Ok(sim),
        Err(_) => Err(Fault::other(alloc, "no image is made of these sizes")),
    }
}

/// The image as some commands leave it, all of which are to be done.
fn prepared(alloc: Global, sim: Sim, lines: &[&str]) -> Result<Sim, Fault> {
    match mount(alloc, sim) {
        Ok(mut fs) => {
            let done = do_all(alloc, &mut fs, lines);
            let sim = fs.into_station();
            done?;
            Ok(sim)
        }
        Err(_) => Err(Fault::other(alloc, "the image isn't mounted")),
    }
}

/// Does the commands that these lines spell.
fn do_all(alloc: Global, fs: &mut Fs<Sim>, lines: &[&str]) -> Result<(), Fault> {
    for line in lines.iter() {
        let Ok(command) = read_command(alloc, line.as_bytes()) else {
            return Err(Fault::misread(alloc, line));
        };
        if let Reply::Refused(_) = fs.apply(&command) {
            return Err(Fault::other(alloc, "a command before the requests is refused"));
        }
    }
    Ok(())
}

/// Serves a session over an image, adds what differs, and gives the image as it was left.
fn check_session(
    alloc: Global,
    sim: Sim,
    row: &Row<'_>,
    session: &Session<'_>,
    faults: &mut Vec<Fault>,
) -> Result<Sim, Fault> {
    let before = sim.device_writes();
    let sim = match mount(alloc, with_cut(sim, session.cut)) {
        Ok(fs) => check_mounted(alloc, fs, row, session, faults)?,
        Err(_) => return Err(Fault::other(alloc, "the image isn't mounted")),
    };
    if let Some(wanted) = session.writes {
        let found = sim.device_writes().saturating_sub(before);
        compare_writes(alloc, wanted, found, faults)?;
    }
    switched_on(alloc, sim)
}

/// A station whose power is to be cut, where it is: within its next writes' one of this number, and
/// so many bytes of that stay.
fn with_cut(sim: Sim, cut: Option<(u32, u32)>) -> Sim {
    let mut sim = sim;
    if let Some((write, bytes)) = cut {
        let number = sim.device_writes().saturating_add(write);
        sim.cut_at(number, CutOutcome::Nothing, bytes);
    }
    sim
}

/// A station that has power: of one whose power was cut, another one with the images that it left.
fn switched_on(alloc: Global, sim: Sim) -> Result<Sim, Fault> {
    if !sim.is_cut() {
        return Ok(sim);
    }
    let (disk, nvram) = sim.images();
    let disk = Vec::from_slice(alloc, disk)?;
    let nvram = Vec::from_slice(alloc, nvram)?;
    match Sim::load_bad(alloc, disk, nvram, sim.bad_sectors()) {
        Ok(sim) => Ok(sim),
        Err(_) => Err(Fault::NoMemory),
    }
}

/// Serves a session over an image that is mounted, and the same.
fn check_mounted(
    alloc: Global,
    fs: Fs<Sim>,
    row: &Row<'_>,
    session: &Session<'_>,
    faults: &mut Vec<Fault>,
) -> Result<Sim, Fault> {
    let numbers = fs.count_inodes();
    match Numbered::new(alloc, Waiting::new(alloc, fs)) {
        Ok(mut files) => {
            let served = exchange(alloc, &mut files, numbers, row, session, faults);
            let sim = files.into_files().into_fs().into_station();
            served?;
            Ok(sim)
        }
        Err((_, files)) => {
            let _sim = files.into_fs().into_station();
            Err(Fault::NoMemory)
        }
    }
}

/// Has the messages of a session pass, and adds what differs.
fn exchange(
    alloc: Global,
    files: &mut Numbered<Sim>,
    numbers: u32,
    row: &Row<'_>,
    session: &Session<'_>,
    faults: &mut Vec<Fault>,
) -> Result<(), Fault> {
    let begun = match session.messages.first() {
        Some(message) => message.at,
        None => Duration::from_secs(0),
    };
    let time = Cell::new(begun);
    let clock = RowClock { time: &time };
    let messages = session.messages.as_slice();
    let mut exchange = Exchange::new(alloc, &time, messages, row.has_questions);
    let ending = serve(
        &clock,
        alloc,
        files,
        numbers,
        row.owner,
        session.durability,
        &mut exchange,
    );
    faults.append(&mut exchange.faults)?;
    compare_ending(alloc, session.is_lost, ending, faults)
}

/// Adds that a server ended otherwise than it is to.
fn compare_ending(
    alloc: Global,
    is_lost: bool,
    ending: Ending,
    faults: &mut Vec<Fault>,
) -> Result<(), Fault> {
    let wanted = if is_lost {
        Ending::Lost
    } else {
        Ending::Unmounted
    };
    if ending != wanted {
        faults.push(Fault::other(alloc, "the server ended otherwise"))?;
    }
    Ok(())
}

/// Adds that there were more or fewer device writes.
fn compare_writes(
    alloc: Global,
    wanted: u32,
    found: u32,
    faults: &mut Vec<Fault>,
) -> Result<(), Fault> {
    if found != wanted {
        faults.push(Fault::count(alloc, wanted, found))?;
    }
    Ok(())
}
