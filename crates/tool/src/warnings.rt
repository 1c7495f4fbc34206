//! What a look at an image's files shows that a user should know, though the image is mounted and
//! checked without a word of it: that a newer root, or records of the log, may have stood there.
//! Only what no image shows that was cut at any moment.

pub(crate) mod slots;

use host_files::{Image, read_list};
use layout::{FIRST_GATE, HEADER_BYTES, HEADER_GATE, Header, OPEN, Root};
use slots::{Slot, Taken, letter, look_at_both, open_to_look, take_newer};
use station::SECTOR_BYTES;
use std::fs;
use std::fs::{File, OpenFile};
use std::io::Write;
use std::os::unix::fs::FileExt;

/// The last epoch before which no other one stood in the same half.
const LAST_OF_NEW_HALVES: u64 = 3;

/// Warns of a list of sectors that can't be read, where it names one: a command that finds it
/// writes zeros there.
pub(crate) fn warn_of_list<E: Write>(rt: &HostRuntime, image: Image<'_>, err: &mut E) {
    let Some(disk) = open_to_look(rt, image.disk) else {
        return;
    };
    let Image {
        disk: name,
        bad,
        ..
    } = image;
    let _ = match listed_sectors(rt, image, &disk).len() {
        0 => Ok(()),
        1 => writeln!(
            err,
            "wafl: {bad}: 1 sector of {name} can't be read: it becomes zeros in it"
        ),
        count => writeln!(
            err,
            "wafl: {bad}: {count} sectors of {name} can't be read: they become zeros in it"
        ),
    };
}

/// Warns of what the image's files show. Nothing is told of what can't be read.
pub(crate) fn warn_of_image<E: Write>(rt: &HostRuntime, image: Image<'_>, err: &mut E) {
    let Some(disk) = open_to_look(rt, image.disk) else {
        return;
    };
    let bad = listed_sectors(rt, image, &disk);
    let (first, second) = look_at_both(&disk, bad.as_slice());
    let Some(taken) = take_newer(&first, &second) else {
        return;
    };
    warn_of_slot(image.disk, &taken, err);
    if let Some(nvram) = open_to_look(rt, image.nvram) {
        warn_of_log(image.nvram, &nvram, &taken.root, err);
    }
}

/// The sectors of a disk that a list names. None where there is no list, or it can't be read.
pub(crate) fn listed_sectors(rt: &HostRuntime, image: Image<'_>, disk: &File) -> Vec<u64> {
    let none = Vec::new(rt.alloc());
    let Ok(metadata) = disk.metadata() else {
        return none;
    };
    let sectors = metadata.len() / SECTOR_BYTES as u64;
    match fs::metadata(rt, image.bad) {
        Ok(found) if found.is_file() => {}
        _ => return none,
    }
    let Ok(text) = fs::read(rt, image.bad) else {
        return none;
    };
    match read_list(rt.alloc(), image.bad, &text, sectors) {
        Ok(list) => list,
        Err(_) => none,
    }
}

/// Warns where the slot of the other root can't hold what it does. Each root but the first is
/// written into the slot that the one before it isn't in, one generation above that: so the other
/// slot has the root before, and beside the first one zeros.
fn warn_of_slot<E: Write>(disk: &str, taken: &Taken, err: &mut E) {
    let generation = taken.root.generation.get();
    let slot = letter(taken.other_sector());
    let _ = match &taken.other {
        Slot::Other => writeln!(
            err,
            "wafl: {disk}: slot {slot} holds no root that can be read; the root taken is generation {generation}, and a newer one may have stood there"
        ),
        Slot::Zeros if generation > 1 => writeln!(
            err,
            "wafl: {disk}: slot {slot} holds zeros; the root taken is generation {generation}, and a newer one may have stood there"
        ),
        Slot::Root(other) if generation - 1 != other.generation.get() => {
            let before = other.generation.get();
            writeln!(
                err,
                "wafl: {disk}: slot {slot} holds a root of generation {before}; the root taken is generation {generation}, which doesn't follow it: one of them was changed"
            )
        }
        _ => Ok(()),
    };
}

/// What is known of a half of the log, by its first bytes.
#[derive(Clone, Copy, Debug)]
struct Half {
    /// Which it is.
    number: u64,
    /// Its gate is open.
    is_open: bool,
    /// The epoch that stands there, whatever its gate.
    epoch: u64,
    /// The first record's gate is open.
    has_record: bool,
}

impl Half {
    /// Whether it holds records of an epoch.
    fn holds(&self, epoch: u64) -> bool {
        self.is_open && self.epoch == epoch && self.has_record
    }

    /// Whether records stand behind its closed gate which this generation doesn't cover. In general
    /// a gate may be closed so: while a half is being opened for a later epoch, a cut leaves the
    /// gate closed, and of the later epoch a part, before records of an earlier one that are
    /// covered. Before the first epoch of a half there is no earlier one.
    fn is_cut_off(&self, generation: u64) -> bool {
        let is_of_half = self.epoch > 1
            && self.epoch <= LAST_OF_NEW_HALVES
            && self.epoch % 2 == self.number;
        !self.is_open && self.has_record && is_of_half && self.epoch > generation
    }
}

/// Warns where records of the log are missing. The second epoch behind a root is opened when the
/// first one's half is nearly full, so there are records of the first one then.
fn warn_of_log<E: Write>(name: &str, nvram: &File, root: &Root, err: &mut E) {
    let first = root.generation.epoch_after(1).get();
    let second = root.generation.epoch_after(2).get();
    let half = u64::from(root.geometry.half());
    let Some(older) = look_at_half(nvram, half, first % 2) else {
        return;
    };
    let Some(newer) = look_at_half(nvram, half, second % 2) else {
        return;
    };
    let generation = root.generation.get();
    for found in [older, newer] {
        if found.is_cut_off(generation) {
            let Half { number, epoch, .. } = found;
            let _ = writeln!(
                err,
                "wafl: {name}: the gate of half {number} is closed, and records of epoch {epoch} stand behind it, which no root covers"
            );
            return;
        }
    }
    if newer.is_open && newer.epoch == second && !older.holds(first) {
        let (its, before) = (newer.number, older.number);
        let _ = writeln!(
            err,
            "wafl: {name}: half {its} is open for epoch {second}, and half {before} holds no record of epoch {first}: such records are missing, or a root of generation {first} is"
        );
    }
}

/// What is known of a half of so many bytes. None where it can't be read, or its gate is no gate.
fn look_at_half<F: FileExt>(nvram: &F, half: u64, number: u64) -> Option<Half> {
    let at = half.saturating_mul(number);
    let mut header = [0; HEADER_BYTES];
    nvram.read_exact_at(&mut header, at).ok()?;
    let mut gate = [0; 1];
    nvram
        .read_exact_at(&mut gate, at.saturating_add(u64::from(FIRST_GATE)))
        .ok()?;
    let is_open = matches!(Header::read(&header)?, Header::Open(_));
    // The epoch behind a closed gate is read as if that were open.
    header[HEADER_GATE as usize] = OPEN;
    let Header::Open(epoch) = Header::read(&header)? else {
        return None;
    };
    Some(Half {
        number,
        is_open,
        epoch: epoch.get(),
        has_record: gate[0] == OPEN,
    })
}
