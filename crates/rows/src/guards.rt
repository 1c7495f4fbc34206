//! What guards files: locks, modes and links.

use crate::fault::Fault;
use crate::text::bytes_of;
use std::alloc::Global;
use std::fs;
use std::fs::{File, OpenOptions, Permissions};
use std::os::unix::fs::{FileExt, MetadataExt, PermissionsExt};

/// The bits of a file's mode that `chmod` sets.
const MODE_BITS: u32 = 0o7777;

/// Files that are held open under locks, as another program would.
#[derive(Drop)]
pub struct Locks<'a> {
    held: Vec<(&'a str, File)>,
}

impl<'a> Locks<'a> {
    pub fn new(alloc: Global) -> Locks<'a> {
        Locks {
            held: Vec::new(alloc),
        }
    }

    /// Does what a line about locks says: `lock NAME`, `lock-shared NAME` or `unlock NAME`. None
    /// where it is about none, false where the lock can't be had.
    pub fn obey(
        &mut self,
        rt: &HostRuntime,
        verb: &str,
        name: &'a str,
    ) -> Result<Option<bool>, Fault> {
        match verb {
            "lock" => self.lock(rt, name, false),
            "lock-shared" => self.lock(rt, name, true),
            "unlock" => {
                self.held.retain(|held| *held.0 != *name);
                Ok(Some(true))
            }
            _ => Ok(None),
        }
    }

    fn lock(
        &mut self,
        rt: &HostRuntime,
        name: &'a str,
        is_shared: bool,
    ) -> Result<Option<bool>, Fault> {
        let file = OpenOptions::new().read(true).open(rt, name)?;
        let locked = if is_shared {
            file.try_lock_shared()
        } else {
            file.try_lock()
        };
        if locked.is_err() {
            return Ok(Some(false));
        }
        self.held.push((name, file))?;
        Ok(Some(true))
    }
}

/// Does what a line about modes, links, holes or bytes says. None where it is about none, false
/// where its words aren't understood.
pub fn obey_guard(rt: &HostRuntime, verb: &str, words: &str) -> Result<Option<bool>, Fault> {
    match verb {
        "chmod" => Ok(Some(set_mode(rt, words))),
        "mode" => compare_mode(rt, words).map(Some),
        "islink" => compare_link(rt, words).map(Some),
        "holes" => compare_holes(rt, words).map(Some),
        "poke" => poke(rt, words).map(Some),
        "crop" => Ok(Some(crop(rt, words)?)),
        _ => Ok(None),
    }
}

/// A name and a mode of octal digits.
fn mode_words(words: &str) -> Option<(&str, u32)> {
    let (name, digits) = words.split_once(' ')?;
    Some((name, u32::from_str_radix(digits, 8).ok()?))
}

/// `chmod NAME MODE`: gives the file this mode.
fn set_mode(rt: &HostRuntime, words: &str) -> bool {
    match mode_words(words) {
        Some((name, mode)) => {
            fs::set_permissions(rt, name, Permissions::from_mode(mode & MODE_BITS)).is_ok()
        }
        None => false,
    }
}

/// `mode NAME MODE`: the file has this mode.
fn compare_mode(rt: &HostRuntime, words: &str) -> Result<bool, Fault> {
    let Some((name, mode)) = mode_words(words) else {
        return Ok(false);
    };
    let came = fs::metadata(rt, name)?.mode() & MODE_BITS;
    if came != mode {
        let came = format!(in rt.alloc(); "{came:04o}")?;
        return Err(Fault::differs(rt.alloc(), name, came.as_bytes(), words));
    }
    Ok(true)
}

/// `islink NAME`: a symbolic link has this name.
fn compare_link(rt: &HostRuntime, name: &str) -> Result<bool, Fault> {
    if !fs::symlink_metadata(rt, name)?.is_symlink() {
        return Err(Fault::differs(rt.alloc(), name, b"something else", "a link"));
    }
    Ok(true)
}

/// A name and a number.
fn name_and_number(words: &str) -> Option<(&str, u64)> {
    let (name, number) = words.split_once(' ')?;
    Some((name, number.parse().ok()?))
}

/// `crop NAME N`: cuts the file to N bytes, or makes it longer by a hole.
fn crop(rt: &HostRuntime, words: &str) -> Result<bool, Fault> {
    let Some((name, size)) = name_and_number(words) else {
        return Ok(false);
    };
    let file = OpenOptions::new().write(true).open(rt, name)?;
    file.set_len(size)?;
    Ok(true)
}

/// `poke NAME AT TEXT`: the bytes of the text stand in the file from byte AT on.
fn poke(rt: &HostRuntime, words: &str) -> Result<bool, Fault> {
    let Some((name, rest)) = words.split_once(' ') else {
        return Ok(false);
    };
    let Some((at, text)) = rest.split_once(' ') else {
        return Ok(false);
    };
    let Ok(at) = at.parse() else {
        return Ok(false);
    };
    let bytes = bytes_of(rt.alloc(), text)?;
    let file = OpenOptions::new().write(true).open(rt, name)?;
    file.write_all_at(bytes.as_slice(), at)?;
    Ok(true)
}

/// `holes NAME`: the file takes less room than it has bytes.
fn compare_holes(rt: &HostRuntime, name: &str) -> Result<bool, Fault> {
    let metadata = fs::metadata(rt, name)?;
    if metadata.blocks().saturating_mul(512) >= metadata.len() {
        return Err(Fault::differs(rt.alloc(), name, b"a file without", "holes"));
    }
    Ok(true)
}
