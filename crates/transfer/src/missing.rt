//! What isn't there, where a path or a snapshot isn't found.

use crate::error::{TransferError, at};
use crate::looking::{Tree, lstat, stat};
use model::Errno;
use mount::Fs;
use station::Station;
use std::alloc::{AllocError, Global};

/// Names the place of a call by a path that was refused, and what is missing where that isn't
/// found.
pub fn found<'a, S: Station, T>(
    alloc: Global,
    fs: &mut Fs<S>,
    tree: Tree<'_>,
    name: &'a str,
    path: &[u8],
    answer: Result<T, Errno>,
) -> Result<T, TransferError<'a>> {
    match answer {
        Err(Errno::ENOENT) => {
            let reason = reason_of(alloc, fs, tree, name, path)?;
            Err(TransferError::NotThere { path: name, reason })
        }
        Err(Errno::NOSNAP) => Err(TransferError::NoSnapshot {
            path: name,
            snapshot: String::from_str(alloc, tree.told)?,
        }),
        answer => at(name, 0, answer),
    }
}

/// What is missing for a path.
fn reason_of<S: Station>(
    alloc: Global,
    fs: &mut Fs<S>,
    tree: Tree<'_>,
    name: &str,
    path: &[u8],
) -> Result<String, AllocError> {
    if path.is_empty() {
        return String::from_str(alloc, "a path begins with /");
    }
    let missing = first_missing(fs, tree, path);
    let is_link = lstat(fs, tree, missing).is_ok();
    let missing = spell(alloc, name, path, missing)?;
    if is_link {
        return format!(in alloc; "{missing} is a link to what isn't there");
    }
    if tree.snapshot.is_some() {
        let told = tree.told;
        return format!(in alloc; "{missing} isn't in the snapshot {told}");
    }
    format!(in alloc; "{missing} isn't there")
}

/// The least beginning of a path that leads to nothing.
fn first_missing<'p, S: Station>(fs: &mut Fs<S>, tree: Tree<'_>, path: &'p [u8]) -> &'p [u8] {
    for (i, byte) in path.iter().enumerate() {
        let part = path.get(..i).unwrap_or(path);
        if *byte == b'/' && i > 0 && is_missing(fs, tree, part) {
            return part;
        }
    }
    path
}

fn is_missing<S: Station>(fs: &mut Fs<S>, tree: Tree<'_>, path: &[u8]) -> bool {
    matches!(stat(fs, tree, path), Err(Errno::ENOENT))
}

/// A path of the image as it is told: as it is where the user's path is spelled so, and else as in
/// scripts.
pub fn spell(alloc: Global, name: &str, path: &[u8], told: &[u8]) -> Result<String, AllocError> {
    if name.as_bytes() == path {
        return String::from_utf8_lossy(alloc, told);
    }
    let mut text = String::new(alloc);
    for byte in told {
        match byte {
            0x21..=0x24 | 0x26..=0x7e => text.push(char::from(*byte))?,
            _ => write!(text, "%{byte:02x}")?,
        }
    }
    Ok(text)
}
