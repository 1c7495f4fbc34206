//! Where in an image something is to be stored.

use crate::looking::{RUNNING, link_text, look_at, stat};
use model::{Errno, FileType, LINKS_FOLLOWED, ROOT_NUMBER, Stat};
use mount::Fs;
use station::Station;
use std::alloc::{AllocError, Global};

/// The path of what isn't whole yet, in the root directory: put's own, so that a later transfer
/// finds what a power cut left.
pub const UNFINISHED: &str = "/.wafl-put";

/// Where something is to be stored.
#[derive(Drop)]
pub struct Target {
    pub path: Vec<u8>,
    /// What is there.
    pub there: Option<Stat>,
}

/// Follows the symbolic links that a path ends in, to a file or to where nothing is. A directory
/// that is there means this name in it, and is EISDIR where no name is given.
pub fn find_target<S: Station>(
    alloc: Global,
    fs: &mut Fs<S>,
    path: &[u8],
    own_name: Option<&[u8]>,
) -> Result<Target, Errno> {
    let path = in_memory(Vec::from_slice(alloc, path))?;
    let target = follow(alloc, fs, path)?;
    let (true, Some(name)) = (is_directory(&target), own_name) else {
        return not_directory(target);
    };
    let path = in_memory(join(alloc, target.path, name))?;
    not_directory(follow(alloc, fs, path)?)
}

/// The same without following a link that the path ends in.
pub fn find_place<S: Station>(
    alloc: Global,
    fs: &mut Fs<S>,
    path: &[u8],
    own_name: &[u8],
) -> Result<Target, Errno> {
    let path = in_memory(Vec::from_slice(alloc, path))?;
    let target = at_path(fs, path)?;
    if !is_directory(&target) {
        return Ok(target);
    }
    let path = in_memory(join(alloc, target.path, own_name))?;
    not_directory(at_path(fs, path)?)
}

fn is_directory(target: &Target) -> bool {
    match target.there {
        Some(there) => there.kind == FileType::Dir,
        None => false,
    }
}

fn not_directory(target: Target) -> Result<Target, Errno> {
    if is_directory(&target) {
        return Err(Errno::EISDIR);
    }
    Ok(target)
}

fn at_path<S: Station>(fs: &mut Fs<S>, path: Vec<u8>) -> Result<Target, Errno> {
    let there = look_at(fs, path.as_slice())?;
    Ok(Target { path, there })
}

/// Follows the symbolic links that a path ends in.
fn follow<S: Station>(alloc: Global, fs: &mut Fs<S>, path: Vec<u8>) -> Result<Target, Errno> {
    let mut target = at_path(fs, path)?;
    for _ in 0..LINKS_FOLLOWED {
        if !is_link(&target) {
            return Ok(target);
        }
        let text = link_text(fs, RUNNING, target.path.as_slice())?;
        let path = in_memory(from_link(alloc, target.path.as_slice(), text.as_bytes()))?;
        target = at_path(fs, path)?;
    }
    if is_link(&target) {
        return Err(Errno::ELOOP);
    }
    Ok(target)
}

fn is_link(target: &Target) -> bool {
    match target.there {
        Some(there) => there.kind == FileType::Link,
        None => false,
    }
}

/// Whether a path is the one of what isn't whole yet, however it is spelled. Refused where its
/// directory isn't there.
pub fn is_unfinished<S: Station>(fs: &mut Fs<S>, path: &[u8]) -> Result<bool, Errno> {
    let (directory, name) = split_last(path);
    let directory = stat(fs, RUNNING, without_slashes(directory))?;
    if directory.kind != FileType::Dir {
        return Err(Errno::ENOTDIR);
    }
    Ok(directory.number == ROOT_NUMBER && name == split_last(UNFINISHED.as_bytes()).1)
}

fn in_memory<T>(made: Result<T, AllocError>) -> Result<T, Errno> {
    match made {
        Ok(value) => Ok(value),
        Err(_) => Err(Errno::ENOMEM),
    }
}

/// The path of a name in a directory.
fn join(alloc: Global, directory: Vec<u8>, name: &[u8]) -> Result<Vec<u8>, AllocError> {
    let mut path = Vec::from_slice(alloc, directory.as_slice())?;
    if !path.as_slice().ends_with(b"/") {
        path.push(b'/')?;
    }
    path.extend_from_slice(name)?;
    Ok(path)
}

/// The path that a link's text means, without slashes at its end: from the directory that the link
/// stands in, where it doesn't begin with one.
fn from_link(alloc: Global, link: &[u8], text: &[u8]) -> Result<Vec<u8>, AllocError> {
    let (directory, _) = split_last(link);
    let mut path = Vec::new(alloc);
    if !text.starts_with(b"/") {
        path.extend_from_slice(directory)?;
    }
    path.extend_from_slice(text)?;
    Vec::from_slice(alloc, without_slashes(path.as_slice()))
}

/// A path without slashes at its end, but for its first byte.
fn without_slashes(path: &[u8]) -> &[u8] {
    let mut end = path.len();
    for byte in path.iter().rev() {
        if *byte != b'/' || end <= 1 {
            break;
        }
        end = end.saturating_sub(1);
    }
    path.get(..end).unwrap_or(path)
}

/// The path of a directory, with the slash at its end, and the name behind it.
pub fn split_last(path: &[u8]) -> (&[u8], &[u8]) {
    let mut at = path.len();
    for byte in path.iter().rev() {
        if *byte == b'/' {
            break;
        }
        at = at.saturating_sub(1);
    }
    path.split_at_checked(at).unwrap_or((path, b""))
}
