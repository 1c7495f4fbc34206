//! Looking at what stands in the running tree or in a snapshot's.

use model::{Errno, Stat, Text};
use mount::Fs;
use station::Station;

/// A tree of an image.
#[derive(Clone, Copy)]
pub struct Tree<'s> {
    /// The name of its snapshot; None is the running tree.
    pub snapshot: Option<&'s [u8]>,
    /// The same as it is told.
    pub told: &'s str,
}

/// The running tree.
pub const RUNNING: Tree<'static> = Tree {
    snapshot: None,
    told: "",
};

/// What a path leads to.
pub fn stat<S: Station>(fs: &mut Fs<S>, tree: Tree<'_>, path: &[u8]) -> Result<Stat, Errno> {
    match tree.snapshot {
        None => fs.stat(path),
        Some(name) => fs.stat_in(name, path),
    }
}

/// What has a name, a symbolic link too.
pub fn lstat<S: Station>(fs: &mut Fs<S>, tree: Tree<'_>, path: &[u8]) -> Result<Stat, Errno> {
    match tree.snapshot {
        None => fs.lstat(path),
        Some(name) => fs.lstat_in(name, path),
    }
}

/// What has a name in the running tree, a symbolic link too; None where nothing has it.
pub fn look_at<S: Station>(fs: &mut Fs<S>, path: &[u8]) -> Result<Option<Stat>, Errno> {
    match fs.lstat(path) {
        Ok(stat) => Ok(Some(stat)),
        Err(Errno::ENOENT) => Ok(None),
        Err(errno) => Err(errno),
    }
}

/// The text of a symbolic link.
pub fn link_text<S: Station>(fs: &mut Fs<S>, tree: Tree<'_>, path: &[u8]) -> Result<Text, Errno> {
    match tree.snapshot {
        None => fs.readlink(path),
        Some(name) => fs.readlink_in(name, path),
    }
}
