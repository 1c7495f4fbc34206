//! Bringing back what a snapshot has into the running tree.

use crate::error::{TransferError, at};
use crate::input::{Input, KeptFile};
use crate::looking::{RUNNING, Tree, link_text, lstat};
use crate::missing::found;
use crate::progress::Progress;
use crate::putting::check_name;
use crate::storing::{Goal, store, store_link, take_left_away};
use crate::target::{find_place, split_last};
use crate::what::{Ended, Transfer};
use crate::working::{end, mount_image};
use host_files::open_image;
use model::{FileType, Stat};
use mount::Fs;
use station::Station;
use std::alloc::Global;
use std::fs::File;
use std::io::Write;
use std::rt::{Clock, Files};

/// Brings the file or the symbolic link that a path names in a snapshot into the running tree,
/// whole or not at all, as `put_file` stores a file: to the same path, or to a new one. What is
/// there goes; a link there isn't followed, and a directory means the old name in it. The mode is
/// as in the snapshot, and blocks of zeros are holes. No file of the host's takes part.
pub fn restore_file<'a, R: Files<File = File> + AllocGlobal + Clock, E: Write>(
    rt: &R,
    what: Transfer<'a>,
    snapshot: &'a [u8],
    snapshot_name: &'a str,
    new_path: Option<&'a [u8]>,
    new_name: Option<&'a str>,
    progress: &mut Progress<E>,
) -> Ended<'a> {
    let station = match open_image(rt, what.image, what.patience) {
        Ok(station) => station,
        Err(error) => return Ended::before(TransferError::File(error)),
    };
    let fs = match mount_image(rt, what.image, station) {
        Ok(fs) => fs,
        Err(ended) => return ended,
    };
    let restore = Restore {
        what,
        snapshot,
        tree: Tree {
            snapshot: Some(snapshot),
            told: snapshot_name,
        },
        goal: Transfer {
            path: new_path.unwrap_or(what.path),
            name: new_name.unwrap_or(what.name),
            ..what
        },
    };
    let (fs, done) = restore.go_on(rt.alloc(), fs, progress);
    end(rt, what.image, fs, done)
}

/// Bringing back what a path names in a snapshot.
#[derive(Clone, Copy)]
struct Restore<'a> {
    what: Transfer<'a>,
    snapshot: &'a [u8],
    tree: Tree<'a>,
    /// What it becomes.
    goal: Transfer<'a>,
}

impl<'a> Restore<'a> {
    /// Brings it back, and gives the mounted image back.
    fn go_on<S: Station, E: Write>(
        self,
        alloc: Global,
        mut fs: Fs<S>,
        progress: &mut Progress<E>,
    ) -> (Fs<S>, Result<(), TransferError<'a>>) {
        match self.find_old(alloc, &mut fs) {
            Ok(old) => self.bring(alloc, fs, old, progress),
            Err(error) => (fs, Err(error)),
        }
    }

    /// What is to be brought back: no directory. What a cut left goes then.
    fn find_old<S: Station>(
        self,
        alloc: Global,
        fs: &mut Fs<S>,
    ) -> Result<Stat, TransferError<'a>> {
        let Transfer { path, name, .. } = self.what;
        let old = lstat(fs, self.tree, path);
        let old = found(alloc, fs, self.tree, name, path, old)?;
        if old.kind == FileType::Dir {
            return Err(TransferError::IsTree { path: name });
        }
        take_left_away(fs)?;
        Ok(old)
    }

    /// Brings a symbolic link back.
    fn bring_link<S: Station>(
        self,
        alloc: Global,
        fs: &mut Fs<S>,
        old: Stat,
    ) -> Result<(), TransferError<'a>> {
        let goal = self.find_goal(alloc, fs, old)?;
        let text = link_text(fs, self.tree, self.what.path);
        let text = at(self.what.name, 0, text)?;
        store_link(fs, &goal, text.as_bytes())
    }

    /// Brings what stood there back, and gives the mounted image back.
    fn bring<S: Station, E: Write>(
        self,
        alloc: Global,
        mut fs: Fs<S>,
        old: Stat,
        progress: &mut Progress<E>,
    ) -> (Fs<S>, Result<(), TransferError<'a>>) {
        if old.kind == FileType::Link {
            let brought = self.bring_link(alloc, &mut fs, old);
            return (fs, brought);
        }
        let mut input: Input<'_, '_, File> = Input::Kept(KeptFile {
            snapshot: self.snapshot,
            path: self.what.path,
            name: self.what.name,
            size: old.size,
            offset: 0,
        });
        match self.find_goal(alloc, &mut fs, old) {
            Ok(goal) => store(alloc, fs, &goal, &mut input, progress),
            Err(error) => (fs, Err(error)),
        }
    }

    /// Where in the running tree something goes that has this mode.
    fn find_goal<S: Station>(
        self,
        alloc: Global,
        fs: &mut Fs<S>,
        old: Stat,
    ) -> Result<Goal<'a>, TransferError<'a>> {
        let Transfer { path, name, .. } = self.goal;
        let target = find_place(alloc, fs, path, split_last(self.what.path).1);
        let target = found(alloc, fs, RUNNING, name, path, target)?;
        check_name(alloc, fs, self.goal, &target)?;
        Ok(Goal {
            name,
            path,
            target,
            mode: old.mode,
        })
    }
}
