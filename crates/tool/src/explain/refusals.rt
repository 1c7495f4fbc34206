//! What a refusal means, for people.

use super::mounting::geometry_in;
use host_files::Image;
use std::io::Write;

/// The system's own inodes, which no object of a user's gets.
const OWN_INODES: u32 = 4;

/// What the refusals mean, by their names.
const MEANINGS: [(&str, &str); 28] = [
    (
        "ENOENT",
        "nothing is at this path, or a directory on the way isn't there",
    ),
    (
        "ENOTDIR",
        "something on the way, or at the end, is no directory",
    ),
    ("EISDIR", "a directory is there, and a file is needed"),
    ("EEXIST", "something is there already"),
    (
        "EINVAL",
        "an argument is outside what this command takes (a path begins at / or at a number, as @17, and has no / at its end)",
    ),
    (
        "ENAMETOOLONG",
        "a name is longer than 255 bytes, or a path than 1023",
    ),
    (
        "ELOOP",
        "the path goes through more than eight symbolic links, or through one behind a number",
    ),
    (
        "EPERM",
        "not possible with a directory (or, for link, with a symbolic link)",
    ),
    (
        "EBUSY",
        "the root directory stays what it is; and snap restore needs all files closed",
    ),
    ("ENOTEMPTY", "the directory has names in it"),
    (
        "EBADF",
        "no open file of this run has this descriptor, or it isn't open for that",
    ),
    ("EMFILE", "32 files are open: close one"),
    ("EFBIG", "a file has 68719476736 bytes (64 GiB) at most"),
    ("EOVERFLOW", "the offset would be past 9223372036854775807"),
    ("EROFS", "a snapshot can't be changed"),
    ("EMLINK", "the file has 1000 names, the most there may be"),
    (
        "DIRFULL",
        "the directory has 65536 names, the most there may be",
    ),
    ("ENOMEM", "no memory was left"),
    (
        "EIO",
        "a call on the image's files failed; nothing more is done until the next mount",
    ),
    (
        "DAMAGED",
        "what stands on the disk there is outside the format, or can't be read: see wafl check",
    ),
    (
        "FAILED",
        "a write or a sync failed before: nothing is done until the next mount",
    ),
    (
        "BADNAME",
        "a snapshot's name has 1 to 63 letters, digits, '.', '_' and '-'",
    ),
    ("SNAPEXISTS", "a snapshot has this name already"),
    ("NOSNAP", "no snapshot has this name: see snap list"),
    (
        "SNAPFULL",
        "there are 30 snapshots, the most there may be: delete one",
    ),
    (
        "ESTALE",
        "nothing that has a path has the number that this one begins at",
    ),
    ("ENOTSUP", "the image has no owners and no times"),
    (
        "ENOSPC",
        "too few blocks are free: see df, unlink files or delete snapshots",
    ),
];

/// Tells what a refusal of this name means, where it has a meaning.
pub(crate) fn tell_refusal<E: Write>(rt: &HostRuntime, image: Image<'_>, name: &[u8], err: &mut E) {
    if name == b"NONUMBER".as_slice() {
        tell_inodes(rt, image, err);
        return;
    }
    let mut known = MEANINGS.iter();
    if let Some((name, meaning)) = known.find(|known| known.0.as_bytes() == name) {
        let _ = writeln!(err, "wafl: {name}: {meaning}");
    }
}

/// Tells that all inodes are taken.
fn tell_inodes<E: Write>(rt: &HostRuntime, image: Image<'_>, err: &mut E) {
    let _ = match geometry_in(rt, image.disk) {
        Some(geometry) => {
            let all = geometry.inodes();
            writeln!(
                err,
                "wafl: NONUMBER: no inode is free ({all} of {all} are taken, {OWN_INODES} of them by the system): unlink something, or make a larger image"
            )
        }
        None => writeln!(err, "wafl: NONUMBER: no inode is free"),
    };
}
