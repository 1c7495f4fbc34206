//! What a request asks to change of an object's attributes.

ghost use Rattle.std.specs.Prelude.{◌≡◌};
ghost use Rattle.std.specs.Option.{option_map};
ghost use Rattle.fuse.specs.AttributeChanges.{changes_of, moment_in, rights_fields, rights_of, targets_fields, targets_of, times_fields, times_of};

use crate::flags::{given, is_set};
use crate::opcode::{
    FATTR_ATIME, FATTR_ATIME_NOW, FATTR_CTIME, FATTR_FH, FATTR_GID, FATTR_KILL_SUIDGID, FATTR_MODE,
    FATTR_MTIME, FATTR_MTIME_NOW, FATTR_SIZE, FATTR_UID,
};
use crate::time::Time;
use layout::{u32_at, u64_at};

/// The time that an object is given.
#[derive(Clone, Copy, Debug)]
pub enum Moment {
    /// When the request is answered.
    Now,
    At(Time),
}

/// What is to change of an object's attributes, and what stays (`struct fuse_setattr_in`).
#[derive(Clone, Copy, Debug)]
pub struct AttributeChanges {
    /// The mode, with the bits of the object's kind.
    pub mode: Option<u32>,
    pub uid: Option<u32>,
    pub gid: Option<u32>,
    /// Bytes of the file.
    pub size: Option<u64>,
    /// When it was last read.
    pub atime: Option<Moment>,
    /// When its bytes last changed.
    pub mtime: Option<Moment>,
    /// When it last changed at all.
    pub ctime: Option<Time>,
    /// The open file that it is asked through.
    pub handle: Option<u64>,
    /// Whether the set-user bit is to go, and the set-group bit of what the group may execute.
    pub kills_set_id: bool,
}

/// Which of the fields are given, and the first of them.
#[derive(Clone, Copy)]
pub(crate) struct Targets {
    pub(crate) valid: u32,
    pub(crate) padding: u32,
    pub(crate) handle: u64,
    pub(crate) size: u64,
    pub(crate) lock_owner: u64,
}

/// The times.
#[derive(Clone, Copy)]
pub(crate) struct Times {
    pub(crate) atime: Time,
    pub(crate) mtime: Time,
    pub(crate) ctime: Time,
}

/// Mode and owners.
#[derive(Clone, Copy)]
pub(crate) struct Rights {
    pub(crate) mode: u32,
    pub(crate) unused: u32,
    pub(crate) uid: u32,
    pub(crate) gid: u32,
    pub(crate) last_unused: u32,
}

pub(crate) fn targets_at(bytes: &[u8]) -> Option<(Targets, &[u8])>
    ensures { option_map (λ x. (targets_of x.0, x.1.now)) result ≡ targets_fields.at bytes.now }
{
    let (valid, bytes) = u32_at(bytes)?;
    let (padding, bytes) = u32_at(bytes)?;
    let (handle, bytes) = u64_at(bytes)?;
    let (size, bytes) = u64_at(bytes)?;
    let (lock_owner, bytes) = u64_at(bytes)?;
    Some((
        Targets {
            valid,
            padding,
            handle,
            size,
            lock_owner,
        },
        bytes,
    ))
}

pub(crate) fn times_at(bytes: &[u8]) -> Option<(Times, &[u8])>
    ensures { option_map (λ x. (times_of x.0, x.1.now)) result ≡ times_fields.at bytes.now }
{
    let (atime, bytes) = u64_at(bytes)?;
    let (mtime, bytes) = u64_at(bytes)?;
    let (ctime, bytes) = u64_at(bytes)?;
    let (atime_nanoseconds, bytes) = u32_at(bytes)?;
    let (mtime_nanoseconds, bytes) = u32_at(bytes)?;
    let (ctime_nanoseconds, bytes) = u32_at(bytes)?;
    Some((
        Times {
            atime: Time {
                seconds: atime,
                nanoseconds: atime_nanoseconds,
            },
            mtime: Time {
                seconds: mtime,
                nanoseconds: mtime_nanoseconds,
            },
            ctime: Time {
                seconds: ctime,
                nanoseconds: ctime_nanoseconds,
            },
        },
        bytes,
    ))
}

pub(crate) fn rights_at(bytes: &[u8]) -> Option<(Rights, &[u8])>
    ensures { option_map (λ x. (rights_of x.0, x.1.now)) result ≡ rights_fields.at bytes.now }
{
    let (mode, bytes) = u32_at(bytes)?;
    let (unused, bytes) = u32_at(bytes)?;
    let (uid, bytes) = u32_at(bytes)?;
    let (gid, bytes) = u32_at(bytes)?;
    let (last_unused, bytes) = u32_at(bytes)?;
    Some((
        Rights {
            mode,
            unused,
            uid,
            gid,
            last_unused,
        },
        bytes,
    ))
}

// The time in the field, or now where that bit is set.
fn moment_in(valid: u32, now: u32, time: Time) -> Moment
    ensures { result ≡ moment_in valid now time }
{
    if is_set(valid, now) {
        Moment::Now
    } else {
        Moment::At(time)
    }
}

pub(crate) fn changes_of(targets: Targets, times: Times, rights: Rights) -> AttributeChanges
    ensures { result ≡ changes_of (targets_of targets) (times_of times) (rights_of rights) }
{
    let valid = targets.valid;
    let atime = moment_in(valid, FATTR_ATIME_NOW, times.atime);
    let mtime = moment_in(valid, FATTR_MTIME_NOW, times.mtime);
    AttributeChanges {
        mode: given(valid, FATTR_MODE, rights.mode),
        uid: given(valid, FATTR_UID, rights.uid),
        gid: given(valid, FATTR_GID, rights.gid),
        size: given(valid, FATTR_SIZE, targets.size),
        atime: given(valid, FATTR_ATIME, atime),
        mtime: given(valid, FATTR_MTIME, mtime),
        ctime: given(valid, FATTR_CTIME, times.ctime),
        handle: given(valid, FATTR_FH, targets.handle),
        kills_set_id: is_set(valid, FATTR_KILL_SUIDGID),
    }
}
