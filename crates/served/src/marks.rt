//! Owners and times, which an image doesn't keep: they are those of the mount, and of what was done
//! since.

ghost use Rattle.std.specs.Prelude.{◌≡◌};
ghost use Rattle.served.specs.Marks.{time_set};

use fuse::{AttributeChanges, Moment, Time};

/// Owner, group and times of an object.
#[derive(Clone, Copy, Debug)]
pub(crate) struct Marks {
    pub(crate) uid: u32,
    pub(crate) gid: u32,
    pub(crate) atime: Time,
    pub(crate) mtime: Time,
    pub(crate) ctime: Time,
}

impl Marks {
    ghost use Rattle.std.specs.Prelude.{◌≡◌};
    ghost use Rattle.served.specs.Marks.{changed, made, marks_set, written};

    /// Of an object that is made now, by this user and for this group.
    pub(crate) fn made(uid: u32, gid: u32, now: Time) -> Marks
        ensures { result ≡ made uid gid now }
    {
        Marks {
            uid,
            gid,
            atime: now,
            mtime: now,
            ctime: now,
        }
    }

    /// The same behind a change of the object's data.
    pub(crate) fn written(self, now: Time) -> Marks
        ensures { result ≡ written now self }
    {
        Marks {
            mtime: now,
            ctime: now,
            ..self
        }
    }

    /// The same behind a change of what is told of the object.
    pub(crate) fn changed(self, now: Time) -> Marks
        ensures { result ≡ changed now self }
    {
        Marks { ctime: now, ..self }
    }

    /// The same behind what is set.
    pub(crate) fn set(self, changes: &AttributeChanges, now: Time) -> Marks
        ensures { result ≡ marks_set changes.now now self }
    {
        let mtime = if changes.size.is_some() {
            now
        } else {
            self.mtime
        };
        Marks {
            uid: changes.uid.unwrap_or(self.uid),
            gid: changes.gid.unwrap_or(self.gid),
            atime: time_set(changes.atime, self.atime, now),
            mtime: time_set(changes.mtime, mtime, now),
            ctime: now,
        }
    }
}

/// The time that is set, or else the one before.
fn time_set(set: Option<Moment>, before: Time, now: Time) -> Time
    ensures { result ≡ time_set now set before }
{
    match set {
        Some(Moment::Now) => now,
        Some(Moment::At(time)) => time,
        None => before,
    }
}

/// Who asks, and when.
#[derive(Clone, Copy, Debug)]
pub(crate) struct Asker {
    pub(crate) uid: u32,
    pub(crate) gid: u32,
    pub(crate) now: Time,
}
