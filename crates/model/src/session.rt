//! What a session says of its calls.

ghost use Rattle.std.specs.Prelude.{◌≡◌};
ghost use Rattle.model.specs.Sessions.{IsSession, kept_time, new_permissions, new_session};

use crate::{Limits, Mode, Permissions, Time};

/// What a session says of its calls: when they come, and whose the objects are that they make. A
/// mount begins a new one. What else a session says is a field more.
#[derive(Clone, Copy, Debug, PartialEq, Eq)]
pub struct Session {
    /// The time that its changes carry, where the file system keeps times.
    pub time: Time,
    /// Whose the objects are that its calls make, where the file system keeps owners.
    pub owner: u32,
    pub group: u32,
}

impl Session {
    /// One that said nothing yet: its time is the Epoch, owner and group are 0.
    pub fn new() -> Session
        ensures { result ≡ new_session }
    {
        Session {
            time: Time::epoch(),
            owner: 0,
            group: 0,
        }
    }

    /// The time of its calls, where a file system of these limits keeps times.
    pub fn now(self, limits: &Limits) -> Option<Time>
        ensures { result ≡ kept_time limits.now self.time }
    {
        if limits.has_attributes {
            Some(self.time)
        } else {
            None
        }
    }

    /// The permissions of an object that a call makes with this mode, where a file system has these
    /// limits.
    pub fn permissions(self, limits: &Limits, mode: Mode) -> Permissions
        ensures { result ≡ new_permissions limits.now self mode }
    {
        if limits.has_attributes {
            Permissions {
                mode,
                owner: self.owner,
                group: self.group,
            }
        } else {
            Permissions::of_mode(mode)
        }
    }

    /// Its types hold it to its limits. It does nothing.
    pub fn fits(self)
        ensures { IsSession self }
    {
        self.time.fits();
    }
}
