//! What an object has beside its kind, its count of names and its bytes.

ghost use Rattle.std.specs.Prelude.{◌≡◌, ◌↔◌, IsTrue};
ghost use Rattle.model.specs.Attributes.{AreAttributes, ArePermissions, FitAttributes, HaveOnlyMode, mode_alone, new_attributes, no_attributes, permissions_of, set_given, set_mode};
ghost use Rattle.model.specs.Touches.{touched_at};

use crate::{Mode, Time};

/// Whose an object is, and who may do what with it (POSIX.1-2017, Base Definitions, "File Access
/// Permissions"): what a new object is given, and what `chmod` and `chown` change.
#[derive(Clone, Copy, Debug, PartialEq, Eq)]
pub struct Permissions {
    pub mode: Mode,
    pub owner: u32,
    pub group: u32,
}

impl Permissions {
    /// Those of a mode where nothing else is kept: owner and group are 0.
    pub fn of_mode(mode: Mode) -> Permissions
        ensures { result ≡ mode_alone mode }
    {
        Permissions {
            mode,
            owner: 0,
            group: 0,
        }
    }

    /// Their types hold them to their limits. It does nothing.
    pub fn fit(self)
        ensures { ArePermissions self }
    {
        let _ = self.mode.bits();
    }
}

/// What an object has beside its kind, its count of names and its bytes. On a file system without
/// attributes all but the mode are zeros. Whoever makes one goes through a function of this file, so
/// that a further field changes no caller.
#[derive(Clone, Copy, Debug, PartialEq, Eq)]
pub struct Attributes {
    pub mode: Mode,
    pub owner: u32,
    pub group: u32,
    /// When its bytes or names last changed (`st_mtim` of POSIX.1-2017).
    pub modified: Time,
    /// When anything of it last changed (`st_ctim`).
    pub changed: Time,
    /// How many objects had been made when it was, itself among them; 0 of the root directory.
    pub generation: u64,
}

/// What of an object a change touches (POSIX.1-2017, Base Definitions, "File Times Update").
#[derive(Clone, Copy, Debug, PartialEq, Eq)]
pub enum Touch {
    /// Its bytes or its names, and with them its status.
    Data,
    /// Its status alone.
    Status,
}

impl Attributes {
    /// Those of a new object of these permissions, before its times.
    pub fn new(permissions: Permissions) -> Attributes
        ensures { result ≡ new_attributes permissions }
    {
        let Permissions { mode, owner, group } = permissions;
        Attributes {
            mode,
            owner,
            group,
            modified: Time::epoch(),
            changed: Time::epoch(),
            generation: 0,
        }
    }

    /// None: those of the file system's own files, and of free inodes.
    pub fn none() -> Attributes
        ensures { result ≡ no_attributes }
    {
        Attributes::new(Permissions::of_mode(Mode::new(0).unwrap()))
    }

    /// Whether they are none.
    pub fn are_none(self) -> bool
        ensures { IsTrue result ↔ (self ≡ no_attributes) }
    {
        self.mode.bits() == 0 && self.have_only_mode()
    }

    /// Whether all but the mode are zeros.
    pub fn have_only_mode(self) -> bool
        ensures { IsTrue result ↔ HaveOnlyMode self }
    {
        self.owner == 0
            && self.group == 0
            && self.modified.is_epoch()
            && self.changed.is_epoch()
            && self.generation == 0
    }

    /// Whether an object may have them where a file system keeps all attributes, or the mode alone.
    pub fn are_kept(self, has_attributes: bool) -> bool
        ensures { IsTrue result ↔ FitAttributes has_attributes self }
    {
        let _ = self.mode.bits();
        self.modified.fits();
        self.changed.fits();
        has_attributes || self.have_only_mode()
    }

    /// These with another mode.
    pub fn with_mode(self, mode: Mode) -> Attributes
        ensures { result ≡ set_mode mode self }
    {
        Attributes { mode, ..self }
    }

    /// Its permissions.
    pub fn permissions(self) -> Permissions
        ensures { result ≡ permissions_of self }
    {
        Permissions {
            mode: self.mode,
            owner: self.owner,
            group: self.group,
        }
    }

    /// These with other permissions, and another time of its data.
    pub fn given(self, permissions: Permissions, modified: Time) -> Attributes
        ensures { result ≡ set_given permissions modified self }
    {
        let Permissions { mode, owner, group } = permissions;
        Attributes {
            mode,
            owner,
            group,
            modified,
            ..self
        }
    }

    /// These of an object that is touched at this time.
    pub fn touched(self, time: Time, touch: Touch) -> Attributes
        ensures { result ≡ touched_at time touch self }
    {
        match touch {
            Touch::Data => {
                let changed = time;
                Attributes {
                    modified: time,
                    changed,
                    ..self
                }
            }
            Touch::Status => Attributes {
                changed: time,
                ..self
            },
        }
    }

    /// Their types hold them to their limits. It does nothing.
    pub fn fit(self)
        ensures { AreAttributes self }
    {
        let _ = self.mode.bits();
        self.modified.fits();
        self.changed.fits();
    }
}
