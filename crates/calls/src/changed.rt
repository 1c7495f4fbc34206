//! What a call is to change.

ghost use Rattle.std.specs.Prelude.{ℕ, ◌≡◌, ◌≤◌, Bool, IfNone, IfSome, length};
ghost use Rattle.layout.specs.Record.{body_of, change_of, edit_bytes, edit_of, FitsAttributes, FitsEditFields, FitsTime, IsChange, KeepsEditLimits, KeepsLimits};
ghost use Rattle.model.specs.Paths.{IsName};
ghost use Rattle.model.specs.Records.{stamped};

use crate::Creation;
use layout::{Edit, InodeNumber, Record, is_name};
use model::{Mode, Permissions, Time};
use records::Prepared;

/// A name that a directory has, or may have.
#[derive(Drop)]
pub struct EntryName {
    pub(crate) bytes: Vec<u8>,
    ghost named: { IsName bytes.items },
}

impl EntryName {
    /// A name of these bytes; None where they are none.
    pub(crate) fn new(bytes: Vec<u8>) -> Option<EntryName>
        ensures some { IfSome result (λ name. name.bytes.items ≡ bytes.items) }
        ensures none { IfNone result (IsName bytes.items → ⊥) }
    {
        if !is_name(&bytes) {
            return None;
        }
        Some(EntryName { bytes })
    }
}

/// What the record of a call says, with names of its own.
#[derive(Drop)]
pub enum OwnedChange {
    /// The object is made.
    Create {
        creation: Creation,
    },
    /// The file gets this name in the directory `parent`.
    Link {
        number: InodeNumber,
        parent: InodeNumber,
        name: EntryName,
    },
    /// The name is taken away, and what has no other name.
    RemoveName {
        parent: InodeNumber,
        name: EntryName,
    },
    /// What has the name gets the new one in its place, and what had the new name has it no more.
    Rename {
        parent: InodeNumber,
        name: EntryName,
        new_parent: InodeNumber,
        new_name: EntryName,
    },
    /// The object gets these permissions and this time of its data.
    ChangeAttributes {
        number: InodeNumber,
        permissions: Permissions,
        modified: Time,
    },
    /// The file gets this size, in bytes.
    Truncate {
        number: InodeNumber,
        size: u64,
    },
    /// The file gets this mode and this size, in bytes.
    SetFile {
        number: InodeNumber,
        mode: Mode,
        size: u64,
    },
}

/// What a call is to change: what its record says, and its prepared change.
#[derive(Drop)]
pub struct Changing {
    /// When it changes, where the file system keeps times.
    pub time: Option<Time>,
    pub change: OwnedChange,
    pub prepared: Prepared,
}

impl OwnedChange {
    ghost use Rattle.calls.specs.Changing.{said_by};
    ghost use Rattle.calls.specs.Making.{CreatesNumber};

    /// The number of the object that is made, if one is.
    pub(crate) fn number_made(&self) -> Option<InodeNumber>
        ensures some { IfSome result (λ n. CreatesNumber n self.now) }
        ensures none { IfNone result ((n : ℕ) → CreatesNumber n self.now → ⊥) }
    {
        match self {
            OwnedChange::Create { creation } => Some(creation.number),
            _ => None,
        }
    }

    /// The record of this at a time, as the log takes it.
    pub fn record(&self, time: Option<Time>) -> Record<'_>
        ensures says { change_of result ≡ stamped time (said_by self.now) }
        ensures limits { KeepsLimits (change_of result) }
        ensures is { (has_attributes : Bool) → FitsTime has_attributes time
            → FitsAttributes has_attributes (said_by self.now)
            → IsChange has_attributes (change_of result) }
        ensures short { length (body_of result) ≤ 1320 }
    {
        let edit = self.edit();
        Record { time, edit }
    }

    // What the record does.
    fn edit(&self) -> Edit<'_>
        ensures says { edit_of result ≡ said_by self.now }
        ensures limits { KeepsEditLimits (edit_of result) }
        ensures fits { FitsEditFields (edit_of result) }
        ensures short { (has_attributes : Bool)
            → length (edit_bytes has_attributes (edit_of result)) ≤ 1307 }
    {
        // Each of these types holds its values to what their fields have room for.
        match self {
            OwnedChange::Create { creation } => creation.edit(),
            OwnedChange::Link {
                number,
                parent,
                name,
            } => {
                let _ = (number.get(), parent.get());
                Edit::Link {
                    number: *number,
                    parent: *parent,
                    name: &name.bytes,
                }
            }
            OwnedChange::RemoveName { parent, name } => {
                let _ = parent.get();
                Edit::RemoveName {
                    parent: *parent,
                    name: &name.bytes,
                }
            }
            OwnedChange::Rename {
                parent,
                name,
                new_parent,
                new_name,
            } => {
                let _ = (parent.get(), new_parent.get());
                Edit::Rename {
                    parent: *parent,
                    name: &name.bytes,
                    new_parent: *new_parent,
                    new_name: &new_name.bytes,
                }
            }
            OwnedChange::ChangeAttributes {
                number,
                permissions,
                modified,
            } => {
                let _ = number.get();
                Edit::ChangeAttributes {
                    number: *number,
                    permissions: *permissions,
                    modified: *modified,
                }
            }
            OwnedChange::Truncate { number, size } => {
                let _ = (number.get(), *size);
                Edit::Truncate {
                    number: *number,
                    size: *size,
                }
            }
            OwnedChange::SetFile { number, mode, size } => {
                let _ = (number.get(), mode.bits(), *size);
                Edit::SetFile {
                    number: *number,
                    mode: *mode,
                    size: *size,
                }
            }
        }
    }
}
