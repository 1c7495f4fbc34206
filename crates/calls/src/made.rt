//! An object that is to be made.

ghost use Rattle.std.specs.Prelude.{◌≡◌, IfNone, IfSome};
ghost use Rattle.layout.specs.declared.limits.TheConstants.{PATH_BYTES};
ghost use Rattle.model.specs.Paths.{IsLinkText};

use crate::EntryName;
use layout::{Edit, InodeNumber, NewObject, is_link_text};
use model::{LINK_MODE, Mode, Permissions};

/// The text of a symbolic link.
#[derive(Drop)]
pub struct LinkText {
    pub(crate) bytes: Vec<u8>,
    ghost said: { IsLinkText PATH_BYTES bytes.items },
}

impl LinkText {
    /// The text of these bytes; None where no link has it.
    pub(crate) fn new(bytes: Vec<u8>) -> Option<LinkText>
        ensures some { IfSome result (λ text. text.bytes.items ≡ bytes.items) }
        ensures none { IfNone result (IsLinkText PATH_BYTES bytes.items → ⊥) }
    {
        if !is_link_text(&bytes) {
            return None;
        }
        Some(LinkText { bytes })
    }
}

/// What a call makes, with a text of its own.
#[derive(Drop)]
pub enum OwnedObject {
    File {
        permissions: Permissions,
    },
    Directory {
        permissions: Permissions,
    },
    /// Its mode is always 0777.
    Link {
        owner: u32,
        group: u32,
        text: LinkText,
    },
}

impl OwnedObject {
    ghost use Rattle.std.specs.Prelude.{◌≡◌, ◌≤◌, length};
    ghost use Rattle.layout.specs.Limits.{Sizes};
    ghost use Rattle.layout.specs.StateLimits.{limits_of};
    ghost use Rattle.layout.specs.Record.{KeepsMadeLimits, made_of, permissions_of_made, text_bytes};
    ghost use Rattle.layout.specs.Trees.{has_attributes};
    ghost use Rattle.model.specs.Attributes.{FitAttributes, new_attributes};
    ghost use Rattle.model.specs.Records.{IsMade};
    ghost use Rattle.calls.specs.Changing.{made_by};

    /// The same, as a record has it.
    pub(crate) fn as_new(&self) -> NewObject<'_>
        ensures says { made_of result ≡ made_by self.now }
        ensures good { (sizes : Sizes) → FitAttributes (has_attributes sizes.layout)
            (new_attributes (permissions_of_made (made_of result)))
            → IsMade (limits_of sizes) (made_of result) }
        ensures limits { KeepsMadeLimits (made_of result) }
        ensures short { length (text_bytes (made_of result)) ≤ 1025 }
    {
        match self {
            OwnedObject::File { permissions } => NewObject::File {
                permissions: *permissions,
            },
            OwnedObject::Directory { permissions } => NewObject::Directory {
                permissions: *permissions,
            },
            OwnedObject::Link { owner, group, text } => {
                let permissions = Permissions {
                    mode: Mode::new(LINK_MODE).unwrap(),
                    owner: *owner,
                    group: *group,
                };
                NewObject::Link {
                    permissions,
                    text: &text.bytes,
                }
            }
        }
    }
}

/// What the record of a new object says, with a name of its own.
#[derive(Drop)]
pub struct Creation {
    pub(crate) number: InodeNumber,
    pub(crate) parent: InodeNumber,
    pub(crate) object: OwnedObject,
    pub(crate) name: EntryName,
}

impl Creation {
    ghost use Rattle.std.specs.Prelude.{◌≡◌, ◌≤◌, Bool, length};
    ghost use Rattle.layout.specs.Record.{edit_bytes, edit_of, FitsEditFields, KeepsEditLimits};
    ghost use Rattle.calls.specs.Changing.{creation_of};

    /// What the record does, as the log takes it.
    pub(crate) fn edit(&self) -> Edit<'_>
        ensures says { edit_of result ≡ creation_of self.now }
        ensures limits { KeepsEditLimits (edit_of result) }
        ensures fits { FitsEditFields (edit_of result) }
        ensures short { (has_attributes : Bool)
            → length (edit_bytes has_attributes (edit_of result)) ≤ 1307 }
    {
        // Each of these types holds its values to what their fields have room for.
        let _ = (self.number.get(), self.parent.get());
        let object = self.object.as_new();
        Edit::Create {
            number: self.number,
            parent: self.parent,
            object,
            name: &self.name.bytes,
        }
    }
}
