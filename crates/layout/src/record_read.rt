//! Records as they are read.

ghost use Rattle.layout.specs.Trees.{has_attributes};
ghost use Rattle.std.specs.Prelude.{◌≡◌, ◌↔◌, IsTrue, IfSome, IsSomeAnd};
ghost use Rattle.std.specs.Option.{option_map};
ghost use Rattle.layout.specs.Record.{Change, IsChange, KeepsEditLimits, KeepsMadeLimits, body_of, change_bytes, change_of, edit_of, made_of};
ghost use Rattle.layout.specs.RecordReading.{create_in, link_in, remove_name_in, rename_in, write_in, truncate_in, change_attributes_in, set_file_in, made_in, edit_in, time_in, change_in};

use crate::attributes::time_at;
use crate::name::{is_link_text, is_name};
use crate::permissions::{modified_at, permissions_at};
use crate::reading::{contents_at, mode_at, name_at, text_at, u8_at, u32_at, u64_at};
use crate::record::{Edit, NewObject, Record};
use crate::{InodeNumber, Layout};
use model::{LINK_MODE, Mode, Permissions, TRANSFER_BYTES, Time};

impl<'a> Record<'a> {
    /// The record of an image of this layout whose body these bytes are, all of them; None where no
    /// record has this body.
    pub fn read(layout: Layout, bytes: &'a [u8]) -> Option<Record<'a>>
        ensures found { IfSome result
            (λ r. IsChange (has_attributes layout) (change_of r) × (bytes.now ≡ body_of r)) }
        ensures only { (c : Change) → IsChange (has_attributes layout) c → bytes.now ≡ change_bytes c
            → IsSomeAnd result (λ r. change_of r ≡ c) }
    {
        let Some(record) = read_record(layout, bytes) else {
            return None;
        };
        if record.edit.keeps_limits() {
            Some(record)
        } else {
            None
        }
    }
}

impl Edit<'_> {
    // Whether its names, its text and its bytes are within their limits.
    fn keeps_limits(&self) -> bool
        ensures { IsTrue result ↔ KeepsEditLimits (edit_of self.now) }
    {
        match *self {
            Edit::Create {
                ref object,
                name,
                ..
            } => object_keeps_limits(object) && is_name(name),
            Edit::Link { name, .. } | Edit::RemoveName { name, .. } => is_name(name),
            Edit::Rename { name, new_name, .. } => is_name(name) && is_name(new_name),
            Edit::Write { bytes, .. } => !bytes.is_empty() && bytes.len() <= TRANSFER_BYTES,
            Edit::Truncate { .. } | Edit::ChangeAttributes { .. } | Edit::SetFile { .. } => true,
        }
    }
}

fn object_keeps_limits(object: &NewObject<'_>) -> bool
    ensures { IsTrue result ↔ KeepsMadeLimits (made_of object.now) }
{
    match object {
        NewObject::File { .. } | NewObject::Directory { .. } => true,
        NewObject::Link { permissions, text } => {
            permissions.mode.bits() == LINK_MODE && is_link_text(text)
        }
    }
}

#[tactic(auto, unfolding(crate::specs::RecordReading::change_in))]
fn read_record(layout: Layout, bytes: &[u8]) -> Option<Record<'_>>
    ensures { option_map change_of result ≡ change_in layout bytes.now }
{
    let (op, bytes) = u8_at(bytes)?;
    let Some((time, bytes)) = read_time(layout, bytes) else {
        return None;
    };
    let Some(edit) = read_edit(layout.has_attributes(), op, bytes) else {
        return None;
    };
    Some(Record { time, edit })
}

// The time that a record of this layout has, if any, and the bytes behind it.
#[tactic(auto, unfolding(crate::specs::RecordReading::time_in))]
fn read_time(layout: Layout, bytes: &[u8]) -> Option<(Option<Time>, &[u8])>
    ensures { option_map (λ x. (x.0, x.1.now)) result ≡ time_in layout bytes.now }
{
    match layout {
        Layout::Plain => Some((None, bytes)),
        Layout::Summed => {
            let Some((time, bytes)) = time_at(bytes) else {
                return None;
            };
            Some((Some(time), bytes))
        }
    }
}

#[tactic(auto, unfolding(crate::specs::RecordReading::edit_in))]
fn read_edit(has_attributes: bool, op: u8, bytes: &[u8]) -> Option<Edit<'_>>
    ensures { option_map edit_of result ≡ edit_in has_attributes op bytes.now }
{
    match op {
        1 => read_create(has_attributes, bytes),
        2 => read_link(bytes),
        3 => read_remove_name(bytes),
        4 => read_rename(bytes),
        5 => read_write(bytes),
        6 => read_truncate(bytes),
        7 => read_change_attributes(has_attributes, bytes),
        8 => read_set_file(bytes),
        _ => None,
    }
}

#[tactic(auto, unfolding(crate::specs::RecordReading::create_in))]
fn read_create(has_attributes: bool, bytes: &[u8]) -> Option<Edit<'_>>
    ensures { option_map edit_of result ≡ create_in has_attributes bytes.now }
{
    let (number, bytes) = u32_at(bytes)?;
    let (parent, bytes) = u32_at(bytes)?;
    let (kind, bytes) = u8_at(bytes)?;
    let Some((permissions, bytes)) = permissions_at(has_attributes, bytes) else {
        return None;
    };
    let (name, bytes) = name_at(bytes)?;
    let Some(object) = read_object(kind, permissions, bytes) else {
        return None;
    };
    Some(Edit::Create {
        number: InodeNumber::new(number),
        parent: InodeNumber::new(parent),
        object,
        name,
    })
}

// What is made: a link's text stands in the last bytes, and behind the others nothing does.
#[tactic(auto, unfolding(crate::specs::RecordReading::made_in))]
fn read_object(kind: u8, permissions: Permissions, bytes: &[u8]) -> Option<NewObject<'_>>
    ensures { option_map made_of result ≡ made_in kind permissions bytes.now }
{
    match kind {
        1 if bytes.is_empty() => Some(NewObject::File { permissions }),
        2 if bytes.is_empty() => Some(NewObject::Directory { permissions }),
        3 => {
            let (text, bytes) = text_at(bytes)?;
            if bytes.is_empty() {
                Some(NewObject::Link { permissions, text })
            } else {
                None
            }
        }
        _ => None,
    }
}

#[tactic(auto, unfolding(crate::specs::RecordReading::link_in))]
fn read_link(bytes: &[u8]) -> Option<Edit<'_>>
    ensures { option_map edit_of result ≡ link_in bytes.now }
{
    let (number, bytes) = u32_at(bytes)?;
    let (parent, bytes) = u32_at(bytes)?;
    let (name, bytes) = name_at(bytes)?;
    if !bytes.is_empty() {
        return None;
    }
    Some(Edit::Link {
        number: InodeNumber::new(number),
        parent: InodeNumber::new(parent),
        name,
    })
}

#[tactic(auto, unfolding(crate::specs::RecordReading::remove_name_in))]
fn read_remove_name(bytes: &[u8]) -> Option<Edit<'_>>
    ensures { option_map edit_of result ≡ remove_name_in bytes.now }
{
    let (parent, bytes) = u32_at(bytes)?;
    let (name, bytes) = name_at(bytes)?;
    if !bytes.is_empty() {
        return None;
    }
    Some(Edit::RemoveName {
        parent: InodeNumber::new(parent),
        name,
    })
}

#[tactic(auto, unfolding(crate::specs::RecordReading::rename_in))]
fn read_rename(bytes: &[u8]) -> Option<Edit<'_>>
    ensures { option_map edit_of result ≡ rename_in bytes.now }
{
    let (parent, bytes) = u32_at(bytes)?;
    let (name, bytes) = name_at(bytes)?;
    let (new_parent, bytes) = u32_at(bytes)?;
    let (new_name, bytes) = name_at(bytes)?;
    if !bytes.is_empty() {
        return None;
    }
    Some(Edit::Rename {
        parent: InodeNumber::new(parent),
        name,
        new_parent: InodeNumber::new(new_parent),
        new_name,
    })
}

#[tactic(auto, unfolding(crate::specs::RecordReading::write_in))]
fn read_write(bytes: &[u8]) -> Option<Edit<'_>>
    ensures { option_map edit_of result ≡ write_in bytes.now }
{
    let (number, bytes) = u32_at(bytes)?;
    let (offset, bytes) = u64_at(bytes)?;
    let (contents, bytes) = contents_at(bytes)?;
    if !bytes.is_empty() {
        return None;
    }
    Some(Edit::Write {
        number: InodeNumber::new(number),
        offset,
        bytes: contents,
    })
}

#[tactic(auto, unfolding(crate::specs::RecordReading::truncate_in))]
fn read_truncate(bytes: &[u8]) -> Option<Edit<'_>>
    ensures { option_map edit_of result ≡ truncate_in bytes.now }
{
    let (number, bytes) = u32_at(bytes)?;
    let (size, bytes) = u64_at(bytes)?;
    if !bytes.is_empty() {
        return None;
    }
    Some(Edit::Truncate {
        number: InodeNumber::new(number),
        size,
    })
}

#[tactic(auto, unfolding(crate::specs::RecordReading::change_attributes_in))]
fn read_change_attributes(has_attributes: bool, bytes: &[u8]) -> Option<Edit<'_>>
    ensures { option_map edit_of result ≡ change_attributes_in has_attributes bytes.now }
{
    let (number, bytes) = u32_at(bytes)?;
    let Some((permissions, bytes)) = permissions_at(has_attributes, bytes) else {
        return None;
    };
    let Some((modified, bytes)) = modified_at(has_attributes, bytes) else {
        return None;
    };
    if !bytes.is_empty() {
        return None;
    }
    Some(Edit::ChangeAttributes {
        number: InodeNumber::new(number),
        permissions,
        modified,
    })
}

#[tactic(auto, unfolding(crate::specs::RecordReading::set_file_in))]
fn read_set_file(bytes: &[u8]) -> Option<Edit<'_>>
    ensures { option_map edit_of result ≡ set_file_in bytes.now }
{
    let (number, bytes) = u32_at(bytes)?;
    let (bits, bytes) = mode_at(bytes)?;
    let (size, bytes) = u64_at(bytes)?;
    if !bytes.is_empty() {
        return None;
    }
    Some(Edit::SetFile {
        number: InodeNumber::new(number),
        mode: Mode::new(bits).unwrap(),
        size,
    })
}
