//! Records as they are written.

ghost use Rattle.std.specs.Prelude.{◌≡◌, ◌≤◌, ◌+◌, length};
ghost use Rattle.model.specs.declared.limits.TheConstants.{NAME_BYTES, TRANSFER_BYTES};
ghost use Rattle.layout.specs.Bytes.{Writes, little};
ghost use Rattle.layout.specs.Record.{KeepsEditLimits, KeepsLimits, KeepsMadeLimits, change_of, edit_bytes, edit_of, op_of, time_bytes, create, change_attributes, link_fields, remove_name_fields, rename_fields, write_fields, truncate_fields, set_file_fields, made_of, kind_of_made, permissions_of_made, name_bytes, body_of, text_of};

use crate::InodeNumber;
use crate::attributes::put_time;
use crate::permissions::{modified_len, permissions_len, put_modified, put_permissions};
use crate::record::{Edit, NewObject, Record};
use crate::writing::{put_byte, put_bytes, put_u8, put_u16, put_u32, put_u64};
use model::{Mode, Permissions, Time};

impl Record<'_> {
    /// How many bytes its body has.
    pub fn encoded_len(&self) -> usize
        requires { KeepsLimits (change_of self.now) }
        ensures { result ≡ length (body_of self.now) }
    {
        1 + time_len(self.time) + self.edit.fields_len(self.time.is_some())
    }

    /// Writes the record's body, and answers how many bytes it has.
    pub fn write(&self, out: &mut [u8]) -> usize
        requires fits { KeepsLimits (change_of self.now) }
        requires room { length (body_of self.now) ≤ length out.old }
        ensures { Writes 0 result (body_of self.now) out.old out.new }
    {
        put_byte(out, 0, self.edit.op());
        put_call_time(out, 1, self.time);
        self.edit
            .write_fields(out, 1 + time_len(self.time), self.time.is_some())
    }
}

impl Edit<'_> {
    fn op(&self) -> u8
        ensures { result ≡ op_of (edit_of self.now) }
    {
        match self {
            Edit::Create { .. } => 1,
            Edit::Link { .. } => 2,
            Edit::RemoveName { .. } => 3,
            Edit::Rename { .. } => 4,
            Edit::Write { .. } => 5,
            Edit::Truncate { .. } => 6,
            Edit::ChangeAttributes { .. } => 7,
            Edit::SetFile { .. } => 8,
        }
    }

    // How many bytes its fields have.
    fn fields_len(&self, has_attributes: bool) -> usize
        requires { KeepsEditLimits (edit_of self.now) }
        ensures value { result ≡ length (edit_bytes has_attributes (edit_of self.now)) }
        ensures short { result ≤ 65552 }
    {
        match self {
            Edit::Create { object, name, .. } => {
                10 + permissions_len(has_attributes) + count_of(name) + object_len(object)
            }
            Edit::Link { name, .. } => 9 + count_of(name),
            Edit::RemoveName { name, .. } => 5 + count_of(name),
            Edit::Rename { name, new_name, .. } => 10 + count_of(name) + count_of(new_name),
            Edit::Write { bytes, .. } => 16 + count_of(bytes),
            Edit::Truncate { .. } => 12,
            Edit::ChangeAttributes { .. } => {
                4 + permissions_len(has_attributes) + modified_len(has_attributes)
            }
            Edit::SetFile { .. } => 14,
        }
    }

    // Writes its fields from a place on, and answers where they end.
    fn write_fields(&self, out: &mut [u8], at: usize, has_attributes: bool) -> usize
        requires fits { KeepsEditLimits (edit_of self.now) }
        requires room { at + length (edit_bytes has_attributes (edit_of self.now)) ≤ length out.old }
        ensures { Writes at result (edit_bytes has_attributes (edit_of self.now)) out.old out.new }
    {
        match self {
            Edit::Create {
                number,
                parent,
                object,
                name,
            } => write_create(out, at, has_attributes, *number, *parent, object, name),
            Edit::Link {
                number,
                parent,
                name,
            } => write_link(out, at, *number, *parent, name),
            Edit::RemoveName { parent, name } => write_remove_name(out, at, *parent, name),
            Edit::Rename {
                parent,
                name,
                new_parent,
                new_name,
            } => write_rename(out, at, *parent, name, *new_parent, new_name),
            Edit::Write {
                number,
                offset,
                bytes,
            } => write_write(out, at, *number, *offset, bytes),
            Edit::Truncate { number, size } => write_truncate(out, at, *number, *size),
            Edit::ChangeAttributes {
                number,
                permissions,
                modified,
            } => write_change_attributes(out, at, has_attributes, *number, *permissions, *modified),
            Edit::SetFile { number, mode, size } => write_set_file(out, at, *number, *mode, *size),
        }
    }
}

// How many bytes the time of a record has.
fn time_len(time: Option<Time>) -> usize
    ensures value { result ≡ length (time_bytes time) }
    ensures short { result ≤ 12 }
{
    match time {
        None => 0,
        Some(_) => 12,
    }
}

// The time of a record, if it has one, from a place on.
fn put_call_time(out: &mut [u8], at: usize, time: Option<Time>)
    requires { at + length (time_bytes time) ≤ length out.old }
    ensures { Writes at (at + length (time_bytes time)) (time_bytes time) out.old out.new }
{
    if let Some(time) = time {
        put_time(out, at, time);
    }
}

fn count_of(bytes: &[u8]) -> usize
    ensures { result ≡ length bytes.now }
{
    bytes.len()
}

// The kind's code.
fn kind_of(object: &NewObject<'_>) -> u8
    ensures { result ≡ kind_of_made (made_of object.now) }
{
    match object {
        NewObject::File { .. } => 1,
        NewObject::Directory { .. } => 2,
        NewObject::Link { .. } => 3,
    }
}

fn permissions_of(object: &NewObject<'_>) -> Permissions
    ensures { result ≡ permissions_of_made (made_of object.now) }
{
    match *object {
        NewObject::File { permissions } => permissions,
        NewObject::Directory { permissions } => permissions,
        NewObject::Link { permissions, .. } => permissions,
    }
}

// How many bytes stand behind the name.
fn object_len(object: &NewObject<'_>) -> usize
    requires { KeepsMadeLimits (made_of object.now) }
    ensures value { result ≡ length (text_of object.now) }
    ensures short { result ≤ 1025 }
{
    match *object {
        NewObject::File { .. } | NewObject::Directory { .. } => 0,
        NewObject::Link { text, .. } => 2 + text.len(),
    }
}

fn put_number(out: &mut [u8], at: usize, number: InodeNumber)
    requires { at + 4 ≤ length out.old }
    ensures { Writes at (at + 4) (little 4 number) out.old out.new }
{
    put_u32(out, at, number.get());
}

fn put_mode(out: &mut [u8], at: usize, mode: Mode)
    requires { at + 2 ≤ length out.old }
    ensures { Writes at (at + 2) (little 2 mode) out.old out.new }
{
    put_u16(out, at, mode.bits());
}

// The name behind its length, from a place on.
fn put_name(out: &mut [u8], at: usize, name: &[u8])
    requires fits { length name.now ≤ NAME_BYTES }
    requires room { at + 1 + length name.now ≤ length out.old }
    ensures { Writes at (at + 1 + length name.now) (name_bytes name.now) out.old out.new }
{
    put_u8(out, at, name.len() as u8);
    put_bytes(out, at + 1, name);
}

#[allow(clippy::too_many_arguments)]
fn write_create(
    out: &mut [u8],
    at: usize,
    has_attributes: bool,
    number: InodeNumber,
    parent: InodeNumber,
    object: &NewObject<'_>,
    name: &[u8],
) -> usize
    requires object { KeepsMadeLimits (made_of object.now) }
    requires name { length name.now ≤ NAME_BYTES }
    requires room { let made = made_of object.now in
        at + length (edit_bytes has_attributes (create number parent made name.now)) ≤ length out.old }
    ensures { let made = made_of object.now in
        Writes at result (edit_bytes has_attributes (create number parent made name.now)) out.old
        out.new }
{
    put_number(out, at, number);
    put_number(out, at + 4, parent);
    put_u8(out, at + 8, kind_of(object));
    put_permissions(out, at + 9, has_attributes, permissions_of(object));
    let next = at + 9 + permissions_len(has_attributes);
    put_name(out, next, name);
    put_text(out, next + 1 + name.len(), object);
    next + 1 + name.len() + object_len(object)
}

// The text of a link behind its length, from a place on, and nothing for the others.
fn put_text(out: &mut [u8], at: usize, object: &NewObject<'_>)
    requires fits { KeepsMadeLimits (made_of object.now) }
    requires room { at + length (text_of object.now) ≤ length out.old }
    ensures { Writes at (at + length (text_of object.now)) (text_of object.now) out.old out.new }
{
    if let NewObject::Link { text, .. } = *object {
        put_u16(out, at, text.len() as u16);
        put_bytes(out, at + 2, text);
    }
}

fn write_link(
    out: &mut [u8],
    at: usize,
    number: InodeNumber,
    parent: InodeNumber,
    name: &[u8],
) -> usize
    requires name { length name.now ≤ NAME_BYTES }
    requires room { at + 9 + length name.now ≤ length out.old }
    ensures { Writes at result (link_fields.text (number, (parent, name.now))) out.old out.new }
{
    put_number(out, at, number);
    put_number(out, at + 4, parent);
    put_name(out, at + 8, name);
    at + 9 + name.len()
}

fn write_remove_name(out: &mut [u8], at: usize, parent: InodeNumber, name: &[u8]) -> usize
    requires name { length name.now ≤ NAME_BYTES }
    requires room { at + 5 + length name.now ≤ length out.old }
    ensures { Writes at result (remove_name_fields.text (parent, name.now)) out.old out.new }
{
    put_number(out, at, parent);
    put_name(out, at + 4, name);
    at + 5 + name.len()
}

fn write_rename(
    out: &mut [u8],
    at: usize,
    parent: InodeNumber,
    name: &[u8],
    new_parent: InodeNumber,
    new_name: &[u8],
) -> usize
    requires name { length name.now ≤ NAME_BYTES }
    requires new_name { length new_name.now ≤ NAME_BYTES }
    requires room { at + 10 + length name.now + length new_name.now ≤ length out.old }
    ensures { Writes at result
        (rename_fields.text (parent, (name.now, (new_parent, new_name.now)))) out.old out.new }
{
    put_number(out, at, parent);
    put_name(out, at + 4, name);
    let next = at + 5 + name.len();
    put_number(out, next, new_parent);
    put_name(out, next + 4, new_name);
    next + 5 + new_name.len()
}

fn write_write(out: &mut [u8], at: usize, number: InodeNumber, offset: u64, bytes: &[u8]) -> usize
    requires fits { length bytes.now ≤ TRANSFER_BYTES }
    requires room { at + 16 + length bytes.now ≤ length out.old }
    ensures { Writes at result (write_fields.text (number, (offset, bytes.now))) out.old out.new }
{
    put_number(out, at, number);
    put_u64(out, at + 4, offset);
    put_u32(out, at + 12, bytes.len() as u32);
    put_bytes(out, at + 16, bytes);
    at + 16 + bytes.len()
}

fn write_truncate(out: &mut [u8], at: usize, number: InodeNumber, size: u64) -> usize
    requires { at + 12 ≤ length out.old }
    ensures { Writes at result (truncate_fields.text (number, size)) out.old out.new }
{
    put_number(out, at, number);
    put_u64(out, at + 4, size);
    at + 12
}

fn write_change_attributes(
    out: &mut [u8],
    at: usize,
    has_attributes: bool,
    number: InodeNumber,
    permissions: Permissions,
    modified: Time,
) -> usize
    requires { let said = change_attributes number permissions modified in
        at + length (edit_bytes has_attributes said) ≤ length out.old }
    ensures { let said = change_attributes number permissions modified in
        Writes at result (edit_bytes has_attributes said) out.old out.new }
{
    put_number(out, at, number);
    put_permissions(out, at + 4, has_attributes, permissions);
    let next = at + 4 + permissions_len(has_attributes);
    put_modified(out, next, has_attributes, modified);
    next + modified_len(has_attributes)
}

fn write_set_file(out: &mut [u8], at: usize, number: InodeNumber, mode: Mode, size: u64) -> usize
    requires { at + 14 ≤ length out.old }
    ensures { Writes at result (set_file_fields.text (number, (mode, size))) out.old out.new }
{
    put_number(out, at, number);
    put_mode(out, at + 4, mode);
    put_u64(out, at + 6, size);
    at + 14
}
