//! Permissions and a time of data in a record: all of it in an image whose objects have attributes,
//! and the mode alone in another.

ghost use Rattle.std.specs.Prelude.{◌≡◌, ◌≤◌, ◌+◌, length};
ghost use Rattle.std.specs.Option.{option_map};
ghost use Rattle.layout.specs.Bytes.{Writes};
ghost use Rattle.model.specs.declared.attributes.Permissions.{Permissions};
ghost use Rattle.model.specs.declared.time.Time.{Time};
ghost use Rattle.layout.specs.Permissions.{modified_bytes, modified_read, permission_bytes, permissions_read};

use crate::attributes::{put_time, time_at};
use crate::reading::{mode_at, u32_at};
use crate::writing::{put_u16, put_u32};
use model::{Mode, Permissions, Time};

/// Permissions, and the bytes behind them.
#[tactic(auto, unfolding(crate::specs::Permissions::permissions_read))]
pub(crate) fn permissions_at(has_attributes: bool, bytes: &[u8]) -> Option<(Permissions, &[u8])>
    ensures { option_map (λ x. (x.0, x.1.now)) result ≡ permissions_read has_attributes bytes.now }
{
    let (bits, bytes) = mode_at(bytes)?;
    let mode = Mode::new(bits).unwrap();
    if !has_attributes {
        return Some((Permissions::of_mode(mode), bytes));
    }
    let (owner, bytes) = u32_at(bytes)?;
    let (group, bytes) = u32_at(bytes)?;
    Some((Permissions { mode, owner, group }, bytes))
}

/// A time of data, and the bytes behind it.
#[tactic(auto, unfolding(crate::specs::Permissions::modified_read))]
pub(crate) fn modified_at(has_attributes: bool, bytes: &[u8]) -> Option<(Time, &[u8])>
    ensures { option_map (λ x. (x.0, x.1.now)) result ≡ modified_read has_attributes bytes.now }
{
    if has_attributes {
        time_at(bytes)
    } else {
        Some((Time::epoch(), bytes))
    }
}

/// How many bytes permissions have.
pub(crate) fn permissions_len(has_attributes: bool) -> usize
    ensures value { (p : Permissions) → result ≡ length (permission_bytes has_attributes p) }
    ensures short { result ≤ 10 }
{
    if has_attributes { 10 } else { 2 }
}

/// How many bytes a time of data has.
pub(crate) fn modified_len(has_attributes: bool) -> usize
    ensures value { (time : Time) → result ≡ length (modified_bytes has_attributes time) }
    ensures short { result ≤ 12 }
{
    if has_attributes { 12 } else { 0 }
}

/// Writes permissions.
pub(crate) fn put_permissions(
    out: &mut [u8],
    at: usize,
    has_attributes: bool,
    permissions: Permissions,
)
    requires { at + length (permission_bytes has_attributes permissions) ≤ length out.old }
    ensures { let bytes = permission_bytes has_attributes permissions in
        Writes at (at + length bytes) bytes out.old out.new }
{
    let Permissions { mode, owner, group } = permissions;
    put_u16(out, at, mode.bits());
    if has_attributes {
        put_u32(out, at + 2, owner);
        put_u32(out, at + 6, group);
    }
}

/// Writes a time of data.
pub(crate) fn put_modified(out: &mut [u8], at: usize, has_attributes: bool, time: Time)
    requires { at + length (modified_bytes has_attributes time) ≤ length out.old }
    ensures { let bytes = modified_bytes has_attributes time in
        Writes at (at + length bytes) bytes out.old out.new }
{
    if has_attributes {
        put_time(out, at, time);
    }
}
