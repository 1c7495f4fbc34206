//! What an inode tells of an object beside its kind, mode, links, size and body: 47 bytes, which are
//! zeros where a file system keeps none of it; and a time of it alone, which a record has too.

ghost use Rattle.std.specs.Prelude.{◌≡◌, ◌≤◌, ◌+◌, length};
ghost use Rattle.std.specs.Option.{option_map};
ghost use Rattle.model.specs.declared.limits.TheConstants.{MODE_BITS};
ghost use Rattle.layout.specs.Bytes.{Writes};
ghost use Rattle.layout.specs.Attributes.{attribute_fields, attributes_read, others_told, time_fields, time_read, time_told};

use crate::reading::{u32_at, u32_within, u64_at, zeros_at};
use crate::writing::{put_u32, put_u64, put_zeros};
use model::{Attributes, MOST_NANOSECONDS, Mode, Nanoseconds, Time};

/// The attributes with this mode and what these bytes tell, and the bytes behind it.
pub(crate) fn attributes_at(bytes: &[u8], mode: u16) -> Option<(Attributes, &[u8])>
    requires { mode ≤ MODE_BITS }
    ensures { option_map (λ x. (x.0, x.1.now)) result ≡ attributes_read mode bytes.now }
{
    let bytes = zeros_at(bytes, 3)?;
    let (owner, bytes) = u32_at(bytes)?;
    let (group, bytes) = u32_at(bytes)?;
    let Some((modified, bytes)) = time_at(bytes) else {
        return None;
    };
    let Some((changed, bytes)) = time_at(bytes) else {
        return None;
    };
    let (generation, bytes) = u64_at(bytes)?;
    let bytes = zeros_at(bytes, 4)?;
    let attributes = Attributes {
        mode: Mode::new(mode).unwrap(),
        owner,
        group,
        modified,
        changed,
        generation,
    };
    Some((attributes, bytes))
}

/// A time, and the bytes behind it.
pub(crate) fn time_at(bytes: &[u8]) -> Option<(Time, &[u8])>
    ensures { option_map (λ x. (x.0, x.1.now)) result ≡ time_read bytes.now }
{
    let (seconds, bytes) = u64_at(bytes)?;
    let (nanoseconds, bytes) = u32_within(bytes, 0, MOST_NANOSECONDS)?;
    let time = Time {
        seconds: seconds.cast_signed(),
        nanoseconds: Nanoseconds::new(nanoseconds).unwrap(),
    };
    Some((time, bytes))
}

/// Writes what they tell beside the mode.
pub(crate) fn put_attributes(out: &mut [u8], at: usize, attributes: Attributes)
    requires { at + 47 ≤ length out.old }
    ensures { Writes at (at + 47) (attribute_fields.text (others_told attributes)) out.old out.new }
{
    put_zeros(out, at, 3);
    put_u32(out, at + 3, attributes.owner);
    put_u32(out, at + 7, attributes.group);
    put_time(out, at + 11, attributes.modified);
    put_time(out, at + 23, attributes.changed);
    put_u64(out, at + 35, attributes.generation);
    put_zeros(out, at + 43, 4);
}

/// Writes a time.
pub(crate) fn put_time(out: &mut [u8], at: usize, time: Time)
    requires { at + 12 ≤ length out.old }
    ensures { Writes at (at + 12) (time_fields.text (time_told time)) out.old out.new }
{
    let seconds = time.seconds;
    let nanoseconds = time.nanoseconds;
    time.fits();
    put_u64(out, at, seconds.cast_unsigned());
    put_u32(out, at + 8, nanoseconds.count());
}
