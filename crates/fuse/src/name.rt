//! Names and texts, which a zero byte ends.

ghost use Rattle.std.specs.Prelude.{◌≡◌};
ghost use Rattle.std.specs.Option.{option_map};
ghost use Rattle.fuse.specs.Names.{ended_at};

use memchr::memchr;

/// The bytes up to the first that is 0, and those behind that; None where none is 0.
pub(crate) fn ended_at(bytes: &[u8]) -> Option<(&[u8], &[u8])>
    ensures { option_map (λ x. (x.0.now, x.1.now)) result ≡ ended_at bytes.now }
{
    let Some(end) = memchr(0, bytes) else {
        return None;
    };
    Some((&bytes[..end], &bytes[end + 1..]))
}
