//! The cookies of names, by which `entries` tells a directory in parts.

ghost use Rattle.std.specs.Prelude.{◌≡◌};
ghost use Rattle.model.specs.Entries.{cookie_of};

use md5::{Digest, Md5};

/// The cookie of a name, which depends on its bytes alone: the first eight bytes of its MD5 (RFC
/// 1321) as a number, the highest first, without the last two bits, but 4 at the least.
pub fn cookie_of(name: &[u8]) -> u64
    ensures { result ≡ cookie_of name.now }
{
    let digest: [u8; 16] = Md5::digest(name);
    let first = u64::from_be_bytes([
        digest[0], digest[1], digest[2], digest[3], digest[4], digest[5], digest[6], digest[7],
    ]);
    (first / 4).max(4)
}
