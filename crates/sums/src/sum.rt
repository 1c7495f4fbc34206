//! Sums of bytes, eight a step, of one slice or of several.

ghost use Rattle.std.specs.Prelude.{◌≡◌, ◌++◌, ◌∷◌, [], List, ℕ};
ghost use Rattle.sums.specs.Sums.{remainder_from, sum_of};

use crate::tables::divided;

/// The divisor, Castagnoli's polynomial 0x1EDC6F41 (RFC 3720, Appendix B.4): its highest power is
/// left out, and of the others the highest is in the lowest bit.
pub const POLYNOMIAL: u32 = 0x82f6_3b78;

/// The remainder behind one more byte.
fn append_byte(remainder: u32, byte: u8) -> u32
    ensures { result ≡ remainder_from remainder (byte ∷ []) }
{
    let [r0, ..] = remainder.to_le_bytes();
    (remainder >> 8) ^ divided(r0 ^ byte, 0)
}

/// The remainder behind eight more bytes. The last four, which don't meet the one before, come
/// first: the processor needn't wait for it there.
fn append_eight(remainder: u32, bytes: &[u8; 8]) -> u32
    ensures { result ≡ remainder_from remainder bytes.now }
{
    let [r0, r1, r2, r3] = remainder.to_le_bytes();
    let [b0, b1, b2, b3, b4, b5, b6, b7] = *bytes;
    divided(b7, 0)
        ^ divided(b6, 1)
        ^ divided(b5, 2)
        ^ divided(b4, 3)
        ^ divided(r3 ^ b3, 4)
        ^ divided(r2 ^ b2, 5)
        ^ divided(r1 ^ b1, 6)
        ^ divided(r0 ^ b0, 7)
}

/// The sum of bytes.
pub fn crc32c(bytes: &[u8]) -> u32
    ensures { result ≡ sum_of bytes.now }
{
    crc32c_append(0, bytes)
}

/// The sum of some bytes that have this sum, and of these behind them. So parts that lie apart are
/// summed without a copy.
pub fn crc32c_append(sum: u32, bytes: &[u8]) -> u32
    ensures { (before : List ℕ) → sum ≡ sum_of before → result ≡ sum_of (before ++ bytes.now) }
{
    let mut remainder = sum ^ u32::MAX;
    let (eights, last) = bytes.as_chunks::<8>();
    for eight in eights {
        remainder = append_eight(remainder, eight);
    }
    for byte in last {
        remainder = append_byte(remainder, *byte);
    }
    remainder ^ u32::MAX
}
