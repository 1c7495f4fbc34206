//! Writing at a place among bytes.

ghost use Rattle.std.specs.Prelude.{◌≤◌, ◌+◌, ◌∷◌, [], length};
ghost use Rattle.layout.specs.Bytes.{Writes, little, zeros};

use byteorder::{ByteOrder, LittleEndian};

/// Writes a byte.
pub(crate) fn put_byte(out: &mut [u8], at: usize, byte: u8)
    requires { at + 1 ≤ length out.old }
    ensures { Writes at (at + 1) (byte ∷ []) out.old out.new }
{
    out[at] = byte;
}

/// Writes a number of 8 bits.
pub(crate) fn put_u8(out: &mut [u8], at: usize, number: u8)
    requires { at + 1 ≤ length out.old }
    ensures { Writes at (at + 1) (little 1 number) out.old out.new }
{
    put_byte(out, at, number);
}

/// Writes a number of 16 bits.
pub fn put_u16(out: &mut [u8], at: usize, number: u16)
    requires { at + 2 ≤ length out.old }
    ensures { Writes at (at + 2) (little 2 number) out.old out.new }
{
    LittleEndian::write_u16(&mut out[at..at + 2], number);
}

/// Writes a number of 32 bits.
pub fn put_u32(out: &mut [u8], at: usize, number: u32)
    requires { at + 4 ≤ length out.old }
    ensures { Writes at (at + 4) (little 4 number) out.old out.new }
{
    LittleEndian::write_u32(&mut out[at..at + 4], number);
}

/// Writes a number of 64 bits.
pub fn put_u64(out: &mut [u8], at: usize, number: u64)
    requires { at + 8 ≤ length out.old }
    ensures { Writes at (at + 8) (little 8 number) out.old out.new }
{
    LittleEndian::write_u64(&mut out[at..at + 8], number);
}

/// Writes these bytes.
pub fn put_bytes(out: &mut [u8], at: usize, bytes: &[u8])
    requires { at + length bytes.now ≤ length out.old }
    ensures { Writes at (at + length bytes.now) bytes.now out.old out.new }
{
    out[at..at + bytes.len()].copy_from_slice(bytes);
}

/// Writes `count` bytes that are 0.
pub fn put_zeros(out: &mut [u8], at: usize, count: usize)
    requires { at + count ≤ length out.old }
    ensures { Writes at (at + count) (zeros count) out.old out.new }
{
    out[at..at + count].fill(0);
}
