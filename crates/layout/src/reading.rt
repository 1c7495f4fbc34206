//! Reading from the front of bytes: a value, and the bytes behind it.

ghost use Rattle.std.specs.Prelude.{◌≡◌, ◌≤◌, IfSome, length};
ghost use Rattle.std.specs.Option.{option_map};
ghost use Rattle.model.specs.declared.limits.TheConstants.{MODE_BITS, SNAPSHOT_NAME_BYTES};
ghost use Rattle.layout.specs.Reading.{number_read, ranged_at, part_at, zeros_at, counted_at, padded_at};
ghost use Rattle.layout.specs.Format.{mode_bits};

use crate::fields::is_zero;
use byteorder::{ByteOrder, LittleEndian};
use model::{MODE_BITS, SNAPSHOT_NAME_BYTES};

/// A byte.
pub(crate) fn u8_at(bytes: &[u8]) -> Option<(u8, &[u8])>
    ensures { option_map (λ x. (x.0, x.1.now)) result ≡ number_read 1 bytes.now }
{
    let (byte, rest) = bytes.split_first()?;
    Some((*byte, rest))
}

/// A number of 16 bits.
#[tactic(auto, unfolding(crate::specs::Bytes::number))]
pub(crate) fn u16_at(bytes: &[u8]) -> Option<(u16, &[u8])>
    ensures { option_map (λ x. (x.0, x.1.now)) result ≡ number_read 2 bytes.now }
{
    if bytes.len() < 2 {
        return None;
    }
    let (_, rest) = bytes.split_at(2);
    Some((LittleEndian::read_u16(bytes), rest))
}

/// A number of 32 bits.
#[tactic(auto, unfolding(crate::specs::Bytes::number))]
pub fn u32_at(bytes: &[u8]) -> Option<(u32, &[u8])>
    ensures { option_map (λ x. (x.0, x.1.now)) result ≡ number_read 4 bytes.now }
{
    if bytes.len() < 4 {
        return None;
    }
    let (_, rest) = bytes.split_at(4);
    Some((LittleEndian::read_u32(bytes), rest))
}

/// A number of 64 bits.
#[tactic(auto, unfolding(crate::specs::Bytes::number))]
pub fn u64_at(bytes: &[u8]) -> Option<(u64, &[u8])>
    ensures { option_map (λ x. (x.0, x.1.now)) result ≡ number_read 8 bytes.now }
{
    if bytes.len() < 8 {
        return None;
    }
    let (_, rest) = bytes.split_at(8);
    Some((LittleEndian::read_u64(bytes), rest))
}

/// So many bytes.
pub fn part_at(bytes: &[u8], count: usize) -> Option<(&[u8], &[u8])>
    ensures value { option_map (λ x. (x.0.now, x.1.now)) result ≡ part_at count bytes.now }
    ensures count { IfSome result (λ x. length x.0.now ≡ count) }
{
    if bytes.len() < count {
        return None;
    }
    Some(bytes.split_at(count))
}

/// A name: its length in one byte, and its bytes.
pub(crate) fn name_at(bytes: &[u8]) -> Option<(&[u8], &[u8])>
    ensures { option_map (λ x. (x.0.now, x.1.now)) result ≡ counted_at 1 bytes.now }
{
    let (length, bytes) = u8_at(bytes)?;
    part_at(bytes, length as usize)
}

/// The text of a link: its length in two bytes, and its bytes.
pub(crate) fn text_at(bytes: &[u8]) -> Option<(&[u8], &[u8])>
    ensures { option_map (λ x. (x.0.now, x.1.now)) result ≡ counted_at 2 bytes.now }
{
    let (length, bytes) = u16_at(bytes)?;
    part_at(bytes, length as usize)
}

/// What a record writes: its length in four bytes, and its bytes.
pub(crate) fn contents_at(bytes: &[u8]) -> Option<(&[u8], &[u8])>
    ensures { option_map (λ x. (x.0.now, x.1.now)) result ≡ counted_at 4 bytes.now }
{
    let (length, bytes) = u32_at(bytes)?;
    part_at(bytes, length as usize)
}

/// A number of 32 bits within limits.
pub(crate) fn u32_within(bytes: &[u8], least: u32, most: u32) -> Option<(u32, &[u8])>
    ensures value { option_map (λ x. (x.0, x.1.now)) result ≡ ranged_at 4 least most bytes.now }
    ensures within { IfSome result (λ x. (least ≤ x.0) × (x.0 ≤ most)) }
{
    let (number, bytes) = u32_at(bytes)?;
    if least <= number && number <= most {
        Some((number, bytes))
    } else {
        None
    }
}

/// A number of 64 bits within limits.
pub(crate) fn u64_within(bytes: &[u8], least: u64, most: u64) -> Option<(u64, &[u8])>
    ensures value { option_map (λ x. (x.0, x.1.now)) result ≡ ranged_at 8 least most bytes.now }
    ensures within { IfSome result (λ x. (least ≤ x.0) × (x.0 ≤ most)) }
{
    let (number, bytes) = u64_at(bytes)?;
    if least <= number && number <= most {
        Some((number, bytes))
    } else {
        None
    }
}

/// The bits of a mode.
pub(crate) fn mode_at(bytes: &[u8]) -> Option<(u16, &[u8])>
    ensures value { option_map (λ x. (x.0, x.1.now)) result ≡ mode_bits.at bytes.now }
    ensures within { IfSome result (λ x. x.0 ≤ MODE_BITS) }
{
    let (bits, bytes) = u16_at(bytes)?;
    if bits <= MODE_BITS {
        Some((bits, bytes))
    } else {
        None
    }
}

/// So many bytes that are 0; what stands behind them.
pub(crate) fn zeros_at(bytes: &[u8], count: usize) -> Option<&[u8]>
    ensures { option_map (λ rest. (tt, rest.now)) result ≡ zeros_at count bytes.now }
{
    let (zeros, bytes) = part_at(bytes, count)?;
    if is_zero(zeros) { Some(bytes) } else { None }
}

/// A snapshot's name: its length in one byte, and its bytes, with zeros behind them to the most
/// that it may have.
pub(crate) fn padded_at(bytes: &[u8]) -> Option<(&[u8], &[u8])>
    ensures { option_map (λ x. (x.0.now, x.1.now)) result ≡ padded_at SNAPSHOT_NAME_BYTES bytes.now }
{
    let (length, bytes) = u8_at(bytes)?;
    if length as usize > SNAPSHOT_NAME_BYTES {
        return None;
    }
    let (name, bytes) = part_at(bytes, length as usize)?;
    let bytes = zeros_at(bytes, SNAPSHOT_NAME_BYTES - length as usize)?;
    Some((name, bytes))
}
