//! A quick test of indirect blocks, for those where only zeros stand behind the pointers in use.

ghost use Rattle.std.specs.Prelude.{◌≡◌, ◌+◌, ◌<◌, ◌≤◌, ℕ, IsTrue, length, slice_index};
ghost use Rattle.layout.specs.Maps.{IsPointerBlock, indirect_pointer};
ghost use Rattle.layout.specs.Pointer.{PointsBelow};
ghost use Rattle.layout.specs.declared.TheConstants.{BLOCK_BYTES};

use crate::maps::indirect_pointer;
use crate::{BLOCK_BYTES, BLOCK_POINTERS};
use std::simd::prelude::*;

/// Whether these bytes are an indirect block over so many blocks of a file, with a block at the
/// first pointer and zeros behind those in use.
pub(crate) fn is_filled(bytes: &[u8; BLOCK_BYTES], blocks: u32, used: u32) -> bool
    ensures { IsTrue result → IsPointerBlock blocks used bytes.now }
{
    let first = indirect_pointer(bytes, 0);
    if first.is_hole() {
        return false;
    }
    let count = used.min(BLOCK_POINTERS as u32);
    if !are_zero_from(bytes, 4 * count as usize) {
        return false;
    }
    all_fit(bytes, blocks, count)
}

/// Whether the first so many pointers are holes or lead to blocks of the disk.
fn all_fit(bytes: &[u8; BLOCK_BYTES], blocks: u32, count: u32) -> bool
    requires { count ≤ 1024 }
    ensures { IsTrue result
        → (i : ℕ) → i < count → PointsBelow blocks (indirect_pointer bytes.now i) }
{
    // Every pointer is looked at, whatever came before it: so several are looked at at once.
    let mut fit = true;
    for i in 0..count {
        fit &= indirect_pointer(bytes, i).fits(blocks);
    }
    fit
}

/// Whether the bytes from one place on are zeros.
fn are_zero_from(bytes: &[u8; BLOCK_BYTES], from: usize) -> bool
    requires { from ≤ BLOCK_BYTES }
    ensures { IsTrue result
        → (k : ℕ) → from ≤ k → k < BLOCK_BYTES → slice_index bytes.now k ≡ 0 }
{
    let mut at = from;
    while BLOCK_BYTES - at >= 64 {
        if others_at(bytes, at) != 0 {
            return false;
        }
        at += 64;
    }
    while at < BLOCK_BYTES {
        if bytes[at] != 0 {
            return false;
        }
        at += 1;
    }
    true
}

/// A bit for each of 64 bytes that isn't zero.
fn others_at(bytes: &[u8], at: usize) -> u64
    requires { at + 64 ≤ length bytes.now }
    ensures { result ≡ 0
        → (k : ℕ) → at ≤ k → k < at + 64 → slice_index bytes.now k ≡ 0 }
{
    u8x64::from_slice(&bytes[at..])
        .simd_ne(u8x64::splat(0))
        .to_bitmask()
}
