//! Kernels over the entries of a block of the map, eight at a time, with a plain loop for the rest.

ghost use Rattle.std.specs.Prelude.{◌≡◌, bit_and, bit_or, ◌%◌, ◌^◌, ◌≢◌, ◌==◌, ◌+◌, ◌*◌, ◌≤◌, ◌<◌, ℕ, not, count_by, length, IfSome, IfNone, slice_index};
ghost use Rattle.std.specs.List.{prefix_len};
ghost use Rattle.std.specs.Simd.Lanes.{chunk};

use std::simd::prelude::*;

/// Each entry has 32 bits. Nothing is done: it is a fact of the type, which a caller that changes
/// the entries can cite.
pub fn are_words(entries: &[u32])
    ensures { (k : ℕ) → slice_index entries.now k < 2 ^ 32 }
{}

/// How many of eight entries are zero.
fn zeros_in(entries: &[u32], at: usize) -> u32
    requires { at + 8 ≤ length entries.now }
    ensures { result ≡ count_by (λ e. e == 0) (chunk at 8 entries.now) }
{
    u32x8::from_slice(&entries[at..])
        .simd_eq(u32x8::splat(0))
        .to_bitmask()
        .count_ones()
}

/// How many of eight entries come before the first that is zero.
fn before_zero_in(entries: &[u32], at: usize) -> u32
    requires { at + 8 ≤ length entries.now }
    ensures { result ≡ prefix_len (λ e. not (e == 0)) (chunk at 8 entries.now) }
{
    let zeros = u32x8::from_slice(&entries[at..])
        .simd_eq(u32x8::splat(0))
        .to_bitmask();
    if zeros == 0 {
        8
    } else {
        zeros.trailing_zeros()
    }
}

/// How many of these entries are zero.
pub fn count_zero(entries: &[u32]) -> usize
    ensures { result ≡ count_by (λ e. e == 0) entries.now }
{
    let mut total = 0;
    let mut at = 0;
    while entries.len() - at >= 8 {
        total += zeros_in(entries, at) as usize;
        at += 8;
    }
    while at < entries.len() {
        if entries[at] == 0 {
            total += 1;
        }
        at += 1;
    }
    total
}

/// The first of these entries from one place on that is zero.
pub fn first_zero(entries: &[u32], from: usize) -> Option<usize>
    requires { from ≤ length entries.now }
    ensures found { IfSome result (λ i. (from ≤ i) × (i < length entries.now)
        × (slice_index entries.now i ≡ 0)) }
    ensures least { IfSome result (λ i. (k : ℕ) → from ≤ k → k < i
        → slice_index entries.now k ≢ 0) }
    ensures none { IfNone result ((k : ℕ) → from ≤ k → k < length entries.now
        → slice_index entries.now k ≢ 0) }
{
    let mut at = from;
    while entries.len() - at >= 8 {
        let before = before_zero_in(entries, at) as usize;
        if before < 8 {
            return Some(at + before);
        }
        at += 8;
    }
    while at < entries.len() {
        if entries[at] == 0 {
            return Some(at);
        }
        at += 1;
    }
    None
}

/// Keeps only these bits of eight entries.
fn and_in(entries: &mut [u32], at: usize, mask: u32)
    requires { at + 8 ≤ length entries.old }
    ensures length { length entries.new ≡ length entries.old }
    ensures inside { (k : ℕ) → at ≤ k → k < at + 8
        → slice_index entries.new k ≡ bit_and (slice_index entries.old k) mask }
    ensures below { (k : ℕ) → k < at → slice_index entries.new k ≡ slice_index entries.old k }
    ensures above { (k : ℕ) → at + 8 ≤ k → slice_index entries.new k ≡ slice_index entries.old k }
{
    let lanes = u32x8::from_slice(&entries[at..]) & u32x8::splat(mask);
    lanes.copy_to_slice(&mut entries[at..]);
}

/// Keeps only these bits of each entry.
pub fn and_all(entries: &mut [u32], mask: u32)
    ensures length { length entries.new ≡ length entries.old }
    ensures bits { (k : ℕ) → k < length entries.old
        → slice_index entries.new k ≡ bit_and (slice_index entries.old k) mask }
{
    let mut at = 0;
    while entries.len() - at >= 8 {
        and_in(entries, at, mask);
        at += 8;
    }
    while at < entries.len() {
        entries[at] &= mask;
        at += 1;
    }
}

/// Sets a bit of eight entries to the lowest of eight others, where it is out of the mask.
fn take_in(entries: &mut [u32], settled: &[u32], at: usize, mask: u32, bit: u32)
    requires room { at + 8 ≤ length entries.old }
    requires others { at + 8 ≤ length settled.now }
    ensures length { length entries.new ≡ length entries.old }
    ensures inside { (k : ℕ) → at ≤ k → k < at + 8 → slice_index entries.new k
        ≡ bit_or (bit_and (slice_index entries.old k) mask)
        (bit_and (slice_index settled.now k) 1 * bit % 2 ^ 32) }
    ensures below { (k : ℕ) → k < at → slice_index entries.new k ≡ slice_index entries.old k }
    ensures above { (k : ℕ) → at + 8 ≤ k → slice_index entries.new k ≡ slice_index entries.old k }
{
    let kept = u32x8::from_slice(&entries[at..]) & u32x8::splat(mask);
    let taken = (u32x8::from_slice(&settled[at..]) & u32x8::splat(1)) * u32x8::splat(bit);
    (kept | taken).copy_to_slice(&mut entries[at..]);
}

/// Sets a bit of each entry to the lowest of the other list's entry, where it is out of the mask.
pub fn take_all(entries: &mut [u32], settled: &[u32], mask: u32, bit: u32)
    requires { length settled.now ≡ length entries.old }
    ensures length { length entries.new ≡ length entries.old }
    ensures bits { (k : ℕ) → k < length entries.old → slice_index entries.new k
        ≡ bit_or (bit_and (slice_index entries.old k) mask)
        (bit_and (slice_index settled.now k) 1 * bit % 2 ^ 32) }
{
    let mut at = 0;
    while entries.len() - at >= 8 {
        take_in(entries, settled, at, mask, bit);
        at += 8;
    }
    while at < entries.len() {
        entries[at] = (entries[at] & mask) | (settled[at] & 1).wrapping_mul(bit);
        at += 1;
    }
}
