//! A block of a directory, read entry by entry.

ghost use Rattle.std.specs.Prelude.{◌≡◌, ◌≤◌, ◌++◌, ◌^◌, ◌↔◌, ℕ, List, IfNone, IfSome, IsTrue, length};
ghost use Rattle.layout.specs.Bytes.{zeros};
ghost use Rattle.model.specs.declared.limits.TheConstants.{NAME_BYTES};
ghost use Rattle.layout.specs.Directory.{HoldsEntries, IsDirectoryBlock, IsEntry, Named, NextEntryIs, entry_bytes, named_of};

use crate::BLOCK_BYTES;
use crate::entry::{Entry, read_fields};
use crate::fields::is_zero;

/// What stands at an entry's place in a directory's block.
#[derive(Clone, Copy)]
pub enum NextEntry<'a> {
    /// No entry, here or behind: zeros to the block's end.
    End,
    /// An entry, and the bytes behind it.
    Entry { entry: Entry<'a>, rest: &'a [u8] },
    /// Neither: the bytes are no part of a directory.
    Malformed,
}

/// What these bytes, those of a directory's block from an entry's place to its end, begin with in
/// an image of so many inodes. The first entry's place is the block's beginning, and that of each
/// further one lies behind the last.
pub fn next_entry(bytes: &[u8], inodes: u32) -> NextEntry<'_>
    ensures { NextEntryIs inodes bytes.now result }
{
    if is_zero(bytes) {
        return NextEntry::End;
    }
    let Some(entry) = read_fields(bytes) else {
        return NextEntry::Malformed;
    };
    if !entry.fits(inodes) {
        return NextEntry::Malformed;
    }
    let (_, rest) = bytes.split_at(entry.encoded_len());
    NextEntry::Entry { entry, rest }
}

/// What the bytes of a directory's block in its grammar begin with, from an entry's place to its
/// end: an entry, and the bytes behind it; None where no entry is left. Nothing is tested, so it is
/// quick; of bytes outside the grammar it says no more than how it read them.
pub fn first_entry(bytes: &[u8]) -> Option<(Entry<'_>, &[u8])>
    ensures spelled { IfSome result
        (λ r. bytes.now ≡ entry_bytes (named_of r.0) ++ r.1.now) }
    ensures short { IfSome result (λ r. length r.0.name.now ≤ NAME_BYTES) }
    ensures first { (inodes : ℕ) (entries : List Named) → inodes ≤ 2 ^ 32
        → HoldsEntries inodes bytes.now entries
        → IfSome result (λ r. IsEntry inodes (named_of r.0)) }
    ensures none { (inodes : ℕ) (entries : List Named) → inodes ≤ 2 ^ 32
        → HoldsEntries inodes bytes.now entries
        → IfNone result (bytes.now ≡ zeros (length bytes.now)) }
{
    let Some(entry) = read_fields(bytes) else {
        return None;
    };
    if entry.number.get() == 0 {
        return None;
    }
    let (_, rest) = bytes.split_at(5 + entry.name.len());
    Some((entry, rest))
}

/// Whether these bytes are a block of a directory in an image of so many inodes. A name that stands
/// twice is no matter here.
pub fn is_directory_block(bytes: &[u8; BLOCK_BYTES], inodes: u32) -> bool
    ensures { IsTrue result ↔ ((entries : List Named) × IsDirectoryBlock inodes bytes.now entries) }
{
    holds_entries(bytes, inodes)
}

// Whether the bytes are entries, one behind the other, and zeros behind the last.
fn holds_entries(bytes: &[u8], inodes: u32) -> bool
    ensures { IsTrue result ↔ ((entries : List Named) × HoldsEntries inodes bytes.now entries) }
{
    let mut rest = bytes;
    loop {
        match next_entry(rest, inodes) {
            NextEntry::End => return true,
            NextEntry::Malformed => return false,
            NextEntry::Entry { rest: behind, .. } => rest = behind,
        }
    }
}
