//! The entries of one block. A block outside its grammar is safe to look at, and nothing is said of
//! what comes out.

ghost use Rattle.std.specs.Prelude.{◌≡◌, ◌+◌, ◌<◌, ◌≤◌, ◌∷◌, [], ◌++◌, List, length, Option, IfSome, IfNone, None, Some, take, drop};
ghost use Rattle.layout.specs.Bytes.{zeros};
ghost use Rattle.layout.specs.Directory.{Named, HoldsEntries, IsEntry, entry_bytes, named_of};
ghost use Rattle.layout.specs.DirectoryNames.{number_of};
ghost use Rattle.entries.specs.Entries.{IsObjectNumber, IsOneFewer, without, used_by};

use layout::{Entry, InodeNumber, NextEntry, first_entry, next_entry};
use model::FIRST_NUMBER;

/// The number that a name stands for among the entries of a block.
pub(crate) fn find(bytes: &[u8], inodes: u32, name: &[u8]) -> Option<u32>
    ensures found { (entries : List Named) → HoldsEntries inodes bytes.now entries →
        result ≡ number_of name.now entries }
    ensures ordinary { IfSome result (IsObjectNumber inodes) }
{
    let Some((entry, rest)) = first_entry(bytes) else {
        return None;
    };
    if name == entry.name {
        ordinary(entry.number, inodes)
    } else {
        find(rest, inodes, name)
    }
}

// An object's number; None where it is none in an image of so many inodes.
fn ordinary(number: InodeNumber, inodes: u32) -> Option<u32>
    ensures same { IsObjectNumber inodes number → result ≡ Some number }
    ensures ordinary { IfSome result (IsObjectNumber inodes) }
{
    let number = number.get();
    if FIRST_NUMBER <= number && number < inodes {
        Some(number)
    } else {
        None
    }
}

/// How many bytes the entries of a block have.
pub(crate) fn used(bytes: &[u8], inodes: u32) -> usize
    ensures within { result ≤ length bytes.now }
    ensures used { (entries : List Named) → HoldsEntries inodes bytes.now entries →
        result ≡ used_by entries }
{
    match next_entry(bytes, inodes) {
        NextEntry::End => 0,
        NextEntry::Malformed => 0,
        NextEntry::Entry { entry, rest } => entry.encoded_len() + used(rest, inodes),
    }
}

/// How many entries a block has.
pub fn count(bytes: &[u8], inodes: u32) -> usize
    ensures within { result ≤ length bytes.now }
    ensures count { (entries : List Named) → HoldsEntries inodes bytes.now entries →
        result ≡ length entries }
{
    match next_entry(bytes, inodes) {
        NextEntry::End => 0,
        NextEntry::Malformed => 0,
        NextEntry::Entry { rest, .. } => 1 + count(rest, inodes),
    }
}

/// Adds an entry behind the others, where they leave room for it.
pub fn add(bytes: &mut [u8], inodes: u32, entry: &Entry<'_>)
    requires fits { IsEntry inodes (named_of entry.now) }
    requires block { length bytes.old ≡ 4096 }
    ensures length { length bytes.new ≡ length bytes.old }
    ensures holds { (entries : List Named) → HoldsEntries inodes bytes.old entries →
        used_by entries + length (entry_bytes (named_of entry.now)) ≤ 4096 →
        HoldsEntries inodes bytes.new (entries ++ named_of entry.now ∷ []) }
{
    let at = used(bytes, inodes);
    if at + entry.encoded_len() <= bytes.len() {
        entry.write(&mut bytes[at..]);
    }
}

/// Takes the entry with a name away, if there is one, and closes up what stood behind it.
pub fn remove(bytes: &mut [u8], inodes: u32, name: &[u8])
    ensures length { length bytes.new ≡ length bytes.old }
    ensures holds { (entries : List Named) → HoldsEntries inodes bytes.old entries →
        HoldsEntries inodes bytes.new (without name.now entries) }
{
    if let Some((at, count)) = place_of(bytes, inodes, name) {
        close_up(bytes, at, count);
    }
}

/// Takes so many bytes out, moves up those behind them, and leaves zeros at the end.
pub(crate) fn close_up(bytes: &mut [u8], at: usize, count: usize)
    requires { at + count ≤ length bytes.old }
    ensures { bytes.new ≡ take at bytes.old ++ (drop (at + count) bytes.old ++ zeros count) }
{
    let end = bytes.len() - count;
    bytes.copy_within(at + count.., at);
    bytes[end..].fill(0);
}

/// Where the entry with a name stands in a block, and how many bytes it has.
pub(crate) fn place_of(bytes: &[u8], inodes: u32, name: &[u8]) -> Option<(usize, usize)>
    ensures within { IfSome result (λ p. p.0 + p.1 ≤ length bytes.now) }
    ensures found { (entries : List Named) → HoldsEntries inodes bytes.now entries →
        IfSome result (λ p. HoldsEntries inodes
        (take p.0 bytes.now ++ (drop (p.0 + p.1) bytes.now ++ zeros p.1))
        (without name.now entries)) }
    ensures fewer { (entries : List Named) → HoldsEntries inodes bytes.now entries →
        IfSome result (λ p. IsOneFewer p.1 entries (without name.now entries)) }
    ensures missing { (entries : List Named) → HoldsEntries inodes bytes.now entries →
        IfNone result (number_of name.now entries ≡ None) }
{
    let Some((entry, rest)) = first_entry(bytes) else {
        return None;
    };
    if name == entry.name {
        return Some((0, entry.encoded_len()));
    }
    let Some((at, count)) = place_of(rest, inodes, name) else {
        return None;
    };
    Some((entry.encoded_len() + at, count))
}
