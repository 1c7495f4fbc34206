//! Marks of the names in a block: two for each name, by a hash of it.

ghost use Rattle.std.specs.Prelude.{◌≡◌, ◌+◌, ◌%◌, ◌↔◌, ◌<◌, ◌≤◌, List, IsTrue};
ghost use Rattle.layout.specs.Directory.{Named, HoldsEntries};
ghost use Rattle.model.specs.Paths.{Name};
ghost use Rattle.entries.specs.Marks.{AreMarked, HasMarks, IsMarkedAt, KeepsMarks, MayBe, hash_of, print_of};

use crate::{HASHES, MARKS, PRINTS, SHARED};
use layout::{NextEntry, next_entry};

/// A name's hash: its two marks stand at the parts of this number.
pub fn hash_of(name: &[u8]) -> usize
    ensures value { result ≡ hash_of name.now }
    ensures within { result < HASHES }
{
    match name.split_first() {
        None => 0,
        Some((first, rest)) => (1021 * hash_of(rest) + *first as usize) % HASHES,
    }
}

// What stands at the places of a name with this hash, where no other name has them.
fn print_of(hash: usize) -> u8
    ensures value { (name : Name) → hash ≡ hash_of name → result ≡ print_of name }
    ensures some { 1 ≤ result }
{
    (hash % PRINTS) as u8 + 1
}

// Whether this mark may be a name's with this print.
fn may_be(mark: u8, print: u8) -> bool
    ensures { IsTrue result ↔ MayBe mark print }
{
    mark == print || mark == SHARED
}

/// Whether both marks of a name with this hash are there.
pub(crate) fn has_marks(marks: &[u8; MARKS], hash: usize) -> bool
    requires { hash < HASHES }
    ensures { (name : Name) → hash ≡ hash_of name → (IsTrue result ↔ HasMarks marks.now name) }
{
    let print = print_of(hash);
    may_be(marks[hash % MARKS], print) && may_be(marks[hash / MARKS], print)
}

/// Sets both marks of a name.
pub(crate) fn mark(marks: &mut [u8; MARKS], name: &[u8])
    ensures keeps { KeepsMarks marks.old marks.new }
    ensures marked { HasMarks marks.new name.now }
{
    let hash = hash_of(name);
    let print = print_of(hash);
    mark_at(marks, hash % MARKS, print);
    mark_at(marks, hash / MARKS, print);
}

// Sets one mark; where a name with another print has it, they share it.
fn mark_at(marks: &mut [u8; MARKS], at: usize, print: u8)
    requires place { at < MARKS }
    requires print { 1 ≤ print }
    ensures keeps { KeepsMarks marks.old marks.new }
    ensures marked { IsMarkedAt marks.new at print }
{
    let old = marks[at];
    let is_free = old == 0 || old == print;
    marks[at] = if is_free { print } else { SHARED };
}

/// Marks the names of a block's entries.
pub(crate) fn mark_each(bytes: &[u8], inodes: u32, marks: &mut [u8; MARKS])
    ensures keeps { KeepsMarks marks.old marks.new }
    ensures marked { (entries : List Named) → HoldsEntries inodes bytes.now entries →
        AreMarked marks.new entries }
{
    match next_entry(bytes, inodes) {
        NextEntry::End => {}
        NextEntry::Malformed => {}
        NextEntry::Entry { entry, rest } => {
            mark(marks, entry.name);
            mark_each(rest, inodes, marks);
        }
    }
}
