//! An entry of a directory's block.

ghost use Rattle.std.specs.Prelude.{◌≡◌, ◌≤◌, ◌+◌, ◌↔◌, IsTrue, IfSome, IsSomeAnd, length};
ghost use Rattle.std.specs.Option.{option_map};
ghost use Rattle.layout.specs.Bytes.{Writes};
ghost use Rattle.model.specs.declared.limits.TheConstants.{NAME_BYTES};
ghost use Rattle.layout.specs.Directory.{BeginsWith, IsEntry, Named, entry_bytes, entry_fields, entry_in, named_of};

use crate::InodeNumber;
use crate::geometry::MOST_INODES;
use crate::name::is_name;
use crate::reading::{name_at, u32_at};
use crate::writing::{put_bytes, put_u8, put_u32};
use model::FIRST_NUMBER;

/// An entry of a directory.
#[derive(Clone, Copy, Debug)]
pub struct Entry<'a> {
    /// The inode of the object, from 4 on.
    pub number: InodeNumber,
    pub name: &'a [u8],
}

impl<'a> Entry<'a> {
    /// The entry that the bytes begin with; None where they begin with none in an image of any
    /// geometry.
    pub fn read(bytes: &'a [u8]) -> Option<Entry<'a>>
        ensures found { IfSome result (λ e. IsEntry MOST_INODES (named_of e)
            × BeginsWith bytes.now (named_of e)) }
        ensures only { (e : Named) → IsEntry MOST_INODES e → BeginsWith bytes.now e
            → IsSomeAnd result (λ x. named_of x ≡ e) }
    {
        let Some(entry) = read_fields(bytes) else {
            return None;
        };
        if entry.fits(MOST_INODES) {
            Some(entry)
        } else {
            None
        }
    }

    /// Whether it is an entry of an image of so many inodes: its number is an ordinary one, and its
    /// name is a name.
    pub fn fits(&self, inodes: u32) -> bool
        ensures { IsTrue result ↔ IsEntry inodes (named_of self.now) }
    {
        let number = self.number.get();
        FIRST_NUMBER <= number && number < inodes && is_name(self.name)
    }

    /// Bytes of the entry: five, and the name.
    pub fn encoded_len(&self) -> usize
        requires { length self.now.name.now ≤ NAME_BYTES }
        ensures { result ≡ length (entry_bytes (named_of self.now)) }
    {
        5 + self.name.len()
    }

    /// Writes the entry, and answers how many bytes it has.
    pub fn write(&self, out: &mut [u8]) -> usize
        requires fits { length self.now.name.now ≤ NAME_BYTES }
        requires room { length (entry_bytes (named_of self.now)) ≤ length out.old }
        ensures { Writes 0 result (entry_bytes (named_of self.now)) out.old out.new }
    {
        write_entry(self.number, self.name, out)
    }
}

#[tactic(auto, unfolding(crate::specs::Directory::entry_in))]
pub(crate) fn read_fields(bytes: &[u8]) -> Option<Entry<'_>>
    ensures { option_map named_of result ≡ entry_in bytes.now }
{
    let (number, bytes) = u32_at(bytes)?;
    let (name, _) = name_at(bytes)?;
    Some(Entry {
        number: InodeNumber::new(number),
        name,
    })
}

fn write_entry(number: InodeNumber, name: &[u8], out: &mut [u8]) -> usize
    requires fits { length name.now ≤ NAME_BYTES }
    requires room { 5 + length name.now ≤ length out.old }
    ensures { Writes 0 result (entry_fields.text (number, name.now)) out.old out.new }
{
    put_u32(out, 0, number.get());
    put_u8(out, 4, name.len() as u8);
    put_bytes(out, 5, name);
    5 + name.len()
}
