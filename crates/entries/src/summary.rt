//! The summary of a block's bytes.

use crate::MARKS;

/// What the bytes of a block tell.
#[derive(Debug, Drop)]
pub(crate) struct Summary {
    /// Entries of the block.
    pub(crate) names: u32,
    /// Bytes of its entries.
    pub(crate) used: u32,
    /// At the places of each name's marks a 1, and maybe of names that were taken away.
    pub(crate) marks: Box<[u8; MARKS]>,
    /// Changes that it followed since it was made.
    pub(crate) changes: u32,
    ghost likely: { names ≤ 4096 },
    ghost small: { used ≤ 260 * names },
}

ghost use Rattle.std.specs.Prelude.{◌≡◌, ◌≤◌, ◌<◌, ◌*◌, [], ◌∷◌, ◌++◌, ℕ, List, IfOk, IfSome, IsFalse, IsTrue, None};
ghost use Rattle.layout.specs.Directory.{Named, HoldsEntries, IsEntry, named_of};
ghost use Rattle.entries.specs.Entries.{IsObjectNumber, without};

use crate::entries::{close_up, find, place_of};
use crate::look::Look;
use crate::marks::{has_marks, mark, mark_each};
use crate::{MOST_CHANGES, MOST_NAMES};
use layout::{BLOCK_BYTES, Entry};
use std::alloc::{AllocError, Global};

impl Summary {
    ghost use Rattle.entries.specs.Known.{Summarizes};
    ghost use Rattle.entries.specs.Marks.{hash_of};
    ghost use Rattle.entries.specs.Looks.{TellsEntries, IsLikely};

    /// The summary of these bytes, of which a look told so much.
    pub(crate) fn of(
        alloc: Global,
        bytes: &[u8; BLOCK_BYTES],
        inodes: u32,
        name: &[u8],
        look: Look,
    ) -> Result<Summary, AllocError>
        requires tells { TellsEntries inodes bytes.now name.now look }
        requires likely { IsLikely look }
        ensures { IfOk result (Summarizes inodes bytes.now) }
    {
        let mut marks = Box::new(alloc, [0; MARKS])?;
        mark_each(bytes, inodes, &mut marks);
        Ok(Summary {
            names: look.names,
            used: look.used,
            marks,
            changes: 0,
        })
    }

    /// What it tells of a name, of which this is the hash, that its block hasn't; None where the
    /// block may have it.
    pub(crate) fn skim(&self, name: &[u8], hash: usize) -> Option<Look>
        requires { hash ≡ hash_of name.now }
        ensures tells { (inodes : ℕ) (bytes : List ℕ) → Summarizes inodes bytes self.now →
            IfSome result (TellsEntries inodes bytes name.now) }
        ensures likely { IfSome result IsLikely }
        ensures missing { IfSome result (λ l. l.number ≡ None) }
    {
        if has_marks(&self.marks, hash) {
            return None;
        }
        Some(Look {
            number: None,
            names: self.names,
            used: self.used,
        })
    }

    /// What the bytes that it tells of tell of a name.
    pub(crate) fn look(&self, bytes: &[u8; BLOCK_BYTES], inodes: u32, name: &[u8]) -> Look
        ensures tells { Summarizes inodes bytes.now self.now →
            TellsEntries inodes bytes.now name.now result }
        ensures ordinary { IfSome result.number (IsObjectNumber inodes) }
        ensures likely { IsLikely result }
    {
        Look {
            number: find(bytes, inodes, name),
            names: self.names,
            used: self.used,
        }
    }

    /// Adds an entry behind the others of the bytes that it tells of, and tells of the new ones
    /// from now on; false where nothing happened: where they leave no room, or it followed many
    /// changes.
    pub(crate) fn add(
        &mut self,
        bytes: &mut [u8; BLOCK_BYTES],
        inodes: u32,
        entry: &Entry<'_>,
    ) -> bool
        requires { IsEntry inodes (named_of entry.now) }
        ensures same { IsFalse result → bytes.new ≡ bytes.old }
        ensures holds { (entries : List Named) → Summarizes inodes bytes.old self.old →
            HoldsEntries inodes bytes.old entries → IsTrue result →
            HoldsEntries inodes bytes.new (entries ++ named_of entry.now ∷ []) }
        ensures tells { Summarizes inodes bytes.old self.old → IsTrue result →
            Summarizes inodes bytes.new self.new }
    {
        let at = self.used as usize;
        let count = entry.encoded_len();
        if at + count > BLOCK_BYTES || self.names >= MOST_NAMES || self.changes >= MOST_CHANGES {
            return false;
        }
        entry.write(&mut bytes[at..]);
        mark(&mut self.marks, entry.name);
        self.names += 1;
        self.used += count as u32;
        self.changes += 1;
        true
    }

    /// Takes the entry with a name out of the bytes that it tells of, and tells of the new ones
    /// from now on; false where nothing happened: where the name doesn't stand among them, it
    /// followed many changes, or what would be left is more than so many entries have.
    pub(crate) fn remove(&mut self, bytes: &mut [u8; BLOCK_BYTES], inodes: u32, name: &[u8]) -> bool
        ensures same { IsFalse result → bytes.new ≡ bytes.old }
        ensures holds { (entries : List Named) → HoldsEntries inodes bytes.old entries →
            IsTrue result → HoldsEntries inodes bytes.new (without name.now entries) }
        ensures tells { Summarizes inodes bytes.old self.old → IsTrue result →
            Summarizes inodes bytes.new self.new }
    {
        if self.changes >= MOST_CHANGES {
            return false;
        }
        let Some((at, count)) = place_of(bytes, inodes, name) else {
            return false;
        };
        if self.names == 0 || (self.used as usize) < count {
            return false;
        }
        let names = self.names - 1;
        let used = self.used - count as u32;
        if used > 260 * names {
            return false;
        }
        close_up(bytes, at, count);
        self.names = names;
        self.used = used;
        self.changes += 1;
        true
    }
}
