//! What is known of the blocks of one directory.

ghost use Rattle.std.specs.Prelude.{◌≡◌, ◌≤◌, ◌<◌, ◌+◌, [], ◌∷◌, ◌++◌, ℕ, List, length, IfOk, IfErr, IfSome, OnErr, None};
ghost use Rattle.layout.specs.Directory.{Named, HoldsEntries, IsEntry, entry_bytes, named_of};
ghost use Rattle.buffers.specs.declared.error.BlockError.TheVariants.{Damaged};
ghost use Rattle.entries.specs.Entries.{IsObjectNumber, used_by, without};

use crate::MOST_KNOWN;
use crate::entries::{add, remove};
use crate::look::{Look, look_at};
use crate::summary::Summary;
use buffers::BlockError;
use layout::{BLOCK_BYTES, Entry};
use std::alloc::Global;

/// Summaries of blocks that were looked at. Any may be dropped.
#[derive(Debug, Drop)]
pub struct Known {
    alloc: Global,
    /// By the block's index.
    summaries: Vec<Option<Summary>>,
}

impl Known {
    ghost use Rattle.entries.specs.Marks.{hash_of};
    ghost use Rattle.entries.specs.Known.{AreButOne, Knows, Summarizes};
    ghost use Rattle.entries.specs.Looks.{TellsEntries, IsLikely};

    /// Nothing is known.
    pub fn new(alloc: Global) -> Known
        ensures { (inodes : ℕ) (block : ℕ → List ℕ) → Knows inodes block result }
    {
        Known {
            alloc,
            summaries: Vec::new(alloc),
        }
    }

    /// What is known of block `i` where it hasn't this name, of which this is the hash; None where
    /// nothing is known, or it may have the name.
    pub fn skim(&self, i: u32, name: &[u8], hash: usize) -> Option<Look>
        requires { hash ≡ hash_of name.now }
        ensures tells { (inodes : ℕ) (block : ℕ → List ℕ) → Knows inodes block self.now →
            IfSome result (TellsEntries inodes (block i) name.now) }
        ensures likely { IfSome result IsLikely }
        ensures missing { IfSome result (λ l. l.number ≡ None) }
    {
        match self.summary(i) {
            Some(summary) => summary.skim(name, hash),
            None => None,
        }
    }

    /// Looks at block `i`, which has these bytes, for a name. Where nothing is known of it, its
    /// entries are walked, and what they tell is learned, if that is asked for; Damaged where it is
    /// outside its grammar.
    pub fn look_at(
        &mut self,
        i: u32,
        bytes: &[u8; BLOCK_BYTES],
        inodes: u32,
        name: &[u8],
        learns: bool,
    ) -> Result<Look, BlockError>
        ensures tells { (block : ℕ → List ℕ) → Knows inodes block self.old → block i ≡ bytes.now →
            IfOk result (TellsEntries inodes bytes.now name.now) }
        ensures ordinary { IfOk result (λ l. IfSome l.number (IsObjectNumber inodes)) }
        ensures likely { IfOk result IsLikely }
        ensures damaged { OnErr result ((entries : List Named) →
            HoldsEntries inodes bytes.now entries → ⊥) }
        ensures only { IfErr result (λ e. e ≡ Damaged) }
        ensures knows { (block : ℕ → List ℕ) → Knows inodes block self.old → block i ≡ bytes.now →
            Knows inodes block self.new }
    {
        if let Some(summary) = self.summary(i) {
            return Ok(summary.look(bytes, inodes, name));
        }
        let look = look_at(bytes, inodes, name)?;
        if learns {
            self.learn(i, bytes, inodes, name, look);
        }
        Ok(look)
    }

    /// Adds an entry behind the others of block `i`, which has these bytes, where they leave room
    /// for it. What is known of the block follows.
    pub fn add(&mut self, i: u32, bytes: &mut [u8; BLOCK_BYTES], inodes: u32, entry: &Entry<'_>)
        requires { IsEntry inodes (named_of entry.now) }
        ensures length { length bytes.new ≡ length bytes.old }
        ensures holds { (block : ℕ → List ℕ) (entries : List Named) → Knows inodes block self.old →
            block i ≡ bytes.old → HoldsEntries inodes bytes.old entries →
            used_by entries + length (entry_bytes (named_of entry.now)) ≤ 4096 →
            HoldsEntries inodes bytes.new (entries ++ named_of entry.now ∷ []) }
        ensures knows { (block next : ℕ → List ℕ) → Knows inodes block self.old →
            block i ≡ bytes.old → next i ≡ bytes.new → AreButOne i block next →
            Knows inodes next self.new }
    {
        if let Some(mut summary) = self.take(i)
            && summary.add(bytes, inodes, entry)
        {
            self.keep(i, summary);
            return;
        }
        add(bytes, inodes, entry);
    }

    /// Takes the entry with a name out of block `i`, which has these bytes, if there is one. What
    /// is known of the block follows.
    pub fn remove(&mut self, i: u32, bytes: &mut [u8; BLOCK_BYTES], inodes: u32, name: &[u8])
        ensures length { length bytes.new ≡ length bytes.old }
        ensures holds { (entries : List Named) → HoldsEntries inodes bytes.old entries →
            HoldsEntries inodes bytes.new (without name.now entries) }
        ensures knows { (block next : ℕ → List ℕ) → Knows inodes block self.old →
            block i ≡ bytes.old → next i ≡ bytes.new → AreButOne i block next →
            Knows inodes next self.new }
    {
        if let Some(mut summary) = self.take(i)
            && summary.remove(bytes, inodes, name)
        {
            self.keep(i, summary);
            return;
        }
        remove(bytes, inodes, name);
    }

    /// Nothing is known of the blocks from `count` on any more.
    pub fn forget_from(&mut self, count: u32)
        ensures knows { (inodes : ℕ) (block next : ℕ → List ℕ) → Knows inodes block self.old →
            ((i : ℕ) → i < count → next i ≡ block i) → Knows inodes next self.new }
    {
        self.summaries.truncate(count as usize);
    }

    // The summary of block `i`, if it is known.
    fn summary(&self, i: u32) -> Option<&Summary>
        ensures { (inodes : ℕ) (block : ℕ → List ℕ) → Knows inodes block self.now →
            IfSome result (λ s. Summarizes inodes (block i) s.now) }
    {
        match self.summaries.get(i as usize) {
            Some(slot) => slot.as_ref(),
            None => None,
        }
    }

    // Keeps the summary of a block, where there is room for it and the blocks before it are known.
    fn learn(&mut self, i: u32, bytes: &[u8; BLOCK_BYTES], inodes: u32, name: &[u8], look: Look)
        requires tells { TellsEntries inodes bytes.now name.now look }
        requires likely { IsLikely look }
        ensures knows { (block : ℕ → List ℕ) → Knows inodes block self.old → block i ≡ bytes.now →
            Knows inodes block self.new }
    {
        if i >= MOST_KNOWN || i as usize > self.summaries.len() {
            return;
        }
        let Ok(summary) = Summary::of(self.alloc, bytes, inodes, name, look) else {
            return;
        };
        self.keep(i, summary);
    }

    // Takes the summary of a block, which isn't known then.
    fn take(&mut self, i: u32) -> Option<Summary>
        ensures told { (inodes : ℕ) (block : ℕ → List ℕ) → Knows inodes block self.old →
            IfSome result (Summarizes inodes (block i)) }
        ensures left { (inodes : ℕ) (block next : ℕ → List ℕ) → Knows inodes block self.old →
            AreButOne i block next → Knows inodes next self.new }
    {
        let i = i as usize;
        if i >= self.summaries.len() {
            return None;
        }
        self.summaries[i].take()
    }

    // Keeps this as the summary of a block, where there is memory and those before it have a place.
    fn keep(&mut self, i: u32, summary: Summary)
        ensures { (inodes : ℕ) (block : ℕ → List ℕ) → Knows inodes block self.old →
            Summarizes inodes (block i) summary → Knows inodes block self.new }
    {
        let i = i as usize;
        if i < self.summaries.len() {
            self.summaries[i] = Some(summary);
        } else if i == self.summaries.len() {
            let _ = self.summaries.push(Some(summary));
        }
    }
}
