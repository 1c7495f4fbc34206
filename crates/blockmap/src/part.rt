//! One block of the block map.

ghost use Rattle.std.specs.Prelude.{◌≡◌, ℕ, ◌<◌, ◌≤◌, true, false, IsTrue, IfOk, OnOk, IfSome, IfNone, slice_index, slice_set, ◌↔◌, length};
ghost use Rattle.std.specs.Int.{bit_at};
ghost use Rattle.blockmap.specs.Bits.{SetsPlane};
ghost use Rattle.blockmap.specs.Parts.{HasSet, Spells, free_entries};
ghost use Rattle.layout.specs.declared.TheConstants.{BLOCK_POINTERS};

use crate::bits::{has_bit, with_bit};
use crate::lanes::{and_all, are_words, count_zero, first_zero, take_all};
use layout::{BLOCK_BYTES, BLOCK_POINTERS, map_entry, set_map_entry};
use std::alloc::{AllocError, Global};
use std::marker::Model;

/// The 1,024 entries of a block of the map.
#[derive(Debug, Drop)]
pub struct MapPart {
    settled: Vec<u32>,
    /// How many of the settled entries are zero.
    free: u32,
    /// What the next consistency point stores, where it stores the block.
    changed: Option<Vec<u32>>,
}

impl Model for MapPart {
    ghost use Rattle.std.specs.Option.{option_map};
    ghost use Rattle.blockmap.specs.Parts.{Part, IsMapPart, map_part_of};

    ghost Value = { Part };

    ghost view = { λ p. map_part_of p.settled.items (option_map (λ v. v.items) p.changed) };

    ghost invariant = { λ p. IsMapPart
        (map_part_of p.settled.items (option_map (λ v. v.items) p.changed)) p.free };
}

/// How many of a block's entries are zero.
fn count_free(entries: &[u32]) -> u32
    requires { length entries.now ≡ BLOCK_POINTERS }
    ensures { result ≡ free_entries entries.now }
{
    count_zero(entries) as u32
}

impl MapPart {
    /// The settled entries that this block of the map has.
    pub fn read(alloc: Global, bytes: &[u8; BLOCK_BYTES]) -> Result<MapPart, AllocError>
        ensures settled { IfOk result (λ p. Spells bytes.now p.settled) }
        ensures same { IfOk result (λ p. p.entries ≡ p.settled) }
        ensures untouched { IfOk result (λ p. p.is_touched ≡ false) }
    {
        let mut settled = Vec::new(alloc);
        for i in 0..BLOCK_POINTERS as u32 {
            settled.push(map_entry(bytes, i))?;
        }
        let free = count_free(&settled);
        Ok(MapPart {
            settled,
            free,
            changed: None,
        })
    }

    /// Settled entry `i`.
    pub fn settled(&self, i: u32) -> u32
        requires { i < BLOCK_POINTERS }
        ensures { result ≡ slice_index self.now.settled i }
    {
        self.settled[i as usize]
    }

    /// Entry `i` as the next consistency point makes it.
    pub fn entry(&self, i: u32) -> u32
        requires { i < BLOCK_POINTERS }
        ensures { result ≡ slice_index self.now.entries i }
    {
        match &self.changed {
            Some(entries) => entries[i as usize],
            None => self.settled[i as usize],
        }
    }

    /// Whether the next consistency point stores this block.
    pub fn is_touched(&self) -> bool
        ensures { result ≡ self.now.is_touched }
    {
        self.changed.is_some()
    }

    /// Makes room for changes. No entry changes by it.
    pub fn touch(&mut self) -> Result<(), AllocError>
        ensures settled { self.new.settled ≡ self.old.settled }
        ensures entries { self.new.entries ≡ self.old.entries }
        ensures touched { OnOk result (self.new.is_touched ≡ true) }
        ensures stays { self.old.is_touched ≡ true → self.new.is_touched ≡ true }
    {
        if self.changed.is_none() {
            self.changed = Some(self.settled.clone()?);
        }
        Ok(())
    }

    /// Changes entry `i`, for which there is room.
    pub fn set(&mut self, i: u32, entry: u32)
        requires within { i < BLOCK_POINTERS }
        requires room { self.old.is_touched ≡ true }
        ensures part { self.new ≡ record self.old { entries = slice_set self.old.entries i entry } }
        ensures there { slice_index self.new.entries i ≡ entry }
    {
        if let Some(entries) = &mut self.changed {
            entries[i as usize] = entry;
        }
    }

    /// Makes set `set` the settled set 0. There is room for changes.
    pub fn take_set(&mut self, set: u32)
        requires set { set < 32 }
        requires room { self.old.is_touched ≡ true }
        ensures part { self.new ≡ record self.old { entries = self.new.entries } }
        ensures entries { SetsPlane BLOCK_POINTERS set
            (λ i. bit_at (slice_index self.old.settled i) 0)
            (slice_index self.old.entries) (slice_index self.new.entries) }
    {
        if let Some(entries) = &mut self.changed {
            are_words(entries);
            take_all(entries, &self.settled, !(1 << set), 1 << set);
        }
    }

    /// Makes set 0 the settled set `set`. There is room for changes.
    pub fn load_set(&mut self, set: u32)
        requires set { set < 32 }
        requires room { self.old.is_touched ≡ true }
        ensures part { self.new ≡ record self.old { entries = self.new.entries } }
        ensures entries { SetsPlane BLOCK_POINTERS 0
            (λ i. bit_at (slice_index self.old.settled i) set)
            (slice_index self.old.entries) (slice_index self.new.entries) }
    {
        for i in 0..BLOCK_POINTERS as u32 {
            let is_in = has_bit(self.settled(i), set);
            self.set(i, with_bit(self.entry(i), 0, is_in));
        }
    }

    /// Whether one of the entries is in set `set`.
    pub fn has_set(&self, set: u32) -> bool
        requires { set < 32 }
        ensures { IsTrue result ↔ HasSet set self.now.entries }
    {
        for i in 0..BLOCK_POINTERS as u32 {
            if has_bit(self.entry(i), set) {
                return true;
            }
        }
        false
    }

    /// Makes set `set` empty. There is room for changes, where an entry is in it.
    pub fn clear_set(&mut self, set: u32)
        requires set { set < 32 }
        requires room { HasSet set self.old.entries → self.old.is_touched ≡ true }
        ensures part { self.new ≡ record self.old { entries = self.new.entries } }
        ensures entries { SetsPlane BLOCK_POINTERS set (λ i. 0)
            (slice_index self.old.entries) (slice_index self.new.entries) }
    {
        if let Some(entries) = &mut self.changed {
            are_words(entries);
            and_all(entries, !(1 << set));
        }
    }

    /// The entries as a block of the map spells them.
    pub fn bytes(&self) -> [u8; BLOCK_BYTES]
        ensures { Spells result self.now.entries }
    {
        let mut bytes = [0; BLOCK_BYTES];
        for i in 0..BLOCK_POINTERS as u32 {
            set_map_entry(&mut bytes, i, self.entry(i));
        }
        bytes
    }

    /// How many settled entries are zero. Nothing is counted anew for it.
    pub fn free_count(&self) -> u32
        ensures free { result ≡ free_entries self.now.settled }
        ensures size { length self.now.settled ≡ BLOCK_POINTERS }
    {
        self.free
    }

    /// The first settled entry from one place on that is zero. A block of the map without one isn't
    /// gone over.
    pub fn first_free(&self, from: u32) -> Option<u32>
        ensures found { IfSome result (λ i. (from ≤ i) × (i < BLOCK_POINTERS)
            × (slice_index self.now.settled i ≡ 0)) }
        ensures least { IfSome result (λ i. (k : ℕ) → from ≤ k → k < i
            → slice_index self.now.settled k ≡ 0 → ⊥) }
        ensures none { IfNone result ((k : ℕ) → from ≤ k → k < BLOCK_POINTERS
            → slice_index self.now.settled k ≡ 0 → ⊥) }
    {
        if self.free == 0 {
            return None;
        }
        if from >= BLOCK_POINTERS as u32 {
            return None;
        }
        let found = first_zero(&self.settled, from as usize)?;
        Some(found as u32)
    }

    /// The changes come into force with a root.
    pub fn switch_to_new_root(&mut self)
        ensures settled { self.new.settled ≡ self.old.entries }
        ensures entries { self.new.entries ≡ self.old.entries }
        ensures untouched { self.new.is_touched ≡ false }
    {
        if let Some(entries) = self.changed.take() {
            self.free = count_free(&entries);
            self.settled = entries;
        }
    }

    /// The changes are given up.
    pub fn give_up(&mut self)
        ensures settled { self.new.settled ≡ self.old.settled }
        ensures entries { self.new.entries ≡ self.old.settled }
        ensures untouched { self.new.is_touched ≡ false }
    {
        self.changed = None;
    }
}
