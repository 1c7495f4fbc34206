//! The whole block map.

ghost use Rattle.std.specs.Prelude.{◌≡◌, ◌≢◌, ℕ, ◌*◌, ◌/◌, ◌<◌, ◌≤◌, IsTrue, OnOk, IfSome, IfNone, length, ◌+◌, ◌↔◌, ◌⊎◌};
ghost use Rattle.layout.specs.declared.geometry.TheConstants.{MOST_BLOCKS};
ghost use Rattle.std.specs.Int.{bit_at};
ghost use Rattle.blockmap.specs.declared.map.TheConstants.{FIRST_BLOCK, SYSTEM_PLANE};

use crate::bits::with_bit;
use crate::part::MapPart;
use layout::{BLOCK_BYTES, BlockNumber};
use std::alloc::AllocError;

/// Entries in a block of the map.
const ENTRIES: u32 = 1024;

/// The first block that isn't one of the two that hold the roots.
const FIRST_BLOCK: u32 = 2;

/// The set of the system's own blocks.
pub const SYSTEM_PLANE: u32 = 31;

/// The block map: settled entries, and over them those that the next consistency point stores.
#[derive(Debug, Drop)]
pub struct BlockMap {
    parts: Vec<MapPart>,
    /// How many blocks the disk has.
    count: u32,
    /// Each free block below this one is given out, but for the two that hold the roots: these
    /// never are.
    next: u32,
    ghost covers: { count ≤ 1024 * length parts.items },
    ghost just: { 1024 * length parts.items < count + 1024 },
    ghost most: { count ≤ MOST_BLOCKS },
    ghost behind: { 2 ≤ next },
}

impl BlockMap {
    ghost use Rattle.blockmap.specs.Changes.{HasMadeRoom, PutsBlock, PutsPlane, SwitchesTo};
    ghost use Rattle.blockmap.specs.Maps.{settled_at, entry_at, free_below, HasSetAt, HoldsPart, IsFree, IsTouched};
    ghost use Rattle.blockmap.specs.Space.{left};

    /// The map of a disk of so many blocks, of which no free one is given out.
    pub fn new(parts: Vec<MapPart>, count: u32) -> BlockMap
        requires covers { count ≤ 1024 * length parts.items }
        requires just { 1024 * length parts.items < count + 1024 }
        requires most { count ≤ MOST_BLOCKS }
        ensures parts { result.parts.items ≡ parts.items }
        ensures count { result.count ≡ count }
        ensures next { result.next ≡ FIRST_BLOCK }
    {
        BlockMap {
            parts,
            count,
            next: FIRST_BLOCK,
        }
    }

    /// Whether a block is free under the settled root.
    pub fn is_free(&self, block: BlockNumber) -> bool
        requires { block < self.now.count }
        ensures { IsTrue result ↔ IsFree self.now.parts.items block }
    {
        let b = block.get();
        self.parts[(b / ENTRIES) as usize].settled(b % ENTRIES) == 0
    }

    /// Gives out the least block that is free under the settled root and wasn't given out yet; None
    /// where there is none.
    pub fn allocate(&mut self) -> Option<BlockNumber>
        ensures parts { self.new.parts.items ≡ self.old.parts.items }
        ensures count { self.new.count ≡ self.old.count }
        ensures next { self.old.next ≤ self.new.next }
        ensures given { IfSome result (λ b. (self.old.next ≤ b) × (b < self.old.count)
            × IsFree self.old.parts.items b × (self.new.next ≡ b + 1)) }
        ensures least { IfSome result (λ b. (k : ℕ) → self.old.next ≤ k → k < b
            → IsFree self.old.parts.items k → ⊥) }
        ensures none { IfNone result ((k : ℕ) → self.old.next ≤ k → k < self.old.count
            → IsFree self.old.parts.items k → ⊥) }
        ensures fewer { IfSome result (λ b. left self.old ≡ left self.new + 1) }
        ensures none_left { IfNone result (left self.old ≡ 0) }
    {
        let found = self.free_from(self.next)?;
        self.next = found + 1;
        Some(BlockNumber::new(found))
    }

    /// The first block from one on that is free under the settled root.
    fn free_from(&self, from: u32) -> Option<u32>
        ensures found { IfSome result (λ b. (from ≤ b) × (b < self.now.count)
            × IsFree self.now.parts.items b) }
        ensures least { IfSome result (λ b. (k : ℕ) → from ≤ k → k < b
            → IsFree self.now.parts.items k → ⊥) }
        ensures none { IfNone result ((k : ℕ) → from ≤ k → k < self.now.count
            → IsFree self.now.parts.items k → ⊥) }
    {
        let mut at = from;
        while at < self.count {
            let j = at / ENTRIES;
            if let Some(i) = self.parts[j as usize].first_free(at % ENTRIES) {
                let found = ENTRIES * j + i;
                return if found < self.count {
                    Some(found)
                } else {
                    None
                };
            }
            at = ENTRIES * (j + 1);
        }
        None
    }

    /// How many blocks the disk has.
    pub fn count(&self) -> u32
        ensures { result ≡ self.now.count }
    {
        self.count
    }

    /// How many blocks the map has.
    pub fn part_count(&self) -> usize
        ensures { result ≡ length self.now.parts.items }
    {
        self.parts.len()
    }

    /// Whether the next consistency point stores block `j` of the map.
    pub fn is_touched(&self, j: usize) -> bool
        requires { j < length self.now.parts.items }
        ensures { IsTrue result ↔ IsTouched self.now.parts.items j }
    {
        self.parts[j].is_touched()
    }

    /// Block `j` of the map, as the next consistency point makes it.
    pub fn bytes(&self, j: usize) -> [u8; BLOCK_BYTES]
        requires { j < length self.now.parts.items }
        ensures { HoldsPart self.now.parts.items j result }
    {
        self.parts[j].bytes()
    }

    /// Makes room for changes of entries in block `j` of the map, which is stored then. No entry
    /// changes by it.
    pub fn touch(&mut self, j: usize) -> Result<(), AllocError>
        requires { j < length self.old.parts.items }
        ensures room { HasMadeRoom self.old self.new }
        ensures touched { OnOk result (IsTouched self.new.parts.items j) }
        // No more of the map is stored for it.
        ensures same { (i : ℕ) → i ≢ j
            → IsTouched self.new.parts.items i → IsTouched self.old.parts.items i }
    {
        self.parts[j].touch()?;
        Ok(())
    }

    /// Puts a block into set 0 or takes it out. There is room in the map.
    pub fn mark(&mut self, block: BlockNumber, is_in: bool)
        requires within { block < self.old.count }
        requires room { IsTouched self.old.parts.items (block / 1024) }
        ensures { PutsBlock 0 block is_in self.old self.new }
    {
        self.put(0, block, is_in);
    }

    /// Puts a block into the set of the system's own, or takes it out. There is room in the map.
    pub fn mark_system(&mut self, block: BlockNumber, is_in: bool)
        requires within { block < self.old.count }
        requires room { IsTouched self.old.parts.items (block / 1024) }
        ensures { PutsBlock SYSTEM_PLANE block is_in self.old self.new }
    {
        self.put(SYSTEM_PLANE, block, is_in);
    }

    /// Puts a block into a set or takes it out. There is room in the map.
    fn put(&mut self, set: u32, block: BlockNumber, is_in: bool)
        requires set { set < 32 }
        requires within { block < self.old.count }
        requires room { IsTouched self.old.parts.items (block / 1024) }
        ensures { PutsBlock set block is_in self.old self.new }
    {
        let b = block.get();
        let part = &mut self.parts[(b / ENTRIES) as usize];
        let entry = part.entry(b % ENTRIES);
        part.set(b % ENTRIES, with_bit(entry, set, is_in));
    }

    /// Makes room for changes of all entries. None changes by it.
    fn touch_all(&mut self) -> Result<(), AllocError>
        ensures room { HasMadeRoom self.old self.new }
        ensures touched { OnOk result ((j : ℕ) → j < length self.old.parts.items
            → IsTouched self.new.parts.items j) }
    {
        for j in 0..self.parts.len() {
            self.touch(j)?;
        }
        Ok(())
    }

    /// Makes set `set` the settled set 0. Where there is no memory no entry changes.
    pub fn take_plane(&mut self, set: u32) -> Result<(), AllocError>
        requires { set < 32 }
        ensures put { PutsPlane set (λ b. bit_at (settled_at self.old.parts.items b) 0)
            self.old self.new result }
        ensures touched { OnOk result ((j : ℕ) → j < length self.old.parts.items
            → IsTouched self.new.parts.items j) }
    {
        self.touch_all()?;
        for j in 0..self.parts.len() {
            self.parts[j].take_set(set);
        }
        Ok(())
    }

    /// Makes set 0 the settled set `set`: the active tree is that of a snapshot then. Each block of
    /// the map is stored for it. Where there is no memory no entry changes.
    pub fn load_plane(&mut self, set: u32) -> Result<(), AllocError>
        requires { set < 32 }
        ensures put { PutsPlane 0 (λ b. bit_at (settled_at self.old.parts.items b) set)
            self.old self.new result }
        ensures touched { OnOk result ((j : ℕ) → j < length self.old.parts.items
            → IsTouched self.new.parts.items j) }
    {
        self.touch_all()?;
        for j in 0..self.parts.len() {
            self.parts[j].load_set(set);
        }
        Ok(())
    }

    /// Makes room for changes of all blocks of the map with an entry in set `set`. No entry changes
    /// by it.
    fn touch_set(&mut self, set: u32) -> Result<(), AllocError>
        requires { set < 32 }
        ensures room { HasMadeRoom self.old self.new }
        ensures touched { OnOk result ((j : ℕ) → j < length self.old.parts.items
            → HasSetAt set self.old.parts.items j → IsTouched self.new.parts.items j) }
        ensures few { (j : ℕ) → IsTouched self.new.parts.items j
            → IsTouched self.old.parts.items j ⊎ HasSetAt set self.old.parts.items j }
    {
        for j in 0..self.parts.len() {
            if self.parts[j].has_set(set) {
                self.touch(j)?;
            }
        }
        Ok(())
    }

    /// Makes set `set` empty. Of the map's blocks only those are stored for it in which an entry
    /// changes. Where there is no memory no entry changes.
    pub fn clear_plane(&mut self, set: u32) -> Result<(), AllocError>
        requires { set < 32 }
        ensures put { PutsPlane set (λ b. 0) self.old self.new result }
        ensures touched { OnOk result ((j : ℕ) → j < length self.old.parts.items
            → HasSetAt set self.old.parts.items j → IsTouched self.new.parts.items j) }
        ensures few { (j : ℕ) → IsTouched self.new.parts.items j
            → IsTouched self.old.parts.items j ⊎ HasSetAt set self.old.parts.items j }
    {
        self.touch_set(set)?;
        for j in 0..self.parts.len() {
            self.parts[j].clear_set(set);
        }
        Ok(())
    }

    /// The changes are settled by a root: what it doesn't name is free now, and may be given out.
    pub fn switch_to_new_root(&mut self)
        ensures { SwitchesTo (entry_at self.old.parts.items) self.old self.new }
    {
        for j in 0..self.parts.len() {
            self.parts[j].switch_to_new_root();
        }
        self.next = FIRST_BLOCK;
    }

    /// The changes are given up, and what was given out is free again.
    pub fn give_up(&mut self)
        ensures { SwitchesTo (settled_at self.old.parts.items) self.old self.new }
    {
        for j in 0..self.parts.len() {
            self.parts[j].give_up();
        }
        self.next = FIRST_BLOCK;
    }

    /// How many blocks are free under the settled root. Only a last part of the map that goes past
    /// the disk's end is gone over.
    pub fn free_count(&self) -> u32
        ensures { result ≡ free_below self.now.parts.items self.now.count }
    {
        let whole = self.count / ENTRIES;
        let mut free = self.free_in_parts(whole);
        for b in ENTRIES * whole..self.count {
            if self.is_free(BlockNumber::new(b)) {
                free += 1;
            }
        }
        free
    }

    /// How many blocks are free that the first so many blocks of the map are about.
    fn free_in_parts(&self, parts: u32) -> u32
        requires { ENTRIES * parts ≤ self.now.count }
        ensures free { result ≡ free_below self.now.parts.items (ENTRIES * parts) }
        ensures most { result ≤ ENTRIES * parts }
    {
        let mut free = 0;
        for j in 0..parts {
            free += self.parts[j as usize].free_count();
        }
        free
    }
}
