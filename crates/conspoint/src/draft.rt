//! A plan that is being made.

ghost use Rattle.std.specs.Prelude.{◌≡◌, ◌≢◌, ◌<◌, ◌≤◌, ◌*◌, ℕ, All, IfOk, OnOk, IsTrue, ◌↔◌, ◌⊎◌, length};
ghost use Rattle.blockmap.specs.Maps.{HasSetAt, IsFree, IsTouched, HoldsPart, entry_at, settled_at, OnlyChanges};
ghost use Rattle.std.specs.Int.{bit_at};
ghost use Rattle.blockmap.specs.Bits.{SetsBit, SetsPlane};
ghost use Rattle.blockmap.specs.declared.map.TheConstants.{SYSTEM_PLANE};
ghost use Rattle.conspoint.specs.Plans.{AreDrafted, ChangesTouched, FitsDisk, IsSlot};

use crate::error::PlanError;
use crate::plan::{Plan, PlannedBlock};
use blockmap::BlockMap;
use buffers::SharedBlock;
use layout::{BLOCK_BYTES, BlockNumber, ROOT_BYTES};
use std::alloc::Global;

/// The blocks planned so far, and the map that gives out their places.
#[derive(Debug, Drop)]
pub struct Draft {
    map: BlockMap,
    blocks: Vec<PlannedBlock>,
    ghost drafted: { AreDrafted map.count map.next (IsFree map.parts.items) blocks.items },
    ghost changed: { ChangesTouched map.count map.parts.items },
}

impl Draft {
    ghost use Rattle.conspoint.specs.Drafts.{OnEach, WasTaken, IsReserved};
    ghost use Rattle.conspoint.specs.Closures.{IsInTouchedPart};
    ghost use Rattle.conspoint.specs.Steps.{Keeps, Marks, Places, Puts};

    /// A plan with no block, over a map with no change.
    pub fn new(alloc: Global, map: BlockMap) -> Draft
        requires { (b : ℕ) → entry_at map.parts.items b ≡ settled_at map.parts.items b }
        ensures map { result.map ≡ map }
        ensures all { OnEach result (λ e. Unit {0}) }
    {
        Draft {
            map,
            blocks: Vec::new(alloc),
        }
    }

    /// Plans a block at the next free place.
    pub fn store(&mut self, bytes: SharedBlock) -> Result<BlockNumber, PlanError>
        ensures step { Places 1 self.old self.new result }
        ensures taken { IfOk result (WasTaken self.old self.new) }
        ensures stored { IfOk result (λ place. OnEach self.new (λ e. e place ≡ bytes)) }
    {
        let place = self.reserve()?;
        self.put(place, bytes)?;
        Ok(place)
    }

    /// Gives out the next free place, for bytes that come later.
    pub fn reserve(&mut self) -> Result<BlockNumber, PlanError>
        ensures step { Places 1 self.old self.new result }
        ensures blocks { self.new.blocks.items ≡ self.old.blocks.items }
        ensures taken { IfOk result (WasTaken self.old self.new) }
        ensures reserved { IfOk result (IsReserved self.new) }
    {
        match self.map.allocate() {
            Some(place) => Ok(place),
            None => Err(PlanError::NoSpace),
        }
    }

    /// Plans a block at a place that was reserved.
    pub fn put(&mut self, place: BlockNumber, bytes: SharedBlock) -> Result<(), PlanError>
        requires { IsReserved self.old place }
        ensures step { Puts self.old self.new result }
        ensures stored { OnOk result (OnEach self.new (λ e. e place ≡ bytes)) }
        ensures others { (p : ℕ) → p ≢ place → IsReserved self.old p → IsReserved self.new p }
    {
        self.blocks.push(PlannedBlock { place, bytes })?;
        Ok(())
    }

    /// Makes room in the map for a change of a block's entry.
    pub fn touch(&mut self, block: BlockNumber) -> Result<(), PlanError>
        requires { block < self.old.map.count }
        ensures step { Marks self.old self.new result }
        ensures touched { OnOk result (IsInTouchedPart self.new block) }
        ensures entries { (b : ℕ)
            → entry_at self.new.map.parts.items b ≡ entry_at self.old.map.parts.items b }
    {
        self.map.touch((block.get() / 1024) as usize)?;
        Ok(())
    }

    /// Puts a block into the active tree's set of the map, or takes it out.
    pub fn mark(&mut self, block: BlockNumber, is_in: bool) -> Result<(), PlanError>
        requires { block < self.old.map.count }
        ensures step { Marks self.old self.new result }
        ensures bit { OnOk result (SetsBit 0 is_in (entry_at self.old.map.parts.items block)
            (entry_at self.new.map.parts.items block)) }
        ensures stay { OnOk result (OnlyChanges block self.old.map.parts.items
            self.new.map.parts.items) }
    {
        self.touch(block)?;
        self.mark_touched(block, is_in);
        Ok(())
    }

    /// Puts a block into the active tree's set of the map, or takes it out, where the map has room
    /// for it.
    pub fn mark_touched(&mut self, block: BlockNumber, is_in: bool)
        requires within { block < self.old.map.count }
        requires room { IsInTouchedPart self.old block }
        ensures step { Keeps self.old self.new }
        ensures bit { SetsBit 0 is_in (entry_at self.old.map.parts.items block)
            (entry_at self.new.map.parts.items block) }
        ensures stay { OnlyChanges block self.old.map.parts.items self.new.map.parts.items }
        ensures same { (j : ℕ) → IsTouched self.new.map.parts.items j
            → IsTouched self.old.map.parts.items j }
    {
        self.map.mark(block, is_in);
    }

    /// Puts a block into the set of the system's own in the map, or takes it out.
    pub fn mark_system(&mut self, block: BlockNumber, is_in: bool) -> Result<(), PlanError>
        requires { block < self.old.map.count }
        ensures step { Marks self.old self.new result }
        ensures bit { OnOk result (SetsBit SYSTEM_PLANE is_in
            (entry_at self.old.map.parts.items block)
            (entry_at self.new.map.parts.items block)) }
        ensures stay { OnOk result (OnlyChanges block self.old.map.parts.items
            self.new.map.parts.items) }
        ensures touched { OnOk result (IsInTouchedPart self.new block) }
    {
        self.touch(block)?;
        self.map.mark_system(block, is_in);
        Ok(())
    }

    /// Makes a set of the map that of the active tree under the settled root.
    pub fn take_plane(&mut self, set: u32) -> Result<(), PlanError>
        requires { set < 32 }
        ensures step { Marks self.old self.new result }
        ensures plane { OnOk result ((count : ℕ) → SetsPlane count set
            (λ b. bit_at (settled_at self.old.map.parts.items b) 0)
            (entry_at self.old.map.parts.items) (entry_at self.new.map.parts.items)) }
        ensures touched { OnOk result ((j : ℕ) → j < length self.old.map.parts.items
            → IsTouched self.new.map.parts.items j) }
    {
        self.map.take_plane(set)?;
        Ok(())
    }

    /// Makes the active tree's set of the map that of a snapshot under the settled root. Each block
    /// of the map is stored for it.
    pub fn load_plane(&mut self, set: u32) -> Result<(), PlanError>
        requires { set < 32 }
        ensures step { Marks self.old self.new result }
        ensures plane { OnOk result ((count : ℕ) → SetsPlane count 0
            (λ b. bit_at (settled_at self.old.map.parts.items b) set)
            (entry_at self.old.map.parts.items) (entry_at self.new.map.parts.items)) }
        ensures touched { OnOk result ((j : ℕ) → j < length self.old.map.parts.items
            → IsTouched self.new.map.parts.items j) }
    {
        self.map.load_plane(set)?;
        Ok(())
    }

    /// Makes a set of the map empty. Of the map's blocks only those are stored for it in which an
    /// entry changes.
    pub fn clear_plane(&mut self, set: u32) -> Result<(), PlanError>
        requires { set < 32 }
        ensures step { Marks self.old self.new result }
        ensures plane { OnOk result ((count : ℕ) → SetsPlane count set (λ b. 0)
            (entry_at self.old.map.parts.items) (entry_at self.new.map.parts.items)) }
        ensures few { (j : ℕ) → IsTouched self.new.map.parts.items j
            → IsTouched self.old.map.parts.items j ⊎ HasSetAt set self.old.map.parts.items j }
    {
        self.map.clear_plane(set)?;
        Ok(())
    }

    /// Whether block `k` of the map is stored anew.
    pub fn is_touched(&self, k: usize) -> bool
        requires { k < length self.now.map.parts.items }
        ensures { IsTrue result ↔ IsTouched self.now.map.parts.items k }
    {
        self.map.is_touched(k)
    }

    /// Block `k` of the map, as the point makes it.
    pub fn map_bytes(&self, k: usize) -> [u8; BLOCK_BYTES]
        requires { k < length self.now.map.parts.items }
        ensures { HoldsPart self.now.map.parts.items k result }
    {
        self.map.bytes(k)
    }

    /// How many blocks the map has.
    pub fn map_blocks(&self) -> usize
        ensures { result ≡ length self.now.map.parts.items }
    {
        self.map.part_count()
    }

    /// How many blocks the disk has.
    pub fn block_count(&self) -> u32
        ensures { result ≡ self.now.map.count }
    {
        self.map.count()
    }

    /// The map with no change and nothing given out, where no plan comes of it.
    pub fn abandon(self) -> BlockMap
        ensures count { result.count ≡ self.map.count }
        ensures next { result.next ≡ 2 }
        ensures settled { (b : ℕ)
            → settled_at result.parts.items b ≡ settled_at self.map.parts.items b }
        ensures entries { (b : ℕ)
            → entry_at result.parts.items b ≡ settled_at self.map.parts.items b }
    {
        let Draft {
            map,
            blocks: _blocks,
        } = self;
        let mut map = map;
        map.give_up();
        map
    }

    /// The plan of these blocks, with this root for the slot at this sector; and the map.
    pub fn into_plan(self, slot: u64, root: [u8; ROOT_BYTES]) -> (BlockMap, Plan)
        requires { IsSlot slot }
        ensures map { result.0 ≡ self.map }
        ensures plan { result.1 ≡ record {
          blocks = self.blocks.items;
          written = 0;
          slot = slot;
          root = root;
        } }
        ensures fits { (sectors : ℕ) → 16 ≤ sectors → 8 * self.map.count ≤ sectors
            → FitsDisk sectors result.1 }
        ensures free { All (λ b. IsFree self.map.parts.items b.place) self.blocks.items }
    {
        let Draft { map, blocks } = self;
        (map, Plan::new(blocks, slot, root))
    }
}
