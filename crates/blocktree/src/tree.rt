//! A file's blocks, settled ones and changed ones.

ghost use Rattle.std.specs.Prelude.{◌≡◌, ◌⊎◌, ℕ, ◌+◌, ◌-◌, ◌*◌, ◌^◌, ◌<◌, ◌≤◌, List, length, slice_index, OnOk, OnErr, IfOk, IsErrOf};
ghost use Rattle.layout.specs.Bytes.{zeros};
ghost use Rattle.layout.specs.Trees.{fan_out, greatest_size};
ghost use Rattle.buffers.specs.Reads.{ReadsBlocks};
ghost use Rattle.buffers.specs.Errors.{IsFault};
ghost use Rattle.buffers.specs.Positions.{IsPart};
ghost use Rattle.blocktree.specs.PlaceMaps.{AreBelow, EndBefore};
ghost use Rattle.blocktree.specs.Names.{nodes_at, AreNodes, IsNamed};
ghost use Rattle.blocktree.specs.Places.{block_count, depth_of, IsPath};

use crate::names::{name_nodes, nodes_at};
use crate::nodes::read_places;
use crate::place::find_place;
use crate::place_map::{PlaceMap, next_entry};
use crate::slot::{Slot, truncate_slots};
use buffers::{BlockError, Blocks, SharedBlock};
use layout::{BLOCK_BYTES, BODY_POINTERS, BlockNumber, Layout, Pointer};
use std::alloc::{AllocError, Global};
use std::collections::BTreeMap;

/// Where a block of a file is.
#[derive(Clone, Copy, Debug, PartialEq, Eq)]
pub enum Location {
    /// In memory, changed and without a place on the disk.
    Changed,
    /// Nowhere: it reads as zeros.
    Hole,
    /// At this place on the disk, and resident.
    Disk(BlockNumber),
}

/// The blocks of a file, by index: those of its settled inode, and over them the changed ones.
#[derive(Debug, Drop)]
pub struct BlockTree {
    /// The layout of the image.
    layout: Layout,
    /// The pointers of the settled inode.
    pointers: [Pointer; BODY_POINTERS],
    /// How many indirect blocks stand between one of these and a block.
    depth: u32,
    /// How many blocks the settled file has.
    count: u32,
    /// Blocks from here on are no more as the settled inode has them.
    kept: u32,
    slots: BTreeMap<u32, Slot>,
    ghost fits: { (count ≤ 16 * fan_out layout ^ depth) × (kept ≤ count) },
}

/// How many blocks hold so many bytes.
fn block_count(size: u64) -> u32
    requires { size ≤ 2 ^ 43 }
    ensures { result ≡ block_count size }
{
    size.div_ceil(4096) as u32
}

static ZERO_BLOCK: [u8; BLOCK_BYTES] = [0; BLOCK_BYTES];

/// What a hole reads as.
#[tactic(auto, unfolding(layout::specs::Bytes::zeros))]
fn zero_block() -> &'static [u8; BLOCK_BYTES]
    ensures { result.now ≡ zeros 4096 }
{
    &ZERO_BLOCK
}

impl BlockTree {
    ghost use Rattle.std.specs.Prelude.{if◌then◌else◌, ◌==◌, ◌≢◌, ◌↔◌, min, nat_lt, IfSome, IfNone, IsTrue, IsFalse, Contains};
    ghost use Rattle.buffers.specs.Positions.{laid, with_bytes_at};
    ghost use Rattle.blocktree.specs.Trees.{AreSound, tree_block, settled_block, HasRoom, KeepsRoom, SameBlocks, SameSettled, IsChanged, IsSoundAt, KeepsSound, IsAtLocation, OnDisk};

    /// The blocks of a settled file of this size with these pointers in its inode, in an image of
    /// this layout.
    pub fn settled(
        alloc: Global,
        layout: Layout,
        pointers: [Pointer; BODY_POINTERS],
        size: u64,
    ) -> BlockTree
        requires { size ≤ greatest_size layout }
        ensures layout { result.layout ≡ layout }
        ensures pointers { result.pointers ≡ pointers }
        ensures depth { result.depth ≡ depth_of layout size }
        ensures count { result.count ≡ block_count size }
        ensures kept { result.kept ≡ block_count size }
        ensures blocks { (disk : ℕ → List ℕ) (i : ℕ) → tree_block disk result i
            ≡ settled_block layout disk pointers (depth_of layout size) (block_count size) i }
        ensures unchanged { (i : ℕ) → IsChanged result i → ⊥ }
    {
        let count = block_count(size);
        BlockTree {
            layout,
            pointers,
            depth: u32::from(layout.level_of(size).saturating_sub(1)),
            count,
            kept: count,
            slots: BTreeMap::new(alloc),
        }
    }

    /// The blocks of an empty file.
    pub fn empty(alloc: Global, layout: Layout) -> BlockTree
        ensures layout { result.layout ≡ layout }
        ensures count { result.count ≡ 0 }
        ensures blocks { (disk : ℕ → List ℕ) (i : ℕ) → tree_block disk result i ≡ zeros 4096 }
        ensures unchanged { (i : ℕ) → IsChanged result i → ⊥ }
    {
        BlockTree::settled(alloc, layout, [Pointer::Hole; BODY_POINTERS], 0)
    }

    /// The layout of the image.
    pub fn layout(&self) -> Layout
        ensures { result ≡ self.now.layout }
    {
        self.layout
    }

    /// How many indirect blocks stand between one of these and a block.
    pub fn depth(&self) -> u32
        ensures { result ≡ self.now.depth }
    {
        self.depth
    }

    /// How many blocks the settled file has.
    pub fn count(&self) -> u32
        ensures value { result ≡ self.now.count }
        ensures most { result ≤ 16 * fan_out self.now.layout ^ self.now.depth }
    {
        self.count
    }

    /// From which block on the settled blocks count no more.
    pub fn kept(&self) -> u32
        ensures value { result ≡ self.now.kept }
        ensures most { result ≤ self.now.count }
    {
        self.kept
    }

    /// The settled places of the nodes at a height: at height 0 of the blocks, and then of the
    /// indirect blocks, each over as many nodes of those below as it has pointers. Each indirect
    /// block over them that is stored is read and tested once.
    pub fn settled_nodes<B: Blocks>(
        &self,
        alloc: Global,
        blocks: &mut B,
        height: u32,
    ) -> Result<PlaceMap, BlockError>
        requires { height ≤ self.now.depth }
        ensures reads { ReadsBlocks B.Blocks IsFault blocks.old blocks.new result }
        ensures within { IfOk result (AreBelow (B.count blocks.old)) }
        ensures end { IfOk result (EndBefore (nodes_at self.now.layout self.now.count height)) }
        ensures nodes { (disk : ℕ → List ℕ) → B.Shows blocks.old disk → IfOk result
            (AreNodes self.now.layout disk self.now.pointers (self.now.depth - height)
            (nodes_at self.now.layout self.now.count height)) }
        ensures sound { (disk : ℕ → List ℕ) → B.Shows blocks.old disk
            → OnOk result (height ≡ 0 → AreSound (B.count blocks.old) disk self.now) }
        ensures damaged { (disk : ℕ → List ℕ) → B.Shows blocks.old disk
            → IsErrOf result BlockError.Damaged
            → AreSound (B.count blocks.old) disk self.now → ⊥ }
        ensures layout { IfOk result (λ nodes. nodes.layout ≡ self.now.layout) }
    {
        let layout = self.layout;
        let count = nodes_at(layout, self.count, height);
        let nodes = read_places(
            alloc,
            blocks,
            layout,
            &self.pointers,
            self.depth - height,
            count,
        )?;
        Ok(nodes)
    }

    /// The changed block `i`, if it is changed.
    pub fn changed(&self, i: u32) -> Option<&SharedBlock>
        ensures some { IfSome result (λ b. (disk : ℕ → List ℕ)
            → tree_block disk self.now i ≡ b.now) }
        ensures is { IfSome result (λ b. IsChanged self.now i) }
        ensures none { IfNone result ((disk : ℕ → List ℕ)
            → tree_block disk self.now i
            ≡ settled_block self.now.layout disk self.now.pointers self.now.depth self.now.kept i) }
        ensures not { IfNone result (IsChanged self.now i → ⊥) }
    {
        match self.slots.get(&i) {
            Some(Slot::Changed(block)) => Some(block),
            Some(Slot::AsSettled) => None,
            None => None,
        }
    }

    /// The first changed block from one index on and before another.
    pub fn next_changed(&self, from: u32, to: u32) -> Option<(u32, &SharedBlock)>
        ensures found { IfSome result (λ n. (from ≤ n.0) × (n.0 < to) × IsChanged self.now n.0) }
        ensures block { IfSome result (λ n. (disk : ℕ → List ℕ)
            → tree_block disk self.now n.0 ≡ n.1.now) }
        ensures before { IfSome result (λ n. (i : ℕ) → from ≤ i → i < n.0
            → IsChanged self.now i → ⊥) }
        ensures none { IfNone result ((i : ℕ) → from ≤ i → i < to → IsChanged self.now i → ⊥) }
    {
        let mut from = from;
        while let Some((i, slot)) = next_entry(&self.slots, from, to) {
            if let Slot::Changed(block) = slot {
                return Some((i, block));
            }
            from = i + 1;
        }
        None
    }

    /// Finds block `i`, and makes it resident where it is on the disk.
    pub fn locate<B: Blocks>(&self, blocks: &mut B, i: u32) -> Result<Location, BlockError>
        ensures reads { ReadsBlocks B.Blocks IsFault blocks.old blocks.new result }
        ensures resident { IfOk result (λ l. OnDisk l (B.IsResident blocks.new)) }
        ensures found { (disk : ℕ → List ℕ) → B.Shows blocks.old disk
            → IfOk result (IsAtLocation disk self.now i) }
        ensures stands { IfOk result (λ l. (l ≡ Location.Hole) ⊎ (i < self.now.kept)
            ⊎ IsChanged self.now i) }
        ensures sound { (disk : ℕ → List ℕ) → B.Shows blocks.old disk
            → OnOk result (IsSoundAt (B.count blocks.old) disk self.now i) }
        ensures damaged { (disk : ℕ → List ℕ) → B.Shows blocks.old disk
            → IsErrOf result BlockError.Damaged
            → IsSoundAt (B.count blocks.old) disk self.now i → ⊥ }
    {
        if let Some(_) = self.changed(i) {
            return Ok(Location::Changed);
        }
        if i >= self.kept {
            return Ok(Location::Hole);
        }
        match find_place(
            blocks,
            self.layout,
            &self.pointers,
            self.depth,
            self.count,
            i,
        )? {
            Pointer::Hole => Ok(Location::Hole),
            Pointer::Block(place) => {
                blocks.make_resident(place)?;
                Ok(Location::Disk(place))
            }
        }
    }

    /// The bytes of block `i`, which `locate` found there.
    pub fn bytes<'a, B: Blocks>(
        &'a self,
        blocks: &'a B,
        i: u32,
        location: Location,
    ) -> &'a [u8; BLOCK_BYTES]
        requires { OnDisk location (B.IsResident blocks.now) }
        ensures { (disk : ℕ → List ℕ) → B.Shows blocks.now disk → IsAtLocation disk self.now i location
            → result.now ≡ tree_block disk self.now i }
    {
        match location {
            Location::Changed => match self.changed(i) {
                Some(block) => block.bytes(),
                None => zero_block(),
            },
            Location::Hole => zero_block(),
            Location::Disk(place) => blocks.bytes(place),
        }
    }

    /// Reads bytes of block `i`, from one place in it on.
    pub fn read<B: Blocks>(
        &self,
        blocks: &mut B,
        i: u32,
        at: usize,
        out: &mut [u8],
    ) -> Result<(), BlockError>
        requires { at + length out.old ≤ 4096 }
        ensures reads { ReadsBlocks B.Blocks IsFault blocks.old blocks.new result }
        ensures bytes { (disk : ℕ → List ℕ) → B.Shows blocks.old disk
            → OnOk result (IsPart (slice_index (tree_block disk self.now i)) at out.new) }
        ensures sound { (disk : ℕ → List ℕ) → B.Shows blocks.old disk
            → OnOk result (IsSoundAt (B.count blocks.old) disk self.now i) }
        ensures damaged { (disk : ℕ → List ℕ) → B.Shows blocks.old disk
            → IsErrOf result BlockError.Damaged
            → IsSoundAt (B.count blocks.old) disk self.now i → ⊥ }
    {
        let location = self.locate(blocks, i)?;
        let bytes = self.bytes(blocks, i, location);
        out.copy_from_slice(&bytes[at..at + out.len()]);
        Ok(())
    }

    /// The blocks that the settled inode names: those of the file's bytes and the indirect ones,
    /// from the blocks up, each at its index's turn.
    pub fn named<B: Blocks>(
        &self,
        alloc: Global,
        blocks: &mut B,
    ) -> Result<Vec<BlockNumber>, BlockError>
        ensures reads { ReadsBlocks B.Blocks IsFault blocks.old blocks.new result }
        ensures damaged { (disk : ℕ → List ℕ) → B.Shows blocks.old disk
            → IsErrOf result BlockError.Damaged
            → ((i : ℕ) → i < self.now.count
            → IsPath self.now.layout (B.count blocks.old) disk self.now.pointers self.now.depth
            self.now.count i) → ⊥ }
        ensures named { (disk : ℕ → List ℕ) → B.Shows blocks.old disk
            → IfOk result (λ names. (p : ℕ)
            → Contains names.items p
            ↔ IsNamed self.now.layout disk self.now.pointers self.now.depth self.now.count p) }
    {
        let mut names = Vec::new(alloc);
        name_nodes(
            alloc,
            blocks,
            self.layout,
            &self.pointers,
            self.depth,
            self.count,
            &mut names,
        )?;
        Ok(names)
    }

    /// Makes room for a change of block `i`. No block changes by it.
    pub fn make_room(&mut self, i: u32) -> Result<(), AllocError>
        ensures same { SameBlocks self.old self.new }
        ensures room { OnOk result (HasRoom self.new i) }
        ensures keeps { KeepsRoom self.old self.new }
        ensures sound { KeepsSound self.old self.new }
        ensures was_sound { KeepsSound self.new self.old }
        ensures settled { SameSettled self.old self.new }
        ensures kept { self.new.kept ≡ self.old.kept }
        ensures changed { (j : ℕ) → IsChanged self.old j → IsChanged self.new j }
        ensures only { (j : ℕ) → IsChanged self.new j → IsChanged self.old j }
    {
        if !self.slots.contains_key(&i) {
            return match self.slots.insert(i, Slot::AsSettled) {
                Ok(_) => Ok(()),
                Err(_) => Err(AllocError),
            };
        }
        Ok(())
    }

    /// Changes block `i`, for which there is room.
    pub fn set(&mut self, i: u32, block: SharedBlock)
        requires { HasRoom self.old i }
        ensures blocks { (disk : ℕ → List ℕ) (j : ℕ)
            → tree_block disk self.new j ≡ (if j == i then block else tree_block disk self.old j) }
        ensures keeps { KeepsRoom self.old self.new }
        ensures sound { KeepsSound self.old self.new }
        ensures settled { SameSettled self.old self.new }
        ensures kept { self.new.kept ≡ self.old.kept }
        ensures changed { (j : ℕ) → (j ≡ i) ⊎ IsChanged self.old j → IsChanged self.new j }
        ensures only { (j : ℕ) → IsChanged self.new j → (j ≡ i) ⊎ IsChanged self.old j }
    {
        let _ = self.slots.insert(i, Slot::Changed(block));
    }

    /// Writes these bytes into block `i`, from one place in it on, where it is changed already, and
    /// tells whether it is. Where it isn't, or there is no memory, nothing happens.
    pub fn put(
        &mut self,
        alloc: Global,
        i: u32,
        at: usize,
        bytes: &[u8],
    ) -> Result<bool, AllocError>
        requires { at + length bytes.now ≤ 4096 }
        ensures there { IfOk result (λ is. IsTrue is → (disk : ℕ → List ℕ) (k : ℕ)
            → slice_index (tree_block disk self.new i) k
            ≡ with_bytes_at (slice_index (tree_block disk self.old i)) at bytes.now k) }
        ensures whole { IfOk result (λ is. IsTrue is → (disk : ℕ → List ℕ)
            → (length (tree_block disk self.old i) ≡ 4096) × (length (tree_block disk self.new i) ≡ 4096)) }
        ensures others { (disk : ℕ → List ℕ) (j : ℕ) → (j ≢ i)
            → tree_block disk self.new j ≡ tree_block disk self.old j }
        ensures told { IfOk result (λ is. IsTrue is ↔ IsChanged self.old i) }
        ensures same { IfOk result (λ is. IsFalse is → SameBlocks self.old self.new) }
        ensures refused { OnErr result (SameBlocks self.old self.new) }
        ensures room { (j : ℕ) → HasRoom self.old j ↔ HasRoom self.new j }
        ensures sound { KeepsSound self.old self.new }
        ensures settled { SameSettled self.old self.new }
        ensures kept { self.new.kept ≡ self.old.kept }
        ensures changed { (j : ℕ) → IsChanged self.old j ↔ IsChanged self.new j }
    {
        match self.slots.get_mut(&i) {
            Some(slot) => slot.put(alloc, at, bytes),
            None => Ok(false),
        }
    }

    /// Cuts off the blocks from `count` on.
    pub fn trim(&mut self, count: u32)
        ensures blocks { (disk : ℕ → List ℕ) (j : ℕ)
            → tree_block disk self.new j
            ≡ (if nat_lt j count then tree_block disk self.old j else zeros 4096) }
        ensures keeps { (j : ℕ) → j < count → HasRoom self.old j → HasRoom self.new j }
        ensures sound { KeepsSound self.old self.new }
        ensures settled { SameSettled self.old self.new }
        ensures kept { self.new.kept ≡ min self.old.kept count }
        ensures changed { (j : ℕ) → IsChanged self.new j → IsChanged self.old j }
        ensures truncate { (j : ℕ) → IsChanged self.new j → j < count }
    {
        truncate_slots(&mut self.slots, count);
        self.kept = self.kept.min(count);
    }

    /// Changes the blocks from `first` on, for each of which there is room.
    pub fn install(&mut self, first: u32, pieces: Vec<SharedBlock>)
        requires room { (j : ℕ) → j < length pieces.items → HasRoom self.old (first + j) }
        requires most { first + length pieces.items < 2 ^ 32 }
        ensures blocks { (disk : ℕ → List ℕ) (j : ℕ)
            → tree_block disk self.new j ≡ laid (tree_block disk self.old) first pieces.items j }
        ensures keeps { KeepsRoom self.old self.new }
        ensures sound { KeepsSound self.old self.new }
        ensures settled { SameSettled self.old self.new }
        ensures kept { self.new.kept ≡ self.old.kept }
        ensures only { (j : ℕ) → IsChanged self.new j
            → ((first ≤ j) × (j < first + length pieces.items)) ⊎ IsChanged self.old j }
    {
        let mut rest = pieces;
        while let Some(block) = rest.pop() {
            self.set(first + rest.len() as u32, block);
        }
    }
}
