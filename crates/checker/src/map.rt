//! The block map, against what the trees name.

ghost use Rattle.std.specs.Prelude.{◌≡◌, ◌≢◌, ◌↔◌, ◌⊎◌, ◌+◌, ◌*◌, ◌^◌, ◌<◌, ℕ, IfErr, List, length, slice_index};
ghost use Rattle.layout.specs.Maps.{map_entry};
ghost use Rattle.layout.specs.Root.{IsRoot};
ghost use Rattle.layout.specs.declared.root.Root.{Root};
ghost use Rattle.buffers.specs.Disks.{IsWhole};
ghost use Rattle.images.specs.BlockMap.{HasBit, IsExact, IsSystem, entry};
ghost use Rattle.images.specs.Room.{free_under};
ghost use Rattle.images.specs.Roots.{whole};
ghost use Rattle.images.specs.Soundness.{IsReadable};
ghost use Rattle.checker.specs.Checks.{Passes};
ghost use Rattle.checker.specs.Errors.{IsCheckEndFault, ReadsForFaults};
ghost use Rattle.checker.specs.Findings.{IsFindingUnder, ShouldHave};
ghost use Rattle.checker.specs.Maps.{HasEntries, IsFound, IsMapFault};
ghost use Rattle.checker.specs.Trees.{IsTreeAt};
ghost use Rattle.checker.specs.declared.fault.TreeName.TheVariants.{Image};

use crate::error::{CheckEnd, or_fault};
use crate::marks::Marks;
use crate::table::find_places;
use crate::tree::Tree;
use crate::uncached_reads::read_into;
use crate::{Fault, TreeFault, UncachedReads};
use buffers::Block;
use images::inodes_are_what_their_bytes_spell;
use inode::{File, based_trees_are_sound};
use layout::{
    BLOCK_BYTES, BLOCK_POINTERS, BlockNumber, Geometry, Kind, Pointer, Root, SNAPSHOT_SLOTS,
    map_entry,
};
use loading::{own_inode, sound_files_read_as_held};
use std::alloc::Global;

/// The bit of a block that is the system's own.
const SYSTEM: u32 = 1 << 31;

/// Marks the blocks of the system's own: the two that hold roots, and the snapshots' root blocks.
pub(crate) fn mark_system(root: &Root, marks: &mut Marks)
    requires root { IsRoot root.now }
    requires table { length marks.old ≡ root.now.geometry.blocks }
    ensures length { length marks.new ≡ length marks.old }
    ensures system { (b : ℕ) → HasBit 31 (slice_index marks.new b)
        ↔ (HasBit 31 (slice_index marks.old b) ⊎ IsSystem root.now b) }
    ensures others { (k b : ℕ) → k ≢ 31
        → HasBit k (slice_index marks.new b) ↔ HasBit k (slice_index marks.old b) }
{
    let _ = marks.mark(BlockNumber::new(0), SYSTEM);
    let _ = marks.mark(BlockNumber::new(1), SYSTEM);
    for k in 0..SNAPSHOT_SLOTS {
        if let Pointer::Block(block) = root.snapshots[k] {
            let _ = marks.mark(block, SYSTEM);
        }
    }
}

/// Compares the entries of the newest root's block map with what the trees name, and counts the
/// free ones. All of its blocks are read.
pub(crate) fn compare_map<B: UncachedReads>(
    alloc: Global,
    blocks: &mut B,
    geometry: Geometry,
    tree: &Tree,
    marks: &Marks,
) -> Result<u32, CheckEnd>
    requires { length marks.now ≡ geometry.blocks }
    ensures reads { ReadsForFaults B.Blocks IsCheckEndFault blocks.old blocks.new result }
    ensures passes { (disk : ℕ → List ℕ) (r : Root) (nvram : List ℕ) → B.Shows blocks.old disk
        → IsTreeAt disk r geometry (B.count blocks.old) tree.now → tree.now.plane ≡ 0
        → ((b : ℕ) → ShouldHave r (whole disk r) b (slice_index marks.now b))
        → Passes (λ free. IsReadable ((whole disk r).active 2) × IsExact r (whole disk r)
        × (free ≡ free_under (whole disk r).active r.geometry.blocks))
        (IsFindingUnder r (whole disk r) nvram Image) result }
{
    sound_files_read_as_held();
    based_trees_are_sound();
    inodes_are_what_their_bytes_spell();
    let fault = Fault::Tree(TreeFault::BlockMap);
    let inode = or_fault(
        own_inode(blocks, &tree.file, 2, Kind::BlockMap, geometry),
        fault,
    )?;
    let file = File::load(alloc, inode)?;
    let places = find_places(alloc, blocks, &file)?;
    let mut block = Block::zeroed(alloc)?;
    let mut free = 0;
    for j in 0..geometry.blocks().div_ceil(BLOCK_POINTERS as u32) {
        let Pointer::Block(place) = places.at(j) else {
            return Err(CheckEnd::Fault(fault));
        };
        if !read_into(blocks, place, &mut block)? {
            return Err(CheckEnd::Fault(fault));
        }
        free += compare_block(block.bytes(), geometry.blocks(), j, marks)?;
    }
    Ok(free)
}

/// Compares the entries of block `j` of the map, and counts the free ones.
fn compare_block(
    bytes: &[u8; BLOCK_BYTES],
    blocks: u32,
    j: u32,
    marks: &Marks,
) -> Result<u32, CheckEnd>
    requires table { length marks.now ≡ blocks }
    requires within { 1024 * j < blocks }
    requires low { blocks < 2 ^ 31 }
    ensures passes { Passes (HasEntries bytes.now blocks j marks.now) (IsMapFault bytes.now blocks j marks.now) result }
    ensures found { IfErr result IsFound }
    ensures whole { IsWhole bytes.now }
{
    let first = BLOCK_POINTERS as u32 * j;
    let mut free = 0;
    for r in 0..(BLOCK_POINTERS as u32).min(blocks - first) {
        let entry = map_entry(bytes, r);
        let expected = marks.entry(first + r);
        if entry != expected {
            return Err(CheckEnd::Fault(Fault::MapBit {
                block: first + r,
                entry,
                expected,
            }));
        }
        if entry == 0 {
            free += 1;
        }
    }
    Ok(free)
}
