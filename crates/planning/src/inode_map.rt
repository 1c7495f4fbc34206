//! The inode map's file.

ghost use Rattle.std.specs.Prelude.{ℕ, ◌≡◌, ◌≢◌, ◌⊎◌, ◌+◌, ◌*◌, ◌<◌, ◌≤◌, List, IsFalse, IsTrue, IfOk, OnOk, IsErrOf, false, length, slice_index};
ghost use Rattle.std.specs.Int.{div_ceil};
ghost use Rattle.layout.specs.Limits.{AreSizes};
ghost use Rattle.layout.specs.Trees.{greatest_size};
ghost use Rattle.layout.specs.declared.TheConstants.{BLOCK_BYTES};
ghost use Rattle.layout.specs.declared.inode.Inode.{Inode};
ghost use Rattle.layout.specs.declared.trees.Layout.TheVariants.{Summed};
ghost use Rattle.buffers.specs.Positions.{IsPart};
ghost use Rattle.buffers.specs.Reads.{ReadsBlocks};
ghost use Rattle.buffers.specs.Errors.{IsFault};
ghost use Rattle.blocktree.specs.Trees.{IsChanged, IsSoundAt};
ghost use Rattle.buffers.specs.declared.error.BlockError.TheVariants as read;
ghost use Rattle.conspoint.specs.Errors.{IsReadFault};
ghost use Rattle.images.specs.Nodes.{held};
ghost use Rattle.images.specs.Soundness.{HasNoHole};
ghost use Rattle.inode.specs.Files.{byte_at, file_block};
ghost use Rattle.inofile.specs.Settled.{AreSettled};
ghost use Rattle.planning.specs.Inodes.{ChangesFile, KeepsFile};
ghost use Rattle.planning.specs.Plans.{HasInodeMap};
ghost use Rattle.planning.specs.Space.{TellsSame, map_stores};
ghost use Rattle.planning.specs.Steps.{HasSettled, IsPlanUnderWay, OverTree, found_in, tree_of};
ghost use Rattle.planning.specs.Promises.{PlansParts};

use crate::inode_blocks::put_inode;
use crate::number::mark_placed;
use buffers::{Block, BlockError, Blocks, SharedBlock};
use conspoint::{Draft, PlanError};
use images::{disks_that_agree_hold_the_same, inodes_are_put_one_by_one};
use inode::{File, Object, based_trees_are_sound};
use inofile::InodeFile;
use layout::{BLOCK_BYTES, Inode, Kind};
use placement::place_file;
use std::alloc::{AllocError, Global};

/// Whether a file begins with these bytes.
fn has_bytes<B: Blocks>(
    alloc: Global,
    blocks: &mut B,
    file: &File,
    bytes: &[u8],
) -> Result<bool, BlockError>
    requires { length bytes.now ≤ greatest_size Summed }
    ensures reads { ReadsBlocks B.Blocks IsFault blocks.old blocks.new result }
    ensures same { (disk : ℕ → List ℕ) → B.Shows blocks.old disk → IfOk result
        (λ has. IsTrue has → IsPart (byte_at disk file.now) 0 bytes.now) }
    ensures damaged { (disk : ℕ → List ℕ) → B.Shows blocks.old disk
        → IsErrOf result read.Damaged
        → ((i : ℕ) → IsSoundAt (B.count blocks.old) disk file.now.tree i) → ⊥ }
{
    let mut found = vec![in alloc; 0u8; bytes.len()]?;
    file.read_at(blocks, 0, &mut found)?;
    Ok(found.as_slice() == bytes)
}

/// Block `i` of a file with these bytes, and zeros behind them.
fn part_of(alloc: Global, bytes: &[u8], i: u32) -> Result<Block, AllocError>
    ensures { IfOk result (λ b. (k : ℕ) → k < 4096
        → slice_index b k ≡ slice_index bytes.now (4096 * i + k)) }
{
    let mut block = Block::zeroed(alloc)?;
    let start = (BLOCK_BYTES * i as usize).min(bytes.len());
    let end = (start + BLOCK_BYTES).min(bytes.len());
    block.put(0, &bytes[start..end]);
    Ok(block)
}

/// Whether two blocks are the same. Those of a map that differ tell other of their numbers.
fn are_same(block: &[u8; BLOCK_BYTES], part: &[u8; BLOCK_BYTES]) -> bool
    ensures same { IsTrue result → block.now ≡ part.now }
    ensures other { IsFalse result → (bytes : List ℕ) (i : ℕ) → ((k : ℕ) → k < BLOCK_BYTES
        → slice_index part.now k ≡ slice_index bytes (BLOCK_BYTES * i + k))
        → TellsSame bytes block.now i → ⊥ }
{
    block == part
}

/// Changes block `i` of a file to what these bytes have there, where it differs.
#[tactic(auto, using(crate::proofs::PromiseLaws::keeps_none))]
fn put_part<B: Blocks>(
    alloc: Global,
    blocks: &mut B,
    file: &mut File,
    bytes: &[u8],
    i: u32,
) -> Result<(), BlockError>
    ensures reads { ReadsBlocks B.Blocks IsFault blocks.old blocks.new result }
    ensures file { KeepsFile file.old file.new }
    ensures only { (disk : ℕ → List ℕ) → B.Shows blocks.old disk → (j : ℕ)
        → IsChanged file.new.tree j
        → ((j ≡ i) × (TellsSame bytes.now (file_block disk file.old i) i → ⊥))
        ⊎ IsChanged file.old.tree j }
    ensures here { (disk : ℕ → List ℕ) → B.Shows blocks.old disk → OnOk result ((k : ℕ) → k < 4096
        → slice_index (file_block disk file.new i) k ≡ slice_index bytes.now (4096 * i + k)) }
    ensures others { OnOk result ((disk : ℕ → List ℕ) (j : ℕ) → j ≢ i
        → file_block disk file.new j ≡ file_block disk file.old j) }
    ensures damaged { (disk : ℕ → List ℕ) → B.Shows blocks.old disk
        → IsErrOf result read.Damaged → IsSoundAt (B.count blocks.old) disk file.old.tree i → ⊥ }
{
    let part = part_of(alloc, bytes, i)?;
    let before = file.copy(alloc, blocks, i)?;
    if are_same(before.bytes(), part.bytes()) {
        return Ok(());
    }
    let shared = SharedBlock::new(alloc, part)?;
    file.make_room(i)?;
    file.set_block(i, shared);
    Ok(())
}

/// Changes the first blocks of a file to these bytes, with zeros behind them, where they differ.
fn put_parts<B: Blocks>(
    alloc: Global,
    blocks: &mut B,
    file: &mut File,
    bytes: &[u8],
) -> Result<(), BlockError>
    requires { length bytes.now ≤ greatest_size Summed }
    ensures reads { ReadsBlocks B.Blocks IsFault blocks.old blocks.new result }
    ensures file { KeepsFile file.old file.new }
    ensures only { (disk : ℕ → List ℕ) → B.Shows blocks.old disk → (j : ℕ)
        → IsChanged file.new.tree j → (TellsSame bytes.now (file_block disk file.old j) j → ⊥)
        ⊎ IsChanged file.old.tree j }
    ensures here { (disk : ℕ → List ℕ) → B.Shows blocks.old disk
        → OnOk result ((i k : ℕ) → k < 4096 → i < div_ceil (length bytes.now) 4096
        → slice_index (file_block disk file.new i) k ≡ slice_index bytes.now (4096 * i + k)) }
    ensures others { OnOk result ((disk : ℕ → List ℕ) (j : ℕ)
        → div_ceil (length bytes.now) 4096 ≤ j
        → file_block disk file.new j ≡ file_block disk file.old j) }
    ensures damaged { (disk : ℕ → List ℕ) → B.Shows blocks.old disk
        → IsErrOf result read.Damaged
        → ((i : ℕ) → IsSoundAt (B.count blocks.old) disk file.old.tree i) → ⊥ }
{
    for i in 0..bytes.len().div_ceil(BLOCK_BYTES) as u32 {
        put_part(alloc, blocks, file, bytes, i)?;
    }
    Ok(())
}

/// The settled inode of the inode map, as long as its bytes in memory. One of another kind is
/// damaged.
fn settled_map<B: Blocks>(blocks: &mut B, inodes: &InodeFile) -> Result<Inode, PlanError>
    requires { AreSizes inodes.now.geometry }
    ensures reads { ReadsBlocks B.Blocks IsReadFault blocks.old blocks.new result }
    ensures read { (disk : ℕ → List ℕ) (settled : ℕ → Inode) → B.Shows blocks.old disk
        → AreSettled (B.count blocks.old) disk inodes.now.version inodes.now.geometry
        inodes.now.file settled
        → IfOk result (λ i. i ≡ settled 1) }
    ensures size { IfOk result (λ i. i.size ≡ div_ceil inodes.now.geometry.inodes 8) }
    ensures damaged { (disk : ℕ → List ℕ) (settled : ℕ → Inode) → B.Shows blocks.old disk
        → AreSettled (B.count blocks.old) disk inodes.now.version inodes.now.geometry
        inodes.now.file settled
        → IsErrOf result PlanError.Damaged → ⊥ }
    ensures why { IsErrOf result PlanError.NoSpace → ⊥ }
{
    let inode = inodes.settled_inode(blocks, 1)?;
    match inode.kind {
        Kind::InodeMap => Ok(inode),
        _ => Err(PlanError::Damaged),
    }
}

/// Plans the inode map, where its file isn't as memory has it.
#[tactic(auto, using(crate::proofs::PromiseLaws::file_none))]
pub(crate) fn plan_inode_map<B: Blocks>(
    alloc: Global,
    draft: &mut Draft,
    blocks: &mut B,
    inodes: &InodeFile,
    file: &mut File,
) -> Result<(), PlanError>
    requires disk { B.count blocks.old ≡ draft.old.map.count }
    requires sizes { AreSizes inodes.now.geometry }
    ensures step { PlansParts B.Blocks inodes.now (λ w. map_stores w inodes.now)
        blocks.old blocks.new draft.old draft.new result }
    ensures file { ChangesFile (λ i. i ≡ 0) file.old file.new }
    ensures planned { (o : OverTree B.Blocks blocks.old inodes.now)
        → HasNoHole (held o.disk (o.settled 1))
        → (way : IsPlanUnderWay draft.old o.disk o.before inodes.now.geometry (tree_of o)
        (found_in o) file.old) → way.plan.changed 1 ≡ false
        → OnOk result (HasInodeMap inodes.now.numbers.bytes.items way.plan.changed way.plan.from
        draft.new o.disk o.before inodes.now.geometry (tree_of o) (found_in o) file.new) }
    ensures damaged { (o : OverTree B.Blocks blocks.old inodes.now)
        → HasSettled draft.old o.before.entry
        → ((i : ℕ) → IsSoundAt (B.count blocks.old) o.disk file.old.tree i)
        → IsErrOf result PlanError.Damaged → ⊥ }
{
    inodes_are_put_one_by_one();
    disks_that_agree_hold_the_same();
    based_trees_are_sound();
    let settled = settled_map(blocks, inodes)?;
    let mut object = Object::load(alloc, settled)?;
    let is_there = has_bytes(alloc, blocks, &object.file, inodes.map_bytes())?;
    if is_there {
        return Ok(());
    }
    put_parts(alloc, blocks, &mut object.file, inodes.map_bytes())?;
    let placed = place_file(alloc, draft, blocks, &object)?;
    mark_placed(draft, &placed)?;
    put_inode(alloc, blocks, file, 1, &placed.inode)?;
    Ok(())
}
