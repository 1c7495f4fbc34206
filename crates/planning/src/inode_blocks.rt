//! Inodes in the blocks of the inode file.

ghost use Rattle.std.specs.Prelude.{ℕ, ◌≡◌, ◌/◌, ◌%◌, ◌*◌, ◌<◌, List, length, OnOk, IfOk, IsErrOf, IsFalse, IsTrue};
ghost use Rattle.layout.specs.Inode.{inode_bytes};
ghost use Rattle.layout.specs.declared.TheConstants.{BLOCK_BYTES, INODES_PER_BLOCK, INODE_BYTES};
ghost use Rattle.buffers.specs.Reads.{ReadsBlocks};
ghost use Rattle.buffers.specs.Errors.{IsFault};
ghost use Rattle.buffers.specs.declared.error.BlockError.TheVariants as read;
ghost use Rattle.blocktree.specs.Trees.{IsSoundAt};
ghost use Rattle.inode.specs.Files.{file_block};
ghost use Rattle.images.specs.InodeFiles.{spliced_at};
ghost use Rattle.planning.specs.Inodes.{with_inode_at, ChangesFile};

use buffers::{BlockError, Blocks, SharedBlock};
use inode::File;
use layout::{INODE_BYTES, INODES_PER_BLOCK, Inode};
use std::alloc::{AllocError, Global};

/// The block of the inode file with this inode in the place of a number.
pub(crate) fn block_with<B: Blocks>(
    alloc: Global,
    blocks: &mut B,
    file: &File,
    number: u32,
    inode: &Inode,
) -> Result<SharedBlock, BlockError>
    ensures reads { ReadsBlocks B.Blocks IsFault blocks.old blocks.new result }
    ensures put { (disk : ℕ → List ℕ) → B.Shows blocks.old disk → IfOk result (λ b. b
        ≡ spliced_at (INODE_BYTES * (number % INODES_PER_BLOCK)) (inode_bytes inode.now)
        (file_block disk file.now (number / INODES_PER_BLOCK))) }
    ensures whole { (disk : ℕ → List ℕ) → B.Shows blocks.old disk → OnOk result
        (length (file_block disk file.now (number / INODES_PER_BLOCK)) ≡ BLOCK_BYTES) }
    ensures long { OnOk result (length (inode_bytes inode.now) ≡ INODE_BYTES) }
    ensures damaged { (disk : ℕ → List ℕ) → B.Shows blocks.old disk → IsErrOf result read.Damaged
        → IsSoundAt (B.count blocks.old) disk file.now.tree (number / INODES_PER_BLOCK) → ⊥ }
{
    let mut block = file.copy(alloc, blocks, number / INODES_PER_BLOCK)?;
    let mut bytes = [0; INODE_BYTES];
    let _ = inode.write(&mut bytes);
    block.put(INODE_BYTES * (number % INODES_PER_BLOCK) as usize, &bytes);
    let shared = SharedBlock::new(alloc, block)?;
    Ok(shared)
}

/// Puts an inode into the place of a number of the changed inode file, where that block of it is
/// changed already, and tells whether it is.
fn put_again(alloc: Global, file: &mut File, number: u32, inode: &Inode) -> Result<bool, AllocError>
    ensures file { ChangesFile (λ i. ⊥) file.old file.new }
    ensures put { IfOk result (λ is. IsTrue is → (disk : ℕ → List ℕ) (i : ℕ)
        → file_block disk file.new i ≡ with_inode_at (file_block disk file.old) number inode.now i) }
    ensures whole { IfOk result (λ is. IsTrue is → (disk : ℕ → List ℕ)
        → length (file_block disk file.old (number / INODES_PER_BLOCK)) ≡ BLOCK_BYTES) }
    ensures long { length (inode_bytes inode.now) ≡ INODE_BYTES }
    ensures same { IfOk result (λ is. IsFalse is → (disk : ℕ → List ℕ) (i : ℕ)
        → file_block disk file.new i ≡ file_block disk file.old i) }
{
    let mut bytes = [0; INODE_BYTES];
    let _ = inode.write(&mut bytes);
    let at = INODE_BYTES * (number % INODES_PER_BLOCK) as usize;
    let put = file.put_in_block(alloc, number / INODES_PER_BLOCK, at, &bytes)?;
    Ok(put)
}

/// Puts an inode into the place of a number of the changed inode file.
pub(crate) fn put_inode<B: Blocks>(
    alloc: Global,
    blocks: &mut B,
    file: &mut File,
    number: u32,
    inode: &Inode,
) -> Result<(), BlockError>
    ensures reads { ReadsBlocks B.Blocks IsFault blocks.old blocks.new result }
    ensures file { ChangesFile (λ i. i ≡ number / INODES_PER_BLOCK) file.old file.new }
    ensures put { (disk : ℕ → List ℕ) → B.Shows blocks.old disk → OnOk result ((i : ℕ)
        → file_block disk file.new i ≡ with_inode_at (file_block disk file.old) number inode.now i) }
    ensures whole { (disk : ℕ → List ℕ) → B.Shows blocks.old disk → OnOk result
        (length (file_block disk file.old (number / INODES_PER_BLOCK)) ≡ BLOCK_BYTES) }
    ensures long { OnOk result (length (inode_bytes inode.now) ≡ INODE_BYTES) }
    ensures damaged { (disk : ℕ → List ℕ) → B.Shows blocks.old disk → IsErrOf result read.Damaged
        → IsSoundAt (B.count blocks.old) disk file.old.tree (number / INODES_PER_BLOCK) → ⊥ }
{
    // Its block mostly has another changed inode.
    let put = put_again(alloc, file, number, inode)?;
    if put {
        return Ok(());
    }
    let i = number / INODES_PER_BLOCK;
    file.make_room(i)?;
    let block = block_with(alloc, blocks, file, number, inode)?;
    file.set_block(i, block);
    Ok(())
}
