//! Small files, whose bytes stand in the inode.

ghost use Rattle.std.specs.Prelude.{◌≡◌, ℕ, ◌-◌, ◌≤◌, List, ◌++◌, take, length, slice_index, nat_lt, if◌then◌else◌, IfOk, OnOk, IsErrOf};
ghost use Rattle.layout.specs.Bytes.{zeros};
ghost use Rattle.layout.specs.declared.TheConstants.{BLOCK_BYTES, INLINE_BYTES};
ghost use Rattle.blocktree.specs.Trees.{IsSoundAt};
ghost use Rattle.inode.specs.Files.{file_block};
ghost use Rattle.buffers.specs.Reads.{ReadsBlocks};
ghost use Rattle.conspoint.specs.Errors.{IsReadFault};

use buffers::Blocks;
use conspoint::PlanError;
use inode::File;
use layout::{BLOCK_BYTES, INLINE_BYTES};

/// So many bytes of a block, and zeros behind them.
fn head_of(block: &[u8; BLOCK_BYTES], size: usize) -> [u8; INLINE_BYTES]
    requires { size ≤ INLINE_BYTES }
    ensures whole { length block.now ≡ BLOCK_BYTES }
    ensures count { length result ≡ INLINE_BYTES }
    ensures each { (k : ℕ)
        → slice_index result k ≡ (if nat_lt k size then slice_index block.now k else 0) }
{
    let mut bytes = [0; INLINE_BYTES];
    for i in 0..size {
        bytes[i] = block[i];
    }
    bytes
}

/// The bytes of a small file, and zeros behind them.
pub(crate) fn inline_bytes<B: Blocks>(
    blocks: &mut B,
    file: &File,
) -> Result<[u8; INLINE_BYTES], PlanError>
    requires { file.now.size ≤ INLINE_BYTES }
    ensures reads { ReadsBlocks B.Blocks IsReadFault blocks.old blocks.new result }
    ensures bytes { (disk : ℕ → List ℕ) → B.Shows blocks.old disk → IfOk result (λ bytes.
        bytes ≡ take file.now.size (file_block disk file.now 0)
        ++ zeros (INLINE_BYTES - file.now.size)) }
    ensures whole { (disk : ℕ → List ℕ) → B.Shows blocks.old disk
        → OnOk result (length (file_block disk file.now 0) ≡ BLOCK_BYTES) }
    ensures damaged { (disk : ℕ → List ℕ) → B.Shows blocks.old disk
        → IsErrOf result PlanError.Damaged
        → IsSoundAt (B.count blocks.old) disk file.now.tree 0 → ⊥ }
    ensures why { IsErrOf result PlanError.NoSpace → ⊥ }
{
    let location = file.locate(blocks, 0)?;
    Ok(head_of(file.bytes(blocks, 0, location), file.size() as usize))
}
