//! The tree of a settled inode.

ghost use Rattle.std.specs.Prelude.{◌≡◌, ◌≤◌, ℕ, List, IfOk};
ghost use Rattle.layout.specs.Trees.{greatest_size};
ghost use Rattle.layout.specs.declared.inode.Body.TheVariants.{Inline};
ghost use Rattle.blocktree.specs.Trees.{tree_block, IsChanged};
ghost use Rattle.inode.specs.Bases.{StartsFrom, StartsUnchanged};
ghost use Rattle.inode.specs.Bodies.{body_block};

use blocktree::BlockTree;
use buffers::{Block, SharedBlock};
use layout::{Body, INLINE_BYTES, Layout};
use std::alloc::{AllocError, Global};

/// The blocks of a settled file of this layout, with this body and size. The bytes of a small one
/// become a changed block.
pub(crate) fn settled_tree(
    alloc: Global,
    layout: Layout,
    body: Body,
    size: u64,
) -> Result<BlockTree, AllocError>
    requires { size ≤ greatest_size layout }
    ensures layout { IfOk result (λ t. t.layout ≡ layout) }
    ensures blocks { IfOk result (λ t. (disk : ℕ → List ℕ) (i : ℕ)
        → tree_block disk t i ≡ body_block layout disk body size i) }
    ensures settled { IfOk result (StartsFrom layout body size) }
    ensures unchanged { IfOk result (StartsUnchanged body) }
{
    match body {
        Body::Inline(bytes) => inline_tree(alloc, layout, &bytes, size),
        Body::Pointers(pointers) => Ok(BlockTree::settled(alloc, layout, pointers, size)),
    }
}

/// The blocks of a file whose bytes stand in its inode: block 0 is changed, and of an empty file
/// none is.
fn inline_tree(
    alloc: Global,
    layout: Layout,
    bytes: &[u8; INLINE_BYTES],
    size: u64,
) -> Result<BlockTree, AllocError>
    ensures layout { IfOk result (λ t. t.layout ≡ layout) }
    ensures count { IfOk result (λ t. t.count ≡ 0) }
    ensures blocks { IfOk result (λ t. (disk : ℕ → List ℕ) (i : ℕ)
        → tree_block disk t i ≡ body_block layout disk (Inline bytes.now) size i) }
    ensures first { IfOk result (λ t. (i : ℕ) → IsChanged t i → i ≡ 0) }
{
    if size == 0 {
        return Ok(BlockTree::empty(alloc, layout));
    }
    let length = size.min(INLINE_BYTES as u64) as usize;
    let mut block = Block::zeroed(alloc)?;
    block.put(0, &bytes[..length]);
    let shared = SharedBlock::new(alloc, block)?;
    let mut tree = BlockTree::empty(alloc, layout);
    tree.make_room(0)?;
    tree.set(0, shared);
    Ok(tree)
}
