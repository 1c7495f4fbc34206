//! A change of a file that is prepared.

ghost use Rattle.std.specs.Prelude.{◌+◌, ◌≤◌, length};
ghost use Rattle.layout.specs.Trees.{greatest_size};
ghost use Rattle.layout.specs.declared.trees.Layout.TheVariants.{Summed};
ghost use Rattle.blocktree.specs.Places.{block_count};

use buffers::SharedBlock;

/// A prepared change: the new size in bytes, and new blocks, one behind the other.
#[derive(Debug, Drop)]
pub struct FileUpdate {
    pub(crate) size: u64,
    pub(crate) first: u32,
    pub(crate) pieces: Vec<SharedBlock>,
    ghost fits: { (size ≤ greatest_size Summed)
        × (first + length pieces.items ≤ block_count size) },
}
