//! A file's bytes, as they are read.

ghost use Rattle.std.specs.Prelude.{◌≡◌, ◌⊎◌, ℕ, ◌+◌, ◌<◌, ◌≤◌, ◌/◌, List, length, OnOk, IsErrOf, IfOk};
ghost use Rattle.layout.specs.Trees.{greatest_size};
ghost use Rattle.layout.specs.declared.trees.Layout.TheVariants.{Summed};
ghost use Rattle.buffers.specs.Reads.{ReadsBlocks};
ghost use Rattle.buffers.specs.Errors.{IsFault};
ghost use Rattle.blocktree.specs.Places.{block_count};
ghost use Rattle.buffers.specs.Positions.{IsPart};

use crate::laws::settled_files_are_as_held;
use crate::loading::settled_tree;
use blocktree::{BlockTree, Location};
use buffers::{Block, BlockError, Blocks};
use layout::{BLOCK_BYTES, Inode, Layout};
use std::alloc::{AllocError, Global};

/// A file in memory: its blocks, and how many bytes it has.
#[derive(Debug, Drop)]
pub struct File {
    pub(crate) tree: BlockTree,
    pub(crate) size: u64,
    ghost within: { size ≤ greatest_size tree.layout },
    ghost kept: { tree.kept ≤ block_count size },
}

impl File {
    ghost use Rattle.layout.specs.Bytes.{zeros};
    ghost use Rattle.layout.specs.Limits.{Sizes};
    ghost use Rattle.layout.specs.declared.inode.Inode.{Inode};
    ghost use Rattle.blocktree.specs.Trees.{IsChanged, IsSoundAt, IsAtLocation, OnDisk};
    ghost use Rattle.images.specs.Nodes.{held};
    ghost use Rattle.images.specs.Soundness.{Detail, IsHeldFile, IsSoundFile};
    ghost use Rattle.inode.specs.Bases.{IsBased, StartsFrom, StartsUnchanged};
    ghost use Rattle.inode.specs.Bodies.{inode_block};
    ghost use Rattle.inode.specs.Files.{IsAsHeld, file_block, byte_at, IsFile};

    /// The file of a settled inode. The bytes of a small one become a changed block.
    pub fn load(alloc: Global, inode: Inode) -> Result<File, AllocError>
        requires { inode.size ≤ greatest_size inode.layout }
        ensures size { IfOk result (λ f. f.size ≡ inode.size) }
        ensures blocks { IfOk result (λ f. (disk : ℕ → List ℕ) (i : ℕ)
            → file_block disk f i ≡ inode_block disk inode i) }
        ensures held { (detail : Detail) (s : Sizes) (disk : ℕ → List ℕ)
            → IsHeldFile detail s (held disk inode) → IfOk result (IsAsHeld disk inode) }
        ensures ends { (s : Sizes) (disk : ℕ → List ℕ) → IsSoundFile s (held disk inode)
            → IfOk result (IsFile disk) }
        ensures settled { IfOk result (λ f. StartsFrom inode.layout inode.body inode.size f.tree) }
        ensures unchanged { IfOk result (λ f. StartsUnchanged inode.body f.tree) }
        ensures base { IfOk result (λ f. IsBased inode f.tree) }
    {
        settled_files_are_as_held();
        let tree = settled_tree(alloc, inode.layout, inode.body, inode.size)?;
        Ok(File {
            tree,
            size: inode.size,
        })
    }

    /// A file without bytes, of this layout.
    pub fn empty(alloc: Global, layout: Layout) -> File
        ensures layout { result.tree.layout ≡ layout }
        ensures size { result.size ≡ 0 }
        ensures blocks { (disk : ℕ → List ℕ) (i : ℕ) → file_block disk result i ≡ zeros 4096 }
        ensures base { (settled : Inode) → settled.layout ≡ layout → IsBased settled result.tree }
        ensures unchanged { (i : ℕ) → IsChanged result.tree i → ⊥ }
    {
        File {
            tree: BlockTree::empty(alloc, layout),
            size: 0,
        }
    }

    /// The file's blocks, settled ones and changed ones.
    pub fn tree(&self) -> &BlockTree
        ensures { result.now ≡ self.now.tree }
    {
        &self.tree
    }

    /// How many bytes the file has.
    pub fn size(&self) -> u64
        ensures value { result ≡ self.now.size }
        ensures within { result ≤ greatest_size self.now.tree.layout }
        ensures most { result ≤ greatest_size Summed }
    {
        self.size
    }

    /// How many bytes a file of its layout may have.
    pub(crate) fn greatest_size(&self) -> u64
        ensures value { result ≡ greatest_size self.now.tree.layout }
        ensures most { result ≤ greatest_size Summed }
    {
        self.tree.layout().greatest_size()
    }

    /// Finds block `i`, and makes it resident where it is on the disk.
    pub fn locate<B: Blocks>(&self, blocks: &mut B, i: u32) -> Result<Location, BlockError>
        ensures reads { ReadsBlocks B.Blocks IsFault blocks.old blocks.new result }
        ensures resident { IfOk result (λ l. OnDisk l (B.IsResident blocks.new)) }
        ensures found { (disk : ℕ → List ℕ) → B.Shows blocks.old disk
            → IfOk result (IsAtLocation disk self.now.tree i) }
        ensures stands { IfOk result (λ l. (l ≡ Location.Hole) ⊎ (i < self.now.tree.kept)
            ⊎ IsChanged self.now.tree i) }
        ensures sound { (disk : ℕ → List ℕ) → B.Shows blocks.old disk
            → OnOk result (IsSoundAt (B.count blocks.old) disk self.now.tree i) }
        ensures damaged { (disk : ℕ → List ℕ) → B.Shows blocks.old disk
            → IsErrOf result BlockError.Damaged
            → IsSoundAt (B.count blocks.old) disk self.now.tree i → ⊥ }
    {
        self.tree.locate(blocks, i)
    }

    /// The bytes of block `i`, which `locate` found there.
    pub fn bytes<'a, B: Blocks>(
        &'a self,
        blocks: &'a B,
        i: u32,
        location: Location,
    ) -> &'a [u8; BLOCK_BYTES]
        requires { OnDisk location (B.IsResident blocks.now) }
        ensures { (disk : ℕ → List ℕ) → B.Shows blocks.now disk → IsAtLocation disk self.now.tree i location
            → result.now ≡ file_block disk self.now i }
    {
        self.tree.bytes(blocks, i, location)
    }

    /// A copy of block `i`.
    pub fn copy<B: Blocks>(
        &self,
        alloc: Global,
        blocks: &mut B,
        i: u32,
    ) -> Result<Block, BlockError>
        ensures reads { ReadsBlocks B.Blocks IsFault blocks.old blocks.new result }
        ensures bytes { (disk : ℕ → List ℕ) → B.Shows blocks.old disk
            → IfOk result (λ b. b ≡ file_block disk self.now i) }
        ensures whole { IfOk result (λ b. length b ≡ 4096) }
        ensures sound { (disk : ℕ → List ℕ) → B.Shows blocks.old disk
            → OnOk result (IsSoundAt (B.count blocks.old) disk self.now.tree i) }
        ensures damaged { (disk : ℕ → List ℕ) → B.Shows blocks.old disk
            → IsErrOf result BlockError.Damaged
            → IsSoundAt (B.count blocks.old) disk self.now.tree i → ⊥ }
    {
        let location = self.tree.locate(blocks, i)?;
        let block = Block::copy_of(alloc, self.tree.bytes(blocks, i, location))?;
        Ok(block)
    }

    /// Reads the bytes from an offset on. Past the file's end they are zeros.
    pub fn read_at<B: Blocks>(
        &self,
        blocks: &mut B,
        offset: u64,
        out: &mut [u8],
    ) -> Result<(), BlockError>
        requires { offset + length out.old ≤ greatest_size Summed }
        ensures reads { ReadsBlocks B.Blocks IsFault blocks.old blocks.new result }
        ensures bytes { (disk : ℕ → List ℕ) → B.Shows blocks.old disk
            → OnOk result (IsPart (byte_at disk self.now) offset out.new) }
        ensures sound { (disk : ℕ → List ℕ) → B.Shows blocks.old disk → OnOk result ((p : ℕ)
            → offset ≤ p → p < offset + length out.old
            → IsSoundAt (B.count blocks.old) disk self.now.tree (p / 4096)) }
        ensures damaged { (disk : ℕ → List ℕ) → B.Shows blocks.old disk
            → IsErrOf result BlockError.Damaged
            → ((i : ℕ) → IsSoundAt (B.count blocks.old) disk self.now.tree i) → ⊥ }
    {
        let mut done = 0usize;
        while done < out.len() {
            let position = offset + done as u64;
            let at = (position % 4096) as usize;
            let n = (4096 - at).min(out.len() - done);
            self.tree.read(
                blocks,
                (position / 4096) as u32,
                at,
                &mut out[done..done + n],
            )?;
            done += n;
        }
        Ok(())
    }
}
