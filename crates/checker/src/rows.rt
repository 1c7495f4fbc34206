//! A block of each tree's inode file, side by side: what several trees have at one place is kept
//! once.

ghost use Rattle.std.specs.Prelude.{◌≡◌, ◌<◌, ◌++◌, ◌∷◌, [], ℕ, List, IfOk, IfSome, IsFalse, IsTrue, OnOk, Some, length, slice_get, slice_index_or, All};
ghost use Rattle.layout.specs.Bytes.{zeros};
ghost use Rattle.layout.specs.Pointer.{PointsBelow};
ghost use Rattle.layout.specs.Places.{pointed};
ghost use Rattle.buffers.specs.Disks.{IsWhole};
ghost use Rattle.checker.specs.Errors.{IsFault, ReadsForFaults};
ghost use Rattle.checker.specs.declared.error.CheckError.TheVariants as check;

use crate::uncached_reads::read_block;
use crate::{CheckError, UncachedReads};
use buffers::Block;
use layout::{BLOCK_BYTES, Pointer};
use std::alloc::{AllocError, Global};

/// A block that was read at a place; zeros at no place, where it can't be read.
#[derive(Drop)]
pub(crate) struct Row {
    pub(crate) place: Pointer,
    pub(crate) block: Block,
    pub(crate) is_whole: bool,
}

/// A block of each tree's inode file.
#[derive(Drop)]
pub(crate) struct Rows {
    blocks: Vec<Row>,
    /// Which of the blocks is that of each tree.
    which: Vec<usize>,
    ghost within: { All (λ w. w < length blocks.items) which.items },
}

impl Rows {
    ghost use Rattle.checker.specs.Rows.{AreReadAt, row_added, rows_of};
    ghost use Rattle.checker.specs.declared.rows.Row.{Row};

    pub(crate) fn none(alloc: Global) -> Rows
        ensures rows { rows_of result ≡ [] }
        ensures read { (disk : ℕ → List ℕ) → AreReadAt disk result }
    {
        Rows {
            blocks: Vec::new(alloc),
            which: Vec::new(alloc),
        }
    }

    /// Has for one tree more the block at a place, or zeros where it can't be read. It tells
    /// whether it can.
    pub(crate) fn read<B: UncachedReads>(
        &mut self,
        alloc: Global,
        blocks: &mut B,
        place: Pointer,
    ) -> Result<bool, CheckError>
        requires { PointsBelow (B.count blocks.old) place }
        ensures reads { ReadsForFaults B.Blocks IsFault blocks.old blocks.new result }
        ensures added { OnOk result (rows_of self.new
            ≡ rows_of self.old ++ row_added self.old self.new ∷ []) }
        ensures read { (disk : ℕ → List ℕ) → B.Shows blocks.old disk
            → AreReadAt disk self.old → OnOk result (AreReadAt disk self.new) }
        ensures whole { (disk : ℕ → List ℕ) → B.Shows blocks.old disk → AreReadAt disk self.old
            → IfOk result (λ whole. IsTrue whole → row_added self.old self.new ≡ pointed disk place) }
        ensures damaged { (disk : ℕ → List ℕ) → B.Shows blocks.old disk
            → IfOk result (λ whole. IsFalse whole → IsWhole (pointed disk place) → ⊥) }
    {
        if let Some(same) = self.find(&place) {
            self.which.push(same)?;
            return Ok(true);
        }
        let row = read_at(alloc, blocks, place)?;
        let is_whole = row.is_whole;
        self.add(row)?;
        Ok(is_whole)
    }

    /// Which of the blocks was read at a place.
    fn find(&self, place: &Pointer) -> Option<usize>
        ensures { IfSome result (λ w. (r : Row) × (slice_get self.now.blocks.items w ≡ Some r)
            × (r.place ≡ place.now)) }
    {
        for w in 0..self.blocks.len() {
            let row = &self.blocks[w];
            if is_same(row.place, *place) {
                return Some(w);
            }
        }
        None
    }

    /// Has for one tree more this block.
    fn add(&mut self, row: Row) -> Result<(), CheckError>
        ensures device { result ≡ Err check.Device → ⊥ }
        ensures added { OnOk result (rows_of self.new ≡ rows_of self.old ++ row.block ∷ []) }
        ensures read { (disk : ℕ → List ℕ) → AreReadAt disk self.old
            → row.block ≡ pointed disk row.place → OnOk result (AreReadAt disk self.new) }
    {
        let last = self.blocks.len();
        self.blocks.push(row)?;
        self.which.push(last)?;
        Ok(())
    }

    /// The bytes of the k-th tree's block.
    pub(crate) fn bytes(&self, k: usize) -> &[u8; BLOCK_BYTES]
        requires { k < length (rows_of self.now) }
        ensures { result.now ≡ slice_index_or (rows_of self.now) k [] }
    {
        let w = self.which[k];
        let row = &self.blocks[w];
        row.block.bytes()
    }

    /// Whether two trees have one block.
    pub(crate) fn is_shared(&self, k: usize, l: usize) -> bool
        requires first { k < length (rows_of self.now) }
        requires second { l < length (rows_of self.now) }
        ensures { IsTrue result → slice_index_or (rows_of self.now) k []
            ≡ slice_index_or (rows_of self.now) l [] }
    {
        let first = self.which[k];
        let second = self.which[l];
        first == second
    }
}

/// The block at a place.
fn read_at<B: UncachedReads>(
    alloc: Global,
    blocks: &mut B,
    place: Pointer,
) -> Result<Row, CheckError>
    requires { PointsBelow (B.count blocks.old) place }
    ensures reads { ReadsForFaults B.Blocks IsFault blocks.old blocks.new result }
    ensures read { (disk : ℕ → List ℕ) → B.Shows blocks.old disk
        → IfOk result (λ r. r.block ≡ pointed disk r.place) }
    ensures whole { IfOk result (λ r. IsTrue r.is_whole → r.place ≡ place) }
    ensures damaged { (disk : ℕ → List ℕ) → B.Shows blocks.old disk
        → IfOk result (λ r. IsFalse r.is_whole → IsWhole (pointed disk place) → ⊥) }
{
    let Pointer::Block(at) = place else {
        return Ok(no_row(alloc, true)?);
    };
    if !read_block(blocks, at)? {
        return Ok(no_row(alloc, false)?);
    }
    let block = Block::copy_of(alloc, blocks.bytes(at))?;
    Ok(Row {
        place,
        block,
        is_whole: true,
    })
}

/// Zeros at no place.
fn no_row(alloc: Global, is_whole: bool) -> Result<Row, AllocError>
    ensures { IfOk result (λ r. (r.place ≡ Pointer.Hole) × (r.block ≡ zeros 4096)
        × (r.is_whole ≡ is_whole)) }
{
    let block = Block::zeroed(alloc)?;
    Ok(Row {
        place: Pointer::Hole,
        block,
        is_whole,
    })
}

/// Whether two places are the same.
pub(crate) fn is_same(first: Pointer, second: Pointer) -> bool
    ensures { IsTrue result → first ≡ second }
{
    let Pointer::Block(there) = first else {
        return second.is_hole();
    };
    let Pointer::Block(here) = second else {
        return false;
    };
    there.get() == here.get()
}
