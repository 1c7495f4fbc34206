//! Changes of a file.

ghost use Rattle.std.specs.Prelude.{◌≡◌, ◌≢◌, ◌⊎◌, ℕ, ◌+◌, ◌*◌, ◌<◌, ◌≤◌, ◌/◌, ◌%◌, List, length, slice_index, OnOk, OnErr, IsErrOf, IsFalse, IsTrue, IfOk, max};
ghost use Rattle.layout.specs.Trees.{greatest_size};
ghost use Rattle.layout.specs.declared.trees.Layout.TheVariants.{Summed};
ghost use Rattle.buffers.specs.Reads.{ReadsBlocks};
ghost use Rattle.buffers.specs.Errors.{IsFault};
ghost use Rattle.buffers.specs.Positions.{with_bytes_at, truncate};
ghost use Rattle.blocktree.specs.Places.{block_count};
ghost use Rattle.images.specs.Edges.{TruncatesBlock};
ghost use Rattle.inode.specs.Errors.{IsChangeFault};

use crate::{ChangeError, File, FileUpdate};
use blocktree::Location;
use buffers::{Block, BlockError, Blocks, SharedBlock};
use layout::INLINE_BYTES;
use std::alloc::{AllocError, Global};

/// How many blocks hold so many bytes, of a file of any layout.
pub(crate) fn block_count(size: u64) -> u32
    requires { size ≤ greatest_size Summed }
    ensures { result ≡ block_count size }
{
    size.div_ceil(4096) as u32
}

/// Whether a new size leaves the block that the file then ends in as it is: where it ends at that
/// block's end, or nothing is truncated off. Bytes that the inode can hold are block 0 all the
/// same, zeros too, so that it goes to a place as the file grows further.
fn keeps_last_block(old: u64, new: u64) -> bool
    ensures whole { IsTrue result → (old ≤ new) ⊎ (new % 4096 ≡ 0) }
    ensures truncates { IsFalse result → TruncatesBlock old new }
    ensures only { TruncatesBlock old new → IsFalse result }
{
    if new % 4096 == 0 {
        return true;
    }
    old == new || (old < new && new > INLINE_BYTES as u64)
}

impl File {
    ghost use Rattle.std.specs.Prelude.{if◌then◌else◌, ◌==◌, ◌↔◌, nat_lt};
    ghost use Rattle.layout.specs.Bytes.{zeros};
    ghost use Rattle.layout.specs.declared.TheConstants.{INLINE_BYTES};
    ghost use Rattle.model.specs.declared.limits.TheConstants.{TRANSFER_BYTES};
    ghost use Rattle.blocktree.specs.Trees.{HasRoom, IsChanged, KeepsRoom, IsSoundAt, KeepsSound, SameSettled};
    ghost use Rattle.inode.specs.Bases.{KeepsBase};
    ghost use Rattle.images.specs.Edges.{IsPartlyWritten, IsWritten, EndsIn};
    ghost use Rattle.inode.specs.Edges.{filled, written_list};
    ghost use Rattle.inode.specs.Room.{StoresMore, size_room, write_room};
    ghost use Rattle.inode.specs.Files.{file_block, byte_at, byte_with, bytes_of_file, bytes_with, IsFile, IsSameFile, Fits, IsCommitted, ChangesBlocks};

    /// Makes room for a change of block `i`. Nothing changes by it.
    pub fn make_room(&mut self, i: u32) -> Result<(), AllocError>
        ensures same { IsSameFile self.old self.new }
        ensures room { OnOk result (HasRoom self.new.tree i) }
        ensures keeps { KeepsRoom self.old.tree self.new.tree }
        ensures sound { KeepsSound self.old.tree self.new.tree }
        ensures settled { SameSettled self.old.tree self.new.tree }
        ensures kept { self.new.tree.kept ≡ self.old.tree.kept }
        ensures changed { (j : ℕ) → IsChanged self.old.tree j → IsChanged self.new.tree j }
        ensures only { (j : ℕ) → IsChanged self.new.tree j → IsChanged self.old.tree j }
    {
        self.tree.make_room(i)
    }

    /// Changes block `i`, for which there is room.
    pub fn set_block(&mut self, i: u32, block: SharedBlock)
        requires { HasRoom self.old.tree i }
        ensures size { self.new.size ≡ self.old.size }
        ensures blocks { (disk : ℕ → List ℕ) (j : ℕ)
            → file_block disk self.new j ≡ (if j == i then block else file_block disk self.old j) }
        ensures keeps { KeepsRoom self.old.tree self.new.tree }
        ensures base { KeepsBase self.old.tree self.new.tree }
        ensures sound { KeepsSound self.old.tree self.new.tree }
        ensures settled { SameSettled self.old.tree self.new.tree }
        ensures kept { self.new.tree.kept ≡ self.old.tree.kept }
        ensures changed { (j : ℕ) → (j ≡ i) ⊎ IsChanged self.old.tree j → IsChanged self.new.tree j }
        ensures only { (j : ℕ) → IsChanged self.new.tree j → (j ≡ i) ⊎ IsChanged self.old.tree j }
    {
        self.tree.set(i, block);
    }

    /// Writes these bytes into block `i`, from one place in it on, where it is changed already, and
    /// tells whether it is. Where it isn't, or there is no memory, nothing happens.
    pub fn put_in_block(
        &mut self,
        alloc: Global,
        i: u32,
        at: usize,
        bytes: &[u8],
    ) -> Result<bool, AllocError>
        requires { at + length bytes.now ≤ 4096 }
        ensures size { self.new.size ≡ self.old.size }
        ensures there { IfOk result (λ is. IsTrue is → (disk : ℕ → List ℕ) (k : ℕ)
            → slice_index (file_block disk self.new i) k
            ≡ with_bytes_at (slice_index (file_block disk self.old i)) at bytes.now k) }
        ensures whole { IfOk result (λ is. IsTrue is → (disk : ℕ → List ℕ)
            → (length (file_block disk self.old i) ≡ 4096) × (length (file_block disk self.new i) ≡ 4096)) }
        ensures others { (disk : ℕ → List ℕ) (j : ℕ) → (j ≢ i)
            → file_block disk self.new j ≡ file_block disk self.old j }
        ensures told { IfOk result (λ is. IsTrue is ↔ IsChanged self.old.tree i) }
        ensures same { IfOk result (λ is. IsFalse is → (disk : ℕ → List ℕ) (j : ℕ)
            → file_block disk self.new j ≡ file_block disk self.old j) }
        ensures refused { OnErr result ((disk : ℕ → List ℕ) (j : ℕ)
            → file_block disk self.new j ≡ file_block disk self.old j) }
        ensures sound { KeepsSound self.old.tree self.new.tree }
        ensures settled { SameSettled self.old.tree self.new.tree }
        ensures kept { self.new.tree.kept ≡ self.old.tree.kept }
        ensures changed { (j : ℕ) → IsChanged self.old.tree j ↔ IsChanged self.new.tree j }
    {
        self.tree.put(alloc, i, at, bytes)
    }

    /// Makes the file of this size. Blocks past it are cut off; within the last one nothing is
    /// cleared.
    pub fn set_size(&mut self, size: u64)
        requires { size ≤ greatest_size self.old.tree.layout }
        ensures size { self.new.size ≡ size }
        ensures blocks { (disk : ℕ → List ℕ) (j : ℕ)
            → file_block disk self.new j
            ≡ (if nat_lt j (block_count size) then file_block disk self.old j else zeros 4096) }
        ensures keeps { (j : ℕ) → j < block_count size → HasRoom self.old.tree j
            → HasRoom self.new.tree j }
        ensures base { KeepsBase self.old.tree self.new.tree }
        ensures sound { KeepsSound self.old.tree self.new.tree }
        ensures settled { SameSettled self.old.tree self.new.tree }
        ensures changed { (j : ℕ) → IsChanged self.new.tree j → IsChanged self.old.tree j }
        ensures past { (j : ℕ) → IsChanged self.new.tree j → j < block_count size }
    {
        self.tree.trim(block_count(size));
        self.size = size;
    }

    /// Prepares a write of at least one byte: nothing changes before the commit.
    pub fn prepare_write<B: Blocks>(
        &mut self,
        alloc: Global,
        blocks: &mut B,
        offset: u64,
        bytes: &[u8],
    ) -> Result<FileUpdate, ChangeError>
        requires { 0 < length bytes.now }
        ensures reads { ReadsBlocks B.Blocks IsChangeFault blocks.old blocks.new result }
        ensures same { IsSameFile self.old self.new }
        ensures within { OnOk result
            (offset + length bytes.now ≤ greatest_size self.old.tree.layout) }
        ensures too_big { IsErrOf result ChangeError.TooBig
            → greatest_size self.old.tree.layout < offset + length bytes.now }
        ensures sound { (disk : ℕ → List ℕ) → B.Shows blocks.old disk → OnOk result
            ((i : ℕ) → IsPartlyWritten offset (length bytes.now) i
            → IsSoundAt (B.count blocks.old) disk self.old.tree i) }
        ensures damaged { (disk : ℕ → List ℕ) → B.Shows blocks.old disk
            → IsErrOf result ChangeError.Damaged → ((i : ℕ) → IsPartlyWritten offset (length bytes.now) i
            → IsSoundAt (B.count blocks.old) disk self.old.tree i) → ⊥ }
        ensures blocks { (disk : ℕ → List ℕ) → B.Shows blocks.old disk → IfOk result
            (λ w. ChangesBlocks disk self.old w (IsPartlyWritten offset (length bytes.now))
            (IsWritten offset (length bytes.now))) }
        ensures size { IfOk result (λ w. w.size ≡ max self.old.size (offset + length bytes.now)) }
        ensures fits { IfOk result (λ w. Fits self.new.tree w) }
        ensures bytes { (disk : ℕ → List ℕ) → B.Shows blocks.old disk → IsFile disk self.old
            → IfOk result (λ w. (p : ℕ)
            → byte_with disk self.old w p ≡ with_bytes_at (byte_at disk self.old) offset bytes.now p) }
        ensures list { (disk : ℕ → List ℕ) → B.Shows blocks.old disk → IsFile disk self.old
            → IfOk result
            (λ w. bytes_with disk self.old w
            ≡ written_list (bytes_of_file disk self.old) offset bytes.now) }
        ensures stores { length bytes.now ≤ TRANSFER_BYTES → IfOk result
            (λ w. StoresMore self.new w (write_room self.old.size offset (length bytes.now))) }
    {
        let greatest = self.greatest_size();
        if offset > greatest || bytes.len() as u64 > greatest - offset {
            return Err(ChangeError::TooBig);
        }
        let end = offset + bytes.len() as u64;
        let first = (offset / 4096) as u32;
        let mut pieces = Vec::new(alloc);
        for i in first..block_count(end) {
            let block = self.new_block(alloc, blocks, i, offset, bytes)?;
            pieces.push(block)?;
        }
        Ok(FileUpdate {
            size: self.size().max(end),
            first,
            pieces,
        })
    }

    /// Block `i` with those bytes of a write that fall into it, and room for it. Nothing changes by
    /// it.
    fn new_block<B: Blocks>(
        &mut self,
        alloc: Global,
        blocks: &mut B,
        i: u32,
        offset: u64,
        bytes: &[u8],
    ) -> Result<SharedBlock, BlockError>
        requires end { offset + length bytes.now ≤ greatest_size Summed }
        requires above { 4096 * i < offset + length bytes.now }
        requires below { offset < 4096 * i + 4096 }
        ensures reads { ReadsBlocks B.Blocks IsFault blocks.old blocks.new result }
        ensures read { (disk : ℕ → List ℕ) → B.Shows blocks.old disk → OnOk result
            (IsPartlyWritten offset (length bytes.now) i
            → IsSoundAt (B.count blocks.old) disk self.old.tree i) }
        ensures damaged { (disk : ℕ → List ℕ) → B.Shows blocks.old disk
            → IsErrOf result BlockError.Damaged → (IsPartlyWritten offset (length bytes.now) i
            → IsSoundAt (B.count blocks.old) disk self.old.tree i) → ⊥ }
        ensures whole { (disk : ℕ → List ℕ) → B.Shows blocks.old disk → OnOk result
            (IsPartlyWritten offset (length bytes.now) i → length (file_block disk self.old i) ≡ 4096) }
        ensures length { IfOk result (λ b. length b ≡ 4096) }
        ensures unchanged { IsSameFile self.old self.new }
        ensures room { OnOk result (HasRoom self.new.tree i) }
        ensures keeps { KeepsRoom self.old.tree self.new.tree }
        ensures sound { KeepsSound self.old.tree self.new.tree }
        ensures bytes { (disk : ℕ → List ℕ) → B.Shows blocks.old disk
            → IfOk result (λ b. (r : ℕ) → r < 4096
            → slice_index b r ≡ with_bytes_at (byte_at disk self.old) offset bytes.now (4096 * i + r)) }
    {
        let start = 4096 * u64::from(i);
        let from = offset.max(start);
        let to = (offset + bytes.len() as u64).min(start + 4096);
        self.make_room(i)?;
        let mut block = self.block_to_write(alloc, blocks, i, to - from)?;
        block.put(
            (from - start) as usize,
            &bytes[(from - offset) as usize..(to - offset) as usize],
        );
        let shared = SharedBlock::new(alloc, block)?;
        Ok(shared)
    }

    /// Block `i` for a write of so many bytes of it: nothing is read where that is all of it.
    fn block_to_write<B: Blocks>(
        &self,
        alloc: Global,
        blocks: &mut B,
        i: u32,
        bytes: u64,
    ) -> Result<Block, BlockError>
        ensures reads { ReadsBlocks B.Blocks IsFault blocks.old blocks.new result }
        ensures sound { (disk : ℕ → List ℕ) → B.Shows blocks.old disk
            → OnOk result (bytes ≢ 4096 → IsSoundAt (B.count blocks.old) disk self.now.tree i) }
        ensures damaged { (disk : ℕ → List ℕ) → B.Shows blocks.old disk
            → IsErrOf result BlockError.Damaged
            → (bytes ≢ 4096 → IsSoundAt (B.count blocks.old) disk self.now.tree i) → ⊥ }
        ensures bytes { (disk : ℕ → List ℕ) → B.Shows blocks.old disk
            → IfOk result (λ b. bytes ≢ 4096 → b ≡ file_block disk self.now i) }
        ensures whole { IfOk result (λ b. length b ≡ 4096) }
    {
        if bytes == 4096 {
            let block = Block::zeroed(alloc)?;
            return Ok(block);
        }
        self.copy(alloc, blocks, i)
    }

    /// Whether a file of this size ends within a hole, of which nothing is to be cut away. Of a
    /// size that the inode can hold the bytes are block 0, zeros too.
    fn ends_in_hole<B: Blocks>(&self, blocks: &mut B, size: u64) -> Result<bool, BlockError>
        requires { size ≤ greatest_size Summed }
        ensures reads { ReadsBlocks B.Blocks IsFault blocks.old blocks.new result }
        ensures sound { (disk : ℕ → List ℕ) → B.Shows blocks.old disk
            → OnOk result (IsSoundAt (B.count blocks.old) disk self.now.tree (size / 4096)) }
        ensures damaged { (disk : ℕ → List ℕ) → B.Shows blocks.old disk
            → IsErrOf result BlockError.Damaged
            → IsSoundAt (B.count blocks.old) disk self.now.tree (size / 4096) → ⊥ }
        ensures hole { (disk : ℕ → List ℕ) → B.Shows blocks.old disk → IfOk result (λ is.
            IsTrue is → file_block disk self.now (size / 4096) ≡ zeros 4096) }
        ensures stands { IfOk result (λ is. IsFalse is → (size ≤ INLINE_BYTES)
            ⊎ (size / 4096 < self.now.tree.kept) ⊎ IsChanged self.now.tree (size / 4096)) }
    {
        let location = self.tree.locate(blocks, (size / 4096) as u32)?;
        match location {
            Location::Hole => Ok(size > INLINE_BYTES as u64),
            _ => Ok(false),
        }
    }

    /// Prepares a new size: nothing changes before the commit. Bytes past a smaller one are gone,
    /// and those up to a greater one are zeros.
    pub fn prepare_truncate<B: Blocks>(
        &mut self,
        alloc: Global,
        blocks: &mut B,
        size: u64,
    ) -> Result<FileUpdate, ChangeError>
        ensures reads { ReadsBlocks B.Blocks IsChangeFault blocks.old blocks.new result }
        ensures same { IsSameFile self.old self.new }
        ensures within { OnOk result (size ≤ greatest_size self.old.tree.layout) }
        ensures too_big { IsErrOf result ChangeError.TooBig
            → greatest_size self.old.tree.layout < size }
        ensures sound { (disk : ℕ → List ℕ) → B.Shows blocks.old disk → OnOk result
            (TruncatesBlock self.old.size size
            → IsSoundAt (B.count blocks.old) disk self.old.tree (size / 4096)) }
        ensures damaged { (disk : ℕ → List ℕ) → B.Shows blocks.old disk
            → IsErrOf result ChangeError.Damaged → (TruncatesBlock self.old.size size
            → IsSoundAt (B.count blocks.old) disk self.old.tree (size / 4096)) → ⊥ }
        ensures blocks { (disk : ℕ → List ℕ) → B.Shows blocks.old disk → IfOk result
            (λ w. ChangesBlocks disk self.old w (EndsIn self.old.size size) (EndsIn self.old.size size)) }
        ensures size { IfOk result (λ w. w.size ≡ size) }
        ensures fits { IfOk result (λ w. Fits self.new.tree w) }
        ensures bytes { (disk : ℕ → List ℕ) → B.Shows blocks.old disk → IsFile disk self.old
            → IfOk result (λ w. (p : ℕ)
            → byte_with disk self.old w p ≡ truncate (byte_at disk self.old) size p) }
        ensures list { (disk : ℕ → List ℕ) → B.Shows blocks.old disk → IsFile disk self.old
            → IfOk result (λ w. bytes_with disk self.old w ≡ filled size (bytes_of_file disk self.old)) }
        ensures stores { IfOk result (λ w. StoresMore self.new w (size_room self.old.size size)) }
    {
        if size > self.greatest_size() {
            return Err(ChangeError::TooBig);
        }
        let first = (size / 4096) as u32;
        let mut pieces = Vec::new(alloc);
        if keeps_last_block(self.size, size) {
            return Ok(FileUpdate {
                size,
                first,
                pieces,
            });
        }
        let in_hole = self.ends_in_hole(blocks, size)?;
        if in_hole {
            return Ok(FileUpdate {
                size,
                first,
                pieces,
            });
        }
        self.make_room(first)?;
        let mut block = self.copy(alloc, blocks, first)?;
        block.truncate((size % 4096) as usize);
        let shared = SharedBlock::new(alloc, block)?;
        pieces.push(shared)?;
        Ok(FileUpdate {
            size,
            first,
            pieces,
        })
    }

    /// Puts a prepared change in force.
    pub fn commit(&mut self, change: FileUpdate)
        requires { Fits self.old.tree change }
        ensures { IsCommitted self.old change self.new }
    {
        let FileUpdate {
            size,
            first,
            pieces,
        } = change;
        let count = block_count(size);
        self.tree.trim(count);
        self.tree.install(first, pieces);
        self.size = size;
    }

    /// Writes at least one byte at an offset.
    pub fn write<B: Blocks>(
        &mut self,
        alloc: Global,
        blocks: &mut B,
        offset: u64,
        bytes: &[u8],
    ) -> Result<(), ChangeError>
        requires { 0 < length bytes.now }
        ensures reads { ReadsBlocks B.Blocks IsChangeFault blocks.old blocks.new result }
        ensures too_big { IsErrOf result ChangeError.TooBig
            → greatest_size self.old.tree.layout < offset + length bytes.now }
        ensures refused { OnErr result (IsSameFile self.old self.new) }
        ensures base { KeepsBase self.old.tree self.new.tree }
        ensures sound { KeepsSound self.old.tree self.new.tree }
        ensures file { (disk : ℕ → List ℕ) → B.Shows blocks.old disk → IsFile disk self.old
            → OnOk result (IsFile disk self.new) }
        ensures list { (disk : ℕ → List ℕ) → B.Shows blocks.old disk → IsFile disk self.old
            → OnOk result
            (bytes_of_file disk self.new ≡ written_list (bytes_of_file disk self.old) offset bytes.now) }
    {
        let change = self.prepare_write(alloc, blocks, offset, bytes)?;
        self.commit(change);
        Ok(())
    }

    /// Makes the file of this size: it is truncated, or filled up with zeros.
    pub fn resize<B: Blocks>(
        &mut self,
        alloc: Global,
        blocks: &mut B,
        size: u64,
    ) -> Result<(), ChangeError>
        ensures reads { ReadsBlocks B.Blocks IsChangeFault blocks.old blocks.new result }
        ensures too_big { IsErrOf result ChangeError.TooBig
            → greatest_size self.old.tree.layout < size }
        ensures refused { OnErr result (IsSameFile self.old self.new) }
        ensures base { KeepsBase self.old.tree self.new.tree }
        ensures sound { KeepsSound self.old.tree self.new.tree }
        ensures file { (disk : ℕ → List ℕ) → B.Shows blocks.old disk → IsFile disk self.old
            → OnOk result (IsFile disk self.new) }
        ensures list { (disk : ℕ → List ℕ) → B.Shows blocks.old disk → IsFile disk self.old
            → OnOk result (bytes_of_file disk self.new ≡ filled size (bytes_of_file disk self.old)) }
    {
        let change = self.prepare_truncate(alloc, blocks, size)?;
        self.commit(change);
        Ok(())
    }
}
