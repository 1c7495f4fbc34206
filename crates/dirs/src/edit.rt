//! An edit of a directory, prepared before it is made.

use buffers::{BlockError, Blocks, SharedBlock};
use entries::{Known, Look, hash_of};
use inode::File;
use layout::BLOCK_BYTES;
use std::alloc::{AllocError, Global};
use std::collections::BTreeMap;

/// A prepared edit of one directory: what its blocks will be. Until it is committed the directory
/// is as it was.
#[derive(Debug, Drop)]
pub struct Edit {
    /// The changed blocks, by index.
    pub(crate) changed: BTreeMap<u32, SharedBlock>,
    /// How many blocks the directory will have.
    pub(crate) count: u32,
    /// What is known of its blocks then.
    pub(crate) known: Known,
}

/// Where a name stands.
#[derive(Clone, Copy, Debug)]
pub(crate) struct Place {
    pub(crate) block: u32,
    pub(crate) number: u32,
}

ghost use Rattle.std.specs.Prelude.{◌*◌, ◌/◌, ◌≢◌, IfSome, OnErr, ◌≤◌, ◌≡◌, ◌<◌, ℕ, List, IfOk, OnOk, IsErrOf, None};
ghost use Rattle.std.specs.Option.{option_map};
ghost use Rattle.std.specs.Ordering.{nat_cmp};
ghost use Rattle.std.specs.BTreeMap as tree;
ghost use Rattle.layout.specs.Directory.{Named, HoldsEntries};
ghost use Rattle.buffers.specs.Reads.{ReadsBlocks};
ghost use Rattle.buffers.specs.Errors.{IsFault};

impl Edit {
    ghost use Rattle.blocktree.specs.Trees.{IsSoundAt, KeepsRoom, KeepsSound};
    ghost use Rattle.inode.specs.Bases.{KeepsBase};
    ghost use Rattle.inode.specs.Files.{IsFile, IsSameFile, file_block};
    ghost use Rattle.layout.specs.DirectoryNames.{NameMap, AllHold};
    ghost use Rattle.entries.specs.Entries.{IsObjectNumber};
    ghost use Rattle.dirs.specs.Edits.{AreWhole, edited_block, HasEditedNames, IsSoundEdit, IsReached, IsNamePlace, IsFirstFound, FitsIn, IsDirectory};
    ghost use Rattle.entries.specs.Known.{Knows};
    ghost use Rattle.entries.specs.Marks.{hash_of};
    ghost use Rattle.entries.specs.Looks.{TellsEntries, IsLikely};
    ghost use Rattle.dirs.specs.Room.{AddsPiece, ChangesFew, piece_count};

    /// An edit of this directory that changes nothing yet.
    pub fn of(alloc: Global, file: &File) -> Edit
        ensures same { (inodes : ℕ) (disk : ℕ → List ℕ) (names : NameMap) →
            IsDirectory inodes disk file.now names → HasEditedNames inodes disk file.now result names }
        ensures fits { FitsIn file.now result }
        ensures count { result.count ≡ file.now.size / 4096 }
        ensures none { (i : ℕ) → tree.get nat_cmp result.changed i ≡ None }
        ensures pieces { piece_count result ≡ 0 }
    {
        Edit {
            changed: BTreeMap::new(alloc),
            count: (file.size() / BLOCK_BYTES as u64) as u32,
            known: Known::new(alloc),
        }
    }

    /// From now on this is what is known of the blocks as they will be.
    pub fn keep(&mut self, known: Known)
        ensures changed { self.new.changed ≡ self.old.changed }
        ensures count { self.new.count ≡ self.old.count }
        ensures known { self.new.known ≡ known }
    {
        self.known = known;
    }

    // Looks at block `i` for a name, of which this is the hash.
    pub(crate) fn look<B: Blocks>(
        &self,
        file: &File,
        known: &mut Known,
        blocks: &mut B,
        i: u32,
        inodes: u32,
        name: &[u8],
        hash: usize,
    ) -> Result<Look, BlockError>
        requires { hash ≡ hash_of name.now }
        ensures reads { ReadsBlocks B.Blocks IsFault blocks.old blocks.new result }
        ensures tells { (disk : ℕ → List ℕ) → B.Shows blocks.old disk →
            Knows inodes (edited_block disk file.now self.now) known.old →
            IfOk result (TellsEntries inodes (edited_block disk file.now self.now i) name.now) }
        ensures knows { (disk : ℕ → List ℕ) → B.Shows blocks.old disk →
            Knows inodes (edited_block disk file.now self.now) known.old →
            Knows inodes (edited_block disk file.now self.now) known.new }
        ensures ordinary { IfOk result (λ l. IfSome l.number (IsObjectNumber inodes)) }
        ensures likely { IfOk result IsLikely }
        ensures damaged { (disk : ℕ → List ℕ) → B.Shows blocks.old disk →
            IsErrOf result BlockError.Damaged →
            IsSoundAt (B.count blocks.old) disk file.now.tree i → (entries : List Named) →
            HoldsEntries inodes (edited_block disk file.now self.now i) entries → ⊥ }
    {
        if let Some(look) = known.skim(i, name, hash) {
            return Ok(look);
        }
        // Of a directory of one block nothing is learned.
        let learns = self.count > 1;
        if let Some(block) = self.changed.get(&i) {
            return known.look_at(i, block.bytes(), inodes, name, learns);
        }
        let location = file.locate(blocks, i)?;
        known.look_at(i, file.bytes(blocks, i, location), inodes, name, learns)
    }

    // Copies block `i`.
    pub(crate) fn copy<B: Blocks>(
        &self,
        file: &File,
        blocks: &mut B,
        i: u32,
        out: &mut [u8; BLOCK_BYTES],
    ) -> Result<(), BlockError>
        ensures reads { ReadsBlocks B.Blocks IsFault blocks.old blocks.new result }
        ensures bytes { (disk : ℕ → List ℕ) → B.Shows blocks.old disk →
            OnOk result (out.new ≡ edited_block disk file.now self.now i) }
        ensures damaged { (disk : ℕ → List ℕ) → B.Shows blocks.old disk →
            IsErrOf result BlockError.Damaged →
            IsSoundAt (B.count blocks.old) disk file.now.tree i → ⊥ }
    {
        if let Some(block) = self.changed.get(&i) {
            *out = *block.bytes();
            return Ok(());
        }
        let location = file.locate(blocks, i)?;
        *out = *file.bytes(blocks, i, location);
        Ok(())
    }

    // Changes block `i`, of which the file gets room.
    pub(crate) fn put(
        &mut self,
        alloc: Global,
        file: &mut File,
        i: u32,
        bytes: &[u8; BLOCK_BYTES],
    ) -> Result<(), AllocError>
        ensures file { IsSameFile file.old file.new }
        ensures keeps { KeepsRoom file.old.tree file.new.tree }
        ensures fits { FitsIn file.old self.old → FitsIn file.new self.new }
        ensures count { self.new.count ≡ self.old.count }
        ensures pieces { AddsPiece self.old self.new }
        ensures here { (disk : ℕ → List ℕ) →
            OnOk result (edited_block disk file.new self.new i ≡ bytes.now) }
        ensures others { (disk : ℕ → List ℕ) (j : ℕ) → (j ≢ i) →
            edited_block disk file.new self.new j ≡ edited_block disk file.old self.old j }
        ensures err { (disk : ℕ → List ℕ) (j : ℕ) →
            OnErr result
            (edited_block disk file.new self.new j ≡ edited_block disk file.old self.old j) }
    {
        file.make_room(i)?;
        let block = SharedBlock::copy_of(alloc, bytes)?;
        match self.changed.insert(i, block) {
            Ok(_) => Ok(()),
            Err(_) => Err(AllocError),
        }
    }

    // Where a name stands.
    pub(crate) fn locate<B: Blocks>(
        &self,
        file: &File,
        known: &mut Known,
        blocks: &mut B,
        inodes: u32,
        name: &[u8],
    ) -> Result<Option<Place>, BlockError>
        ensures reads { ReadsBlocks B.Blocks IsFault blocks.old blocks.new result }
        ensures within { IfOk result (λ place. IfSome place (λ p. p.block < self.now.count)) }
        ensures ordinary { IfOk result (λ place. IfSome place
            (λ p. IsObjectNumber inodes p.number)) }
        ensures knows { (disk : ℕ → List ℕ) → B.Shows blocks.old disk →
            Knows inodes (edited_block disk file.now self.now) known.old →
            Knows inodes (edited_block disk file.now self.now) known.new }
        ensures placed { (disk : ℕ → List ℕ) (entries : ℕ → List Named) → B.Shows blocks.old disk →
            Knows inodes (edited_block disk file.now self.now) known.old →
            AllHold inodes self.now.count (edited_block disk file.now self.now) entries →
            IfOk result (IsNamePlace entries self.now.count name.now) }
        ensures first { (disk : ℕ → List ℕ) → B.Shows blocks.old disk →
            Knows inodes (edited_block disk file.now self.now) known.old →
            IfOk result (λ place. IsFirstFound inodes (edited_block disk file.now self.now)
            self.now.count name.now (option_map (λ p. p.number) place)) }
        ensures damaged { (disk : ℕ → List ℕ) → B.Shows blocks.old disk →
            IsErrOf result BlockError.Damaged →
            IsReached (B.count blocks.old) disk file.now self.now.count →
            IsSoundEdit inodes disk file.now self.now → ⊥ }
    {
        let hash = hash_of(name);
        for i in 0..self.count {
            let look = self.look(file, known, blocks, i, inodes, name, hash)?;
            if let Some(number) = look.number {
                return Ok(Some(Place { block: i, number }));
            }
        }
        Ok(None)
    }

    /// The number that a name of the edited directory stands for; None where it is none of its
    /// names.
    pub fn find<B: Blocks>(
        &self,
        file: &File,
        known: &mut Known,
        blocks: &mut B,
        inodes: u32,
        name: &[u8],
    ) -> Result<Option<u32>, BlockError>
        ensures reads { ReadsBlocks B.Blocks IsFault blocks.old blocks.new result }
        ensures knows { (disk : ℕ → List ℕ) → B.Shows blocks.old disk →
            Knows inodes (edited_block disk file.now self.now) known.old →
            Knows inodes (edited_block disk file.now self.now) known.new }
        ensures found { (disk : ℕ → List ℕ) (names : NameMap) → B.Shows blocks.old disk →
            Knows inodes (edited_block disk file.now self.now) known.old →
            HasEditedNames inodes disk file.now self.now names →
            IfOk result (λ number. number ≡ names name.now) }
        ensures sound { (disk : ℕ → List ℕ) → B.Shows blocks.old disk →
            Knows inodes (edited_block disk file.now self.now) known.old →
            IfOk result (IsFirstFound inodes (edited_block disk file.now self.now)
            self.now.count name.now) }
        ensures ordinary { IfOk result (λ number. IfSome number (IsObjectNumber inodes)) }
        ensures damaged { (disk : ℕ → List ℕ) → B.Shows blocks.old disk →
            IsErrOf result BlockError.Damaged →
            IsReached (B.count blocks.old) disk file.now self.now.count →
            IsSoundEdit inodes disk file.now self.now → ⊥ }
    {
        match self.locate(file, known, blocks, inodes, name)? {
            Some(place) => Ok(Some(place.number)),
            None => Ok(None),
        }
    }

    /// Makes the edit: the directory's file has the prepared blocks from now on. The answer is what
    /// is known of them.
    pub fn commit(self, file: &mut File) -> Known
        requires { FitsIn file.old self }
        ensures size { file.new.size ≡ 4096 * self.count }
        ensures ends { (disk : ℕ → List ℕ) → IsFile disk file.new }
        ensures names { (inodes : ℕ) (disk : ℕ → List ℕ) (names : NameMap) →
            HasEditedNames inodes disk file.old self names → IsDirectory inodes disk file.new names }
        ensures knows { (inodes : ℕ) (disk : ℕ → List ℕ) →
            Knows inodes (edited_block disk file.old self) self.known →
            Knows inodes (file_block disk file.new) result }
        ensures base { KeepsBase file.old.tree file.new.tree }
        ensures sound { KeepsSound file.old.tree file.new.tree }
        ensures few { ChangesFew (piece_count self) file.old file.new }
        ensures whole { (disk : ℕ → List ℕ) → AreWhole (file_block disk file.old) →
            AreWhole (file_block disk file.new) }
    {
        let Edit {
            mut changed,
            count,
            mut known,
        } = self;
        while let Some((i, block)) = changed.pop_first() {
            block.is_whole();
            file.set_block(i, block);
        }
        file.set_size(4096 * u64::from(count));
        known.forget_from(count);
        known
    }
}
