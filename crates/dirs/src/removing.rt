//! Taking names away.

ghost use Rattle.std.specs.Prelude.{[], OnErr, ◌≤◌, ◌≡◌, ◌<◌, ℕ, List, Option, IfOk, OnOk, IsErrOf, None};
ghost use Rattle.layout.specs.Directory.{Named};
ghost use Rattle.buffers.specs.Reads.{ReadsBlocks};
ghost use Rattle.buffers.specs.Errors.{IsFault};

use crate::Edit;
use buffers::{BlockError, Blocks};
use entries::{Known, count, hash_of};
use inode::File;
use layout::BLOCK_BYTES;
use std::alloc::Global;

impl Edit {
    ghost use Rattle.blocktree.specs.Trees.{KeepsRoom};
    ghost use Rattle.inode.specs.Files.{IsSameFile};
    ghost use Rattle.layout.specs.DirectoryNames.{NameMap, AllHold};
    ghost use Rattle.dirs.specs.Directory.{AreDirectoryBlocks, with_name};
    ghost use Rattle.dirs.specs.Room.{AddsPiece};
    ghost use Rattle.entries.specs.Known.{Knows};
    ghost use Rattle.dirs.specs.Edits.{edited_block, HasEditedNames, IsSoundEdit, IsReached, IsFirstFound, FitsIn};

    // How many blocks are left where the empty ones right before block `end` are cut away.
    fn trimmed<B: Blocks>(
        &self,
        file: &File,
        known: &mut Known,
        blocks: &mut B,
        inodes: u32,
        end: u32,
    ) -> Result<u32, BlockError>
        ensures reads { ReadsBlocks B.Blocks IsFault blocks.old blocks.new result }
        ensures within { IfOk result (λ count. count ≤ end) }
        ensures knows { (disk : ℕ → List ℕ) → B.Shows blocks.old disk →
            Knows inodes (edited_block disk file.now self.now) known.old →
            Knows inodes (edited_block disk file.now self.now) known.new }
        ensures empty { (disk : ℕ → List ℕ) (entries : ℕ → List Named) → B.Shows blocks.old disk →
            Knows inodes (edited_block disk file.now self.now) known.old →
            AllHold inodes end (edited_block disk file.now self.now) entries →
            IfOk result (λ count. (i : ℕ) → count ≤ i → i < end → entries i ≡ []) }
        ensures damaged { (disk : ℕ → List ℕ) → B.Shows blocks.old disk →
            IsErrOf result BlockError.Damaged →
            IsReached (B.count blocks.old) disk file.now end →
            AreDirectoryBlocks inodes end (edited_block disk file.now self.now) → ⊥ }
    {
        let hash = hash_of(b"");
        for i in (0..end).rev() {
            let look = self.look(file, known, blocks, i, inodes, b"", hash)?;
            if look.names > 0 {
                return Ok(i + 1);
            }
        }
        Ok(0)
    }

    /// Prepares that a name is taken away: its block is closed up, and empty blocks at the
    /// directory's end are cut away. Nothing happens where the name doesn't stand.
    pub fn prepare_remove<B: Blocks>(
        &mut self,
        alloc: Global,
        file: &mut File,
        known: &mut Known,
        blocks: &mut B,
        inodes: u32,
        name: &[u8],
    ) -> Result<(), BlockError>
        ensures reads { ReadsBlocks B.Blocks IsFault blocks.old blocks.new result }
        ensures file { IsSameFile file.old file.new }
        ensures keeps { KeepsRoom file.old.tree file.new.tree }
        ensures fits { FitsIn file.old self.old → FitsIn file.new self.new }
        ensures pieces { AddsPiece self.old self.new }
        ensures knows { (disk : ℕ → List ℕ) → B.Shows blocks.old disk →
            Knows inodes (edited_block disk file.old self.old) known.old →
            OnOk result (Knows inodes (edited_block disk file.new self.new) known.new) }
        ensures removed { (disk : ℕ → List ℕ) (names : NameMap) → B.Shows blocks.old disk →
            Knows inodes (edited_block disk file.old self.old) known.old →
            HasEditedNames inodes disk file.old self.old names →
            OnOk result (HasEditedNames inodes disk file.new self.new (with_name name.now None names)) }
        ensures sound { (disk : ℕ → List ℕ) → B.Shows blocks.old disk →
            Knows inodes (edited_block disk file.old self.old) known.old → OnOk result
            ((number : Option ℕ) × IsFirstFound inodes (edited_block disk file.old self.old)
            self.old.count name.now number) }
        ensures kept { (disk : ℕ → List ℕ) (names : NameMap) →
            HasEditedNames inodes disk file.old self.old names →
            OnErr result (HasEditedNames inodes disk file.new self.new names) }
        ensures damaged { (disk : ℕ → List ℕ) → B.Shows blocks.old disk →
            IsErrOf result BlockError.Damaged →
            IsReached (B.count blocks.old) disk file.old self.old.count →
            IsSoundEdit inodes disk file.old self.old → ⊥ }
    {
        let Some(place) = self.locate(file, known, blocks, inodes, name)? else {
            return Ok(());
        };
        let mut bytes = [0; BLOCK_BYTES];
        self.copy(file, blocks, place.block, &mut bytes)?;
        known.remove(place.block, &mut bytes, inodes, name);
        if self.count == place.block + 1 && count(&bytes, inodes) == 0 {
            known.forget_from(place.block);
            self.count = self.trimmed(file, known, blocks, inodes, place.block)?;
            return Ok(());
        }
        self.put(alloc, file, place.block, &bytes)?;
        Ok(())
    }
}
