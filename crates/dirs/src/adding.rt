//! Adding a name.

ghost use Rattle.std.specs.Prelude.{[], ◌∷◌, ◌++◌, ◌+◌, length, Some, ◌≢◌, OnErr, ◌≤◌, ◌≡◌, ◌<◌, ℕ, List, OnOk, IfOk, IsErrOf, IsFalse, IsSome, IsTrue, None};
ghost use Rattle.layout.specs.Directory.{Named, HoldsEntries, IsEntry, named_of, entry_bytes};
ghost use Rattle.buffers.specs.Reads.{ReadsBlocks};
ghost use Rattle.buffers.specs.Errors.{IsFault};
ghost use Rattle.dirs.specs.Errors.{IsAddFault};
ghost use Rattle.layout.specs.declared.limits.TheConstants.{DIRECTORY_NAMES};
ghost use Rattle.dirs.specs.declared.TheConstants.{GROWN_BLOCKS};

use crate::survey::survey_of;
use crate::{AddError, Edit};
use buffers::{BlockError, Blocks};
use entries::{Known, add};
use inode::File;
use layout::{BLOCK_BYTES, Entry};
use std::alloc::{AllocError, Global};

impl Edit {
    ghost use Rattle.blocktree.specs.Trees.{IsSoundAt, KeepsRoom};
    ghost use Rattle.inode.specs.Files.{IsSameFile};
    ghost use Rattle.layout.specs.DirectoryNames.{NameMap};
    ghost use Rattle.dirs.specs.Directory.{HasCount, with_name};
    ghost use Rattle.entries.specs.Entries.{used_by};
    ghost use Rattle.dirs.specs.Edits.{edited_block, HasEditedNames, IsSoundEdit, IsReached, FitsIn};
    ghost use Rattle.dirs.specs.FirstFit.{IsFirstFit};
    ghost use Rattle.dirs.specs.Room.{AddsPiece};
    ghost use Rattle.entries.specs.Known.{Knows};

    /// Prepares that a name is added, in the first block with room for it, else in a new last one;
    /// or answers that it isn't, where it stands in the directory already. DirFull where the
    /// directory has `most` names.
    pub fn prepare_add<B: Blocks>(
        &mut self,
        alloc: Global,
        file: &mut File,
        known: &mut Known,
        blocks: &mut B,
        inodes: u32,
        most: u32,
        entry: &Entry<'_>,
    ) -> Result<bool, AddError>
        requires entry { IsEntry inodes (named_of entry.now) }
        requires few { most ≤ DIRECTORY_NAMES }
        ensures reads { ReadsBlocks B.Blocks IsAddFault blocks.old blocks.new result }
        ensures counted_full { IsErrOf result AddError.DirFull →
            (B.failed blocks.new ≡ B.failed blocks.old) }
        ensures file { IsSameFile file.old file.new }
        ensures keeps { KeepsRoom file.old.tree file.new.tree }
        ensures fits { FitsIn file.old self.old → FitsIn file.new self.new }
        ensures pieces { AddsPiece self.old self.new }
        ensures knows { (disk : ℕ → List ℕ) → B.Shows blocks.old disk →
            Knows inodes (edited_block disk file.old self.old) known.old →
            OnOk result (Knows inodes (edited_block disk file.new self.new) known.new) }
        ensures there { (disk : ℕ → List ℕ) (names : NameMap) → B.Shows blocks.old disk →
            Knows inodes (edited_block disk file.old self.old) known.old →
            HasEditedNames inodes disk file.old self.old names → IfOk result
            (λ added. IsFalse added → IsSome (names entry.now.name.now)) }
        ensures same { IfOk result (λ added. IsFalse added →
            (self.new ≡ self.old) × (file.new ≡ file.old)) }
        ensures missing { (disk : ℕ → List ℕ) (names : NameMap) → B.Shows blocks.old disk →
            Knows inodes (edited_block disk file.old self.old) known.old →
            HasEditedNames inodes disk file.old self.old names → IfOk result
            (λ added. IsTrue added → names entry.now.name.now ≡ None) }
        ensures added { (disk : ℕ → List ℕ) (names : NameMap) → B.Shows blocks.old disk →
            Knows inodes (edited_block disk file.old self.old) known.old →
            HasEditedNames inodes disk file.old self.old names → IfOk result
            (λ added. IsTrue added → HasEditedNames inodes disk file.new self.new
            (with_name entry.now.name.now (Some entry.now.number) names)) }
        ensures first { (disk : ℕ → List ℕ) (names : NameMap) → B.Shows blocks.old disk →
            Knows inodes (edited_block disk file.old self.old) known.old →
            (has : HasEditedNames inodes disk file.old self.old names) → IfOk result
            (λ added. IsTrue added →
            IsFirstFit inodes (named_of entry.now) has.entries self.old.count self.new.count
            (edited_block disk file.old self.old) (edited_block disk file.new self.new)) }
        ensures sound { (disk : ℕ → List ℕ) → B.Shows blocks.old disk →
            Knows inodes (edited_block disk file.old self.old) known.old →
            OnOk result (IsSoundEdit inodes disk file.old self.old) }
        ensures kept { (disk : ℕ → List ℕ) (names : NameMap) →
            HasEditedNames inodes disk file.old self.old names →
            OnErr result (HasEditedNames inodes disk file.new self.new names) }
        ensures room { (disk : ℕ → List ℕ) (names : NameMap) → B.Shows blocks.old disk →
            Knows inodes (edited_block disk file.old self.old) known.old →
            HasEditedNames inodes disk file.old self.old names → IfOk result
            (λ added. IsTrue added → (n : ℕ) × HasCount names n × (n < most)) }
        ensures full { (disk : ℕ → List ℕ) (names : NameMap) → B.Shows blocks.old disk →
            Knows inodes (edited_block disk file.old self.old) known.old →
            HasEditedNames inodes disk file.old self.old names →
            IsErrOf result AddError.DirFull → (names entry.now.name.now ≡ None)
            × (n : ℕ) × HasCount names n × (most ≤ n) }
        ensures damaged { (disk : ℕ → List ℕ) → B.Shows blocks.old disk →
            IsErrOf result AddError.Damaged →
            IsReached (B.count blocks.old) disk file.old self.old.count →
            IsSoundEdit inodes disk file.old self.old → ⊥ }
    {
        let bytes = entry.encoded_len();
        let survey = survey_of(self, file, known, blocks, inodes, entry.name, bytes)?;
        if survey.place.is_some() {
            return Ok(false);
        }
        let is_full = survey.names >= u64::from(most);
        if is_full {
            return Err(AddError::DirFull);
        }
        match survey.room {
            Some(i) => self.add_to(alloc, file, known, blocks, i, inodes, entry)?,
            None => self.add_behind(alloc, file, known, inodes, entry)?,
        }
        Ok(true)
    }

    // Prepares an entry more in block `i`, which has room for it.
    fn add_to<B: Blocks>(
        &mut self,
        alloc: Global,
        file: &mut File,
        known: &mut Known,
        blocks: &mut B,
        i: u32,
        inodes: u32,
        entry: &Entry<'_>,
    ) -> Result<(), BlockError>
        requires { IsEntry inodes (named_of entry.now) }
        ensures reads { ReadsBlocks B.Blocks IsFault blocks.old blocks.new result }
        ensures file { IsSameFile file.old file.new }
        ensures keeps { KeepsRoom file.old.tree file.new.tree }
        ensures fits { FitsIn file.old self.old → FitsIn file.new self.new }
        ensures pieces { AddsPiece self.old self.new }
        ensures many { self.new.count ≡ self.old.count }
        ensures others { (disk : ℕ → List ℕ) (j : ℕ) → (j ≢ i) →
            edited_block disk file.new self.new j ≡ edited_block disk file.old self.old j }
        ensures knows { (disk : ℕ → List ℕ) → B.Shows blocks.old disk →
            Knows inodes (edited_block disk file.old self.old) known.old →
            OnOk result (Knows inodes (edited_block disk file.new self.new) known.new) }
        ensures here { (disk : ℕ → List ℕ) (entries : List Named) → B.Shows blocks.old disk →
            Knows inodes (edited_block disk file.old self.old) known.old →
            HoldsEntries inodes (edited_block disk file.old self.old i) entries →
            used_by entries + length (entry_bytes (named_of entry.now)) ≤ 4096 →
            OnOk result (HoldsEntries inodes (edited_block disk file.new self.new i)
            (entries ++ named_of entry.now ∷ [])) }
        ensures err { (disk : ℕ → List ℕ) (j : ℕ) →
            OnErr result
            (edited_block disk file.new self.new j ≡ edited_block disk file.old self.old j) }
        ensures damaged { (disk : ℕ → List ℕ) → B.Shows blocks.old disk →
            IsErrOf result BlockError.Damaged →
            IsSoundAt (B.count blocks.old) disk file.old.tree i → ⊥ }
    {
        let mut bytes = [0; BLOCK_BYTES];
        self.copy(file, blocks, i, &mut bytes)?;
        known.add(i, &mut bytes, inodes, entry);
        self.put(alloc, file, i, &bytes)?;
        Ok(())
    }

    // Prepares a new last block with this entry.
    #[tactic(auto, unfolding(layout::specs::Bytes::zeros))]
    fn add_behind(
        &mut self,
        alloc: Global,
        file: &mut File,
        known: &mut Known,
        inodes: u32,
        entry: &Entry<'_>,
    ) -> Result<(), AllocError>
        requires entry { IsEntry inodes (named_of entry.now) }
        requires room { self.old.count < GROWN_BLOCKS }
        ensures file { IsSameFile file.old file.new }
        ensures keeps { KeepsRoom file.old.tree file.new.tree }
        ensures fits { FitsIn file.old self.old → FitsIn file.new self.new }
        ensures pieces { AddsPiece self.old self.new }
        ensures many { OnOk result (self.new.count ≡ self.old.count + 1) }
        ensures as_many { OnErr result (self.new.count ≡ self.old.count) }
        ensures others { (disk : ℕ → List ℕ) (j : ℕ) → (j ≢ self.old.count) →
            edited_block disk file.new self.new j ≡ edited_block disk file.old self.old j }
        ensures knows { (disk : ℕ → List ℕ) →
            Knows inodes (edited_block disk file.old self.old) known.old →
            OnOk result (Knows inodes (edited_block disk file.new self.new) known.new) }
        ensures here { (disk : ℕ → List ℕ) →
            OnOk result (HoldsEntries inodes (edited_block disk file.new self.new self.old.count)
            (named_of entry.now ∷ [])) }
        ensures err { (disk : ℕ → List ℕ) (j : ℕ) →
            OnErr result
            (edited_block disk file.new self.new j ≡ edited_block disk file.old self.old j) }
    {
        let mut bytes = [0; BLOCK_BYTES];
        add(&mut bytes, inodes, entry);
        known.forget_from(self.count);
        self.put(alloc, file, self.count, &bytes)?;
        self.count += 1;
        Ok(())
    }
}
