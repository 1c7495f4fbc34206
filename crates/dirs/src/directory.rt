//! Looking into a directory.

ghost use Rattle.std.specs.Prelude.{◌≡◌, ◌<◌, ◌/◌, ℕ, List, All, OnOk, IfOk, IfSome, IsErrOf, map};
ghost use Rattle.layout.specs.Directory.{Named, HoldsEntries};
ghost use Rattle.buffers.specs.Reads.{ReadsBlocks};
ghost use Rattle.buffers.specs.Errors.{IsFault};
ghost use Rattle.buffers.specs.declared.error.BlockError.TheVariants.{Damaged};
ghost use Rattle.inode.specs.Files.{file_block};
ghost use Rattle.model.specs.Paths.{Name};
ghost use Rattle.layout.specs.DirectoryNames.{NameMap};
ghost use Rattle.dirs.specs.Directory.{AreDirectoryBlocks};
ghost use Rattle.entries.specs.Entries.{IsObjectNumber};
ghost use Rattle.entries.specs.Known.{Knows};
ghost use Rattle.dirs.specs.Edits.{IsDirectory, IsReached, IsFirstFound};
ghost use Rattle.dirs.specs.Listings.{AddsNames, AreInOrder, HasObjectNumbers, IsListingOfNames, IsNumberedListing, listed_names, numbered_of};

use crate::Edit;
use buffers::{BlockError, Blocks};
use entries::Known;
use inode::File;
use layout::{BLOCK_BYTES, InodeNumber, NextEntry, is_directory_block, next_entry};
use model::Names;
use std::alloc::{AllocError, Global};
use std::collections::BTreeMap;

/// A name of a directory, with the number that it stands for.
#[derive(Debug, Drop)]
pub struct NumberedName {
    pub name: Vec<u8>,
    pub number: InodeNumber,
}

/// The number that a name of a directory stands for; None where it is none of its names.
pub fn find<B: Blocks>(
    alloc: Global,
    file: &File,
    known: &mut Known,
    blocks: &mut B,
    inodes: u32,
    name: &[u8],
) -> Result<Option<u32>, BlockError>
    ensures reads { ReadsBlocks B.Blocks IsFault blocks.old blocks.new result }
    ensures knows { (disk : ℕ → List ℕ) → B.Shows blocks.old disk →
        Knows inodes (file_block disk file.now) known.old →
        Knows inodes (file_block disk file.now) known.new }
    ensures found { (disk : ℕ → List ℕ) (names : NameMap) → B.Shows blocks.old disk →
        Knows inodes (file_block disk file.now) known.old →
        IsDirectory inodes disk file.now names → IfOk result (λ number. number ≡ names name.now) }
    ensures sound { (disk : ℕ → List ℕ) → B.Shows blocks.old disk →
        Knows inodes (file_block disk file.now) known.old →
        IfOk result
        (IsFirstFound inodes (file_block disk file.now) (file.now.size / 4096) name.now) }
    ensures ordinary { IfOk result (λ number. IfSome number (IsObjectNumber inodes)) }
    ensures damaged { (disk : ℕ → List ℕ) → B.Shows blocks.old disk →
        IsErrOf result BlockError.Damaged →
        IsReached (B.count blocks.old) disk file.now (file.now.size / 4096) →
        AreDirectoryBlocks inodes (file.now.size / 4096) (file_block disk file.now) → ⊥ }
{
    let edit = Edit::of(alloc, file);
    edit.find(file, known, blocks, inodes, name)
}

/// The names of a directory, sorted by their bytes.
pub fn list<B: Blocks>(
    alloc: Global,
    file: &File,
    blocks: &mut B,
    inodes: u32,
) -> Result<Names, BlockError>
    ensures reads { ReadsBlocks B.Blocks IsFault blocks.old blocks.new result }
    ensures listed { (disk : ℕ → List ℕ) (names : NameMap) → B.Shows blocks.old disk →
        IsDirectory inodes disk file.now names → IfOk result (IsListingOfNames names) }
    ensures sound { (disk : ℕ → List ℕ) → B.Shows blocks.old disk →
        OnOk result (AreDirectoryBlocks inodes (file.now.size / 4096) (file_block disk file.now)) }
    ensures damaged { (disk : ℕ → List ℕ) → B.Shows blocks.old disk →
        IsErrOf result BlockError.Damaged →
        IsReached (B.count blocks.old) disk file.now (file.now.size / 4096) →
        AreDirectoryBlocks inodes (file.now.size / 4096) (file_block disk file.now) → ⊥ }
{
    let listed = list_numbered(alloc, file, blocks, inodes)?;
    Ok(names_alone(alloc, listed)?)
}

/// The same, each name with the number that it stands for. The numbers are those of objects, and
/// the names in their order, whatever the blocks hold.
pub fn list_numbered<B: Blocks>(
    alloc: Global,
    file: &File,
    blocks: &mut B,
    inodes: u32,
) -> Result<Vec<NumberedName>, BlockError>
    ensures reads { ReadsBlocks B.Blocks IsFault blocks.old blocks.new result }
    ensures listed { (disk : ℕ → List ℕ) (names : NameMap) → B.Shows blocks.old disk →
        IsDirectory inodes disk file.now names →
        IfOk result (λ l. IsNumberedListing names l.items) }
    ensures ordered { IfOk result (λ l. AreInOrder l.items) }
    ensures ordinary { IfOk result (λ l. All (λ n. IsObjectNumber inodes n.number) l.items) }
    ensures sound { (disk : ℕ → List ℕ) → B.Shows blocks.old disk →
        OnOk result (AreDirectoryBlocks inodes (file.now.size / 4096) (file_block disk file.now)) }
    ensures damaged { (disk : ℕ → List ℕ) → B.Shows blocks.old disk →
        IsErrOf result BlockError.Damaged →
        IsReached (B.count blocks.old) disk file.now (file.now.size / 4096) →
        AreDirectoryBlocks inodes (file.now.size / 4096) (file_block disk file.now) → ⊥ }
{
    let mut names = BTreeMap::new(alloc);
    for i in 0..(file.size() / BLOCK_BYTES as u64) as u32 {
        let location = file.locate(blocks, i)?;
        add_names(alloc, &mut names, file.bytes(blocks, i, location), inodes)?;
    }
    Ok(in_order(alloc, names)?)
}

// Adds the names of a block to others; Damaged where it is outside its grammar.
fn add_names(
    alloc: Global,
    names: &mut BTreeMap<Vec<u8>, InodeNumber>,
    bytes: &[u8; BLOCK_BYTES],
    inodes: u32,
) -> Result<(), BlockError>
    ensures names { (entries : List Named) → HoldsEntries inodes bytes.now entries →
        OnOk result (AddsNames entries names.old.entries names.new.entries) }
    ensures ordinary { HasObjectNumbers inodes names.old.entries →
        OnOk result (HasObjectNumbers inodes names.new.entries) }
    ensures sound { OnOk result ((entries : List Named) × HoldsEntries inodes bytes.now entries) }
    ensures damaged { IsErrOf result BlockError.Damaged → (entries : List Named) →
        HoldsEntries inodes bytes.now entries → ⊥ }
    ensures device { IsErrOf result BlockError.Device → ⊥ }
{
    if !is_directory_block(bytes, inodes) {
        return Err(BlockError::Damaged);
    }
    add_each(alloc, names, bytes, inodes)?;
    Ok(())
}

// Adds the names of these entries to others.
fn add_each(
    alloc: Global,
    names: &mut BTreeMap<Vec<u8>, InodeNumber>,
    bytes: &[u8],
    inodes: u32,
) -> Result<(), AllocError>
    ensures names { (entries : List Named) → HoldsEntries inodes bytes.now entries →
        OnOk result (AddsNames entries names.old.entries names.new.entries) }
    ensures ordinary { HasObjectNumbers inodes names.old.entries →
        OnOk result (HasObjectNumbers inodes names.new.entries) }
{
    match next_entry(bytes, inodes) {
        NextEntry::End => Ok(()),
        NextEntry::Malformed => Ok(()),
        NextEntry::Entry { entry, rest } => {
            names.insert(Vec::from_slice(alloc, entry.name)?, entry.number)?;
            add_each(alloc, names, rest, inodes)?;
            Ok(())
        }
    }
}

// The names of a map, in its order.
fn in_order(
    alloc: Global,
    names: BTreeMap<Vec<u8>, InodeNumber>,
) -> Result<Vec<NumberedName>, AllocError>
    ensures same { IfOk result (λ l. l.items ≡ map numbered_of names.entries) }
    ensures ordered { IfOk result (λ l. AreInOrder l.items) }
{
    names
        .into_iter()
        .map(|(name, number)| NumberedName { name, number })
        .collect(alloc)
}

// Names without their numbers.
fn names_alone(alloc: Global, listed: Vec<NumberedName>) -> Result<Names, AllocError>
    ensures { IfOk result (λ names. names ≡ listed_names listed.items) }
{
    let names: Vec<Vec<u8>> = listed.into_iter().map(|n| n.name).collect(alloc)?;
    Ok(Names::new(names))
}
