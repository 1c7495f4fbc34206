//! Reading the file with a number, which a descriptor or a path leads to.

ghost use Rattle.std.specs.Prelude.{◌≡◌, ℕ, List, IfOk, IsErrOf};
ghost use Rattle.model.specs.Edits.{read_at};
ghost use Rattle.model.specs.Volumes.{Volume};
ghost use Rattle.buffers.specs.Reads.{ReadsBlocks};
ghost use Rattle.buffers.specs.Errors.{IsFault};
ghost use Rattle.blocktree.specs.Trees.{IsSoundAt};
ghost use Rattle.inode.specs.Files.{bytes_of_file};
ghost use Rattle.paths.specs.Loads.{IsAny, LooksUp};
ghost use Rattle.paths.specs.Numbers.{IsInodeNumber};
ghost use Rattle.records.specs.Reading.{ReadsNumber, ShowsExtent};

use buffers::{BlockError, Blocks};
use inode::{File, based_trees_are_sound};
use inofile::{InodeFile, objects_stand_in_their_grammar};
use layout::{InodeNumber, Kind};
use model::{Extent, Text};
use paths::load;
use std::alloc::Global;

/// As many bytes as asked and there, from an offset on, of the file with a number; None where it is
/// none. NoMemory; Device where a read failed; Damaged where a block on the way is outside its
/// format.
pub fn read_bytes<B: Blocks>(
    alloc: Global,
    inodes: &mut InodeFile,
    blocks: &mut B,
    number: InodeNumber,
    offset: u64,
    count: u32,
) -> Result<Option<Text>, BlockError>
    requires { IsInodeNumber inodes.old.geometry.inodes number }
    ensures { LooksUp B.Blocks blocks.old blocks.new inodes.old inodes.new IsAny
        (λ v. ReadsNumber v number offset count) result }
{
    objects_stand_in_their_grammar();
    load(alloc, inodes, blocks, number)?;
    let Some(object) = paths::object(inodes, number) else {
        return Ok(None);
    };
    match object.status.kind {
        Kind::File => {}
        _ => return Ok(None),
    }
    let bytes = part(alloc, blocks, &object.file, offset, count)?;
    Ok(Some(Text::new(bytes)))
}

/// How many blocks of the file with a number are stored, and where its next data and its next hole
/// are from an offset on; None where it is none. NoMemory; Device where a read failed; Damaged where
/// a block on the way is outside its format.
pub fn read_extent<B: Blocks>(
    alloc: Global,
    inodes: &mut InodeFile,
    blocks: &mut B,
    number: InodeNumber,
    offset: u64,
) -> Result<Option<Extent>, BlockError>
    requires { IsInodeNumber inodes.old.geometry.inodes number }
    ensures { LooksUp B.Blocks blocks.old blocks.new inodes.old inodes.new IsAny
        (λ v. ShowsExtent B.Blocks blocks.old inodes.new v number offset) result }
{
    based_trees_are_sound();
    load(alloc, inodes, blocks, number)?;
    let Some(object) = paths::object(inodes, number) else {
        return Ok(None);
    };
    match object.status.kind {
        Kind::File => {}
        _ => return Ok(None),
    }
    let extent = object.file.extent(alloc, blocks, offset)?;
    Ok(Some(extent))
}

// As many bytes of a file as asked and there, from an offset on.
fn part<B: Blocks>(
    alloc: Global,
    blocks: &mut B,
    file: &File,
    offset: u64,
    count: u32,
) -> Result<Vec<u8>, BlockError>
    ensures reads { ReadsBlocks B.Blocks IsFault blocks.old blocks.new result }
    ensures bytes { (disk : ℕ → List ℕ) → B.Shows blocks.old disk
        → IfOk result (λ b. b.items ≡ read_at offset count (bytes_of_file disk file.now)) }
    ensures damaged { (disk : ℕ → List ℕ) → B.Shows blocks.old disk
        → IsErrOf result BlockError.Damaged
        → ((i : ℕ) → IsSoundAt (B.count blocks.old) disk file.now.tree i) → ⊥ }
{
    let size = file.size();
    let start = offset.min(size);
    let length = (size - start).min(u64::from(count)) as usize;
    let mut bytes = vec![in alloc; 0; length]?;
    file.read_at(blocks, start, &mut bytes)?;
    Ok(bytes)
}
