//! What numbers and names stand for.

ghost use Rattle.std.specs.Prelude.{◌≡◌, ℕ, List, Option, Some, IfOk, IfSome, IsErrOf};
ghost use Rattle.buffers.specs.Reads.{ReadsBlocks};
ghost use Rattle.buffers.specs.Errors.{IsFault};
ghost use Rattle.blocktree.specs.Trees.{IsSoundAt};
ghost use Rattle.dirs.specs.Listings.{IsListingOfNames, IsNumberedListing};
ghost use Rattle.entries.specs.Entries.{IsObjectNumber};
ghost use Rattle.images.specs.Soundness.{Detail};
ghost use Rattle.inode.specs.declared.object.Object.{Object};
ghost use Rattle.inofile.specs.Objects.{IsObjectOrNone, IsSameOrNone, StaysKnown};
ghost use Rattle.layout.specs.declared.inode.Inode.{Inode};
ghost use Rattle.layout.specs.declared.kind.Kind.TheVariants as kinds;
ghost use Rattle.inode.specs.Files.{bytes_of_file};
ghost use Rattle.model.specs.Volumes.{Node, entries, names_in};
ghost use Rattle.paths.specs.Listed.{IsListedWithin};
ghost use Rattle.paths.specs.Loads.{IsAny, LooksInto, LooksUp};
ghost use Rattle.paths.specs.Numbers.{IsInodeNumber};
ghost use Rattle.paths.specs.Steps.{found_as, found_in, placed_in, text_in};

use crate::loading::{load, object};
use buffers::{BlockError, Blocks};
use dirs::NumberedName;
use inode::{File, Object};
use inofile::{InodeFile, objects_stand_in_their_grammar};
use layout::{InodeNumber, Kind};
use model::Names;
use std::alloc::Global;

/// What stands at a number.
#[derive(Clone, Copy, Debug, PartialEq, Eq)]
pub enum Found {
    Directory,
    File,
    Link,
    Nothing,
}

/// What stands at a number.
pub fn object_at<B: Blocks>(
    alloc: Global,
    inodes: &mut InodeFile,
    blocks: &mut B,
    number: InodeNumber,
) -> Result<Found, BlockError>
    requires { IsInodeNumber inodes.old.geometry.inodes number }
    ensures { LooksInto B.Blocks blocks.old blocks.new inodes.old inodes.new IsAny
        (λ v found. found ≡ found_in (v number)) result }
{
    load(alloc, inodes, blocks, number)?;
    let Some(object) = object(inodes, number) else {
        return Ok(Found::Nothing);
    };
    Ok(found_by(object.status.kind))
}

/// What stands at a number, and at a path: an orphan doesn't.
pub(crate) fn placed_at<B: Blocks>(
    alloc: Global,
    inodes: &mut InodeFile,
    blocks: &mut B,
    number: InodeNumber,
) -> Result<Found, BlockError>
    requires { IsInodeNumber inodes.old.geometry.inodes number }
    ensures { LooksInto B.Blocks blocks.old blocks.new inodes.old inodes.new IsAny
        (λ v found. found ≡ placed_in (v number)) result }
{
    load(alloc, inodes, blocks, number)?;
    let Some(object) = object(inodes, number) else {
        return Ok(Found::Nothing);
    };
    if object.status.kind == Kind::File && object.status.links == 0 {
        return Ok(Found::Nothing);
    }
    Ok(found_by(object.status.kind))
}

// What an object of this kind is.
fn found_by(kind: Kind) -> Found
    ensures { result ≡ found_as kind }
{
    match kind {
        Kind::Directory => Found::Directory,
        Kind::File => Found::File,
        Kind::Link => Found::Link,
        Kind::Free | Kind::InodeFile | Kind::InodeMap | Kind::BlockMap => Found::Nothing,
    }
}

/// The number at a name of a directory; None where it doesn't have it, or is no directory.
pub fn number_at<B: Blocks>(
    alloc: Global,
    inodes: &mut InodeFile,
    blocks: &mut B,
    directory: InodeNumber,
    name: &[u8],
) -> Result<Option<InodeNumber>, BlockError>
    requires { IsInodeNumber inodes.old.geometry.inodes directory }
    ensures { LooksInto B.Blocks blocks.old blocks.new inodes.old inodes.new
        (λ number. IfSome number (IsInodeNumber inodes.old.geometry.inodes))
        (λ v number. number ≡ entries v directory name.now) result }
{
    load(alloc, inodes, blocks, directory)?;
    objects_stand_in_their_grammar();
    let count = inodes.geometry().inodes();
    let n = directory.get();
    let mut object = inodes.take(n);
    let found = find_in(alloc, &mut object, blocks, count, name);
    inodes.put_back(n, object);
    numbered(found)
}

// The number at a name of an object in memory; None where it has no such name. What is known of its
// blocks may grow.
fn find_in<B: Blocks>(
    alloc: Global,
    object: &mut Option<Object>,
    blocks: &mut B,
    inodes: u32,
    name: &[u8],
) -> Result<Option<u32>, BlockError>
    ensures reads { ReadsBlocks B.Blocks IsFault blocks.old blocks.new result }
    ensures same { IsSameOrNone object.old object.new }
    ensures knows { (disk : ℕ → List ℕ) → B.Shows blocks.old disk →
        StaysKnown inodes disk object.old object.new }
    ensures within { IfOk result (λ number. IfSome number (IsObjectNumber inodes)) }
    ensures found { (detail : Detail) (disk : ℕ → List ℕ) (settled : Inode) (node : Option Node) →
        B.Shows blocks.old disk → IsObjectOrNone detail disk inodes settled object.old node →
        IfOk result (λ number. number ≡ names_in node name.now) }
    ensures damaged { (detail : Detail) (disk : ℕ → List ℕ) (settled : Inode) (node : Option Node) →
        B.Shows blocks.old disk → IsErrOf result BlockError.Damaged →
        IsObjectOrNone detail disk inodes settled object.old node → ((o : Object) →
        object.old ≡ Some o → o.status.kind ≡ kinds.Directory → (i : ℕ) →
        IsSoundAt (B.count blocks.old) disk o.file.tree i) → ⊥ }
{
    let Some(object) = object else {
        return Ok(None);
    };
    if object.status.kind != Kind::Directory {
        return Ok(None);
    }
    dirs::find(alloc, &object.file, &mut object.known, blocks, inodes, name)
}

// A number that was looked for.
fn numbered(found: Result<Option<u32>, BlockError>) -> Result<Option<InodeNumber>, BlockError>
    ensures { result ≡ found }
{
    match found {
        Ok(Some(number)) => Ok(Some(InodeNumber::new(number))),
        Ok(None) => Ok(None),
        Err(error) => Err(error),
    }
}

/// The names of a directory, sorted by their bytes; none where it is no directory.
pub fn list<B: Blocks>(
    alloc: Global,
    inodes: &mut InodeFile,
    blocks: &mut B,
    directory: InodeNumber,
) -> Result<Names, BlockError>
    requires { IsInodeNumber inodes.old.geometry.inodes directory }
    ensures { LooksInto B.Blocks blocks.old blocks.new inodes.old inodes.new IsAny
        (λ v names. IsListingOfNames (entries v directory) names) result }
{
    load(alloc, inodes, blocks, directory)?;
    let count = inodes.geometry().inodes();
    let Some(object) = object(inodes, directory) else {
        return Ok(Names::new(Vec::new(alloc)));
    };
    if object.status.kind != Kind::Directory {
        return Ok(Names::new(Vec::new(alloc)));
    }
    objects_stand_in_their_grammar();
    dirs::list(alloc, &object.file, blocks, count)
}

/// The names of a directory, sorted by their bytes, each with the number that it stands for; none
/// where it is no directory.
pub fn list_numbered<B: Blocks>(
    alloc: Global,
    inodes: &mut InodeFile,
    blocks: &mut B,
    directory: InodeNumber,
) -> Result<Vec<NumberedName>, BlockError>
    requires { IsInodeNumber inodes.old.geometry.inodes directory }
    ensures { LooksInto B.Blocks blocks.old blocks.new inodes.old inodes.new
        (λ listed. IsListedWithin inodes.old.geometry.inodes listed.items)
        (λ v listed. IsNumberedListing (entries v directory) listed.items) result }
{
    load(alloc, inodes, blocks, directory)?;
    let count = inodes.geometry().inodes();
    let Some(object) = object(inodes, directory) else {
        return Ok(Vec::new(alloc));
    };
    if object.status.kind != Kind::Directory {
        return Ok(Vec::new(alloc));
    }
    objects_stand_in_their_grammar();
    dirs::list_numbered(alloc, &object.file, blocks, count)
}

/// The text of a link; none where it is no link.
pub fn text_at<B: Blocks>(
    alloc: Global,
    inodes: &mut InodeFile,
    blocks: &mut B,
    number: InodeNumber,
) -> Result<Vec<u8>, BlockError>
    requires { IsInodeNumber inodes.old.geometry.inodes number }
    ensures { LooksUp B.Blocks blocks.old blocks.new inodes.old inodes.new IsAny
        (λ v text. text.items ≡ text_in (v number)) result }
{
    load(alloc, inodes, blocks, number)?;
    let Some(object) = object(inodes, number) else {
        return Ok(Vec::new(alloc));
    };
    if object.status.kind != Kind::Link {
        return Ok(Vec::new(alloc));
    }
    objects_stand_in_their_grammar();
    all_bytes(alloc, blocks, &object.file)
}

// All bytes of a file.
fn all_bytes<B: Blocks>(alloc: Global, blocks: &mut B, file: &File) -> Result<Vec<u8>, BlockError>
    ensures reads { ReadsBlocks B.Blocks IsFault blocks.old blocks.new result }
    ensures bytes { (disk : ℕ → List ℕ) → B.Shows blocks.old disk →
        IfOk result (λ b. b.items ≡ bytes_of_file disk file.now) }
    ensures damaged { (disk : ℕ → List ℕ) → B.Shows blocks.old disk →
        IsErrOf result BlockError.Damaged →
        ((i : ℕ) → IsSoundAt (B.count blocks.old) disk file.now.tree i) → ⊥ }
{
    let mut bytes = vec![in alloc; 0; file.size() as usize]?;
    file.read_at(blocks, 0, &mut bytes)?;
    Ok(bytes)
}
