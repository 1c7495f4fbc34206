//! Giving a mode and a size over a path, by one record.

ghost use Rattle.std.specs.Prelude.{◌≡◌, ◌≤◌, ◌||◌, IfSome, IsTrue, None, Option, nat_abs};
ghost use Rattle.layout.specs.StateLimits.{limits_of};
ghost use Rattle.model.specs.Attributes.{KeepsTime};
ghost use Rattle.model.specs.Changing.{given_size_tests, sets, sets_both, sets_file, sets_mode, sets_object};
ghost use Rattle.model.specs.Paths.{first_refusal, parts as parts_of, text_tests_then};
ghost use Rattle.model.specs.Trees as trees;
ghost use Rattle.model.specs.Trees.{Object};
ghost use Rattle.model.specs.Volumes.{is_directory_node, is_file_node, object_of, tree_of};
ghost use Rattle.paths.specs.Numbers.{IsInodeNumber};
ghost use Rattle.paths.specs.Steps.{found_in};
ghost use Rattle.paths.specs.declared.lookup.Found.TheVariants as found;
ghost use Rattle.calls.specs.Changing.{ComesOrStays};
ghost use Rattle.calls.specs.Preparing.{PreparesAny};

use crate::leading::find_object;
use crate::preparing::attributes::{NewAttributes, change_attributes};
use crate::preparing::truncate::{refusal_of_size, truncate_file};
use crate::texts::refusal_of_path;
use crate::{Changing, OwnedChange};
use buffers::Blocks;
use inofile::InodeFile;
use layout::InodeNumber;
use model::{Errno, Limits, Mode, Settings, Time};
use paths::{Found, Parts};
use records::{Failure, kind_at, set_bytes};
use std::alloc::Global;

/// Gives what stands where a path leads, where a last symbolic link is followed, all that is given,
/// as far as nothing of it is seen yet: prepares one record, or tells that there is nothing to
/// change, or why the call is refused. NoMemory; Device where a read failed; Damaged where a block
/// on the way is outside its format.
pub fn set<B: Blocks>(
    alloc: Global,
    inodes: &mut InodeFile,
    blocks: &mut B,
    now: Option<Time>,
    path: &[u8],
    settings: Settings,
) -> Result<Option<Changing>, Failure>
    requires now { KeepsTime (limits_of inodes.old.geometry).has_attributes now }
    ensures { PreparesAny now B.Blocks blocks.old blocks.new inodes.old inodes.new
        (λ limits v table. ComesOrStays (sets limits now (tree_of v table) path.now settings) limits
        v table) result }
{
    let parts = Parts::of(alloc, path)?;
    if let Some(errno) = refusal_of_path(inodes, path, &parts) {
        return Err(Failure::Refused(errno));
    }
    if let Some(errno) = refusal_of_given_size(inodes.limits(), settings.size) {
        return Err(Failure::Refused(errno));
    }
    set_along(alloc, inodes, blocks, now, path, parts, settings)
}

// Why a file can't get a size, if one is given and it can't.
fn refusal_of_given_size(limits: Limits, size: Option<i64>) -> Option<Errno>
    ensures { result ≡ first_refusal (given_size_tests limits size) }
{
    match size {
        Some(size) => refusal_of_size(limits, size),
        None => None,
    }
}

// The same with a text and a size that passed their tests, and the text's parts.
fn set_along<B: Blocks>(
    alloc: Global,
    inodes: &mut InodeFile,
    blocks: &mut B,
    now: Option<Time>,
    path: &[u8],
    parts: Parts,
    settings: Settings,
) -> Result<Option<Changing>, Failure>
    requires now { KeepsTime (limits_of inodes.old.geometry).has_attributes now }
    requires parts { parts ≡ parts_of path.now }
    requires passed { first_refusal (text_tests_then (limits_of inodes.old.geometry)
        (given_size_tests (limits_of inodes.old.geometry) settings.size) path.now) ≡ None }
    requires within { IfSome settings.size (λ size. nat_abs size ≤ (limits_of
        inodes.old.geometry).file_bytes) }
    ensures { PreparesAny now B.Blocks blocks.old blocks.new inodes.old inodes.new
        (λ limits v table. ComesOrStays (sets limits now (tree_of v table) path.now settings) limits
        v table) result }
{
    let number = find_object(alloc, inodes, blocks, path, parts, true)?;
    set_object(alloc, inodes, blocks, now, number, settings)
}

// The same of the file or directory with a number; EISDIR where a directory is to get a size.
fn set_object<B: Blocks>(
    alloc: Global,
    inodes: &mut InodeFile,
    blocks: &mut B,
    now: Option<Time>,
    number: InodeNumber,
    settings: Settings,
) -> Result<Option<Changing>, Failure>
    requires now { KeepsTime (limits_of inodes.old.geometry).has_attributes now }
    requires number { IsInodeNumber inodes.old.geometry.inodes number }
    requires within { IfSome settings.size (λ size. nat_abs size ≤ (limits_of
        inodes.old.geometry).file_bytes) }
    ensures { PreparesAny now B.Blocks blocks.old blocks.new inodes.old inodes.new
        (λ limits v table r. (o : Object) → object_of number (v number) ≡ Some o
        → (found_in (v number) ≡ found.Link → ⊥)
        → ComesOrStays (sets_object now (tree_of v table) settings o) limits v table r) result }
{
    let found = kind_at(alloc, inodes, blocks, number)?;
    match found {
        Found::File => set_file(alloc, inodes, blocks, now, number, settings),
        _ => set_directory(alloc, inodes, blocks, now, number, settings),
    }
}

// The same of a directory.
fn set_directory<B: Blocks>(
    alloc: Global,
    inodes: &mut InodeFile,
    blocks: &mut B,
    now: Option<Time>,
    number: InodeNumber,
    settings: Settings,
) -> Result<Option<Changing>, Failure>
    requires now { KeepsTime (limits_of inodes.old.geometry).has_attributes now }
    requires number { IsInodeNumber inodes.old.geometry.inodes number }
    ensures { PreparesAny now B.Blocks blocks.old blocks.new inodes.old inodes.new
        (λ limits v table r. IsTrue (is_directory_node (v number))
        → ComesOrStays (sets_object now (tree_of v table) settings (trees.directory number)) limits
        v table r) result }
{
    if settings.size.is_some() {
        return Err(Failure::Refused(Errno::EISDIR));
    }
    set_mode(alloc, inodes, blocks, now, number, settings.mode)
}

// The same of a file.
fn set_file<B: Blocks>(
    alloc: Global,
    inodes: &mut InodeFile,
    blocks: &mut B,
    now: Option<Time>,
    number: InodeNumber,
    settings: Settings,
) -> Result<Option<Changing>, Failure>
    requires now { KeepsTime (limits_of inodes.old.geometry).has_attributes now }
    requires number { IsInodeNumber inodes.old.geometry.inodes number }
    requires within { IfSome settings.size (λ size. nat_abs size ≤ (limits_of
        inodes.old.geometry).file_bytes) }
    ensures { PreparesAny now B.Blocks blocks.old blocks.new inodes.old inodes.new
        (λ limits v table r. IsTrue (is_file_node (v number))
        → ComesOrStays (sets_file now (tree_of v table) number settings.mode settings.size) limits v
        table r) result }
{
    match settings.size {
        None => set_mode(alloc, inodes, blocks, now, number, settings.mode),
        Some(size) => set_size(alloc, inodes, blocks, now, number, settings.mode, size),
    }
}

// A file gets a size, and a mode where one is given.
fn set_size<B: Blocks>(
    alloc: Global,
    inodes: &mut InodeFile,
    blocks: &mut B,
    now: Option<Time>,
    number: InodeNumber,
    mode: Option<Mode>,
    size: i64,
) -> Result<Option<Changing>, Failure>
    requires now { KeepsTime (limits_of inodes.old.geometry).has_attributes now }
    requires number { IsInodeNumber inodes.old.geometry.inodes number }
    requires within { nat_abs size ≤ (limits_of inodes.old.geometry).file_bytes }
    ensures { PreparesAny now B.Blocks blocks.old blocks.new inodes.old inodes.new
        (λ limits v table r. IsTrue (is_file_node (v number))
        → ComesOrStays (sets_file now (tree_of v table) number mode (Some size)) limits v table r)
        result }
{
    match mode {
        None => truncate_file(alloc, inodes, blocks, now, number, size.unsigned_abs()),
        Some(mode) => set_both(
            alloc,
            inodes,
            blocks,
            now,
            number,
            mode,
            size.unsigned_abs(),
        ),
    }
}

// A file gets a mode and a size, by one record; the mode alone where the size changes nothing.
fn set_both<B: Blocks>(
    alloc: Global,
    inodes: &mut InodeFile,
    blocks: &mut B,
    now: Option<Time>,
    number: InodeNumber,
    mode: Mode,
    size: u64,
) -> Result<Option<Changing>, Failure>
    requires now { KeepsTime (limits_of inodes.old.geometry).has_attributes now }
    requires number { IsInodeNumber inodes.old.geometry.inodes number }
    requires within { size ≤ (limits_of inodes.old.geometry).file_bytes }
    ensures { PreparesAny now B.Blocks blocks.old blocks.new inodes.old inodes.new
        (λ limits v table r. IsTrue (is_file_node (v number))
        → ComesOrStays (sets_both now (tree_of v table) number mode size) limits v table r) result }
{
    let time = now;
    let planned = set_bytes(alloc, inodes, blocks, now, number, mode, size)?;
    match planned {
        Some(prepared) => Ok(Some(Changing {
            time,
            change: OwnedChange::SetFile { number, mode, size },
            prepared,
        })),
        None => set_mode(alloc, inodes, blocks, time, number, Some(mode)),
    }
}

/// Gives a mode to the file or directory with a number, where one is given, as far as nothing of it
/// is seen yet: prepares its record. NoMemory; Device where a read failed; Damaged where a block on
/// the way is outside its format.
pub fn set_mode<B: Blocks>(
    alloc: Global,
    inodes: &mut InodeFile,
    blocks: &mut B,
    now: Option<Time>,
    number: InodeNumber,
    mode: Option<Mode>,
) -> Result<Option<Changing>, Failure>
    requires now { KeepsTime (limits_of inodes.old.geometry).has_attributes now }
    requires number { IsInodeNumber inodes.old.geometry.inodes number }
    ensures { PreparesAny now B.Blocks blocks.old blocks.new inodes.old inodes.new
        (λ limits v table r. IsTrue (is_file_node (v number) || is_directory_node (v number))
        → ComesOrStays (sets_mode now (tree_of v table) number mode) limits v table r) result }
{
    let Some(mode) = mode else {
        return Ok(None);
    };
    let new = NewAttributes::Mode(mode);
    let changing = change_attributes(alloc, inodes, blocks, now, number, new)?;
    Ok(Some(changing))
}
