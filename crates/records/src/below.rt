//! What lies below an object.

ghost use Rattle.std.specs.Prelude.{◌≡◌, ◌≢◌, ◌<◌, ◌↔◌, ◌⊎◌, ℕ, IfOk, IfSome, IsTrue, OnOk, length, map};
ghost use Rattle.std.specs.List.{Contains};
ghost use Rattle.layout.specs.StateLimits.{limits_of};
ghost use Rattle.model.specs.Records.{IsBelow};
ghost use Rattle.model.specs.Volumes.{entries};
ghost use Rattle.buffers.specs.Errors.{IsFault};
ghost use Rattle.images.specs.Soundness.{Detail};
ghost use Rattle.paths.specs.Loads.{OnlyLoads};
ghost use Rattle.paths.specs.Numbers.{AreInodeNumbers, IsInodeNumber};
ghost use Rattle.paths.specs.Standing.{Looks};
ghost use Rattle.records.specs.Below.{IsChild, IsMarkedNumber, MarksMore};
ghost use Rattle.records.specs.Looking.{Finds};
ghost use Rattle.records.specs.Planning.{IsKnownVolume};
ghost use Rattle.records.specs.Shown.{NeverDamagedIn, OnVolumesIn};

use crate::loading::{is_number, is_same};
use crate::name_removal::number_in;
use crate::renaming::is_directory_at;
use buffers::{BlockError, Blocks};
use dirs::NumberedName;
use inofile::{InodeFile, ParentHint};
use layout::{InodeNumber, ROOT_NUMBER};
use std::alloc::{AllocError, Global};

/// Whether a number is that of an object, or of one below it. Only a directory has anything below
/// it. What lies above the number tells it, where enough is remembered of that; else all that lies
/// below the directory is looked into.
pub(crate) fn is_below<B: Blocks>(
    alloc: Global,
    inodes: &mut InodeFile,
    blocks: &mut B,
    top: InodeNumber,
    number: InodeNumber,
) -> Result<bool, BlockError>
    requires top { IsInodeNumber inodes.old.geometry.inodes top }
    requires number { IsInodeNumber inodes.old.geometry.inodes number }
    ensures looks { Looks B.Blocks IsFault blocks.old blocks.new inodes.old inodes.new result }
    ensures below { (detail : Detail) → OnVolumesIn detail B.Blocks blocks.old inodes.old (λ disk settled v.
        IsKnownVolume detail (limits_of inodes.old.geometry) v
        → IfOk result (λ below. IsTrue below ↔ IsBelow (entries v) top number)) }
    ensures damaged { (detail : Detail) → NeverDamagedIn detail B.Blocks blocks.old inodes.old result }
{
    if is_same(top, number) {
        return Ok(true);
    }
    let is_directory = is_directory_at(alloc, inodes, blocks, top)?;
    if !is_directory {
        return Ok(false);
    }
    let climbed = climb(alloc, inodes, blocks, top, number)?;
    match climbed {
        Some(below) => Ok(below),
        None => look_below(alloc, inodes, blocks, top, number),
    }
}

// The same by what lies above a directory: from parent to parent, up to the object or to the root.
// None where a parent isn't known. In a tree that takes fewer steps than there are inodes.
fn climb<B: Blocks>(
    alloc: Global,
    inodes: &mut InodeFile,
    blocks: &mut B,
    top: InodeNumber,
    number: InodeNumber,
) -> Result<Option<bool>, BlockError>
    requires { IsInodeNumber inodes.old.geometry.inodes number }
    ensures { Finds B.Blocks blocks.old blocks.new inodes.old inodes.new
        (λ detail disk settled v told. IsKnownVolume detail (limits_of inodes.old.geometry) v
        → IfSome told (λ below. IsTrue below ↔ IsBelow (entries v) top number)) result }
{
    let is_directory = is_directory_at(alloc, inodes, blocks, number)?;
    if !is_directory {
        return Ok(None);
    }
    let mut here = number;
    for _step in 0..inodes.geometry().inodes() {
        if is_same(top, here) {
            return Ok(Some(true));
        }
        if here.get() == ROOT_NUMBER {
            return Ok(Some(false));
        }
        let above = parent_of(alloc, inodes, blocks, here)?;
        let Some(parent) = above else {
            return Ok(None);
        };
        here = parent;
    }
    Ok(None)
}

// A directory that has a name for another one, by what is remembered of that; None where nothing
// is, or where it isn't true.
fn parent_of<B: Blocks>(
    alloc: Global,
    inodes: &mut InodeFile,
    blocks: &mut B,
    directory: InodeNumber,
) -> Result<Option<InodeNumber>, BlockError>
    ensures parent { Finds B.Blocks blocks.old blocks.new inodes.old inodes.new
        (λ detail disk settled v parent. IfSome parent (λ p. IsChild (entries v) p directory)) result }
    ensures within { IfOk result (λ parent. IfSome parent (IsInodeNumber inodes.old.geometry.inodes)) }
{
    let hint = inodes.parent_hint(directory.get());
    let Some(ParentHint { parent, name }) = hint else {
        return Ok(None);
    };
    let parent = InodeNumber::new(parent);
    parent_at(alloc, inodes, blocks, directory, parent, name.as_slice())
}

// The parent, where it has this name for the child, as a hint says. A hint is no more than a place
// to look at: the parent may be none any more, and the name gone, or that of something else.
fn parent_at<B: Blocks>(
    alloc: Global,
    inodes: &mut InodeFile,
    blocks: &mut B,
    child: InodeNumber,
    parent: InodeNumber,
    name: &[u8],
) -> Result<Option<InodeNumber>, BlockError>
    ensures parent { Finds B.Blocks blocks.old blocks.new inodes.old inodes.new
        (λ detail disk settled v parent. IfSome parent (λ p. IsChild (entries v) p child)) result }
    ensures within { IfOk result (λ parent. IfSome parent (IsInodeNumber inodes.old.geometry.inodes)) }
{
    if !is_number(inodes, parent) {
        return Ok(None);
    }
    let found = number_in(alloc, inodes, blocks, parent, name)?;
    let Some(number) = found else {
        return Ok(None);
    };
    if !is_same(number, child) {
        return Ok(None);
    }
    Ok(Some(parent))
}

// The same of another number, by what lies below the object. Below one without names there is
// nothing, so nothing is marked then.
fn look_below<B: Blocks>(
    alloc: Global,
    inodes: &mut InodeFile,
    blocks: &mut B,
    top: InodeNumber,
    number: InodeNumber,
) -> Result<bool, BlockError>
    requires top { IsInodeNumber inodes.old.geometry.inodes top }
    requires number { number < inodes.old.geometry.inodes }
    requires other { top ≢ number }
    ensures looks { Looks B.Blocks IsFault blocks.old blocks.new inodes.old inodes.new result }
    ensures below { (detail : Detail) → OnVolumesIn detail B.Blocks blocks.old inodes.old (λ disk settled v.
        IfOk result (λ below. IsTrue below ↔ IsBelow (entries v) top number)) }
    ensures damaged { (detail : Detail) → NeverDamagedIn detail B.Blocks blocks.old inodes.old result }
{
    let children = children_of(alloc, inodes, blocks, top)?;
    if children.is_empty() {
        return Ok(false);
    }
    search(alloc, inodes, blocks, top, children, number)
}

// The same with the numbers that the object's names stand for, where all that lies below it is
// looked into.
fn search<B: Blocks>(
    alloc: Global,
    inodes: &mut InodeFile,
    blocks: &mut B,
    top: InodeNumber,
    children: Vec<InodeNumber>,
    number: InodeNumber,
) -> Result<bool, BlockError>
    requires top { top < inodes.old.geometry.inodes }
    requires children { AreInodeNumbers inodes.old.geometry.inodes children.items }
    requires number { number < inodes.old.geometry.inodes }
    ensures looks { Looks B.Blocks IsFault blocks.old blocks.new inodes.old inodes.new result }
    ensures below { (detail : Detail) → OnVolumesIn detail B.Blocks blocks.old inodes.old (λ disk settled v.
        ((n : ℕ) → Contains children.items n ↔ IsChild (entries v) top n)
        → IfOk result (λ below. IsTrue below ↔ IsBelow (entries v) top number)) }
    ensures damaged { (detail : Detail) → NeverDamagedIn detail B.Blocks blocks.old inodes.old result }
{
    let mut marks = one_marked(alloc, inodes.geometry().inodes(), top)?;
    let mut left = Vec::new(alloc);
    mark_all(&mut marks, &mut left, children.as_slice())?;
    while let Some(here) = left.pop() {
        let children = children_of(alloc, inodes, blocks, here)?;
        mark_all(&mut marks, &mut left, children.as_slice())?;
    }
    Ok(marks[number.get() as usize])
}

// Marks for so many numbers, of which just this one is marked.
fn one_marked(alloc: Global, count: u32, number: InodeNumber) -> Result<Vec<bool>, AllocError>
    requires { number < count }
    ensures length { IfOk result (λ marks. length marks.items ≡ count) }
    ensures only { IfOk result (λ marks. (n : ℕ) → IsMarkedNumber marks.items n ↔ (n ≡ number)) }
{
    let mut marks = vec![in alloc; false; count as usize]?;
    marks[number.get() as usize] = true;
    Ok(marks)
}

// The numbers at the names of a directory; none where it is no directory.
fn children_of<B: Blocks>(
    alloc: Global,
    inodes: &mut InodeFile,
    blocks: &mut B,
    number: InodeNumber,
) -> Result<Vec<InodeNumber>, BlockError>
    requires { IsInodeNumber inodes.old.geometry.inodes number }
    ensures looks { Looks B.Blocks IsFault blocks.old blocks.new inodes.old inodes.new result }
    ensures loads { OnlyLoads inodes.old inodes.new }
    ensures within { IfOk result (λ c. AreInodeNumbers inodes.old.geometry.inodes c.items) }
    ensures children { (detail : Detail) → OnVolumesIn detail B.Blocks blocks.old inodes.old (λ disk settled v.
        IfOk result (λ c. (n : ℕ) → Contains c.items n ↔ IsChild (entries v) number n)) }
    ensures damaged { (detail : Detail) → NeverDamagedIn detail B.Blocks blocks.old inodes.old result }
{
    let names = paths::list_numbered(alloc, inodes, blocks, number)?;
    let children = numbers_of(alloc, names.as_slice())?;
    Ok(children)
}

// The numbers that names stand for.
fn numbers_of(alloc: Global, names: &[NumberedName]) -> Result<Vec<InodeNumber>, AllocError>
    ensures { IfOk result (λ numbers. numbers.items ≡ map (λ n. n.number) names.now) }
{
    names.iter().map(|name| name.number).collect(alloc)
}

// Marks these numbers. Those that weren't marked yet are left to be looked into.
fn mark_all(
    marks: &mut Vec<bool>,
    left: &mut Vec<InodeNumber>,
    numbers: &[InodeNumber],
) -> Result<(), AllocError>
    requires { AreInodeNumbers (length marks.old.items) numbers.now }
    ensures marks { MarksMore marks.old.items marks.new.items left.old.items left.new.items }
    ensures all { OnOk result ((n : ℕ) → Contains numbers.now n → IsMarkedNumber marks.new.items n) }
    ensures only { (n : ℕ) → IsMarkedNumber marks.new.items n
        → IsMarkedNumber marks.old.items n ⊎ Contains numbers.now n }
    ensures within { (count : ℕ) → AreInodeNumbers count numbers.now → AreInodeNumbers count left.old.items
        → AreInodeNumbers count left.new.items }
{
    for number in numbers {
        mark(marks, left, *number)?;
    }
    Ok(())
}

// Marks a number. One that wasn't marked yet is left to be looked into.
fn mark(
    marks: &mut Vec<bool>,
    left: &mut Vec<InodeNumber>,
    number: InodeNumber,
) -> Result<(), AllocError>
    requires { number < length marks.old.items }
    ensures marks { MarksMore marks.old.items marks.new.items left.old.items left.new.items }
    ensures marked { OnOk result (IsMarkedNumber marks.new.items number) }
    ensures only { (n : ℕ) → IsMarkedNumber marks.new.items n
        → IsMarkedNumber marks.old.items n ⊎ (n ≡ number) }
    ensures within { (count : ℕ) → IsInodeNumber count number → AreInodeNumbers count left.old.items
        → AreInodeNumbers count left.new.items }
{
    let at = number.get() as usize;
    if marks[at] {
        return Ok(());
    }
    left.push(number)?;
    marks[at] = true;
    Ok(())
}
