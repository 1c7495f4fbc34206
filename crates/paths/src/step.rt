//! A step of a walk: what one part of a path leads to.

ghost use Rattle.std.specs.Prelude.{◌≡◌, ℕ, List, Bool};
ghost use Rattle.model.specs.Finding.{finds_nothing, turn_at};
ghost use Rattle.model.specs.Paths.{Name, is_empty};
ghost use Rattle.model.specs.Volumes.{Volume};
ghost use Rattle.paths.specs.Loads.{LooksUp};
ghost use Rattle.paths.specs.Numbers.{IsInodeNumber};
ghost use Rattle.paths.specs.Steps.{IsStepBy, IsStepWithin, halt_after, after_turn, found_in};

use crate::lookup::{Found, number_at, object_at};
use crate::text::{ITSELF, PARENT};
use buffers::{BlockError, Blocks};
use inofile::InodeFile;
use layout::InodeNumber;
use model::{Errno, NAME_BYTES};
use std::alloc::Global;

/// Where a walk goes by one part.
#[derive(Clone, Copy, Debug)]
pub(crate) enum WalkStep {
    /// Nowhere else, by `.`.
    Stays,
    /// To the parent, by `..`.
    Rises,
    /// Into a directory.
    Enters(InodeNumber),
    /// To where a link leads.
    Follows(InodeNumber),
    /// It ends at an object.
    EndsAt(InodeNumber),
    /// It ends where nothing has this name.
    FindsNothing,
    Refused(Errno),
}

/// The step by a part from a directory, where `is_last` tells whether parts are left behind it, and
/// `follow` whether a link that is the last one is followed.
pub(crate) fn walk_step<B: Blocks>(
    alloc: Global,
    inodes: &mut InodeFile,
    blocks: &mut B,
    directory: InodeNumber,
    part: &[u8],
    is_last: bool,
    follow: bool,
) -> Result<WalkStep, BlockError>
    requires { IsInodeNumber inodes.old.geometry.inodes directory }
    ensures { LooksUp B.Blocks blocks.old blocks.new inodes.old inodes.new
        (IsStepWithin inodes.old.geometry.inodes)
        (IsStepBy directory part.now is_last follow) result }
{
    if part == ITSELF {
        return Ok(WalkStep::Stays);
    }
    if part == PARENT {
        return Ok(WalkStep::Rises);
    }
    if part.len() > NAME_BYTES {
        return Ok(WalkStep::Refused(Errno::ENAMETOOLONG));
    }
    let Some(number) = number_at(alloc, inodes, blocks, directory, part)? else {
        return Ok(step_to_nothing(is_last));
    };
    let found = object_at(alloc, inodes, blocks, number)?;
    note_found(inodes, directory, part, number, found);
    Ok(step_to(number, found, is_last, follow))
}

// Remembers where a directory was found, as a hint.
fn note_found(
    inodes: &mut InodeFile,
    parent: InodeNumber,
    name: &[u8],
    number: InodeNumber,
    found: Found,
)
    ensures { inodes.new ≡ inodes.old }
{
    if found == Found::Directory {
        inodes.note_parent(number.get(), parent.get(), name);
    }
}

// The step by a part that leads to nothing.
fn step_to_nothing(is_last: bool) -> WalkStep
    ensures within { (inodes : ℕ) → IsStepWithin inodes result }
    ensures step { (v : Volume) (follow : Bool) (trail : List ℕ) (part : Name) (rest : List Name) →
        is_empty rest ≡ is_last → halt_after v follow trail part rest result
        ≡ after_turn v follow trail part rest finds_nothing }
{
    if is_last {
        WalkStep::FindsNothing
    } else {
        WalkStep::Refused(Errno::ENOENT)
    }
}

// The step by a part that leads to a number.
fn step_to(number: InodeNumber, found: Found, is_last: bool, follow: bool) -> WalkStep
    ensures within { (inodes : ℕ) → IsInodeNumber inodes number → IsStepWithin inodes result }
    ensures step { (v : Volume) (trail : List ℕ) (part : Name) (rest : List Name) →
        found ≡ found_in (v number) → is_empty rest ≡ is_last →
        halt_after v follow trail part rest result
        ≡ after_turn v follow trail part rest (turn_at number (v number)) }
{
    match found {
        Found::Directory if is_last => WalkStep::EndsAt(number),
        Found::Directory => WalkStep::Enters(number),
        Found::File if is_last => WalkStep::EndsAt(number),
        Found::File => WalkStep::Refused(Errno::ENOTDIR),
        Found::Link if is_last && !follow => WalkStep::EndsAt(number),
        Found::Link => WalkStep::Follows(number),
        Found::Nothing => WalkStep::Refused(Errno::DAMAGED),
    }
}
