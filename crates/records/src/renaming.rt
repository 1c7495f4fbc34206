//! Records that move a name.

ghost use Rattle.std.specs.Prelude.{◌≡◌, ◌≢◌, ◌≤◌, ◌↔◌, Option, None, Some, IsTrue, IfErr, IfOk, IfSome, IfNone};
ghost use Rattle.layout.specs.StateLimits.{limits_of};
ghost use Rattle.layout.specs.Directory.{IsEntry, named_of};
ghost use Rattle.model.specs.Attributes.{KeepsTime};
ghost use Rattle.model.specs.Laws.{is_own};
ghost use Rattle.model.specs.Paths.{Name};
ghost use Rattle.model.specs.Records.{IsBelow, rename, stamped};
ghost use Rattle.model.specs.Volumes.{entries, is_directory_node};
ghost use Rattle.dirs.specs.Directory.{with_name};
ghost use Rattle.dirs.specs.Room.{piece_count};
ghost use Rattle.buffers.specs.Errors.{IsFault};
ghost use Rattle.images.specs.Soundness.{Detail};
ghost use Rattle.inofile.specs.Inodes.{loaded};
ghost use Rattle.paths.specs.Numbers.{IsInodeNumber};
ghost use Rattle.paths.specs.Standing.{Looks, StandsIn};
ghost use Rattle.records.specs.Entering.{Accepts, EditsIn, IsNameEdit, PreparesEdit};
ghost use Rattle.records.specs.Failures.{read_outcome};
ghost use Rattle.records.specs.Looking.{Finds};
ghost use Rattle.records.specs.Moving.{IsSomeAlone, Moves, MovesOver, ReplacesBy, edit_for};
ghost use Rattle.records.specs.Planning.{DecidesEditOn};
ghost use Rattle.records.specs.Preparing.{DecidesKnown, DecidesOn, IsKnownVolume};
ghost use Rattle.records.specs.Shown.{NeverDamagedIn, OnVolumesIn};
ghost use Rattle.records.specs.Steps.{IsAlone, IsAtHand, IsSomeAtHand, TakesUpdate};
ghost use Rattle.records.specs.declared.steps.Update.TheVariants as updates;

use crate::below::is_below;
use crate::directory_names::{edit_known, edit_parent};
use crate::kinds::kind_at;
use crate::loading::{is_number, is_same, load_to_change};
use crate::marks::Marks;
use crate::name_removal::{number_in, release};
use crate::naming::NameEdit;
use crate::plans::Plan;
use crate::prepared::with_marks;
use crate::steps::{ObjectUpdate, Update};
use crate::{Failure, Prepared};
use buffers::{BlockError, Blocks};
use dirs::Edit;
use inofile::InodeFile;
use layout::{Entry, InodeNumber, is_name};
use model::{Errno, Time};
use paths::Found;
use std::alloc::Global;

/// Prepares that what has a name gets the new one in its place, and that what had the new name has
/// it no more; or tells an obstacle: EINVAL where the object would come below itself, DIRFULL where
/// the new parent's number is none, or else as `prepare_move` does.
#[allow(clippy::too_many_arguments)]
pub(crate) fn prepare_rename<'n, B: Blocks>(
    alloc: Global,
    inodes: &mut InodeFile,
    blocks: &mut B,
    time: Option<Time>,
    parent: InodeNumber,
    name: &'n [u8],
    new_parent: InodeNumber,
    new_name: &'n [u8],
) -> Result<Prepared, Failure>
    requires { KeepsTime (limits_of inodes.old.geometry).has_attributes time }
    ensures { DecidesKnown B.Blocks blocks.old blocks.new inodes.old inodes.new
        (stamped time (rename parent name.now new_parent new_name.now)) result }
{
    if !is_number(inodes, parent) {
        return Err(Failure::Refused(Errno::ENOENT));
    }
    let found = number_in(alloc, inodes, blocks, parent, name)?;
    let Some(number) = found else {
        return Err(Failure::Refused(Errno::ENOENT));
    };
    if !is_number(inodes, new_parent) {
        return Err(Failure::Refused(Errno::DIRFULL));
    }
    let below = goes_below(alloc, inodes, blocks, parent, number, new_parent)?;
    if below {
        return Err(Failure::Refused(Errno::EINVAL));
    }
    let target = number_in(alloc, inodes, blocks, new_parent, new_name)?;
    prepare_move(
        alloc, inodes, blocks, time, parent, name, number, new_parent, new_name, target,
    )
}

/// Whether what a directory has a name for would come below itself in another one. In the same one
/// it can't, so nothing is looked into then. Else the directories above the new one are, where it is
/// remembered how it was reached; if not, all that lies below the object. NoMemory; Device where a
/// read failed; Damaged where a block on the way is outside its format.
pub fn goes_below<B: Blocks>(
    alloc: Global,
    inodes: &mut InodeFile,
    blocks: &mut B,
    parent: InodeNumber,
    number: InodeNumber,
    new_parent: InodeNumber,
) -> Result<bool, BlockError>
    requires number { IsInodeNumber inodes.old.geometry.inodes number }
    requires new_parent { IsInodeNumber inodes.old.geometry.inodes new_parent }
    ensures looks { Looks B.Blocks IsFault blocks.old blocks.new inodes.old inodes.new result }
    ensures below { (detail : Detail) (name : Name) → OnVolumesIn detail B.Blocks blocks.old inodes.old
        (λ disk settled v. IsKnownVolume detail (limits_of inodes.old.geometry) v
        → entries v parent name ≡ Some number
        → IfOk result (λ below. IsTrue below ↔ IsBelow (entries v) number new_parent)) }
    ensures damaged { (detail : Detail) → NeverDamagedIn detail B.Blocks blocks.old inodes.old result }
{
    if is_same(parent, new_parent) {
        return Ok(false);
    }
    is_below(alloc, inodes, blocks, number, new_parent)
}

/// Prepares the same where it is known what has both names, as the walks to them tell, and that the
/// new parent doesn't lie below the object: neither name is looked up; or tells the first obstacle:
/// ENAMETOOLONG where the new name is none, ENOENT where the name isn't there, EEXIST where the
/// object has the new name already, ENOTDIR where a directory would take the name of something
/// else, EISDIR the other way round, ENOTEMPTY where it would take that of a directory with names,
/// DIRFULL where the new parent takes no such name.
#[allow(clippy::too_many_arguments)]
pub fn prepare_move<'n, B: Blocks>(
    alloc: Global,
    inodes: &mut InodeFile,
    blocks: &mut B,
    time: Option<Time>,
    parent: InodeNumber,
    name: &'n [u8],
    number: InodeNumber,
    new_parent: InodeNumber,
    new_name: &'n [u8],
    target: Option<InodeNumber>,
) -> Result<Prepared, Failure>
    requires time { KeepsTime (limits_of inodes.old.geometry).has_attributes time }
    requires parent { IsInodeNumber inodes.old.geometry.inodes parent }
    requires number { IsInodeNumber inodes.old.geometry.inodes number }
    requires new_parent { IsInodeNumber inodes.old.geometry.inodes new_parent }
    requires target { IfSome target (IsInodeNumber inodes.old.geometry.inodes) }
    ensures { DecidesOn (λ detail disk settled v. StandsIn detail B.Blocks disk settled v blocks.old inodes.old
        × MovesOver v parent name.now number new_parent new_name.now target)
        (λ detail disk settled v. StandsIn detail B.Blocks disk settled v blocks.old inodes.old
        × MovesOver v parent name.now number new_parent new_name.now target
        × (IsBelow (entries v) number new_parent → ⊥))
        B.Blocks blocks.old blocks.new inodes.old inodes.new
        (stamped time (rename parent name.now new_parent new_name.now)) result }
{
    let replaced = target;
    let plan = plan_move(
        alloc, inodes, blocks, parent, name, number, new_parent, new_name, target,
    )?;
    let marks = Marks::of_move(time, number, replaced, parent, new_parent);
    let prepared = with_marks(alloc, inodes, blocks, plan, marks)?;
    Ok(prepared)
}

// What becomes of the objects.
#[allow(clippy::too_many_arguments)]
fn plan_move<'n, B: Blocks>(
    alloc: Global,
    inodes: &mut InodeFile,
    blocks: &mut B,
    parent: InodeNumber,
    name: &'n [u8],
    number: InodeNumber,
    new_parent: InodeNumber,
    new_name: &'n [u8],
    target: Option<InodeNumber>,
) -> Result<Plan, Failure>
    requires parent { IsInodeNumber inodes.old.geometry.inodes parent }
    requires number { IsInodeNumber inodes.old.geometry.inodes number }
    requires new_parent { IsInodeNumber inodes.old.geometry.inodes new_parent }
    requires target { IfSome target (IsInodeNumber inodes.old.geometry.inodes) }
    ensures { DecidesEditOn (λ detail disk settled v. StandsIn detail B.Blocks disk settled v blocks.old inodes.old
        × MovesOver v parent name.now number new_parent new_name.now target)
        (λ detail disk settled v. StandsIn detail B.Blocks disk settled v blocks.old inodes.old
        × MovesOver v parent name.now number new_parent new_name.now target
        × (IsBelow (entries v) number new_parent → ⊥))
        B.Blocks blocks.old blocks.new inodes.old inodes.new
        (rename parent name.now new_parent new_name.now) result }
{
    if !is_name(new_name) {
        return Err(Failure::Refused(Errno::ENAMETOOLONG));
    }
    let entry = Entry {
        number,
        name: new_name,
    };
    // What has a name has an ordinary number.
    if !entry.fits(inodes.geometry().inodes()) {
        return Err(Failure::Refused(Errno::ENOENT));
    }
    let Some(other) = target else {
        return place(
            alloc, inodes, blocks, parent, name, new_parent, &entry, None,
        );
    };
    let step = replace(alloc, inodes, blocks, number, other)?;
    place(
        alloc,
        inodes,
        blocks,
        parent,
        name,
        new_parent,
        &entry,
        Some(step),
    )
}

// What becomes of another object whose name an object takes; EEXIST where it is the same one,
// ENOTDIR or EISDIR where only one of them is a directory, ENOTEMPTY where it is a directory with
// names.
fn replace<B: Blocks>(
    alloc: Global,
    inodes: &mut InodeFile,
    blocks: &mut B,
    number: InodeNumber,
    other: InodeNumber,
) -> Result<ObjectUpdate, Failure>
    requires number { IsInodeNumber inodes.old.geometry.inodes number }
    requires other { IsInodeNumber inodes.old.geometry.inodes other }
    ensures replaced { Finds B.Blocks blocks.old blocks.new inodes.old inodes.new
        (λ detail disk settled v. ReplacesBy detail disk settled v number other) (read_outcome result) }
    ensures own { IfOk (read_outcome result) (λ r. IfErr r (λ errno. IsTrue (is_own errno))) }
    ensures ready { IfOk result (λ x. IsAlone x.update × IsAtHand inodes.new x.number) }
{
    if is_same(other, number) {
        return Err(Failure::Refused(Errno::EEXIST));
    }
    let is_directory = is_directory_at(alloc, inodes, blocks, number)?;
    let other_is = is_directory_at(alloc, inodes, blocks, other)?;
    if is_directory != other_is {
        if is_directory {
            return Err(Failure::Refused(Errno::ENOTDIR));
        }
        return Err(Failure::Refused(Errno::EISDIR));
    }
    let released = release(alloc, inodes, blocks, other)?;
    let Some(update) = released else {
        return Err(Failure::Refused(Errno::ENOTEMPTY));
    };
    Ok(ObjectUpdate {
        number: other,
        update,
    })
}

/// Whether a directory has this number.
pub fn is_directory_at<B: Blocks>(
    alloc: Global,
    inodes: &mut InodeFile,
    blocks: &mut B,
    number: InodeNumber,
) -> Result<bool, BlockError>
    requires { IsInodeNumber inodes.old.geometry.inodes number }
    ensures { Finds B.Blocks blocks.old blocks.new inodes.old inodes.new
        (λ detail disk settled v is. is ≡ is_directory_node (v number)) result }
{
    let found = kind_at(alloc, inodes, blocks, number)?;
    match found {
        Found::Directory => Ok(true),
        _ => Ok(false),
    }
}

// Gives an object the new name in place of the old one, where a step is known for what had the new
// name, if anything had it; DIRFULL where nothing had it, and the new parent, another directory,
// doesn't take it.
#[allow(clippy::too_many_arguments)]
fn place<'n, B: Blocks>(
    alloc: Global,
    inodes: &mut InodeFile,
    blocks: &mut B,
    parent: InodeNumber,
    name: &'n [u8],
    new_parent: InodeNumber,
    entry: &Entry<'n>,
    replaced: Option<ObjectUpdate>,
) -> Result<Plan, Failure>
    requires parent { IsInodeNumber inodes.old.geometry.inodes parent }
    requires new_parent { IsInodeNumber inodes.old.geometry.inodes new_parent }
    requires entry { IsEntry inodes.old.geometry.inodes (named_of entry.now) }
    requires at_hand { IsSomeAtHand inodes.old replaced }
    requires alone { IsSomeAlone replaced }
    ensures { DecidesEditOn (λ detail disk settled v. StandsIn detail B.Blocks disk settled v blocks.old inodes.old
        × Moves detail disk settled v parent name.now entry.now.number new_parent entry.now.name.now replaced)
        (λ detail disk settled v. StandsIn detail B.Blocks disk settled v blocks.old inodes.old
        × Moves detail disk settled v parent name.now entry.now.number new_parent entry.now.name.now replaced
        × (IsBelow (entries v) entry.now.number new_parent → ⊥))
        B.Blocks blocks.old blocks.new inodes.old inodes.new
        (rename parent name.now new_parent entry.now.name.now) result }
{
    if is_same(parent, new_parent) {
        let wanted = NameEdit::Move(
            name,
            Entry {
                number: entry.number,
                name: entry.name,
            },
        );
        let planned = edit_parent(alloc, inodes, blocks, new_parent, &wanted)?;
        let Some(edit) = planned else {
            return Err(Failure::Refused(Errno::DIRFULL));
        };
        return Ok(Plan {
            first: ObjectUpdate {
                number: new_parent,
                update: Update::Names(edit),
            },
            next: replaced,
            last: None,
        });
    }
    let wanted = edit_for(entry, &replaced);
    let both = edit_both(alloc, inodes, blocks, parent, name, new_parent, &wanted)?;
    let Some((added, removed)) = both else {
        return Err(Failure::Refused(Errno::DIRFULL));
    };
    Ok(Plan {
        first: ObjectUpdate {
            number: new_parent,
            update: Update::Names(added),
        },
        next: Some(ObjectUpdate {
            number: parent,
            update: Update::Names(removed),
        }),
        last: replaced,
    })
}

// How a directory gets a name from another one.
fn edit_for<'n>(entry: &Entry<'n>, replaced: &Option<ObjectUpdate>) -> NameEdit<'n>
    ensures { result ≡ edit_for entry.now replaced.now }
{
    let entry = Entry {
        number: entry.number,
        name: entry.name,
    };
    match replaced {
        Some(_step) => NameEdit::Replace(entry),
        None => NameEdit::Add(entry),
    }
}

// An edit of one directory, and a name less in another one. Both are known in memory before either
// is edited.
fn edit_both<B: Blocks>(
    alloc: Global,
    inodes: &mut InodeFile,
    blocks: &mut B,
    parent: InodeNumber,
    name: &[u8],
    new_parent: InodeNumber,
    wanted: &NameEdit<'_>,
) -> Result<Option<(Edit, Edit)>, BlockError>
    requires parent { IsInodeNumber inodes.old.geometry.inodes parent }
    requires new_parent { IsInodeNumber inodes.old.geometry.inodes new_parent }
    requires apart { parent ≢ new_parent }
    requires wanted { IsNameEdit inodes.old.geometry.inodes wanted.now }
    ensures both { Finds B.Blocks blocks.old blocks.new inodes.old inodes.new (λ detail disk settled v e.
        IfSome e (λ x.
        PreparesEdit disk (limits_of inodes.new.geometry) wanted.now (v new_parent)
        (loaded inodes.new new_parent) (Some x.0)
        × EditsIn disk inodes.new.geometry.inodes (with_name name.now None) (v parent)
        (loaded inodes.new parent) x.1
        × (piece_count x.1 ≤ 1))
        × IfNone e (Accepts (limits_of inodes.new.geometry) wanted.now (v new_parent)
        → IsTrue (is_directory_node (v parent)) → ⊥)) result }
    ensures ready { IfOk result (λ e. IfSome e (λ x.
        TakesUpdate inodes.new new_parent (updates.Names x.0)
        × TakesUpdate inodes.new parent (updates.Names x.1))) }
{
    load_to_change(alloc, inodes, blocks, parent)?;
    load_to_change(alloc, inodes, blocks, new_parent)?;
    let planned = edit_known(alloc, inodes, blocks, new_parent, wanted)?;
    let Some(added) = planned else {
        return Ok(None);
    };
    let less = NameEdit::Remove(name);
    let taken = edit_known(alloc, inodes, blocks, parent, &less)?;
    let Some(removed) = taken else {
        return Ok(None);
    };
    Ok(Some((added, removed)))
}
