//! What becomes of the objects of an edit: it is planned, and then put in force.

ghost use Rattle.std.specs.Prelude.{◌≡◌, ◌+◌, ◌≤◌, ◌<◌, ℕ, List, Some, IfErr, IfOk, IsTrue};
ghost use Rattle.std.specs.Option.{option_map};
ghost use Rattle.layout.specs.StateLimits.{limits_of};
ghost use Rattle.layout.specs.Record.{made_of};
ghost use Rattle.layout.specs.declared.inode.Inode.{Inode};
ghost use Rattle.model.specs.Paths.{IsName};
ghost use Rattle.model.specs.Records.{Edit, Made, TakesName, edited, create, is_vacant, node_of, work_by};
ghost use Rattle.model.specs.Room.{cost};
ghost use Rattle.model.specs.Volumes.{Volume};
ghost use Rattle.buffers.specs.Errors.{IsFault};
ghost use Rattle.images.specs.Soundness.{Detail};
ghost use Rattle.inofile.specs.Inodes.{HasRoomFor, IsKnown};
ghost use Rattle.inofile.specs.Objects.{IsObjectIn};
ghost use Rattle.inofile.specs.Room.{memory_room};
ghost use Rattle.inofile.specs.Volumes.{IsVolumeIn};
ghost use Rattle.paths.specs.Numbers.{IsInodeNumber};
ghost use Rattle.paths.specs.Standing.{Looks, StandsIn};
ghost use Rattle.records.specs.Failures.{read_outcome};
ghost use Rattle.records.specs.Planning.{DecidesEdit, IsKnownVolume};
ghost use Rattle.records.specs.Plans.{DoesEditIn, IsPlanAtHand, IsPlanReady};
ghost use Rattle.records.specs.Room.{HasRoomOfNew, step_costs};
ghost use Rattle.records.specs.Shown.{NeverDamagedIn, OnVolumesIn};

use crate::Failure;
use crate::directory_names::edit_parent;
use crate::loading::{is_number, load_to_change};
use crate::naming::NameEdit;
use crate::new_objects::{is_made, is_vacant, new_object};
use crate::steps::{ObjectUpdate, Update, commit_some, commit_update};
use buffers::Blocks;
use inode::Object;
use inofile::InodeFile;
use layout::{Entry, FIRST_NUMBER, InodeNumber, NewObject};
use model::Errno;
use std::alloc::Global;

/// What a record does to the image in memory, but for the times of objects, with all memory taken
/// and all blocks read: what becomes of one object, and then of two more, if need be.
#[derive(Drop)]
pub(crate) struct Plan {
    pub(crate) first: ObjectUpdate,
    pub(crate) next: Option<ObjectUpdate>,
    pub(crate) last: Option<ObjectUpdate>,
}

/// Plans that an object is made; or tells the first obstacle: DAMAGED where none may be made of the
/// number, DIRFULL where the parent doesn't take the name.
pub(crate) fn plan_create<B: Blocks>(
    alloc: Global,
    inodes: &mut InodeFile,
    blocks: &mut B,
    number: InodeNumber,
    parent: InodeNumber,
    name: &[u8],
    object: &NewObject<'_>,
) -> Result<Plan, Failure>
    ensures decides { DecidesEdit B.Blocks blocks.old blocks.new inodes.old inodes.new
        (create number parent (made_of object.now) name.now) result }
    ensures numbers { IfOk result (λ _. IsInodeNumber inodes.old.geometry.inodes number
        × IsInodeNumber inodes.old.geometry.inodes parent) }
{
    let n = number.get();
    if n < FIRST_NUMBER || n >= inodes.geometry().inodes() {
        return Err(Failure::Refused(Errno::DAMAGED));
    }
    let layout = inodes.geometry().layout();
    if !is_made(layout, object) {
        return Err(Failure::Refused(Errno::DAMAGED));
    }
    let vacant = is_vacant(alloc, inodes, blocks, number)?;
    if !vacant {
        return Err(Failure::Refused(Errno::DAMAGED));
    }
    let new = new_object(alloc, layout, blocks, object)?;
    plan_new(alloc, inodes, blocks, number, parent, name, new)
}

/// Plans that this object is made of this number, which is vacant; or tells the obstacle: DIRFULL
/// where the parent doesn't take the name.
pub(crate) fn plan_new<B: Blocks>(
    alloc: Global,
    inodes: &mut InodeFile,
    blocks: &mut B,
    number: InodeNumber,
    parent: InodeNumber,
    name: &[u8],
    object: Object,
) -> Result<Plan, Failure>
    requires low { FIRST_NUMBER ≤ number }
    requires high { number < inodes.old.geometry.inodes }
    ensures looks { Looks B.Blocks IsFault blocks.old blocks.new inodes.old inodes.new (read_outcome result) }
    ensures full { IfOk (read_outcome result) (λ r. IfErr r (λ errno. errno ≡ Errno.DIRFULL)) }
    ensures ready { IfOk result (IsPlanReady inodes.new) }
    ensures does { (detail : Detail) (disk : ℕ → List ℕ) (settled : ℕ → Inode) (v : Volume)
        (made : Made) → StandsIn detail B.Blocks disk settled v blocks.old inodes.old → IsTrue (is_vacant (v number))
        → ((k : ℕ) → IsObjectIn detail disk k (settled number) object (Some (node_of made)))
        → HasRoomOfNew object
        → IfOk result (λ x. DoesEditIn detail disk settled inodes.new v x (create number parent made name.now)) }
    ensures named { IfOk result (λ _. IsName name.now) }
    ensures parent { IfOk result (λ _. IsInodeNumber inodes.old.geometry.inodes parent) }
    ensures takes { (detail : Detail) → OnVolumesIn detail B.Blocks blocks.old inodes.old (λ disk settled v.
        IfOk result (λ _. TakesName (limits_of inodes.old.geometry) v parent name.now)) }
    ensures refused { (detail : Detail) → OnVolumesIn detail B.Blocks blocks.old inodes.old (λ disk settled v.
        IsKnownVolume detail (limits_of inodes.old.geometry) v
        → IfOk (read_outcome result) (λ r. IfErr r (λ _. TakesName (limits_of inodes.old.geometry) v parent name.now → ⊥))) }
    ensures damaged { (detail : Detail) → NeverDamagedIn detail B.Blocks blocks.old inodes.old (read_outcome result) }
{
    let entry = Entry { number, name };
    if !entry.fits(inodes.geometry().inodes()) {
        return Err(Failure::Refused(Errno::DIRFULL));
    }
    if !is_number(inodes, parent) {
        return Err(Failure::Refused(Errno::DIRFULL));
    }
    load_to_change(alloc, inodes, blocks, number)?;
    let planned = edit_parent(alloc, inodes, blocks, parent, &NameEdit::Add(entry))?;
    let Some(edit) = planned else {
        return Err(Failure::Refused(Errno::DIRFULL));
    };
    Ok(Plan {
        first: ObjectUpdate {
            number: parent,
            update: Update::Names(edit),
        },
        next: Some(ObjectUpdate {
            number,
            update: Update::Set(Some(object)),
        }),
        last: None,
    })
}

/// Puts a plan in force. It takes no memory and can't fail. A consistency point stores no more for
/// it than its steps cost.
pub(crate) fn commit_plan(inodes: &mut InodeFile, plan: Plan)
    requires { IsPlanReady inodes.old plan }
    ensures geometry { inodes.new.geometry ≡ inodes.old.geometry }
    ensures stays { (n : ℕ) → IsKnown inodes.old n → IsKnown inodes.new n }
    ensures keeps { (n : ℕ) → HasRoomFor inodes.old n → HasRoomFor inodes.new n }
    ensures at_hand { IsPlanAtHand inodes.new plan }
    ensures volume { (detail : Detail) (count : ℕ) (disk : ℕ → List ℕ) (settled : ℕ → Inode)
        (v : Volume) (edit : Edit) → IsVolumeIn detail count disk settled inodes.old v
        → DoesEditIn detail disk settled inodes.old v plan edit
        → IsVolumeIn detail count disk settled inodes.new (edited edit v) }
    ensures room { (detail : Detail) (base : Volume) (count : ℕ) (disk : ℕ → List ℕ)
        (settled : ℕ → Inode) (v : Volume) (edit : Edit)
        → IsVolumeIn detail count disk settled inodes.old v
        → DoesEditIn detail disk settled inodes.old v plan edit
        → memory_room base inodes.new (edited edit v)
        ≤ memory_room base inodes.old v + cost step_costs (work_by v edit) }
{
    let Plan { first, next, last } = plan;
    commit_update(inodes, first);
    commit_some(inodes, next);
    commit_some(inodes, last);
}

/// The number of a step, if there is one.
pub(crate) fn number_of(step: &Option<ObjectUpdate>) -> Option<InodeNumber>
    ensures { result ≡ option_map (λ step. step.number) step.now }
{
    match step {
        Some(step) => Some(step.number),
        None => None,
    }
}
