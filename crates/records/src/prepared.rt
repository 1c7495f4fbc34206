//! Records, prepared and committed.

ghost use Rattle.std.specs.Prelude.{◌≡◌, ◌+◌, ◌≤◌, ◌<◌, ℕ, List, Some, IfErr, IfOk, IsTrue};
ghost use Rattle.layout.specs.StateLimits.{limits_of};
ghost use Rattle.layout.specs.Record.{change_of, made_of};
ghost use Rattle.layout.specs.declared.inode.Inode.{Inode};
ghost use Rattle.model.specs.Attributes.{KeepsTime};
ghost use Rattle.model.specs.Paths.{IsName};
ghost use Rattle.model.specs.Records.{Change, Made, TakesName, applied, create, is_vacant, node_of, stamped, work_of};
ghost use Rattle.model.specs.Room.{cost};
ghost use Rattle.model.specs.Volumes.{Volume};
ghost use Rattle.model.specs.declared.errno.Errno.TheVariants.{DIRFULL};
ghost use Rattle.buffers.specs.Errors.{IsFault};
ghost use Rattle.images.specs.Soundness.{Detail};
ghost use Rattle.inofile.specs.Objects.{IsObjectIn};
ghost use Rattle.inofile.specs.Room.{memory_room};
ghost use Rattle.inofile.specs.Volumes.{IsVolumeIn};
ghost use Rattle.paths.specs.Standing.{Looks, StandsIn};
ghost use Rattle.records.specs.Failures.{read_outcome};
ghost use Rattle.records.specs.Marks.{AreMarkedNumbers};
ghost use Rattle.records.specs.Plans.{IsPlanReady};
ghost use Rattle.records.specs.Prepared.{AreAtHand, Completes, DoesIn, IsReady};
ghost use Rattle.records.specs.Preparing.{DecidesKnown, DecidesRecord, IsKnownVolume};
ghost use Rattle.records.specs.Room.{HasRoomOfNew};
ghost use Rattle.records.specs.Shown.{NeverDamagedIn, OnVolumesIn};

use crate::Failure;
use crate::attributes::prepare_attributes;
use crate::contents::{Rewrite, prepare_bytes};
use crate::links::prepare_link;
use crate::marks::{Marks, commit_marks, load_marked};
use crate::name_removal::prepare_remove_name;
use crate::plans::{Plan, commit_plan, plan_create, plan_new};
use crate::renaming::prepare_rename;
use buffers::{BlockError, Blocks};
use inode::Object;
use inofile::InodeFile;
use layout::{Edit, FIRST_NUMBER, InodeNumber, NewObject, Record};
use model::{Time, Touch};
use std::alloc::Global;

/// A record's change of the image in memory, with all memory taken and all blocks read: what
/// becomes of objects, and which of them are touched then.
#[derive(Drop)]
pub struct Prepared {
    pub(crate) plan: Plan,
    pub(crate) marks: Marks,
}

/// Prepares what a record says; or tells an obstacle to it. Nothing changes by it. NoMemory and
/// Device tell what is said of reading; Damaged that a block is out of its grammar.
pub fn prepare<B: Blocks>(
    alloc: Global,
    inodes: &mut InodeFile,
    blocks: &mut B,
    logged: &Record<'_>,
) -> Result<Prepared, Failure>
    requires { KeepsTime (limits_of inodes.old.geometry).has_attributes (change_of logged.now).time }
    ensures { DecidesKnown B.Blocks blocks.old blocks.new inodes.old inodes.new
        (change_of logged.now) result }
{
    let time = logged.time;
    match &logged.edit {
        Edit::Create {
            number,
            parent,
            object,
            name,
        } => prepare_create(alloc, inodes, blocks, time, *number, *parent, name, object),
        Edit::Write {
            number,
            offset,
            bytes,
        } => {
            let rewrite = Rewrite::Write {
                offset: *offset,
                bytes,
            };
            prepare_bytes(alloc, inodes, blocks, time, *number, &rewrite)
        }
        Edit::Truncate { number, size } => {
            let rewrite = Rewrite::Truncate { size: *size };
            prepare_bytes(alloc, inodes, blocks, time, *number, &rewrite)
        }
        Edit::Link {
            number,
            parent,
            name,
        } => prepare_link(alloc, inodes, blocks, time, *number, *parent, name),
        Edit::RemoveName { parent, name } => prepare_remove_name(
            alloc, inodes, blocks, time, *parent, name,
        ),
        Edit::Rename {
            parent,
            name,
            new_parent,
            new_name,
        } => prepare_rename(
            alloc,
            inodes,
            blocks,
            time,
            *parent,
            name,
            *new_parent,
            new_name,
        ),
        Edit::ChangeAttributes {
            number,
            permissions,
            modified,
        } => prepare_attributes(
            alloc,
            inodes,
            blocks,
            time,
            *number,
            *permissions,
            *modified,
        ),
        Edit::SetFile { number, mode, size } => {
            let rewrite = Rewrite::Set {
                mode: *mode,
                size: *size,
            };
            prepare_bytes(alloc, inodes, blocks, time, *number, &rewrite)
        }
    }
}

// Prepares that an object is made; or tells the first obstacle: DAMAGED where none may be made of
// the number, DIRFULL where the parent doesn't take the name.
#[allow(clippy::too_many_arguments)]
fn prepare_create<B: Blocks>(
    alloc: Global,
    inodes: &mut InodeFile,
    blocks: &mut B,
    time: Option<Time>,
    number: InodeNumber,
    parent: InodeNumber,
    name: &[u8],
    object: &NewObject<'_>,
) -> Result<Prepared, Failure>
    requires { KeepsTime (limits_of inodes.old.geometry).has_attributes time }
    ensures { DecidesRecord B.Blocks blocks.old blocks.new inodes.old inodes.new
        (stamped time (create number parent (made_of object.now) name.now)) result }
{
    let plan = plan_create(alloc, inodes, blocks, number, parent, name, object)?;
    let marks = Marks::of_entry(time, Touch::Data, Some(number), parent);
    let prepared = with_marks(alloc, inodes, blocks, plan, marks)?;
    Ok(prepared)
}

/// Prepares that this object is made of this number, which is vacant; or tells the obstacle:
/// DIRFULL where the parent doesn't take the name.
#[allow(clippy::too_many_arguments)]
pub fn prepare_new<B: Blocks>(
    alloc: Global,
    inodes: &mut InodeFile,
    blocks: &mut B,
    time: Option<Time>,
    number: InodeNumber,
    parent: InodeNumber,
    name: &[u8],
    object: Object,
) -> Result<Prepared, Failure>
    requires time { KeepsTime (limits_of inodes.old.geometry).has_attributes time }
    requires low { FIRST_NUMBER ≤ number }
    requires high { number < inodes.old.geometry.inodes }
    ensures looks { Looks B.Blocks IsFault blocks.old blocks.new inodes.old inodes.new (read_outcome result) }
    ensures full { IfOk (read_outcome result) (λ r. IfErr r (λ errno. errno ≡ DIRFULL)) }
    ensures ready { IfOk result (IsReady inodes.new) }
    ensures does { (detail : Detail) (disk : ℕ → List ℕ) (settled : ℕ → Inode) (v : Volume)
        (made : Made) → StandsIn detail B.Blocks disk settled v blocks.old inodes.old → IsTrue (is_vacant (v number))
        → ((k : ℕ) → IsObjectIn detail disk k (settled number) object (Some (node_of made)))
        → HasRoomOfNew object
        → IfOk result (λ x. DoesIn detail disk settled inodes.new v x (stamped time (create number parent made name.now))) }
    ensures named { IfOk result (λ _. IsName name.now) }
    ensures takes { (detail : Detail) → OnVolumesIn detail B.Blocks blocks.old inodes.old (λ disk settled v.
        IfOk result (λ _. TakesName (limits_of inodes.old.geometry) v parent name.now)) }
    ensures refused { (detail : Detail) → OnVolumesIn detail B.Blocks blocks.old inodes.old (λ disk settled v.
        IsKnownVolume detail (limits_of inodes.old.geometry) v
        → IfOk (read_outcome result) (λ r. IfErr r (λ _. TakesName (limits_of inodes.old.geometry) v parent name.now → ⊥))) }
    ensures damaged { (detail : Detail) → NeverDamagedIn detail B.Blocks blocks.old inodes.old (read_outcome result) }
{
    let plan = plan_new(alloc, inodes, blocks, number, parent, name, object)?;
    let marks = Marks::of_entry(time, Touch::Data, Some(number), parent);
    let prepared = with_marks(alloc, inodes, blocks, plan, marks)?;
    Ok(prepared)
}

/// What is planned, and what is touched beside it: that is at hand from then on.
pub(crate) fn with_marks<B: Blocks>(
    alloc: Global,
    inodes: &mut InodeFile,
    blocks: &mut B,
    plan: Plan,
    marks: Marks,
) -> Result<Prepared, BlockError>
    requires ready { IsPlanReady inodes.old plan }
    requires numbers { AreMarkedNumbers inodes.old.geometry.inodes marks }
    requires time { KeepsTime (limits_of inodes.old.geometry).has_attributes marks.time }
    ensures { Completes B.Blocks blocks.old blocks.new inodes.old inodes.new plan marks result }
{
    load_marked(alloc, inodes, blocks, &marks)?;
    Ok(Prepared { plan, marks })
}

/// Puts a prepared change in force. It takes no memory and can't fail. A consistency point stores
/// no more for it than it costs.
pub fn commit(inodes: &mut InodeFile, prepared: Prepared)
    requires { IsReady inodes.old prepared }
    ensures geometry { inodes.new.geometry ≡ inodes.old.geometry }
    ensures at_hand { AreAtHand inodes.new prepared }
    ensures volume { (detail : Detail) (count : ℕ) (disk : ℕ → List ℕ) (settled : ℕ → Inode)
        (v : Volume) (change : Change) → IsVolumeIn detail count disk settled inodes.old v
        → DoesIn detail disk settled inodes.old v prepared change
        → IsVolumeIn detail count disk settled inodes.new (applied change v) }
    ensures room { (detail : Detail) (base : Volume) (count : ℕ) (disk : ℕ → List ℕ)
        (settled : ℕ → Inode) (v : Volume) (change : Change)
        → IsVolumeIn detail count disk settled inodes.old v
        → DoesIn detail disk settled inodes.old v prepared change
        → memory_room base inodes.new (applied change v)
        ≤ memory_room base inodes.old v
        + cost (limits_of inodes.old.geometry).costs (work_of v change) }
{
    let Prepared { plan, marks } = prepared;
    commit_plan(inodes, plan);
    commit_marks(inodes, marks);
}
