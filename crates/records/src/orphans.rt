//! Files that a change leaves with neither name nor descriptor, and the table of open files behind
//! a change.

ghost use Rattle.std.specs.Prelude.{◌≡◌, ◌+◌, ◌≤◌, ℕ, List, Option, None, IfSome, IsTrue, false};
ghost use Rattle.layout.specs.StateLimits.{limits_of};
ghost use Rattle.layout.specs.declared.inode.Inode.{Inode};
ghost use Rattle.model.specs.Records.{Change, Edit, applied, edited, work_by, work_of};
ghost use Rattle.model.specs.Room.{cost};
ghost use Rattle.model.specs.Volumes.{Volume, IsMounted, is_file_node, is_orphan, swept, swept_node, with_node};
ghost use Rattle.images.specs.Soundness.{Detail};
ghost use Rattle.inofile.specs.Inodes.{HasRoomFor, IsKnown};
ghost use Rattle.inofile.specs.Room.{memory_room};
ghost use Rattle.inofile.specs.Volumes.{IsVolumeIn, IsVolumeOf};
ghost use Rattle.descriptors.specs.Fits.{FitsVolume};
ghost use Rattle.descriptors.specs.Tables.{KeepsRoom, table_of};
ghost use Rattle.records.specs.Opened.{HasNumbers};
ghost use Rattle.records.specs.Plans.{DoesEdit, IsPlanReady};
ghost use Rattle.records.specs.Prepared.{Does, IsReady};
ghost use Rattle.records.specs.Room.{step_costs};
ghost use Rattle.records.specs.Steps.{IsAtHand};
ghost use Rattle.records.specs.Sweeping.{OpensFiles, StandsNoMore, with_object_of, without_file};

use crate::marks::commit_marks;
use crate::plans::{Plan, commit_plan, number_of};
use crate::prepared::Prepared;
use crate::steps::ObjectUpdate;
use descriptors::Descriptors;
use inofile::InodeFile;
use layout::{InodeNumber, Kind};

/// Puts a prepared change in force, and drops a file that it leaves with neither name nor
/// descriptor. The table then has the size and links of each open file as memory has them. It takes
/// no memory and can't fail.
pub fn commit_swept(inodes: &mut InodeFile, files: &mut Descriptors, prepared: Prepared)
    requires { IsReady inodes.old prepared }
    ensures geometry { inodes.new.geometry ≡ inodes.old.geometry }
    ensures opened { table_of files.new ≡ table_of files.old }
    ensures kept { KeepsRoom files.old files.new }
    ensures numbers { (n : ℕ) → HasNumbers n files.old → HasNumbers n files.new }
    ensures volume { (count : ℕ) (disk : ℕ → List ℕ) (settled : ℕ → Inode) (v : Volume)
        (change : Change) → IsVolumeOf count disk settled inodes.old v
        → Does disk settled inodes.old v prepared change → IsMounted v (table_of files.old)
        → IsVolumeOf count disk settled inodes.new
        (swept (table_of files.old) (applied change v)) }
    ensures room { (base : Volume) (count : ℕ) (disk : ℕ → List ℕ) (settled : ℕ → Inode) (v : Volume)
        (change : Change) → IsVolumeOf count disk settled inodes.old v
        → Does disk settled inodes.old v prepared change → IsMounted v (table_of files.old)
        → memory_room base inodes.new (swept (table_of files.old) (applied change v))
        ≤ memory_room base inodes.old v + cost (limits_of inodes.old.geometry).costs (work_of v change) }
    ensures fits { (count : ℕ) (disk : ℕ → List ℕ) (settled : ℕ → Inode) (v : Volume)
        (change : Change) → IsVolumeOf count disk settled inodes.old v
        → Does disk settled inodes.old v prepared change → IsMounted v (table_of files.old)
        → FitsVolume files.old v
        → IsMounted (swept (table_of files.old) (applied change v)) (table_of files.old)
        → FitsVolume files.new (swept (table_of files.old) (applied change v)) }
{
    let Prepared { plan, marks } = prepared;
    commit_plan_swept(inodes, files, plan);
    commit_marks(inodes, marks);
}

// The same of what becomes of objects, before any of them is touched.
fn commit_plan_swept(inodes: &mut InodeFile, files: &mut Descriptors, plan: Plan)
    requires { IsPlanReady inodes.old plan }
    ensures geometry { inodes.new.geometry ≡ inodes.old.geometry }
    ensures stays { (n : ℕ) → IsKnown inodes.old n → IsKnown inodes.new n }
    ensures keeps { (n : ℕ) → HasRoomFor inodes.old n → HasRoomFor inodes.new n }
    ensures opened { table_of files.new ≡ table_of files.old }
    ensures kept { KeepsRoom files.old files.new }
    ensures numbers { (n : ℕ) → HasNumbers n files.old → HasNumbers n files.new }
    ensures volume { (count : ℕ) (disk : ℕ → List ℕ) (settled : ℕ → Inode) (v : Volume)
        (edit : Edit) → IsVolumeOf count disk settled inodes.old v
        → DoesEdit disk settled inodes.old v plan edit → IsMounted v (table_of files.old)
        → IsVolumeOf count disk settled inodes.new (swept (table_of files.old) (edited edit v)) }
    ensures room { (base : Volume) (count : ℕ) (disk : ℕ → List ℕ) (settled : ℕ → Inode) (v : Volume)
        (edit : Edit) → IsVolumeOf count disk settled inodes.old v
        → DoesEdit disk settled inodes.old v plan edit → IsMounted v (table_of files.old)
        → memory_room base inodes.new (swept (table_of files.old) (edited edit v))
        ≤ memory_room base inodes.old v + cost step_costs (work_by v edit) }
    ensures fits { (count : ℕ) (disk : ℕ → List ℕ) (settled : ℕ → Inode) (v : Volume)
        (edit : Edit) → IsVolumeOf count disk settled inodes.old v
        → DoesEdit disk settled inodes.old v plan edit → IsMounted v (table_of files.old)
        → FitsVolume files.old v
        → IsMounted (swept (table_of files.old) (edited edit v)) (table_of files.old)
        → FitsVolume files.new (swept (table_of files.old) (edited edit v)) }
{
    let first = first_number(&plan.first);
    let next = number_of(&plan.next);
    let last = number_of(&plan.last);
    commit_plan(inodes, plan);
    drop_or_note(inodes, files, Some(first));
    drop_or_note(inodes, files, next);
    drop_or_note(inodes, files, last);
}

// The number of a step.
fn first_number(step: &ObjectUpdate) -> InodeNumber
    ensures { result ≡ step.now.number }
{
    step.number
}

/// Drops the file of a number where it has no name; any other object stays. It takes no memory and
/// can't fail.
pub fn drop_orphan(inodes: &mut InodeFile, number: InodeNumber)
    requires { IsAtHand inodes.old number }
    ensures geometry { inodes.new.geometry ≡ inodes.old.geometry }
    ensures stays { (n : ℕ) → IsKnown inodes.old n → IsKnown inodes.new n }
    ensures keeps { (n : ℕ) → HasRoomFor inodes.old n → HasRoomFor inodes.new n }
    ensures volume { (detail : Detail) (count : ℕ) (disk : ℕ → List ℕ) (settled : ℕ → Inode)
        (v : Volume) → IsVolumeIn detail count disk settled inodes.old v
        → IsVolumeIn detail count disk settled inodes.new
        (with_node number (swept_node false (v number)) v) }
    ensures room { (detail : Detail) (base : Volume) (count : ℕ) (disk : ℕ → List ℕ)
        (settled : ℕ → Inode) (v : Volume) → IsVolumeIn detail count disk settled inodes.old v
        → memory_room base inodes.new (with_node number (swept_node false (v number)) v)
        ≤ memory_room base inodes.old v }
{
    if is_orphan(inodes, number) {
        inodes.commit_set(number.get(), None);
    }
}

// Drops the file of a number, if there is one, where it has neither name nor descriptor; where it
// is open, the table then has its size and links as memory has them.
fn drop_or_note(inodes: &mut InodeFile, files: &mut Descriptors, number: Option<InodeNumber>)
    requires { IfSome number (IsAtHand inodes.old) }
    ensures geometry { inodes.new.geometry ≡ inodes.old.geometry }
    ensures stays { (n : ℕ) → IsKnown inodes.old n → IsKnown inodes.new n }
    ensures keeps { (n : ℕ) → HasRoomFor inodes.old n → HasRoomFor inodes.new n }
    ensures opened { table_of files.new ≡ table_of files.old }
    ensures kept { KeepsRoom files.old files.new }
    ensures numbers { (n : ℕ) → HasNumbers n files.old → HasNumbers n files.new }
    ensures volume { (base : Volume) (count : ℕ) (disk : ℕ → List ℕ) (settled : ℕ → Inode)
        (v : Volume) → IsVolumeOf count disk settled inodes.old v
        → StandsNoMore base count disk settled inodes.old v inodes.new
        (without_file (table_of files.old) number v) }
    ensures fits { (count : ℕ) (disk : ℕ → List ℕ) (settled : ℕ → Inode) (v w : Volume)
        → IsVolumeOf count disk settled inodes.old w → OpensFiles (table_of files.old) w
        → FitsVolume files.old v → FitsVolume files.new (with_object_of w number v) }
{
    if let Some(number) = number {
        if files.is_open(number.get()) {
            note_figures(inodes, files, number);
        } else {
            drop_orphan(inodes, number);
        }
    }
}

// Notes in the table the size and links that an open file has in memory.
fn note_figures(inodes: &InodeFile, files: &mut Descriptors, number: InodeNumber)
    requires { IsKnown inodes.now number }
    ensures opened { table_of files.new ≡ table_of files.old }
    ensures kept { KeepsRoom files.old files.new }
    ensures numbers { (n : ℕ) → HasNumbers n files.old → HasNumbers n files.new }
    ensures fits { (count : ℕ) (disk : ℕ → List ℕ) (settled : ℕ → Inode) (v w : Volume)
        → IsVolumeOf count disk settled inodes.now w → IsTrue (is_file_node (w number))
        → FitsVolume files.old v → FitsVolume files.new (with_node number (w number) v) }
{
    if let Some(object) = paths::object(inodes, number) {
        let n = number.get();
        files.resized(n, object.file.size());
        files.relinked(n, object.status.links);
    }
}

/// Whether a file in memory has no name.
pub fn is_orphan(inodes: &InodeFile, number: InodeNumber) -> bool
    requires { IsKnown inodes.now number }
    ensures { (detail : Detail) (count : ℕ) (disk : ℕ → List ℕ) (settled : ℕ → Inode)
        (v : Volume) → IsVolumeIn detail count disk settled inodes.now v → result ≡ is_orphan (v number) }
{
    let Some(object) = inodes.get(number.get()) else {
        return false;
    };
    match object.status.kind {
        Kind::File => object.status.links == 0,
        _ => false,
    }
}
