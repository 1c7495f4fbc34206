//! Objects that a change touches.

ghost use Rattle.std.specs.Prelude.{◌≡◌, ◌≤◌, ◌+◌, ℕ, List, Option, Some, IfSome};
ghost use Rattle.layout.specs.StateLimits.{limits_of};
ghost use Rattle.layout.specs.Trees.{has_attributes};
ghost use Rattle.layout.specs.declared.inode.Inode.{Inode};
ghost use Rattle.model.specs.Attributes.{KeepsTime};
ghost use Rattle.model.specs.Records.{marked_nodes, touching_node, with_node_attributes};
ghost use Rattle.model.specs.Touches.{touched_at, touches_entry, touches_move, touches_object};
ghost use Rattle.model.specs.Volumes.{Node};
ghost use Rattle.images.specs.Soundness.{Detail};
ghost use Rattle.inofile.specs.Objects.{IsObjectOrNone};
ghost use Rattle.paths.specs.Numbers.{IsInodeNumber};
ghost use Rattle.records.specs.Marks.{AreMarkedAtHand, AreMarkedNumbers, BringsBeside, MarksVolume, mark_room, touch_room, touches_in};
ghost use Rattle.records.specs.Room.{RaisesFile};
ghost use Rattle.records.specs.Steps.{IsAtHand};

use buffers::{BlockError, Blocks};
use inode::Object;
use inofile::InodeFile;
use layout::InodeNumber;
use model::{Time, Touch};
use std::alloc::Global;

/// The objects that a change touches, and when. Where it has no time, it touches none; and a number
/// that nothing has stands for no object.
#[derive(Clone, Copy)]
pub(crate) struct Marks {
    pub(crate) time: Option<Time>,
    /// What the change is about, and what of it is touched.
    pub(crate) object: Option<InodeNumber>,
    pub(crate) touch: Touch,
    /// What a move takes a name of: its status is touched.
    pub(crate) replaced: Option<InodeNumber>,
    /// The directories whose names change: their data are touched.
    pub(crate) parent: Option<InodeNumber>,
    pub(crate) new_parent: Option<InodeNumber>,
}

impl Marks {
    /// An object alone.
    pub(crate) fn of_object(time: Option<Time>, touch: Touch, number: InodeNumber) -> Marks
        ensures time { result.time ≡ time }
        ensures touches { touches_in result ≡ touches_object touch number }
    {
        Marks {
            time,
            object: Some(number),
            touch,
            replaced: None,
            parent: None,
            new_parent: None,
        }
    }

    /// An object, if there is one, and the directory that gets or loses a name of it.
    pub(crate) fn of_entry(
        time: Option<Time>,
        touch: Touch,
        object: Option<InodeNumber>,
        parent: InodeNumber,
    ) -> Marks
        ensures time { result.time ≡ time }
        ensures touches { touches_in result ≡ touches_entry touch object (Some parent) }
    {
        Marks {
            time,
            object,
            touch,
            replaced: None,
            parent: Some(parent),
            new_parent: None,
        }
    }

    /// An object that moves from one directory to the other, and what it replaces there.
    pub(crate) fn of_move(
        time: Option<Time>,
        number: InodeNumber,
        replaced: Option<InodeNumber>,
        parent: InodeNumber,
        new_parent: InodeNumber,
    ) -> Marks
        ensures time { result.time ≡ time }
        ensures touches { touches_in result
            ≡ touches_move (Some number) replaced (Some parent) (Some new_parent) }
    {
        Marks {
            time,
            object: Some(number),
            touch: Touch::Status,
            replaced,
            parent: Some(parent),
            new_parent: Some(new_parent),
        }
    }
}

/// Takes the objects that a change touches into memory, with room for a change of them; none where
/// it has no time. NoMemory; Device where a read failed; Damaged where a block on the way is outside
/// its format.
pub(crate) fn load_marked<B: Blocks>(
    alloc: Global,
    inodes: &mut InodeFile,
    blocks: &mut B,
    marks: &Marks,
) -> Result<(), BlockError>
    requires { AreMarkedNumbers inodes.old.geometry.inodes marks.now }
    ensures { BringsBeside B.Blocks blocks.old blocks.new inodes.old inodes.new
        (λ s. AreMarkedAtHand s marks.now) result }
{
    if marks.time.is_none() {
        return Ok(());
    }
    load_some(alloc, inodes, blocks, marks.object)?;
    load_some(alloc, inodes, blocks, marks.replaced)?;
    load_some(alloc, inodes, blocks, marks.parent)?;
    load_some(alloc, inodes, blocks, marks.new_parent)?;
    Ok(())
}

// Takes an object into memory, with room for a change of it, if a number of one is given.
fn load_some<B: Blocks>(
    alloc: Global,
    inodes: &mut InodeFile,
    blocks: &mut B,
    number: Option<InodeNumber>,
) -> Result<(), BlockError>
    requires { IfSome number (IsInodeNumber inodes.old.geometry.inodes) }
    ensures { BringsBeside B.Blocks blocks.old blocks.new inodes.old inodes.new
        (λ s. IfSome number (IsAtHand s)) result }
{
    match number {
        Some(number) => load_beside(alloc, inodes, blocks, number),
        None => Ok(()),
    }
}

// The same of a number.
fn load_beside<B: Blocks>(
    alloc: Global,
    inodes: &mut InodeFile,
    blocks: &mut B,
    number: InodeNumber,
) -> Result<(), BlockError>
    requires { IsInodeNumber inodes.old.geometry.inodes number }
    ensures { BringsBeside B.Blocks blocks.old blocks.new inodes.old inodes.new
        (λ s. IsAtHand s number) result }
{
    let n = number.get();
    inodes.load(alloc, blocks, n)?;
    inodes.prepare_set(n)?;
    Ok(())
}

/// Touches the objects that a change touches; none where it has no time. It takes no memory and
/// can't fail.
pub(crate) fn commit_marks(inodes: &mut InodeFile, marks: Marks)
    requires at_hand { AreMarkedAtHand inodes.old marks }
    requires time { KeepsTime (limits_of inodes.old.geometry).has_attributes marks.time }
    ensures { MarksVolume inodes.old inodes.new
        (λ v. marked_nodes marks.time (touches_in marks) v) (touch_room marks.time (touches_in marks)) }
{
    let Marks {
        time,
        object,
        touch,
        replaced,
        parent,
        new_parent,
    } = marks;
    if let Some(time) = time {
        touch_some(inodes, &time, touch, object);
        touch_some(inodes, &time, Touch::Status, replaced);
        touch_some(inodes, &time, Touch::Data, parent);
        touch_some(inodes, &time, Touch::Data, new_parent);
    }
}

// Touches an object, if a number of one is given.
fn touch_some(inodes: &mut InodeFile, time: &Time, touch: Touch, number: Option<InodeNumber>)
    requires at_hand { IfSome number (IsAtHand inodes.old) }
    requires time { KeepsTime (limits_of inodes.old.geometry).has_attributes (Some time.now) }
    ensures { MarksVolume inodes.old inodes.new
        (λ v. touching_node time.now touch number v) (mark_room number) }
{
    if let Some(number) = number {
        touch_number(inodes, time, touch, number);
    }
}

// Touches the object with a number, if there is one.
fn touch_number(inodes: &mut InodeFile, time: &Time, touch: Touch, number: InodeNumber)
    requires at_hand { IsAtHand inodes.old number }
    requires time { KeepsTime (limits_of inodes.old.geometry).has_attributes (Some time.now) }
    ensures { MarksVolume inodes.old inodes.new
        (λ v. touching_node time.now touch (Some number) v) 2 }
{
    let n = number.get();
    let mut object = inodes.take(n);
    touch_object(&mut object, time, touch);
    inodes.commit_set(n, object);
}

// Touches an object of memory, if it is one.
fn touch_object(object: &mut Option<Object>, time: &Time, touch: Touch)
    ensures touches { (detail : Detail) (disk : ℕ → List ℕ) (inodes : ℕ) (settled : Inode)
        (found : Option Node) → KeepsTime (has_attributes settled.layout) (Some time.now)
        → IsObjectOrNone detail disk inodes settled object.old found
        → IsObjectOrNone detail disk inodes settled object.new
        (with_node_attributes (touched_at time.now touch) found) }
    ensures room { RaisesFile object.old object.new 0 }
{
    if let Some(object) = object {
        object.status.attributes = object.status.attributes.touched(*time, touch);
    }
}
