//! Records that change a file's bytes.

ghost use Rattle.std.specs.Prelude.{◌≡◌, ◌≤◌, ◌+◌, ◌↔◌, ℕ, List, Option, Some, IsTrue, IfErr, IfOk, IfSome, IsErrOf, OnOk, is_some, length};
ghost use Rattle.layout.specs.StateLimits.{limits_of};
ghost use Rattle.layout.specs.declared.inode.Inode.{Inode};
ghost use Rattle.model.specs.Attributes.{KeepsTime};
ghost use Rattle.model.specs.Edits.{resized, written};
ghost use Rattle.model.specs.Records.{stamped, with_file_bytes};
ghost use Rattle.model.specs.Volumes.{Node, is_file_node};
ghost use Rattle.model.specs.declared.limits.TheConstants.{TRANSFER_BYTES};
ghost use Rattle.buffers.specs.Reads.{ReadsBlocks};
ghost use Rattle.buffers.specs.Errors.{IsFault};
ghost use Rattle.images.specs.Edges.{EndsIn as IsEnd, IsPartlyWritten};
ghost use Rattle.images.specs.Replaying.{ReadsIn};
ghost use Rattle.images.specs.Soundness.{Detail};
ghost use Rattle.inode.specs.Files.{Fits};
ghost use Rattle.inode.specs.Room.{StoresMore, size_room, write_room};
ghost use Rattle.inode.specs.declared.object.Object.{Object};
ghost use Rattle.inofile.specs.Inodes.{loaded};
ghost use Rattle.inofile.specs.Objects.{EndsIn, IsObjectIn, IsObjectOrNone, IsSameObject, IsSameOrNone, StaysKnown};
ghost use Rattle.paths.specs.Numbers.{IsInodeNumber};
ghost use Rattle.paths.specs.Standing.{Looks};
ghost use Rattle.records.specs.Contents.{FitsFile, IsSoundIn, IsWholeIn, KeepsRecordBounds, KeepsRewriteBounds, LeavesPart, PlansFile, RewriteRoom, RewritesFile, RewritesIn, bytes_after, end_of, mode_after, rewrite_room, rewriting};
ghost use Rattle.records.specs.Failures.{read_outcome};
ghost use Rattle.records.specs.Planning.{DecidesEdit};
ghost use Rattle.records.specs.Preparing.{DecidesRecord};
ghost use Rattle.records.specs.Shown.{OnVolumesIn};
ghost use Rattle.records.specs.Room.{RaisesFile, StoresIn};
ghost use Rattle.records.specs.Steps.{TakesUpdate};

use crate::loading::{is_number, load_to_change};
use crate::marks::Marks;
use crate::plans::Plan;
use crate::prepared::with_marks;
use crate::steps::{ObjectUpdate, Update};
use crate::{Failure, Prepared};
use buffers::{BlockError, Blocks};
use inode::{ChangeError, File, FileUpdate, Object};
use inofile::{InodeFile, objects_stand_in_their_grammar};
use layout::{InodeNumber, Kind};
use model::{Errno, Limits, Mode, TRANSFER_BYTES, Time, Touch};
use std::alloc::Global;

/// What becomes of a file's bytes.
#[derive(Clone, Copy)]
pub(crate) enum Rewrite<'a> {
    /// These are written, from an offset on.
    Write { offset: u64, bytes: &'a [u8] },
    /// There are so many from then on.
    Truncate { size: u64 },
    /// The same, and the file has this mode.
    Set { mode: Mode, size: u64 },
}

impl Rewrite<'_> {
    // The mode that the file gets with its bytes, if it gets one.
    fn mode(&self) -> Option<Mode>
        ensures { result ≡ mode_after self.now }
    {
        match self {
            Rewrite::Write { .. } | Rewrite::Truncate { .. } => None,
            Rewrite::Set { mode, .. } => Some(*mode),
        }
    }
}

/// Prepares that a file's bytes are changed; or tells the obstacle: EFBIG where the number is of no
/// file, or the change goes past a limit.
pub(crate) fn prepare_bytes<B: Blocks>(
    alloc: Global,
    inodes: &mut InodeFile,
    blocks: &mut B,
    time: Option<Time>,
    number: InodeNumber,
    rewrite: &Rewrite<'_>,
) -> Result<Prepared, Failure>
    requires { KeepsTime (limits_of inodes.old.geometry).has_attributes time }
    ensures decides { DecidesRecord B.Blocks blocks.old blocks.new inodes.old inodes.new
        (stamped time (rewriting number rewrite.now)) result }
    ensures own { IfOk (read_outcome result) (λ r. IfErr r (λ e. e ≡ Errno.EFBIG)) }
    ensures bounds { IfOk result
        (λ _. KeepsRewriteBounds (limits_of inodes.old.geometry) rewrite.now) }
{
    let plan = plan_bytes(alloc, inodes, blocks, number, rewrite)?;
    let marks = Marks::of_object(time, Touch::Data, number);
    let prepared = with_marks(alloc, inodes, blocks, plan, marks)?;
    Ok(prepared)
}

// What becomes of the file.
fn plan_bytes<B: Blocks>(
    alloc: Global,
    inodes: &mut InodeFile,
    blocks: &mut B,
    number: InodeNumber,
    rewrite: &Rewrite<'_>,
) -> Result<Plan, Failure>
    ensures decides { DecidesEdit B.Blocks blocks.old blocks.new inodes.old inodes.new
        (rewriting number rewrite.now) result }
    ensures own { IfOk (read_outcome result) (λ r. IfErr r (λ e. e ≡ Errno.EFBIG)) }
    ensures bounds { IfOk result
        (λ _. KeepsRewriteBounds (limits_of inodes.old.geometry) rewrite.now) }
    ensures number { IfOk result (λ _. IsInodeNumber inodes.old.geometry.inodes number) }
{
    if !keeps_bounds(inodes.limits(), rewrite) {
        return Err(Failure::Refused(Errno::EFBIG));
    }
    if !is_number(inodes, number) {
        return Err(Failure::Refused(Errno::EFBIG));
    }
    let planned = plan_number(alloc, inodes, blocks, number, rewrite)?;
    let Some(change) = planned else {
        return Err(Failure::Refused(Errno::EFBIG));
    };
    Ok(Plan {
        first: ObjectUpdate {
            number,
            update: Update::Bytes(change, rewrite.mode()),
        },
        next: None,
        last: None,
    })
}

// Whether a change of a file's bytes keeps to the limits.
fn keeps_bounds(limits: Limits, rewrite: &Rewrite<'_>) -> bool
    ensures { IsTrue result ↔ KeepsRewriteBounds limits rewrite.now }
{
    match rewrite {
        Rewrite::Write { offset, bytes } => {
            !bytes.is_empty()
                && bytes.len() <= TRANSFER_BYTES
                && *offset <= limits.file_bytes
                && bytes.len() as u64 <= limits.file_bytes - *offset
        }
        Rewrite::Truncate { size } => *size <= limits.file_bytes,
        Rewrite::Set { mode, size } => {
            // The type of a mode holds it to its bits.
            let _ = mode.bits();
            *size <= limits.file_bytes
        }
    }
}

// The change of the file with a number, as it is known in memory from then on; None where it is
// none.
fn plan_number<B: Blocks>(
    alloc: Global,
    inodes: &mut InodeFile,
    blocks: &mut B,
    number: InodeNumber,
    rewrite: &Rewrite<'_>,
) -> Result<Option<FileUpdate>, BlockError>
    requires bounds { KeepsRewriteBounds (limits_of inodes.old.geometry) rewrite.now }
    requires number { IsInodeNumber inodes.old.geometry.inodes number }
    ensures looks { Looks B.Blocks IsFault blocks.old blocks.new inodes.old inodes.new result }
    ensures planned { (detail : Detail) → OnVolumesIn detail B.Blocks blocks.old inodes.old (λ disk settled v.
        IfOk result (λ w. (is_some w ≡ is_file_node (v number))
        × IfSome w (RewritesIn detail disk (bytes_after rewrite.now) (loaded inodes.new number)))) }
    ensures parts { (detail : Detail) → OnVolumesIn detail B.Blocks blocks.old inodes.old (λ disk settled v.
        IsTrue (is_file_node (v number)) → OnOk result (ReadsIn detail v (rewriting number rewrite.now))) }
    ensures damaged { (detail : Detail) → OnVolumesIn detail B.Blocks blocks.old inodes.old (λ disk settled v.
        ReadsIn detail v (rewriting number rewrite.now) → IsErrOf result BlockError.Damaged → ⊥) }
    ensures ready { IfOk result
        (λ w. IfSome w (λ x. TakesUpdate inodes.new number (Update.Bytes x (mode_after rewrite.now)))) }
    ensures stores { IfOk result
        (λ w. IfSome w (RewriteRoom rewrite.now (loaded inodes.new number))) }
{
    objects_stand_in_their_grammar();
    load_to_change(alloc, inodes, blocks, number)?;
    let n = number.get();
    let mut object = inodes.take(n);
    let planned = plan_object(alloc, &mut object, blocks, rewrite);
    inodes.put_back(n, object);
    planned
}

// The same of an object in memory.
fn plan_object<B: Blocks>(
    alloc: Global,
    object: &mut Option<Object>,
    blocks: &mut B,
    rewrite: &Rewrite<'_>,
) -> Result<Option<FileUpdate>, BlockError>
    requires { KeepsRecordBounds rewrite.now }
    ensures reads { ReadsBlocks B.Blocks IsFault blocks.old blocks.new result }
    ensures same { IsSameOrNone object.old object.new }
    ensures knows { (inodes : ℕ) (disk : ℕ → List ℕ) → StaysKnown inodes disk object.old object.new }
    ensures fits { IfOk result (λ w. IfSome w (FitsFile object.new)) }
    ensures stores { IfOk result (λ w. IfSome w (RewriteRoom rewrite.now object.new)) }
    ensures told { (detail : Detail) (disk : ℕ → List ℕ) (inodes : ℕ) (settled : Inode)
        (found : Option Node) → IsObjectOrNone detail disk inodes settled object.old found
        → IfOk result (λ w. is_some w ≡ is_file_node found) }
    ensures rewrites { (detail : Detail) (disk : ℕ → List ℕ) (inodes : ℕ) (settled : Inode)
        (found : Option Node) → B.Shows blocks.old disk
        → IsObjectOrNone detail disk inodes settled object.old found
        → IfOk result (λ w. IfSome w (RewritesIn detail disk (bytes_after rewrite.now) object.new)) }
    ensures whole { (disk : ℕ → List ℕ) (o : Object) → B.Shows blocks.old disk → object.old ≡ Some o
        → OnOk result (IsWholeIn disk rewrite.now o) }
    ensures damaged { (disk : ℕ → List ℕ) → B.Shows blocks.old disk
        → IsErrOf result BlockError.Damaged → ((o : Object) → object.old ≡ Some o
        → IsSoundIn (B.count blocks.old) disk rewrite.now o) → ⊥ }
{
    let Some(mut taken) = object.take() else {
        return Ok(None);
    };
    let planned = plan_taken(alloc, &mut taken, blocks, rewrite);
    *object = Some(taken);
    planned
}

// The same where there is one.
fn plan_taken<B: Blocks>(
    alloc: Global,
    object: &mut Object,
    blocks: &mut B,
    rewrite: &Rewrite<'_>,
) -> Result<Option<FileUpdate>, BlockError>
    requires { KeepsRecordBounds rewrite.now }
    ensures reads { ReadsBlocks B.Blocks IsFault blocks.old blocks.new result }
    ensures same { IsSameObject object.old object.new }
    ensures knows { (inodes : ℕ) (disk : ℕ → List ℕ) → StaysKnown inodes disk (Some object.old) (Some object.new) }
    ensures fits { IfOk result (λ w. IfSome w (Fits object.new.file.tree)) }
    ensures stores { IfOk result (λ w. IfSome w
        (λ x. StoresMore object.new.file x (rewrite_room object.new.file.size rewrite.now))) }
    ensures told { (detail : Detail) (disk : ℕ → List ℕ) (inodes : ℕ) (settled : Inode)
        (found : Option Node) → IsObjectIn detail disk inodes settled object.old found
        → IfOk result (λ w. is_some w ≡ is_file_node found) }
    ensures rewrites { (detail : Detail) (disk : ℕ → List ℕ) → B.Shows blocks.old disk
        → EndsIn detail disk object.old.file → IfOk result
        (λ w. IfSome w (RewritesFile detail disk (bytes_after rewrite.now) object.new.file)) }
    ensures whole { (disk : ℕ → List ℕ) → B.Shows blocks.old disk
        → OnOk result (IsWholeIn disk rewrite.now object.old) }
    ensures damaged { (disk : ℕ → List ℕ) → B.Shows blocks.old disk
        → IsErrOf result BlockError.Damaged
        → IsSoundIn (B.count blocks.old) disk rewrite.now object.old → ⊥ }
{
    match object.status.kind {
        Kind::File => {}
        _ => return Ok(None),
    }
    let change = plan(alloc, &mut object.file, blocks, rewrite)?;
    Ok(Some(change))
}

// The same of a file.
fn plan<B: Blocks>(
    alloc: Global,
    file: &mut File,
    blocks: &mut B,
    rewrite: &Rewrite<'_>,
) -> Result<FileUpdate, BlockError>
    requires { KeepsRecordBounds rewrite.now }
    ensures { PlansFile B.Blocks blocks.old blocks.new file.old file.new
        (bytes_after rewrite.now) (end_of rewrite.now) (rewrite_room file.old.size rewrite.now)
        (LeavesPart file.old.size rewrite.now) result }
{
    match rewrite {
        Rewrite::Write { offset, bytes } => plan_write(alloc, file, blocks, *offset, bytes),
        Rewrite::Truncate { size } => plan_truncate(alloc, file, blocks, *size),
        Rewrite::Set { size, .. } => plan_truncate(alloc, file, blocks, *size),
    }
}

// A write into a file.
fn plan_write<B: Blocks>(
    alloc: Global,
    file: &mut File,
    blocks: &mut B,
    offset: u64,
    bytes: &[u8],
) -> Result<FileUpdate, BlockError>
    requires some { 1 ≤ length bytes.now }
    requires few { length bytes.now ≤ TRANSFER_BYTES }
    ensures { PlansFile B.Blocks blocks.old blocks.new file.old file.new
        (written offset bytes.now) (offset + length bytes.now)
        (write_room file.old.size offset (length bytes.now)) (IsPartlyWritten offset (length bytes.now)) result }
{
    match file.prepare_write(alloc, blocks, offset, bytes) {
        Ok(change) => Ok(change),
        // The files of an image have its layout, and can be as great as its limits let them.
        Err(ChangeError::TooBig) => Err(BlockError::Damaged),
        Err(ChangeError::NoMemory) => Err(BlockError::NoMemory),
        Err(ChangeError::Device) => Err(BlockError::Device),
        Err(ChangeError::Damaged) => Err(BlockError::Damaged),
    }
}

// A new size of a file.
fn plan_truncate<B: Blocks>(
    alloc: Global,
    file: &mut File,
    blocks: &mut B,
    size: u64,
) -> Result<FileUpdate, BlockError>
    ensures { PlansFile B.Blocks blocks.old blocks.new file.old file.new
        (resized size) size (size_room file.old.size size)
        (IsEnd file.old.size size) result }
{
    match file.prepare_truncate(alloc, blocks, size) {
        Ok(change) => Ok(change),
        // The files of an image have its layout, and can be as great as its limits let them.
        Err(ChangeError::TooBig) => Err(BlockError::Damaged),
        Err(ChangeError::NoMemory) => Err(BlockError::NoMemory),
        Err(ChangeError::Device) => Err(BlockError::Device),
        Err(ChangeError::Damaged) => Err(BlockError::Damaged),
    }
}

/// Puts a change of a file's bytes in force.
pub(crate) fn commit_bytes(object: &mut Option<Object>, change: FileUpdate)
    requires { FitsFile object.old change }
    ensures room { (k : ℕ) → StoresIn object.old change k → RaisesFile object.old object.new k }
    ensures rewrites { (detail : Detail) (disk : ℕ → List ℕ) (inodes : ℕ) (settled : Inode)
        (found : Option Node) (f : List ℕ → List ℕ)
        → IsObjectOrNone detail disk inodes settled object.old found
        → IsTrue (is_file_node found) → RewritesIn detail disk f object.old change
        → IsObjectOrNone detail disk inodes settled object.new (with_file_bytes f found) }
{
    if let Some(object) = object {
        object.file.commit(change);
    }
}
