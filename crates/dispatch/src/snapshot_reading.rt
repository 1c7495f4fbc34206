//! Calls on the snapshots that change nothing.

ghost use Rattle.std.specs.Prelude.{◌≡◌, IfErr, IfOk, IsErrOf, IsFalse, IsTrue};
ghost use Rattle.layout.specs.StateLimits.{limits_of};
ghost use Rattle.layout.specs.Root.{IsRoot};
ghost use Rattle.model.specs.Replies.{IsReplyTo};
ghost use Rattle.model.specs.Room.{nothing};
ghost use Rattle.model.specs.States.{State};
ghost use Rattle.model.specs.Steps.{is_reading_call, views};
ghost use Rattle.model.specs.declared.command.Command.{Command};
ghost use Rattle.buffers.specs.Reads.{ReadsBlocks};
ghost use Rattle.buffers.specs.Errors.{IsFault};
ghost use Rattle.records.specs.Failures.{read_outcome};
ghost use Rattle.calls.specs.Refusals.{is_path_refusal};
ghost use Rattle.dispatch.specs.Answering.{Answers, answered_reply};
ghost use Rattle.dispatch.specs.Serving.{TellsNoFault};
ghost use Rattle.system.specs.Views.{OnShown, OnSnapshots, ShowsSnapshot};

use crate::reading::{is_reading, read};
use crate::serving::answer;
use buffers::{BlockError, Blocks};
use calls::reading_forgets_open_files;
use layout::Root;
use model::{Bytes, Errno, PathCall, Reply, mounts_forget_open_files};
use records::Failure;
use snapshots::{find, names};
use station::Station;
use std::alloc::Global;
use system::{System, View, keep_view};

/// The refusal of a call that would change something on the tree of a snapshot: NOSNAP where no
/// snapshot has this name, and else EROFS.
fn refuse_within<B: Blocks>(blocks: &mut B, root: &Root, name: &[u8]) -> Result<Errno, BlockError>
    requires root { IsRoot root.now }
    requires size { B.count blocks.old ≡ root.now.geometry.blocks }
    ensures reads { ReadsBlocks B.Blocks IsFault blocks.old blocks.new result }
    ensures own { IfOk result (λ errno. IsTrue (is_path_refusal errno)) }
    ensures views { (call : PathCall) → IsFalse (is_reading_call call)
        → OnSnapshots B.Blocks blocks.old root.now (λ disk pairs. (s : State)
        → s.snapshots ≡ pairs → IfOk result (λ errno.
        views s name.now call (Reply.Refused errno) s nothing)) }
    ensures damaged { OnSnapshots B.Blocks blocks.old root.now (λ disk pairs.
        IsErrOf result BlockError.Damaged → ⊥) }
{
    let found = find(blocks, root, name)?;
    match found {
        Some(_) => Ok(Errno::EROFS),
        None => Ok(Errno::NOSNAP),
    }
}

/// What a call is answered on the tree of a snapshot under a root: NOSNAP where no snapshot has
/// this name, EROFS for a call that would change something, and else what it is answered on a tree
/// that has no open files. NoMemory; Device where a read failed; Damaged where a block on the way
/// is outside its format. The view that it was read of is kept.
fn read_within<B: Blocks>(
    alloc: Global,
    blocks: &mut B,
    root: &Root,
    kept: &mut Option<View>,
    name: &[u8],
    call: &PathCall<'_>,
) -> Result<Reply, Failure>
    requires root { IsRoot root.now }
    requires size { B.count blocks.old ≡ root.now.geometry.blocks }
    ensures reads { ReadsBlocks B.Blocks IsFault blocks.old blocks.new (read_outcome result) }
    ensures own { IfOk (read_outcome result) (λ r. IfErr r (λ e. IsTrue (is_path_refusal e))) }
    ensures no_fault { IfOk result TellsNoFault }
    ensures kind { IfOk result (IsReplyTo (Command.Path call.now)) }
    ensures shows { OnShown B.Blocks blocks.old root.now kept.old (λ disk pairs.
        ShowsSnapshot disk root.now.geometry pairs kept.new) }
    ensures views { OnShown B.Blocks blocks.old root.now kept.old (λ disk pairs. (s : State)
        → s.limits ≡ limits_of root.now.geometry → s.snapshots ≡ pairs → IfOk (read_outcome result)
        (λ r.
        views s name.now call.now (answered_reply r) s nothing)) }
    ensures damaged { OnShown B.Blocks blocks.old root.now kept.old (λ disk pairs.
        IsErrOf (read_outcome result) BlockError.Damaged → ⊥) }
{
    reading_forgets_open_files();
    mounts_forget_open_files();
    if !is_reading(call) {
        let errno = refuse_within(blocks, root, name)?;
        return Err(Failure::Refused(errno));
    }
    let is_there = keep_view(alloc, blocks, root, kept, name)?;
    if !is_there {
        return Err(Failure::Refused(Errno::NOSNAP));
    }
    match kept {
        Some(view) => read(alloc, &mut view.inodes, blocks, call),
        None => Err(Failure::Refused(Errno::NOSNAP)),
    }
}

/// Answers a call on the tree of the snapshot of a name.
pub(crate) fn look_within<S: Station>(
    system: &mut System<S>,
    name: &Bytes<'_>,
    call: &PathCall<'_>,
) -> Result<Reply, BlockError>
    ensures { Answers system.old system.new (Command.Within name.now call.now) result }
{
    let outcome = read_within(
        system.alloc,
        &mut system.blocks,
        &system.root,
        &mut system.view,
        name.as_bytes(),
        call,
    );
    answer(outcome)
}

/// Lists the names of the snapshots, oldest first.
pub(crate) fn list_snapshots<S: Station>(system: &mut System<S>) -> Result<Reply, BlockError>
    ensures { Answers system.old system.new Command.SnapList result }
{
    match names(system.alloc, &mut system.blocks, &system.root) {
        Ok(names) => Ok(Reply::Snaps(names)),
        Err(error) => Err(error),
    }
}
