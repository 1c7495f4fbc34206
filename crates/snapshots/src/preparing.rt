//! The tests of a command that changes the snapshots, and where its snapshot stands or goes.

ghost use Rattle.std.specs.Prelude.{◌≡◌, ◌≢◌, ℕ, List, IfErr, IfOk, IsErrOf, MatchResult};
ghost use Rattle.layout.specs.StateLimits.{limits_of};
ghost use Rattle.layout.specs.Root.{IsRoot};
ghost use Rattle.model.specs.Paths.{Name};
ghost use Rattle.model.specs.States.{State};
ghost use Rattle.model.specs.Trees.{Tree};
ghost use Rattle.model.specs.Volumes.{Volume};
ghost use Rattle.buffers.specs.Reads.{ReadsBlocks};
ghost use Rattle.buffers.specs.Errors.{IsFault};
ghost use Rattle.images.specs.Roots.{whole};
ghost use Rattle.images.specs.States.{Holds};
ghost use Rattle.snapshots.specs.Prepared.{FitsPrepared, IsPreparedOn, Refuses, TellsOpen, command_of, command_prepared};

use crate::finding::{FoundSnapshot, find};
use crate::taking::{Taking, prepare_take};
use buffers::{BlockError, Blocks};
use layout::Root;
use model::Errno;

/// What is asked of the snapshots, by the name of one.
#[derive(Clone, Copy, Debug)]
pub enum SnapshotRequest<'a> {
    /// `snap take NAME`: one is to be taken.
    Take { name: &'a [u8] },
    /// `snap delete NAME`
    Delete { name: &'a [u8] },
    /// `snap restore NAME`: the tree is to become that of one.
    Restore { name: &'a [u8] },
}

/// A request whose tests are passed.
#[derive(Clone, Copy, Debug)]
pub enum PreparedSnapshot<'a> {
    /// The snapshot is to go there.
    Take {
        name: &'a [u8],
        taking: Taking,
    },
    /// This one is to go.
    Delete {
        name: &'a [u8],
        found: FoundSnapshot,
    },
    /// The tree is to become that of this one.
    Restore {
        name: &'a [u8],
        found: FoundSnapshot,
    },
}

/// Makes the tests of a request under a root, in their order, when it is told whether a file is
/// open; else the first refusal: of BADNAME, SNAPEXISTS and SNAPFULL for `snap take`, NOSNAP for
/// `snap delete`, and of NOSNAP and EBUSY for `snap restore`. It reads the root blocks of the
/// snapshots, and nothing else; an error comes as in `find`.
pub fn prepare_snapshot<'a, B: Blocks>(
    blocks: &mut B,
    root: &Root,
    request: &SnapshotRequest<'a>,
    has_open: bool,
) -> Result<Result<PreparedSnapshot<'a>, Errno>, BlockError>
    requires root { IsRoot root.now }
    requires size { B.count blocks.old ≡ root.now.geometry.blocks }
    ensures reads { ReadsBlocks B.Blocks IsFault blocks.old blocks.new result }
    ensures own { IfOk result (λ tested. IfErr tested (λ errno. (errno ≢ Errno.EIO)
        × (errno ≢ Errno.FAILED))) }
    ensures same { IfOk result (λ tested. IfOk tested (λ p. command_prepared p
        ≡ command_of request.now)) }
    ensures fits { IfOk result (λ tested. IfOk tested FitsPrepared) }
    ensures tests { (disk : ℕ → List ℕ) → B.Shows blocks.old disk → (v : Volume)
        (pairs : List (Name × Tree)) → Holds root.now (whole disk root.now) v pairs → (s : State)
        → s.limits ≡ limits_of root.now.geometry → s.snapshots ≡ pairs → TellsOpen has_open s
        → IfOk result (λ tested. MatchResult tested (IsPreparedOn root.now disk s)
        (Refuses s (command_of request.now))) }
    ensures damaged { (disk : ℕ → List ℕ) → B.Shows blocks.old disk → (v : Volume)
        (pairs : List (Name × Tree)) → Holds root.now (whole disk root.now) v pairs
        → IsErrOf result BlockError.Damaged → ⊥ }
{
    match *request {
        SnapshotRequest::Take { name } => match prepare_take(blocks, root, name)? {
            Ok(taking) => Ok(Ok(PreparedSnapshot::Take { name, taking })),
            Err(errno) => Ok(Err(errno)),
        },
        SnapshotRequest::Delete { name } => match find(blocks, root, name)? {
            Some(found) => Ok(Ok(PreparedSnapshot::Delete { name, found })),
            None => Ok(Err(Errno::NOSNAP)),
        },
        SnapshotRequest::Restore { name } => match find(blocks, root, name)? {
            Some(_) if has_open => Ok(Err(Errno::EBUSY)),
            Some(found) => Ok(Ok(PreparedSnapshot::Restore { name, found })),
            None => Ok(Err(Errno::NOSNAP)),
        },
    }
}
