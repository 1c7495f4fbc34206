//! What `snap take` tests, and where it puts a new snapshot.

ghost use Rattle.std.specs.Prelude.{◌≡◌, ◌≢◌, ◌<◌, ◌≤◌, ◌^◌, ℕ, List, length, IfOk, IfErr, IfSome, IfNone, IsErrOf, MatchResult, None, not};
ghost use Rattle.std.specs.List.{list_any};
ghost use Rattle.layout.specs.StateLimits.{limits_of};
ghost use Rattle.layout.specs.Root.{IsRoot};
ghost use Rattle.layout.specs.SnapRoot.{Snapshot};
ghost use Rattle.layout.specs.declared.pointer.Pointer.{Pointer};
ghost use Rattle.layout.specs.declared.version.TheConstants.{SNAPSHOT_SLOTS};
ghost use Rattle.model.specs.Paths.{Name, first_refusal};
ghost use Rattle.model.specs.States.{State};
ghost use Rattle.model.specs.Steps.{is_bad_name, is_name_byte, take_tests};
ghost use Rattle.model.specs.Trees.{Tree};
ghost use Rattle.model.specs.Volumes.{Volume};
ghost use Rattle.model.specs.declared.limits.TheConstants.{SNAPSHOT_NAME_BYTES};
ghost use Rattle.buffers.specs.Reads.{ReadsBlocks};
ghost use Rattle.buffers.specs.Errors.{IsFault};
ghost use Rattle.images.specs.Roots.{slot, whole};
ghost use Rattle.images.specs.Snapshots.{HasSnapshot};
ghost use Rattle.images.specs.SnapshotSteps.{IsSlotNumber};
ghost use Rattle.images.specs.States.{Holds};
ghost use Rattle.snapshots.specs.Taken.{HasNewestOrder, MayTake, RefusesTake};

use crate::finding::find;
use crate::listing::above_at;
use buffers::{BlockError, Blocks};
use layout::{Pointer, Root, SNAPSHOT_SLOTS};
use model::{Errno, SNAPSHOT_NAME_BYTES};

/// Where a snapshot that is taken goes.
#[derive(Clone, Copy, Debug)]
pub struct Taking {
    /// The least free slot: 1 to 30.
    pub slot: u32,
    /// 1 where no snapshot is kept, else the greatest order number and 1.
    pub order: u64,
}

/// Whether a byte may stand in a snapshot's name.
fn may_stand(byte: u8) -> bool
    ensures { result ≡ is_name_byte byte }
{
    byte.is_ascii_alphanumeric() || byte == b'-' || byte == b'.' || byte == b'_'
}

/// Whether one of these bytes may stand in no snapshot's name.
fn has_other(name: &[u8]) -> bool
    ensures { result ≡ list_any (λ b. not (is_name_byte b)) name.now }
{
    name.iter().any(|byte| !may_stand(*byte))
}

/// Whether no snapshot may have this name.
fn is_bad(name: &[u8]) -> bool
    ensures { result ≡ is_bad_name name.now }
{
    name.is_empty() || name.len() > SNAPSHOT_NAME_BYTES || has_other(name)
}

/// The least slot of a root that is free.
fn free_slot(root: &Root) -> Option<u32>
    requires { IsRoot root.now }
    ensures some { IfSome result IsSlotNumber }
    ensures free { IfSome result (λ k. slot root.now k ≡ Pointer.Hole) }
    ensures least { IfSome result (λ s.
        (k : ℕ) → 1 ≤ k → k < s → slot root.now k ≢ Pointer.Hole) }
    ensures none { IfNone result ((k : ℕ) → 1 ≤ k → k ≤ SNAPSHOT_SLOTS
        → slot root.now k ≢ Pointer.Hole) }
{
    for k in 0..SNAPSHOT_SLOTS {
        if let Pointer::Hole = root.snapshots[k] {
            return Some(k as u32 + 1);
        }
    }
    None
}

/// The greatest order number of a root's snapshots; 0 where there is none.
fn newest<B: Blocks>(blocks: &mut B, root: &Root) -> Result<u64, BlockError>
    requires root { IsRoot root.now }
    requires size { B.count blocks.old ≡ root.now.geometry.blocks }
    ensures reads { ReadsBlocks B.Blocks IsFault blocks.old blocks.new result }
    ensures is { (disk : ℕ → List ℕ) → B.Shows blocks.old disk
        → IfOk result (HasNewestOrder disk root.now SNAPSHOT_SLOTS) }
    ensures last { IfOk result (λ n. n < 2 ^ 62) }
    ensures damaged { (disk : ℕ → List ℕ) → B.Shows blocks.old disk → (v : Volume)
        (pairs : List (Name × Tree)) → Holds root.now (whole disk root.now) v pairs
        → IsErrOf result BlockError.Damaged → ⊥ }
{
    let mut last = 0;
    for k in 0..SNAPSHOT_SLOTS {
        if let Some(next) = above_at(blocks, root.geometry, root.snapshots[k], last)? {
            last = next.order;
        }
    }
    Ok(last)
}

/// Tests `snap take` of a name under a root, and tells where the snapshot goes: else the first
/// refusal, of BADNAME, SNAPEXISTS and SNAPFULL. It reads the root blocks of the snapshots, and
/// nothing else; an error comes as in `find`.
pub(crate) fn prepare_take<B: Blocks>(
    blocks: &mut B,
    root: &Root,
    name: &[u8],
) -> Result<Result<Taking, Errno>, BlockError>
    requires root { IsRoot root.now }
    requires size { B.count blocks.old ≡ root.now.geometry.blocks }
    ensures reads { ReadsBlocks B.Blocks IsFault blocks.old blocks.new result }
    ensures tests { (disk : ℕ → List ℕ) → B.Shows blocks.old disk → (v : Volume)
        (pairs : List (Name × Tree)) → Holds root.now (whole disk root.now) v pairs → (s : State)
        → s.limits ≡ limits_of root.now.geometry → s.snapshots ≡ pairs
        → IfOk result (λ taking. MatchResult taking
        (λ t. first_refusal (take_tests s name.now) ≡ None)
        (RefusesTake s name.now)) }
    ensures own { IfOk result (λ taking. IfErr taking (λ errno. (errno ≢ Errno.EIO)
        × (errno ≢ Errno.FAILED))) }
    ensures fits { IfOk result (λ taking. IfOk taking (λ t. IsSlotNumber t.slot
        × (length name.now ≤ SNAPSHOT_NAME_BYTES))) }
    ensures may { (disk : ℕ → List ℕ) → B.Shows blocks.old disk → (v : Volume)
        (pairs : List (Name × Tree)) → Holds root.now (whole disk root.now) v pairs
        → IfOk result (λ taking. IfOk taking (MayTake disk root.now name.now)) }
    ensures damaged { (disk : ℕ → List ℕ) → B.Shows blocks.old disk → (v : Volume)
        (pairs : List (Name × Tree)) → Holds root.now (whole disk root.now) v pairs
        → IsErrOf result BlockError.Damaged → ⊥ }
{
    if is_bad(name) {
        return Ok(Err(Errno::BADNAME));
    }
    let found = find(blocks, root, name)?;
    if found.is_some() {
        return Ok(Err(Errno::SNAPEXISTS));
    }
    let Some(slot) = free_slot(root) else {
        return Ok(Err(Errno::SNAPFULL));
    };
    let last = newest(blocks, root)?;
    Ok(Ok(Taking {
        slot,
        order: last + 1,
    }))
}
