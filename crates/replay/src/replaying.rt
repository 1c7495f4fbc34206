//! The records of the log, one after the other.

ghost use Rattle.std.specs.Prelude.{◌≡◌, ◌≤◌, ◌*◌, List, ℕ, IfOk, length};
ghost use Rattle.layout.specs.StateLimits.{limits_of};
ghost use Rattle.layout.specs.declared.geometry.TheConstants.{MOST_HALF};
ghost use Rattle.layout.specs.declared.inode.Inode.{Inode};
ghost use Rattle.model.specs.Records.{Change, applied, work_of};
ghost use Rattle.model.specs.Room as room;
ghost use Rattle.model.specs.Volumes.{Volume};
ghost use Rattle.buffers.specs.Reads.{ReadsBlocks};
ghost use Rattle.buffers.specs.Errors.{IsFault};
ghost use Rattle.images.specs.Soundness.{Detail};
ghost use Rattle.oplog.specs.SavedLog.{HoldsLeaving};
ghost use Rattle.replay.specs.Volumes.{AppliesIn, ComesTo, HasReplayed, HasVolumeIn, LeadSomewhere, LeadTo, RaisesRoom, SpellsRecord};
ghost use Rattle.replay.specs.declared.costs.TheConstants.{MOST_COST};

use crate::costs::{cost_of, size_before};
use buffers::{BlockError, Blocks};
use inofile::InodeFile;
use layout::{Gate, Record, read_gate};
use model::records_keep_volumes;
use records::{Failure, commit, prepare};
use std::alloc::Global;

/// What replaying the records of a half comes to.
#[derive(Clone, Copy)]
pub(crate) struct ReplayedHalf {
    /// Bytes from the closed gate on.
    pub(crate) left: usize,
    /// What the records cost a consistency point.
    pub(crate) cost: u64,
}

/// Replays the records from a gate on over the inodes in memory, and answers what is left behind
/// them and what they cost. None is passed over: `Damaged` where the bytes hold no records, and
/// where one doesn't apply. After an error it isn't known what memory stands for.
pub(crate) fn replay_all<B: Blocks>(
    alloc: Global,
    inodes: &mut InodeFile,
    blocks: &mut B,
    records: &[u8],
) -> Result<ReplayedHalf, BlockError>
    requires { length records.now ≤ MOST_HALF }
    ensures reads { ReadsBlocks B.Blocks IsFault blocks.old blocks.new result }
    ensures geometry { inodes.new.geometry ≡ inodes.old.geometry }
    ensures some { IfOk result (λ r. (1 ≤ r.left) × (r.left ≤ length records.now)) }
    ensures few { IfOk result (λ r. r.cost ≤ MOST_COST * length records.now) }
    ensures replays { (detail : Detail) (disk : ℕ → List ℕ) (settled : ℕ → Inode) (v w : Volume)
        (changes : List Change) → B.Shows blocks.old disk
        → HasVolumeIn detail (B.count blocks.old) disk settled inodes.old v
        → LeadTo detail (limits_of inodes.old.geometry) records.now changes v w
        → ComesTo result (λ r. HasReplayed (limits_of inodes.old.geometry).costs records.now changes v r
        × HasVolumeIn detail (B.count blocks.old) disk settled inodes.new w
        × RaisesRoom inodes.old v inodes.new w r.cost) }
    ensures applies { (detail : Detail) (disk : ℕ → List ℕ) (settled : ℕ → Inode) (v : Volume)
        → B.Shows blocks.old disk
        → HasVolumeIn detail (B.count blocks.old) disk settled inodes.old v
        → IfOk result (λ _. LeadSomewhere detail (limits_of inodes.old.geometry) records.now v) }
    ensures holds { IfOk result
        (λ r. (bodies : List (List ℕ)) × HoldsLeaving records.now bodies r.left) }
{
    let mut rest = records;
    let mut cost = 0;
    loop {
        match read_gate(rest) {
            Gate::Closed => {
                return Ok(ReplayedHalf {
                    left: rest.len(),
                    cost,
                });
            }
            Gate::Malformed => return Err(BlockError::Damaged),
            Gate::Open { body, rest: after } => {
                cost += replay_record(alloc, inodes, blocks, body)?;
                rest = after;
            }
        }
    }
}

/// Does to the inodes in memory what the record with this body says, and answers what it costs a
/// consistency point. `Damaged` where it is no record's, or the record doesn't apply.
pub fn replay_record<B: Blocks>(
    alloc: Global,
    inodes: &mut InodeFile,
    blocks: &mut B,
    body: &[u8],
) -> Result<u64, BlockError>
    ensures reads { ReadsBlocks B.Blocks IsFault blocks.old blocks.new result }
    ensures geometry { inodes.new.geometry ≡ inodes.old.geometry }
    ensures few { IfOk result (λ cost. cost ≤ MOST_COST) }
    ensures replays { (detail : Detail) (disk : ℕ → List ℕ) (settled : ℕ → Inode) (v : Volume) (change : Change)
        → B.Shows blocks.old disk
        → HasVolumeIn detail (B.count blocks.old) disk settled inodes.old v
        → SpellsRecord (limits_of inodes.old.geometry).has_attributes body.now change
        → AppliesIn detail (limits_of inodes.old.geometry) v change
        → ComesTo result (λ cost. (cost ≡ room.cost (limits_of inodes.old.geometry).costs (work_of v change))
        × HasVolumeIn detail (B.count blocks.old) disk settled inodes.new (applied change v)
        × RaisesRoom inodes.old v inodes.new (applied change v) cost) }
    ensures applies { (detail : Detail) (disk : ℕ → List ℕ) (settled : ℕ → Inode) (v : Volume)
        → B.Shows blocks.old disk
        → HasVolumeIn detail (B.count blocks.old) disk settled inodes.old v
        → IfOk result (λ _. (change : Change)
        × SpellsRecord (limits_of inodes.old.geometry).has_attributes body.now change
        × AppliesIn detail (limits_of inodes.old.geometry) v change
        × HasVolumeIn detail (B.count blocks.old) disk settled inodes.new (applied change v)) }
{
    records_keep_volumes();
    let Some(logged) = Record::read(inodes.geometry().layout(), body) else {
        return Err(BlockError::Damaged);
    };
    let prepared = match prepare(alloc, inodes, blocks, &logged) {
        Ok(prepared) => prepared,
        Err(Failure::Refused(_errno)) => return Err(BlockError::Damaged),
        Err(Failure::Read(error)) => return Err(error),
    };
    let cost = cost_of(inodes.limits().costs, &logged, size_before(inodes, &logged));
    commit(inodes, prepared);
    Ok(cost)
}
