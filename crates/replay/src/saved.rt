//! All that was saved in the log.

ghost use Rattle.std.specs.Prelude.{◌≡◌, ◌*◌, ◌<◌, ◌≤◌, ◌^◌, List, ℕ, IfOk, IsFalse};
ghost use Rattle.layout.specs.StateLimits.{limits_of};
ghost use Rattle.layout.specs.declared.inode.Inode.{Inode};
ghost use Rattle.model.specs.Records.{Change, cost_of_all, pledged_for, without_orphans};
ghost use Rattle.model.specs.Volumes.{Volume};
ghost use Rattle.buffers.specs.Reads.{ReadsBlocks};
ghost use Rattle.buffers.specs.Errors.{IsFault};
ghost use Rattle.images.specs.Soundness.{Detail};
ghost use Rattle.inofile.specs.Inodes.{HasNoChange};
ghost use Rattle.inofile.specs.Room.{memory_room};
ghost use Rattle.oplog.specs.SavedLog.{StandsBehind, TellsLog};
ghost use Rattle.replay.specs.Volumes.{ComesTo, HasVolumeIn, RaisesRoom, SavesRecordsIn, SavesSomeIn, bodies_of};

use crate::orphans::{count_orphans, drop_orphans};
use crate::replaying::replay_all;
use buffers::{BlockError, Blocks};
use inofile::InodeFile;
use oplog::{Log, SavedLog};
use std::alloc::Global;

/// What a replay finds.
#[derive(Debug, Drop)]
pub struct Replayed {
    /// The log's end.
    pub log: Log,
    /// The blocks that a consistency point may store for what the root doesn't cover: for each
    /// record, and for each file without a name that the root has.
    pub pledged: u64,
}

/// Replays the records of a saved log over the inodes in memory, epoch after epoch, and drops the
/// files without names behind the last one. `Damaged` where what is saved is no record that
/// applies, so behind Ok the log holds records that apply one after the other over the volume that
/// memory stood for. After an error it isn't known what memory stands for.
pub fn replay<B: Blocks>(
    alloc: Global,
    inodes: &mut InodeFile,
    blocks: &mut B,
    saved: SavedLog,
) -> Result<Replayed, BlockError>
    ensures reads { ReadsBlocks B.Blocks IsFault blocks.old blocks.new result }
    ensures geometry { inodes.new.geometry ≡ inodes.old.geometry }
    ensures half { IfOk result (λ r. r.log.half ≡ saved.half) }
    ensures runs { IfOk result (λ r. IsFalse r.log.is_stopped) }
    ensures few { IfOk result (λ r. r.pledged < 2 ^ 32) }
    ensures replays { (detail : Detail) (disk : ℕ → List ℕ) (settled : ℕ → Inode) (v w : Volume)
        (changes : List Change) (nvram : List ℕ) → B.Shows blocks.old disk
        → HasVolumeIn detail (B.count blocks.old) disk settled inodes.old v
        → TellsLog nvram saved
        → SavesRecordsIn detail (limits_of inodes.old.geometry) nvram saved changes v w
        → ComesTo result (λ r. StandsBehind r.log saved.generation nvram (bodies_of changes)
        × HasVolumeIn detail (B.count blocks.old) disk settled inodes.new (without_orphans w)
        × (r.pledged ≡ pledged_for (limits_of inodes.old.geometry) v changes)) }
    ensures room { (detail : Detail) (disk : ℕ → List ℕ) (settled : ℕ → Inode) (v w : Volume)
        (changes : List Change) (nvram : List ℕ) → B.Shows blocks.old disk
        → HasVolumeIn detail (B.count blocks.old) disk settled inodes.old v
        → TellsLog nvram saved
        → SavesRecordsIn detail (limits_of inodes.old.geometry) nvram saved changes v w
        → HasNoChange inodes.old → IfOk result
        (λ r. memory_room v inodes.new (without_orphans w) ≤ r.pledged) }
    ensures applies { (detail : Detail) (disk : ℕ → List ℕ) (settled : ℕ → Inode) (v : Volume)
        (nvram : List ℕ) → B.Shows blocks.old disk
        → HasVolumeIn detail (B.count blocks.old) disk settled inodes.old v
        → TellsLog nvram saved
        → IfOk result (λ _. SavesSomeIn detail (limits_of inodes.old.geometry) nvram saved v) }
    ensures holds { (nvram : List ℕ) → TellsLog nvram saved → IfOk result
        (λ r. (bodies : List (List ℕ)) × StandsBehind r.log saved.generation nvram bodies) }
{
    let orphans = count_orphans(inodes, blocks)?;
    let dropped = cost_of_orphans(inodes, orphans);
    let ReplayedLog { log, cost } = replay_records(alloc, inodes, blocks, saved)?;
    Ok(Replayed {
        log,
        pledged: dropped + cost,
    })
}

/// What so many files without a name cost a consistency point, which are taken away.
fn cost_of_orphans(inodes: &InodeFile, orphans: u32) -> u64
    ensures is { result ≡ (limits_of inodes.now.geometry).costs.orphan * orphans }
    ensures few { result ≤ 4 * orphans }
{
    u64::from(inodes.limits().costs.orphan) * u64::from(orphans)
}

/// The log's end behind a replay, and what its records cost a consistency point.
struct ReplayedLog {
    log: Log,
    cost: u64,
}

/// The replay itself.
fn replay_records<B: Blocks>(
    alloc: Global,
    inodes: &mut InodeFile,
    blocks: &mut B,
    saved: SavedLog,
) -> Result<ReplayedLog, BlockError>
    ensures reads { ReadsBlocks B.Blocks IsFault blocks.old blocks.new result }
    ensures geometry { inodes.new.geometry ≡ inodes.old.geometry }
    ensures half { IfOk result (λ r. r.log.half ≡ saved.half) }
    ensures runs { IfOk result (λ r. IsFalse r.log.is_stopped) }
    ensures few { IfOk result (λ r. r.cost < 2 ^ 31) }
    ensures replays { (detail : Detail) (disk : ℕ → List ℕ) (settled : ℕ → Inode) (v w : Volume)
        (changes : List Change) (nvram : List ℕ) → B.Shows blocks.old disk
        → HasVolumeIn detail (B.count blocks.old) disk settled inodes.old v
        → TellsLog nvram saved
        → SavesRecordsIn detail (limits_of inodes.old.geometry) nvram saved changes v w
        → ComesTo result (λ r. StandsBehind r.log saved.generation nvram (bodies_of changes)
        × HasVolumeIn detail (B.count blocks.old) disk settled inodes.new (without_orphans w)
        × (r.cost ≡ cost_of_all (limits_of inodes.old.geometry).costs v changes)
        × RaisesRoom inodes.old v inodes.new (without_orphans w) r.cost) }
    ensures applies { (detail : Detail) (disk : ℕ → List ℕ) (settled : ℕ → Inode) (v : Volume)
        (nvram : List ℕ) → B.Shows blocks.old disk
        → HasVolumeIn detail (B.count blocks.old) disk settled inodes.old v
        → TellsLog nvram saved
        → IfOk result (λ _. SavesSomeIn detail (limits_of inodes.old.geometry) nvram saved v) }
    ensures holds { (nvram : List ℕ) → TellsLog nvram saved → IfOk result
        (λ r. (bodies : List (List ℕ)) × StandsBehind r.log saved.generation nvram bodies) }
{
    let first = replay_all(alloc, inodes, blocks, saved.first_records())?;
    let second = replay_all(alloc, inodes, blocks, saved.second_records())?;
    drop_orphans(alloc, inodes, blocks)?;
    Ok(ReplayedLog {
        log: saved.into_log(first.left, second.left),
        cost: first.cost + second.cost,
    })
}
