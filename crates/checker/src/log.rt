//! The log over the newest root.

ghost use Rattle.std.specs.Prelude.{◌≡◌, ◌≤◌, ◌*◌, ℕ, Err, List, IfOk, length};
ghost use Rattle.station.specs.Moments.{HasGrown};
ghost use Rattle.layout.specs.Record.{Change};
ghost use Rattle.layout.specs.Root.{IsRoot};
ghost use Rattle.layout.specs.StateLimits.{limits_of};
ghost use Rattle.layout.specs.declared.geometry.TheConstants.{MOST_HALF};
ghost use Rattle.layout.specs.declared.inode.Inode.{Inode};
ghost use Rattle.model.specs.Records.{cost_of_all};
ghost use Rattle.model.specs.Volumes.{Volume};
ghost use Rattle.buffers.specs.Disks.{ReadsOn, ShowsDisk};
ghost use Rattle.images.specs.Faults.{IsFaultless};
ghost use Rattle.images.specs.Roots.{whole};
ghost use Rattle.images.specs.Soundness.{IsWithin, by_sizes};
ghost use Rattle.loading.specs.Slots.{FitsStation};
ghost use Rattle.oplog.specs.SavedLog.{TellsLog};
ghost use Rattle.replay.specs.Volumes.{HasVolumeIn, LeadTo};
ghost use Rattle.replay.specs.declared.costs.TheConstants.{MOST_COST};
ghost use Rattle.checker.specs.Checks.{Passes};
ghost use Rattle.checker.specs.Errors.{IsCheckEndFault, ReadsForFaults};
ghost use Rattle.checker.specs.Logs.{IsRecordFault, TellsRecords};

use crate::error::{CheckEnd, or_fault};
use crate::{Fault, LogFault, TreeFault, UncachedReads};
use buffers::{BlockError, Buffers};
use images::faultless_trees_hold_graphs;
use inofile::InodeFile;
use layout::{FIRST_GATE, Gate, Geometry, Root, read_gate};
use loading::load_inodes;
use oplog::{SavedLog, SavedLogError};
use replay::{count_orphans, replay_record};
use station::Station;
use std::alloc::Global;

/// What a log has over a root.
#[derive(Clone, Copy, Debug)]
pub(crate) struct Logged {
    /// How many records.
    pub(crate) records: u64,
    /// How many blocks a consistency point may store for them, and for the root's orphans.
    pub(crate) pledged: u64,
}

/// Replays the log over the newest root's tree in memory, and counts its records. A record that
/// writes into a part of a block that can't be read is a fault.
pub(crate) fn check_log<S: Station>(
    alloc: Global,
    blocks: &mut Buffers<S>,
    root: &Root,
) -> Result<Logged, CheckEnd>
    requires root { IsRoot root.now }
    requires fits { FitsStation root.now (S.meaning blocks.old.station) }
    ensures reads { ReadsOn (S.meaning blocks.old.station) (S.meaning blocks.new.station) }
    ensures device { result ≡ Err CheckEnd.Device → HasGrown
        (S.meaning blocks.old.station).failed_reads (S.meaning blocks.new.station).failed_reads }
    ensures passes { (disk : ℕ → List ℕ)
        → ShowsDisk (S.meaning blocks.old.station) blocks.old.kept disk
        → IsFaultless root.now.geometry (whole disk root.now).active
        → IsWithin root.now.version (whole disk root.now).active
        → TellsRecords root.now (whole disk root.now)
        (S.meaning blocks.old.station).seen.nvram result }
{
    let saved = match SavedLog::load(alloc, &mut blocks.station, root.geometry, root.generation) {
        Ok(saved) => saved,
        Err(SavedLogError::NoMemory) => return Err(CheckEnd::NoMemory),
        Err(SavedLogError::Device) => return Err(CheckEnd::Device),
        Err(SavedLogError::Damaged) => return Err(CheckEnd::Fault(Fault::Log(LogFault::Header))),
    };
    replay_saved(alloc, blocks, root, &saved)
}

/// Replays what was saved over the newest root's tree in memory, and counts the records and what
/// they cost.
fn replay_saved<B: UncachedReads>(
    alloc: Global,
    blocks: &mut B,
    root: &Root,
    saved: &SavedLog,
) -> Result<Logged, CheckEnd>
    requires root { IsRoot root.now }
    requires size { B.count blocks.old ≡ root.now.geometry.blocks }
    requires half { saved.now.half ≡ root.now.geometry.half }
    requires generation { saved.now.generation ≡ root.now.generation }
    ensures reads { ReadsForFaults B.Blocks IsCheckEndFault blocks.old blocks.new result }
    ensures passes { (disk : ℕ → List ℕ) (nvram : List ℕ) → B.Shows blocks.old disk
        → TellsLog nvram saved.now → IsFaultless root.now.geometry (whole disk root.now).active
        → IsWithin root.now.version (whole disk root.now).active
        → TellsRecords root.now (whole disk root.now) nvram result }
{
    faultless_trees_hold_graphs();
    let fault = Fault::Tree(TreeFault::InodeMap);
    let loaded = load_inodes(alloc, blocks, root.version, root.geometry, root.inode_file);
    let mut inodes = or_fault(loaded, fault)?;
    let counted = count_orphans(&inodes, blocks);
    let orphans = or_fault(counted, fault)?;
    let half = (root.generation.epoch_after(1).get() % 2) as u32;
    let first = replay_half(alloc, &mut inodes, blocks, saved.first_records(), half)?;
    let second = replay_half(alloc, &mut inodes, blocks, saved.second_records(), 1 - half)?;
    Ok(Logged {
        records: first.records + second.records,
        pledged: cost_of_orphans(root.geometry, orphans) + first.pledged + second.pledged,
    })
}

/// What a consistency point may store for so many orphans of a root.
fn cost_of_orphans(geometry: Geometry, orphans: u32) -> u64
    ensures { result ≡ (limits_of geometry).costs.orphan * orphans }
{
    u64::from(geometry.limits().costs.orphan) * u64::from(orphans)
}

/// Replays the records of a half over the inodes in memory, and counts them and what they cost.
fn replay_half<B: UncachedReads>(
    alloc: Global,
    inodes: &mut InodeFile,
    blocks: &mut B,
    records: &[u8],
    half: u32,
) -> Result<Logged, CheckEnd>
    requires { length records.now ≤ MOST_HALF }
    ensures reads { ReadsForFaults B.Blocks IsCheckEndFault blocks.old blocks.new result }
    ensures geometry { inodes.new.geometry ≡ inodes.old.geometry }
    ensures few { IfOk result (λ l. l.records ≤ length records.now) }
    ensures cheap { IfOk result (λ l. l.pledged ≤ MOST_COST * l.records) }
    ensures faults { Passes (λ _. Unit {0}) IsRecordFault result }
    ensures replays { (disk : ℕ → List ℕ) (settled : ℕ → Inode) (v w : Volume)
        (changes : List Change) → B.Shows blocks.old disk
        → HasVolumeIn by_sizes (B.count blocks.old) disk settled inodes.old v
        → LeadTo by_sizes (limits_of inodes.old.geometry) records.now changes v w
        → Passes (λ _. HasVolumeIn by_sizes (B.count blocks.old) disk settled inodes.new w)
        (λ _. ⊥) result }
    ensures applies { (disk : ℕ → List ℕ) (settled : ℕ → Inode) (v : Volume)
        → B.Shows blocks.old disk
        → HasVolumeIn by_sizes (B.count blocks.old) disk settled inodes.old v
        → IfOk result (λ l. (changes : List Change) × (w : Volume)
        × LeadTo by_sizes (limits_of inodes.old.geometry) records.now changes v w
        × (l.records ≡ length changes)
        × HasVolumeIn by_sizes (B.count blocks.old) disk settled inodes.new w
        × (l.pledged ≡ cost_of_all (limits_of inodes.old.geometry).costs v changes)) }
{
    let mut rest = records;
    let mut count = 0;
    let mut cost = 0;
    loop {
        let at = FIRST_GATE + (records.len() - rest.len()) as u32;
        let fault = CheckEnd::Fault(Fault::Log(LogFault::Record { half, at }));
        match read_gate(rest) {
            Gate::Closed => {
                return Ok(Logged {
                    records: count,
                    pledged: cost,
                });
            }
            Gate::Malformed => return Err(fault),
            Gate::Open { body, rest: after } => {
                match replay_record(alloc, inodes, blocks, body) {
                    Ok(more) => cost += more,
                    Err(BlockError::NoMemory) => return Err(CheckEnd::NoMemory),
                    Err(BlockError::Device) => return Err(CheckEnd::Device),
                    Err(BlockError::Damaged) => return Err(fault),
                }
                count += 1;
                rest = after;
            }
        }
    }
}
