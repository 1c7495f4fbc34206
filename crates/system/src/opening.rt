//! Mounting: from a station to a system.

ghost use Rattle.std.specs.Prelude.{◌≡◌, ◌⊎◌, List, ℕ, IfErr, IfOk, IsErrOf, IsFalse, MatchResult, None, OnOk};
ghost use Rattle.layout.specs.StateLimits.{limits_of};
ghost use Rattle.model.specs.Sessions.{new_session};
ghost use Rattle.station.specs.Images.{Unchanged};
ghost use Rattle.station.specs.Moments.{Goes, HasGrown, IsSameStation, LeavesJust};
ghost use Rattle.layout.specs.Log.{LogHolds};
ghost use Rattle.layout.specs.Opens.{IsNewest};
ghost use Rattle.layout.specs.Places.{Blocks, blocks_of};
ghost use Rattle.layout.specs.Record.{Change};
ghost use Rattle.layout.specs.declared.TheConstants.{SLOT_A, SLOT_B};
ghost use Rattle.layout.specs.declared.root.Root.{Root};
ghost use Rattle.model.specs.Paths.{Name};
ghost use Rattle.model.specs.Records.{without_orphans};
ghost use Rattle.model.specs.States.{Forgets, State};
ghost use Rattle.model.specs.Trees.{Tree};
ghost use Rattle.model.specs.Volumes.{Volume};
ghost use Rattle.buffers.specs.Disks.{ReadsOn};
ghost use Rattle.buffers.specs.Reads.{ReadsBlocks};
ghost use Rattle.images.specs.Faults.{HasNoFault, IsFaultlessUnder};
ghost use Rattle.images.specs.Roots.{whole};
ghost use Rattle.loading.specs.Slots.{FitsStation, HasNoRoot};
ghost use Rattle.oplog.specs.SavedLog.{TellsLog};
ghost use Rattle.system.specs.Images.{OpensTo};
ghost use Rattle.system.specs.Opening.{MemoryFitsRoot, HasFailed, HasImage, HasNewest, HasRead, HoldsRecords, IsFound, IsOf, IsSavedOver};
ghost use Rattle.system.specs.Refusals.{IsDevice, SaysNothing};
ghost use Rattle.system.specs.Systems.{HasState, meaning_of, state_with, system_parts};

use crate::{MountError, System};
use blockmap::BlockMap;
use buffers::{Blocks, Buffers};
use descriptors::Descriptors;
use images::faultless_trees_hold_graphs;
use inofile::InodeFile;
use layout::Root;
use loading::{Loaded, Newest, check_snapshots, load, newest_root, volumes_are_readable};
use model::{Session, mounts_find_volumes, replays_keep_volumes};
use oplog::{Log, SavedLog};
use overlay::Overlay;
use replay::{Replayed, replay};
use station::Station;
use std::alloc::Global;

/// What a station has beside the blocks of its disk.
struct FoundImages {
    newest: Newest,
    saved: SavedLog,
}

/// What memory has of an image.
struct LoadedImage {
    inodes: InodeFile,
    map: BlockMap,
    log: Log,
    pledged: u64,
}

/// Makes durable what reads give, since a cut may have left writes that a later one could take
/// back; then finds the newest root, and reads the log over it.
fn find<S: Station>(alloc: Global, station: &mut S) -> Result<FoundImages, MountError>
    ensures same { IsSameStation (S.meaning station.old) (S.meaning station.new) }
    ensures goes { Goes Unchanged (S.meaning station.old) (S.meaning station.new) }
    ensures device { IsErrOf result MountError.Device
        → HasFailed (S.meaning station.old) (S.meaning station.new) }
    ensures found { IfOk result (λ f. IsFound f (S.meaning station.new)) }
    ensures settled { OnOk result (
        LeavesJust (S.meaning station.new) (S.meaning station.old).seen
        × ((S.meaning station.new).failed_reads ≡ (S.meaning station.old).failed_reads)) }
    ensures no_root { (S.meaning station.old).is_honest → IsErrOf result MountError.NoRoot
        → HasNoRoot (S.meaning station.old).sectors (S.meaning station.old).seen.disk }
    ensures rootless { (S.meaning station.old).is_honest
        → HasNoRoot (S.meaning station.old).sectors (S.meaning station.old).seen.disk
        → MatchResult result (λ _. ⊥) (λ e. (e ≡ MountError.NoRoot) ⊎ (e ≡ MountError.Device)) }
    ensures of_station { (S.meaning station.old).is_honest
        → IfOk result (IsOf (S.meaning station.old).seen) }
    ensures only { (S.meaning station.old).is_honest → (r : Root) (bodies : List (List ℕ))
        → IsNewest r ((S.meaning station.old).seen.disk SLOT_A)
        ((S.meaning station.old).seen.disk SLOT_B)
        → FitsStation r (S.meaning station.old)
        → LogHolds r.geometry.half r.generation (S.meaning station.old).seen.nvram bodies
        → MatchResult result (λ f. f.newest.root ≡ r) SaysNothing }
{
    station.sync()?;
    let newest = newest_root(station)?;
    let root = newest.root;
    let saved = SavedLog::load(alloc, station, root.geometry, root.generation)?;
    Ok(FoundImages { newest, saved })
}

/// Reads what memory is to have of an image, with its snapshots' roots, and replays its log.
fn read_image<B: Blocks>(
    alloc: Global,
    blocks: &mut B,
    root: &Root,
    saved: SavedLog,
) -> Result<LoadedImage, MountError>
    requires over { IsSavedOver root.now saved }
    requires size { B.count blocks.old ≡ root.now.geometry.blocks }
    ensures reads { ReadsBlocks B.Blocks IsDevice blocks.old blocks.new result }
    ensures fits { IfOk result (MemoryFitsRoot root.now) }
    ensures rooted { IsErrOf result MountError.NoRoot → ⊥ }
    ensures found { (disk : Blocks) (nvram : List ℕ) → B.Shows blocks.old disk
        → TellsLog nvram saved
        → IfOk result (λ p. HasRead disk nvram root.now p.log p.inodes) }
    ensures has { (disk : Blocks) (nvram : List ℕ) (first last : Volume)
        (snapshots : List (Name × Tree)) (changes : List Change) → B.Shows blocks.old disk
        → TellsLog nvram saved → HoldsRecords disk root.now nvram first last snapshots changes
        → MatchResult result (HasImage disk root.now nvram first last changes) SaysNothing }
    ensures faultless { (disk : Blocks) (nvram : List ℕ) (changes : List Change)
        → B.Shows blocks.old disk → TellsLog nvram saved
        → IsFaultlessUnder root.now (whole disk root.now) nvram changes
        → MatchResult result (λ _. Unit {0}) SaysNothing }
{
    volumes_are_readable();
    faultless_trees_hold_graphs();
    check_snapshots(blocks, root)?;
    let Loaded { map, mut inodes } = load(alloc, blocks, root)?;
    let Replayed { log, pledged } = replay(alloc, &mut inodes, blocks, saved)?;
    Ok(LoadedImage {
        inodes,
        map,
        log,
        pledged,
    })
}

/// Makes a system of a station and of what was found on it.
fn open_found<S: Station>(
    alloc: Global,
    station: S,
    found: FoundImages,
) -> Result<System<S>, (MountError, S)>
    requires { IsFound found (S.meaning station) }
    ensures reads { MatchResult result (λ f. ReadsOn (S.meaning station) (meaning_of f))
        (λ e. ReadsOn (S.meaning station) (S.meaning e.1)) }
    ensures device { IfErr result (λ e. e.0 ≡ MountError.Device
        → HasGrown (S.meaning station).failed_reads (S.meaning e.1).failed_reads) }
    ensures rooted { IfErr result (λ e. e.0 ≡ MountError.NoRoot → ⊥) }
    ensures runs { IfOk result (λ f. IsFalse f.log.is_stopped) }
    ensures found { (S.meaning station).is_honest → IsOf (S.meaning station).seen found
        → IfOk result (λ f. HasNewest (S.meaning station) (system_parts f)) }
    ensures serves { (S.meaning station).is_honest
        → LeavesJust (S.meaning station) (S.meaning station).seen
        → IsOf (S.meaning station).seen found
        → (first last : Volume) (snapshots : List (Name × Tree)) (changes : List Change)
        → HoldsRecords (blocks_of (S.meaning station).seen.disk) found.newest.root
        (S.meaning station).seen.nvram first last snapshots changes
        → MatchResult result (λ f. HasState f (λ d. None)
        (state_with (limits_of found.newest.root.geometry) new_session (without_orphans last) (λ d. None)
        snapshots))
        (λ e. SaysNothing e.0) }
    ensures faultless { (S.meaning station).is_honest → IsOf (S.meaning station).seen found
        → (changes : List Change) → IsFaultlessUnder found.newest.root
        (whole (blocks_of (S.meaning station).seen.disk) found.newest.root)
        (S.meaning station).seen.nvram changes
        → MatchResult result (λ _. Unit {0}) (λ e. SaysNothing e.0) }
{
    mounts_find_volumes();
    replays_keep_volumes();
    let FoundImages { newest, saved } = found;
    let buffers = Buffers::new(alloc, station);
    let mut blocks = Overlay::new(buffers);
    match read_image(alloc, &mut blocks, &newest.root, saved) {
        Ok(
            LoadedImage {
                inodes,
                map,
                log,
                pledged,
            },
        ) => {
            let free = map.free_count();
            Ok(System {
                alloc,
                blocks,
                root: newest.root,
                slot: newest.slot,
                inodes,
                view: None,
                map,
                log,
                pledged,
                pledged_then: pledged,
                free,
                files: Descriptors::new(alloc),
                session: Session::new(),
            })
        }
        Err(error) => Err((error, blocks.buffers.into_station())),
    }
}

impl<S: Station> System<S> {
    /// Mounts an image: reads its newest root, what memory is to have of the tree under it, and
    /// replays the log over that. Reads give what they gave before, and a cut leaves what it might
    /// have left before. `NoRoot` comes where neither slot holds a root, `Device` only where a
    /// device call failed. Where what the station reads opens to a state, Ok gives a system that
    /// serves what a mount finds of it, and `Damaged` doesn't come. No directory and no file is
    /// read, so Ok may come over an image that opens to none; but it has taken the newest root, the
    /// station has its sizes, the NVRAM holds a log over it, and each of its slots that isn't free
    /// has a snapshot; and where no fault stands in its tree, every record of the log was applied.
    /// Neither `NoRoot` nor `Damaged` comes over images without a fault, whatever blocks of files
    /// can be read.
    pub fn open(alloc: Global, mut station: S) -> Result<System<S>, (MountError, S)>
        ensures same { MatchResult result
            (λ f. IsSameStation (S.meaning station) (meaning_of f))
            (λ e. IsSameStation (S.meaning station) (S.meaning e.1)) }
        ensures goes { MatchResult result (λ f. Goes Unchanged (S.meaning station) (meaning_of f))
            (λ e. Goes Unchanged (S.meaning station) (S.meaning e.1)) }
        ensures device { IfErr result (λ e. e.0 ≡ MountError.Device
            → HasFailed (S.meaning station) (S.meaning e.1)) }
        ensures runs { IfOk result (λ f. IsFalse f.log.is_stopped) }
        ensures found { (S.meaning station).is_honest
            → IfOk result (λ f. HasNewest (S.meaning station) (system_parts f)) }
        ensures no_root { (S.meaning station).is_honest
            → IfErr result (λ e. e.0 ≡ MountError.NoRoot
            → HasNoRoot (S.meaning station).sectors (S.meaning station).seen.disk) }
        ensures rootless { (S.meaning station).is_honest
            → HasNoRoot (S.meaning station).sectors (S.meaning station).seen.disk
            → MatchResult result (λ _. ⊥)
            (λ e. (e.0 ≡ MountError.NoRoot) ⊎ (e.0 ≡ MountError.Device)) }
        ensures opens { (S.meaning station).is_honest → (s : State)
            → OpensTo (S.meaning station) s (S.meaning station).seen
            → MatchResult result (λ f. (t : State) × Forgets s t × HasState f (λ d. None) t)
            (λ e. SaysNothing e.0) }
        ensures faultless { (S.meaning station).is_honest
            → HasNoFault (S.meaning station).sectors (S.meaning station).seen.disk
            (S.meaning station).seen.nvram
            → MatchResult result (λ _. Unit {0}) (λ e. SaysNothing e.0) }
    {
        match find(alloc, &mut station) {
            Ok(found) => open_found(alloc, station, found),
            Err(error) => Err((error, station)),
        }
    }
}
