//! A check of an image.

ghost use Rattle.std.specs.Prelude.{◌≡◌, ◌↔◌, ◌+◌, ◌*◌, ◌≤◌, ℕ, List, [], Err, IfErr, IfOk, IfSome, IsSome, IsTrue, MatchResult, None, OnOk, Some};
ghost use Rattle.std.specs.Int.{div_ceil};
ghost use Rattle.station.specs.Images.{Unchanged};
ghost use Rattle.station.specs.Moments.{Goes, HasGrown, IsSameStation, LeavesJust};
ghost use Rattle.layout.specs.Opens.{IsNewest};
ghost use Rattle.layout.specs.Root.{IsRoot};
ghost use Rattle.layout.specs.StateLimits.{fixed_of};
ghost use Rattle.layout.specs.declared.TheConstants.{INODES_PER_BLOCK, SLOT_A, SLOT_B};
ghost use Rattle.layout.specs.declared.root.Root.{Root};
ghost use Rattle.model.specs.States.{State};
ghost use Rattle.buffers.specs.Disks.{ReadsOn, ShowsDisk};
ghost use Rattle.images.specs.Faults.{IsFaultless};
ghost use Rattle.images.specs.Soundness.{IsWithin};
ghost use Rattle.images.specs.Roots.{whole};
ghost use Rattle.images.specs.Snapshots.{AreSnapshots};
ghost use Rattle.images.specs.States.{Opens};
ghost use Rattle.loading.specs.Slots.{FitsStation};
ghost use Rattle.checker.specs.Checks.{AreFaultless, AreFindings, HasFailed, IsFaultlessBy, IsGood, Reports, Settles, TellsTrees, found_in, report_of};
ghost use Rattle.checker.specs.Errors.{IsFault, ReadsForFaults};
ghost use Rattle.checker.specs.Findings.{IsFinding, IsFindingUnder, IsFirstTold};
ghost use Rattle.checker.specs.Rows.{AreSeenTo, KeepsTrees};
ghost use Rattle.checker.specs.Tables.{IsKnown};
ghost use Rattle.checker.specs.Trees.{AreTrees, HasEnded, IsRootOf, IsSeenTo};
ghost use Rattle.checker.specs.Watches.{KeepsTelling};

use crate::error::{CheckEnd, fault_of};
use crate::findings::Findings;
use crate::log::{Logged, check_log};
use crate::map::{compare_map, mark_system};
use crate::marks::Marks;
use crate::names::check_names;
use crate::nodes::{PLANES, SharedBlocks};
use crate::numbers::check_numbers;
use crate::owners::first_owner;
use crate::snapshots::{count_snapshots, fault_in_slot};
use crate::table::NumberTable;
use crate::tree::Tree;
use crate::trees::open_trees;
use crate::{
    CheckError, Fault, Finding, Report, RootsFault, Summary, TreeName, UncachedReads, Watch,
};
use buffers::Buffers;
use images::{
    blocks_are_where_pointers_lead, files_hold_one_volume, images_that_open_have_no_fault,
    inline_bytes_are_the_first_block, inodes_are_what_their_bytes_spell,
    snapshots_are_what_their_bytes_spell,
};
use layout::{Geometry, Root, SNAPSHOT_SLOTS};
use loading::{RootError, newest_root};
use station::Station;
use std::alloc::Global;

/// Looks for faults in the image of a station. It makes durable what reads give, and writes
/// nothing. `Good` says that none of the nine faults stands in the image, with its figures; `Bad`
/// tells one that does, and comes for no image that opens to a state. It is the first of those that
/// were told to the watch, of which there are none behind `Good`. Err comes for want of memory and
/// where a device call failed. No data of files and no link's text is read, but a block into a part
/// of which a record of the log writes: whether others can be read isn't known of a good image.
pub fn check<S: Station, W: Watch>(
    alloc: Global,
    mut station: S,
    watch: &mut W,
) -> Result<(Report, S), (CheckError, S)>
    ensures same { MatchResult result (λ r. IsSameStation (S.meaning station) (S.meaning r.1))
        (λ e. IsSameStation (S.meaning station) (S.meaning e.1)) }
    ensures goes { MatchResult result (λ r. Goes Unchanged (S.meaning station) (S.meaning r.1))
        (λ e. Goes Unchanged (S.meaning station) (S.meaning e.1)) }
    ensures device { IfErr result (λ e. e.0 ≡ CheckError.Device
        → HasFailed (S.meaning station) (S.meaning e.1)) }
    ensures settled { IfOk result (λ r.
        LeavesJust (S.meaning r.1) (S.meaning station).seen) }
    ensures told { W.told watch.old ≡ Some [] → IfOk result (λ r.
        IsFirstTold (W.told watch.new) (found_in r.0)) }
    ensures reports { (S.meaning station).is_honest → IfOk result (λ r.
        Reports (S.meaning station).sectors (S.meaning station).seen.disk
        (S.meaning station).seen.nvram r.0) }
    ensures opens { (S.meaning station).is_honest → (s : State)
        → Opens (S.meaning station).sectors (S.meaning station).seen.disk
        (S.meaning station).seen.nvram s → IfOk result (λ r. IsGood r.0) }
{
    images_that_open_have_no_fault();
    files_hold_one_volume();
    let mut findings = Findings::new(watch);
    let root = match find_root(&mut station, &mut findings) {
        Ok(Some(root)) => root,
        Ok(None) => return Ok((report(findings.first, None), station)),
        Err(error) => return Err((error, station)),
    };
    let mut blocks = Buffers::new(alloc, station);
    match check_image(alloc, &mut blocks, &root, &mut findings) {
        Ok(summary) => Ok((report(findings.first, summary), blocks.into_station())),
        Err(error) => Err((error, blocks.into_station())),
    }
}

/// What a check comes to: what was found first, or the figures of an image without faults.
fn report(first: Option<Finding>, summary: Option<Summary>) -> Report
    requires { first ≡ None → IsSome summary }
    ensures { result ≡ report_of first summary }
{
    match (first, summary) {
        (Some(finding), _) => Report::Bad(finding),
        (None, Some(summary)) => Report::Good(summary),
        (None, None) => unreachable!(),
    }
}

/// Makes durable what reads give: a cut may have left writes that a later one could take back.
fn make_durable<S: Station>(station: &mut S) -> Result<(), CheckError>
    ensures { Settles (S.meaning station.old) (S.meaning station.new) result }
{
    let Ok(()) = station.sync() else {
        return Err(CheckError::Device);
    };
    Ok(())
}

/// Makes durable what reads give, and finds the newest root; None where the roots have a fault.
fn find_root<S: Station, W: Watch>(
    station: &mut S,
    findings: &mut Findings<'_, W>,
) -> Result<Option<Root>, CheckError>
    ensures settles { Settles (S.meaning station.old) (S.meaning station.new) result }
    ensures root { IfOk result (λ found. IfSome found (λ r. IsRoot r
        × FitsStation r (S.meaning station.new))) }
    ensures found { (S.meaning station.old).is_honest → IfOk result (λ found. IfSome found
        (λ r. IsNewest r ((S.meaning station.old).seen.disk SLOT_A)
        ((S.meaning station.old).seen.disk SLOT_B))) }
    ensures some { IfOk result (λ found. found ≡ None → IsSome findings.new.first) }
    ensures kept { IfOk result (λ found. IfSome found (λ _. findings.new.first ≡ findings.old.first)) }
    ensures tells { KeepsTelling W.Watch findings.old findings.new }
    ensures none { (S.meaning station.old).is_honest → findings.old.first ≡ None
        → IfOk result (λ found. found ≡ None → IfSome findings.new.first
        (IsFinding (S.meaning station.old).sectors (S.meaning station.old).seen.disk
        (S.meaning station.old).seen.nvram)) }
{
    make_durable(station)?;
    match newest_root(station) {
        Ok(newest) => Ok(Some(newest.root)),
        Err(RootError::Device) => Err(CheckError::Device),
        Err(RootError::NoRoot) => {
            findings.find(TreeName::Image, Fault::Roots(RootsFault::None));
            Ok(None)
        }
        Err(RootError::Damaged) => {
            findings.find(TreeName::Image, Fault::Roots(RootsFault::Unfit));
            Ok(None)
        }
    }
}

/// Looks for faults under the newest root; None where there are some.
fn check_image<S: Station, W: Watch>(
    alloc: Global,
    blocks: &mut Buffers<S>,
    root: &Root,
    findings: &mut Findings<'_, W>,
) -> Result<Option<Summary>, CheckError>
    requires root { IsRoot root.now }
    requires fits { FitsStation root.now (S.meaning blocks.old.station) }
    requires none { findings.old.first ≡ None }
    ensures reads { ReadsOn (S.meaning blocks.old.station) (S.meaning blocks.new.station) }
    ensures device { result ≡ Err CheckError.Device → HasGrown
        (S.meaning blocks.old.station).failed_reads (S.meaning blocks.new.station).failed_reads }
    ensures some { IfOk result (λ summary. findings.new.first ≡ None → IsSome summary) }
    ensures tells { KeepsTelling W.Watch findings.old findings.new }
    ensures found { (disk : ℕ → List ℕ)
        → ShowsDisk (S.meaning blocks.old.station) blocks.old.kept disk → IfOk result (λ _.
        IfSome findings.new.first (λ f. IsFindingUnder root.now (whole disk root.now)
        (S.meaning blocks.old.station).seen.nvram f.tree f.fault)) }
    ensures faultless { (disk : ℕ → List ℕ)
        → ShowsDisk (S.meaning blocks.old.station) blocks.old.kept disk
        → IfOk result (λ summary. findings.new.first ≡ None → IfSome summary
        (IsFaultlessBy root.now (whole disk root.now) (S.meaning blocks.old.station).seen.nvram)) }
{
    check_snapshots(blocks, root, findings)?;
    if findings.first.is_some() {
        return Ok(None);
    }
    let (is_faultless, free) = check_trees(alloc, blocks, root, findings)?;
    if !is_faultless {
        return Ok(None);
    }
    match check_log(alloc, blocks, root) {
        Ok(logged) if findings.first.is_none() => Ok(Some(Summary {
            generation: root.generation.get(),
            snapshots: count_snapshots(root),
            records: logged.records,
            free,
            has_reserve: has_reserve(&logged, root.geometry, free),
        })),
        Ok(_) => Ok(None),
        Err(CheckEnd::Fault(fault)) => {
            findings.find(TreeName::Image, fault);
            Ok(None)
        }
        Err(CheckEnd::NoMemory) => Err(CheckError::NoMemory),
        Err(CheckEnd::Device) => Err(CheckError::Device),
    }
}

/// Whether so many free blocks are as many as the next consistency point may store: for what the
/// log has, and whatever changed.
fn has_reserve(logged: &Logged, geometry: Geometry, free: u32) -> bool
    ensures { IsTrue result ↔ (logged.now.pledged + fixed_of geometry.blocks ≤ free) }
{
    let fixed = u64::from(geometry.limits().costs.point);
    let free = u64::from(free);
    fixed <= free && logged.pledged <= free - fixed
}

/// Tests the snapshots' root blocks.
fn check_snapshots<B: UncachedReads, W: Watch>(
    blocks: &mut B,
    root: &Root,
    findings: &mut Findings<'_, W>,
) -> Result<(), CheckError>
    requires root { IsRoot root.now }
    requires size { B.count blocks.old ≡ root.now.geometry.blocks }
    ensures reads { ReadsForFaults B.Blocks IsFault blocks.old blocks.new result }
    ensures found { (disk : ℕ → List ℕ) (nvram : List ℕ) → B.Shows blocks.old disk
        → AreFindings root.now (whole disk root.now) nvram findings.old.first
        → OnOk result (AreFindings root.now (whole disk root.now) nvram findings.new.first) }
    ensures none { (disk : ℕ → List ℕ) → B.Shows blocks.old disk
        → OnOk result (findings.new.first ≡ None → AreSnapshots root.now (whole disk root.now)) }
    ensures tells { KeepsTelling W.Watch findings.old findings.new }
{
    snapshots_are_what_their_bytes_spell();
    for k in 0..SNAPSHOT_SLOTS {
        if let Some(fault) = fault_in_slot(blocks, root, k)? {
            findings.find(TreeName::Image, fault);
        }
    }
    Ok(())
}

/// Looks for faults in each tree, and in the block map. It tells whether the newest root's tree has
/// none, and how many blocks are free.
fn check_trees<B: UncachedReads, W: Watch>(
    alloc: Global,
    blocks: &mut B,
    root: &Root,
    findings: &mut Findings<'_, W>,
) -> Result<(bool, u32), CheckError>
    requires root { IsRoot root.now }
    requires size { B.count blocks.old ≡ root.now.geometry.blocks }
    ensures reads { ReadsForFaults B.Blocks IsFault blocks.old blocks.new result }
    ensures found { (disk : ℕ → List ℕ) (nvram : List ℕ) → B.Shows blocks.old disk
        → AreSnapshots root.now (whole disk root.now)
        → AreFindings root.now (whole disk root.now) nvram findings.old.first
        → OnOk result (AreFindings root.now (whole disk root.now) nvram findings.new.first) }
    ensures newest { (disk : ℕ → List ℕ) → B.Shows blocks.old disk
        → AreSnapshots root.now (whole disk root.now) → IfOk result (λ t. IsTrue t.0
        → IsFaultless root.now.geometry (whole disk root.now).active
        × IsWithin root.now.version (whole disk root.now).active) }
    ensures told { IfOk result (λ t. findings.new.first ≡ None → IsTrue t.0) }
    ensures tells { KeepsTelling W.Watch findings.old findings.new }
    ensures faultless { (disk : ℕ → List ℕ) → B.Shows blocks.old disk
        → AreSnapshots root.now (whole disk root.now)
        → IfOk result (λ t. findings.new.first ≡ None
        → AreFaultless root.now (whole disk root.now) t.1) }
{
    let geometry = root.geometry;
    let mut marks = Marks::new(alloc, geometry.blocks())?;
    let mut shared = SharedBlocks::none(alloc)?;
    let mut trees = open_trees(alloc, blocks, root, &mut marks, &mut shared)?;
    check_numbers(alloc, blocks, root, &mut trees, &mut marks, &mut shared)?;
    let are_apart = check_each(alloc, blocks, geometry, &mut trees, &shared, findings)?;
    mark_system(root, &mut marks);
    let is_faultless = trees[0].fault.is_none();
    if !are_apart {
        return Ok((is_faultless, 0));
    }
    match compare_map(alloc, blocks, geometry, &trees[0], &marks) {
        Ok(free) => Ok((is_faultless, free)),
        Err(CheckEnd::Fault(fault)) => {
            findings.find(TreeName::Image, fault);
            Ok((is_faultless, 0))
        }
        Err(CheckEnd::NoMemory) => Err(CheckError::NoMemory),
        Err(CheckEnd::Device) => Err(CheckError::Device),
    }
}

/// Looks for the faults of each tree that its inodes alone don't tell, and tells all that were
/// found. It tells whether each tree is in its grammar and names no block twice.
fn check_each<B: UncachedReads, W: Watch>(
    alloc: Global,
    blocks: &mut B,
    geometry: Geometry,
    trees: &mut Vec<Tree>,
    shared: &SharedBlocks,
    findings: &mut Findings<'_, W>,
) -> Result<bool, CheckError>
    ensures reads { ReadsForFaults B.Blocks IsFault blocks.old blocks.new result }
    ensures trees { OnOk result (KeepsTrees trees.old.items trees.new.items) }
    ensures found { (disk : ℕ → List ℕ) (r : Root) (marks nvram : List ℕ) → B.Shows blocks.old disk
        → IsRootOf r geometry (B.count blocks.old)
        → AreSeenTo disk r (div_ceil geometry.inodes INODES_PER_BLOCK) marks shared.now.of trees.old.items
        → AreFindings r (whole disk r) nvram findings.old.first
        → OnOk result (AreFindings r (whole disk r) nvram findings.new.first) }
    ensures seen { (disk : ℕ → List ℕ) (r : Root) (marks : List ℕ) → B.Shows blocks.old disk
        → IsRootOf r geometry (B.count blocks.old)
        → AreSeenTo disk r (div_ceil geometry.inodes INODES_PER_BLOCK) marks shared.now.of trees.old.items
        → OnOk result (AreTrees r trees.new.items (HasEnded disk r marks)) }
    ensures told { IfOk result (TellsTrees findings.new.first trees.new.items) }
    ensures tells { KeepsTelling W.Watch findings.old findings.new }
{
    let parts = trees.len().min(PLANES) as u32 + 1;
    let mut are_apart = true;
    let mut known = None;
    for k in 0..trees.len() {
        findings.goes_on(k.min(PLANES) as u32 + 1, parts);
        let tree = &mut trees[k];
        check_tree(alloc, blocks, geometry, tree, shared, &mut known)?;
        if let Some(fault) = tree.fault {
            findings.find(tree.name, fault);
            are_apart = are_apart && fault.number() > 4;
        }
        blocks.forget();
    }
    Ok(are_apart)
}

/// Looks for the faults of a tree that its inodes alone don't tell.
fn check_tree<B: UncachedReads>(
    alloc: Global,
    blocks: &mut B,
    geometry: Geometry,
    tree: &mut Tree,
    shared: &SharedBlocks,
    known: &mut Option<NumberTable>,
) -> Result<(), CheckError>
    ensures reads { ReadsForFaults B.Blocks IsFault blocks.old blocks.new result }
    ensures known { (disk : ℕ → List ℕ) → B.Shows blocks.old disk
        → IsKnown disk known.old → IsKnown disk known.new }
    ensures same { record tree.old { fault = tree.new.fault } ≡ tree.new }
    ensures checked { (disk : ℕ → List ℕ) (r : Root) (marks : List ℕ) → B.Shows blocks.old disk
        → IsKnown disk known.old → IsRootOf r geometry (B.count blocks.old)
        → IsSeenTo disk r (div_ceil geometry.inodes INODES_PER_BLOCK)
        (INODES_PER_BLOCK * div_ceil geometry.inodes INODES_PER_BLOCK) marks shared.now.of tree.old
        → OnOk result (HasEnded disk r marks tree.new) }
{
    inodes_are_what_their_bytes_spell();
    blocks_are_where_pointers_lead();
    inline_bytes_are_the_first_block();
    if tree.is_out() {
        return Ok(());
    }
    if let Some(shared) = shared.of[tree.plane as usize] {
        let first = first_owner(alloc, blocks, geometry, tree, &shared)?;
        tree.add(Fault::Shared {
            block: shared.block,
            first,
            second: shared.second,
        });
        return Ok(());
    }
    if tree.fault.is_some() {
        return Ok(());
    }
    let checked = check_names(alloc, blocks, geometry, tree, known);
    let Some(fault) = fault_of(checked)? else {
        return Ok(());
    };
    tree.add(fault);
    Ok(())
}
