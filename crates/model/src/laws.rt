//! Laws of the definitions. Each function's contract is one; it does nothing.

ghost use Rattle.model.specs.Laws.{RefusesByItsOwn, RefusalsChangeNothing, HasOneOutcome, RecordsKeepVolumes, SweepsKeepVolumes};
ghost use Rattle.model.specs.Laws.{AreOwners, IsNewTime, IsPathCall, IsCommand, CommandsLeaveStates, AllowedAreStates, MountsFindStates};
ghost use Rattle.model.specs.Laws.{VolumesAreTrees, RecordsChangeTrees, VolumesTellFresh, VolumesTellLinks, VolumesTellNumbers};
ghost use Rattle.model.specs.Laws.{VolumesTellUsed};
ghost use Rattle.model.specs.Laws.{ResolvesByNumbers, ResolvesFromNumbers, TrailsTellBelow, BelowIsByPaths};
ghost use Rattle.model.specs.Laws.{PartsTellOnce};
ghost use Rattle.model.specs.Laws.{ReplayFollows, ReplayEndsSame, ReplaysCostTheSame};
ghost use Rattle.model.specs.Laws.{ReplaysKeepVolumes, MountsFind, MountsForget};

use crate::{Command, NewTime, PathCall};

/// Where nothing comes in its way, a command refuses by its own errnos alone: none that tells of
/// devices, memory or room.
pub fn commands_refuse_by_their_own()
    ensures { RefusesByItsOwn }
{}

/// Where nothing comes in its way, a command has at most one outcome.
pub fn commands_have_one_outcome()
    ensures { HasOneOutcome }
{}

/// A record that applies leaves a volume.
pub fn records_keep_volumes()
    ensures { RecordsKeepVolumes }
{}

/// Dropping the orphans that no descriptor has open leaves a volume.
pub fn sweeps_keep_volumes()
    ensures { SweepsKeepVolumes }
{}

/// The tree of a mounted volume is a tree, with its limits.
pub fn volumes_are_trees()
    ensures { VolumesAreTrees }
{}

/// Each record does to the tree what the call does in whose words it is said.
pub fn records_change_trees()
    ensures { RecordsChangeTrees }
{}

/// A record that applies to the running volume applies to the replayed one, which keeps following
/// it.
pub fn replays_follow()
    ensures { ReplayFollows }
{}

/// Once the orphans are dropped, the replayed volume is the running one without them.
pub fn replays_end_same()
    ensures { ReplayEndsSame }
{}

/// Resolution by the numbers of a volume leads where resolution by the paths of its tree does.
pub fn resolution_is_by_numbers()
    ensures { ResolvesByNumbers }
{}

/// A search from a directory's number leads where the resolution from its path does.
pub fn resolution_is_from_numbers()
    ensures { ResolvesFromNumbers }
{}

/// What has a number stands at a path, but for an orphan.
pub fn volumes_tell_numbers()
    ensures { VolumesTellNumbers }
{}

/// What lies on the trail to a directory is what that directory lies below.
pub fn trails_tell_what_lies_below()
    ensures { TrailsTellBelow }
{}

/// The least number that no object of a mounted volume has is the number of a new object.
pub fn volumes_tell_fresh_numbers()
    ensures { VolumesTellFresh }
{}

/// The numbers that the tree of a mounted volume uses are those that an object has.
pub fn volumes_tell_used_numbers()
    ensures { VolumesTellUsed }
{}

/// A file's count of names is its count of paths.
pub fn volumes_tell_links()
    ensures { VolumesTellLinks }
{}

/// Records that apply one after the other leave a volume.
pub fn replays_keep_volumes()
    ensures { ReplaysKeepVolumes }
{}

/// Behind the last record, without the files that have no name, a volume is a mounted one with no
/// file open.
pub fn mounts_find_volumes()
    ensures { MountsFind }
{}

/// What a mount finds is the tree of the running volume with its open files forgotten.
pub fn mounts_forget_open_files()
    ensures { MountsForget }
{}

/// A record costs the same in a replay as when it was logged.
pub fn replays_cost_the_same()
    ensures { ReplaysCostTheSame }
{}

/// What lies below an object by its number is what lies below its path.
pub fn numbers_tell_what_lies_below()
    ensures { BelowIsByPaths }
{}

/// Where nothing comes in its way, a command that is refused changes nothing and needs nothing.
pub fn refusals_change_nothing()
    ensures { RefusalsChangeNothing }
{}

/// Each outcome of a command on a state is a state: where nothing comes in its way, and under
/// whatever the definitions allow. So is a file system as it is made, and what a mount finds of a
/// state.
pub fn outcomes_are_states()
    ensures done { CommandsLeaveStates }
    ensures allowed { AllowedAreStates }
    ensures mounted { MountsFindStates }
{}

/// The types of an owner and a group hold them to the bounds that this asks, where they are given.
fn owners_are_bounded(owner: Option<u32>, group: Option<u32>)
    ensures { AreOwners owner group }
{}

/// And that of a time.
fn new_times_are_bounded(time: NewTime)
    ensures { IsNewTime time }
{}

/// The types of what they say hold each path call to the bounds that this asks of it.
pub fn path_calls_are_bounded(call: &PathCall)
    ensures { IsPathCall call.now }
{
    match call {
        PathCall::Mkdir { mode, .. } => {
            let _ = mode.bits();
        }
        PathCall::Chmod { mode, .. } => {
            let _ = mode.bits();
        }
        PathCall::Chown { owner, group, .. } => owners_are_bounded(*owner, *group),
        PathCall::Utimens { time, .. } => new_times_are_bounded(*time),
        PathCall::Set { settings, .. } => {
            if let Some(mode) = settings.mode {
                let _ = mode.bits();
            }
        }
        _ => {}
    }
}

/// And each command.
pub fn commands_are_bounded(command: &Command)
    ensures { IsCommand command.now }
{
    match command {
        Command::Path(call) => path_calls_are_bounded(call),
        Command::Within { call, .. } => path_calls_are_bounded(call),
        Command::Open { mode, .. }
        | Command::OpenStat { mode, .. }
        | Command::Fchmod { mode, .. } => {
            let _ = mode.bits();
        }
        Command::Fchown { owner, group, .. } => owners_are_bounded(*owner, *group),
        Command::Futimens { time, .. } => new_times_are_bounded(*time),
        Command::At { seconds, .. } => {
            let _seconds = *seconds;
        }
        Command::As { owner, group } => {
            let _owner = *owner;
            let _group = *group;
        }
        _ => {}
    }
}

/// A directory told in parts tells each name that stays just once.
pub fn parts_tell_names_once()
    ensures { PartsTellOnce }
{}
