//! What a served state is to whoever cuts the system off.

ghost use Rattle.std.specs.Prelude.{ℕ, Option};
ghost use Rattle.station.specs.Moments.{EachCut};
ghost use Rattle.model.specs.States.{State};
ghost use Rattle.model.specs.Trees.{Description};
ghost use Rattle.system.specs.Ahead.{HasStateAhead};
ghost use Rattle.system.specs.Images.{OpensTo};
ghost use Rattle.system.specs.Laws.{CutLaws, RecordLaws, RootLaws};
ghost use Rattle.system.specs.Systems.{HasState, meaning_of};
ghost use Rattle.system.specs.UnderWay.{WayLaws};
ghost use Rattle.system.specs.Waits.{Waits, none_waits};

use crate::System;
use conspoint::{cuts_are_those_of_images, finished_disks_are_one, written_disks_have_the_blocks};
use images::{
    finished_points_hold, finished_points_open, free_blocks_are_no_matter,
    free_blocks_are_unneeded, lost_slots_open_as_before, needed_blocks_are_of_the_disk,
    roots_cover_epochs,
};
use loading::{readable_inodes_are_settled, volumes_are_readable};
use model::{
    mounts_forget_open_files, records_keep_volumes, replays_cost_the_same, replays_follow,
    sweeps_keep_volumes,
};
use oplog::roots_cover_the_older_epoch;
use station::Station;

/// Whatever a cut may leave of a system opens to the state that it serves. It does nothing.
pub fn served_states_open<S: Station>(system: &System<S>)
    ensures { (table : ℕ → Option Description) (s : State) → HasState system.now table s
        → EachCut (meaning_of system.now) (OpensTo (meaning_of system.now) s) }
{
    cuts_open();
}

/// A system that serves a state is ahead of it by nothing, where no record waits, and where none
/// waits it serves the state that it shows. Whatever a cut may leave of one that is ahead opens to
/// the state that was kept. It does nothing.
pub fn kept_states_open<S: Station>(system: &System<S>)
    ensures begins { (table : ℕ → Option Description) (s : State) → HasState system.now table s
        → HasStateAhead system.now none_waits table s s }
    ensures ends { (table : ℕ → Option Description) (s kept : State)
        → HasStateAhead system.now none_waits table s kept → HasState system.now table s }
    ensures opens { (waits : Waits) (table : ℕ → Option Description) (s kept : State)
        → HasStateAhead system.now waits table s kept
        → EachCut (meaning_of system.now) (OpensTo (meaning_of system.now) kept) }
{
    cuts_open();
}

/// What a cut leaves opens. It does nothing.
pub fn cuts_open()
    ensures { CutLaws }
{
    mounts_forget_open_files();
    free_blocks_are_no_matter();
    cuts_are_those_of_images();
    lost_slots_open_as_before();
    finished_points_open();
    roots_cover_epochs();
}

/// What stands under a new root is what was planned. It does nothing.
pub(crate) fn new_roots_hold()
    ensures { RootLaws }
{
    finished_points_hold();
    needed_blocks_are_of_the_disk();
    free_blocks_are_unneeded();
    volumes_are_readable();
    readable_inodes_are_settled();
    written_disks_have_the_blocks();
}

/// A point that is under way goes on from its root to the next. It does nothing.
pub(crate) fn points_go_on()
    ensures { WayLaws }
{
    roots_cover_the_older_epoch();
    finished_disks_are_one();
}

/// A record that applies leads from volume to volume, and a replay follows. It does nothing.
pub fn records_lead_on()
    ensures { RecordLaws }
{
    replays_follow();
    replays_cost_the_same();
    records_keep_volumes();
    sweeps_keep_volumes();
}
