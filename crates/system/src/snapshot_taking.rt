//! Commands that change the snapshots: their tests, and what is done after these.

ghost use Rattle.std.specs.Prelude.{◌≡◌, ◌≤◌, IfErr, IfOk, MatchResult, None, length};
ghost use Rattle.layout.specs.Places.{blocks_of};
ghost use Rattle.model.specs.Paths.{first_refusal};
ghost use Rattle.model.specs.States.{State};
ghost use Rattle.model.specs.Steps.{take_tests};
ghost use Rattle.model.specs.declared.command.Command.{Command};
ghost use Rattle.model.specs.declared.limits.TheConstants.{SNAPSHOT_NAME_BYTES};
ghost use Rattle.images.specs.Roots.{whole};
ghost use Rattle.images.specs.Snapshots.{HasSnapshot};
ghost use Rattle.images.specs.SnapshotSteps.{IsSlotNumber};
ghost use Rattle.snapshots.specs.Found.{snapshot_found};
ghost use Rattle.snapshots.specs.Prepared.{FitsPrepared, Refuses, command_of, command_prepared};
ghost use Rattle.snapshots.specs.Taken.{MayTake};
ghost use Rattle.system.specs.Serving.{IsNoFault, ServesState};
ghost use Rattle.system.specs.CheckpointCommands as checkpointing;
ghost use Rattle.system.specs.CheckpointCommands.{Glances, IsPrepared, LacksOrder, Checkpoints};
ghost use Rattle.system.specs.Systems.{disk_of};

use crate::error::call_error;
use crate::laws::{cuts_open, served_states_open};
use crate::{CallError, PointError, System};
use conspoint::PlanError;
use layout::Generation;
use model::Errno;
use planning::SnapshotChange;
use snapshots::{FoundSnapshot, PreparedSnapshot, SnapshotRequest, Taking, prepare_snapshot};
use station::Station;

/// What a command answers after its own point, for which the disk had room.
pub(crate) fn made_of(made: Result<(), PointError>) -> Result<bool, PointError>
    ensures { result ≡ checkpointing.made_of made }
{
    match made {
        Ok(()) => Ok(true),
        Err(error) => Err(error),
    }
}

impl<S: Station> System<S> {
    /// Makes the tests of a command that changes the snapshots, in their order: what it needs to
    /// know after them, or the first refusal. It reads the root blocks of the snapshots, and
    /// nothing else.
    pub fn prepare_snapshot<'a>(
        &mut self,
        request: &SnapshotRequest<'a>,
    ) -> Result<Result<PreparedSnapshot<'a>, Errno>, CallError>
        ensures glances { Glances self.old self.new result }
        ensures own { IfOk result (λ tested. IfErr tested IsNoFault) }
        ensures same { IfOk result (λ tested. IfOk tested (λ p. command_prepared p
            ≡ command_of request.now)) }
        ensures fits { IfOk result (λ tested. IfOk tested FitsPrepared) }
        ensures tests { (s : State) → ServesState self.old s → IfOk result (λ tested.
            MatchResult tested (IsPrepared self.new s) (Refuses s (command_of request.now))) }
    {
        let has_open = self.files.has_open();
        match prepare_snapshot(&mut self.blocks, &self.root, request, has_open) {
            Ok(tested) => Ok(tested),
            Err(error) => Err(call_error(error)),
        }
    }

    /// Does what was prepared: true after the second sync of the point whose root has it, false if
    /// the disk has no room for it. A snapshot that is taken has the tree without open files; one
    /// whose tree is restored stays; the blocks that only a deleted one had are free then. After an
    /// error nothing has changed, but for `NotWritten`: then a cut leaves the state before the
    /// command, or the one after it.
    pub fn make_snapshot(&mut self, prepared: &PreparedSnapshot<'_>) -> Result<bool, PointError>
        requires { FitsPrepared prepared.now }
        ensures { Checkpoints self.old self.new (λ s. IsPrepared self.old s prepared.now)
            (command_prepared prepared.now) result }
    {
        match *prepared {
            PreparedSnapshot::Take { name, taking } => self.take(name, &taking),
            PreparedSnapshot::Delete { name, found } => self.delete(name, &found),
            PreparedSnapshot::Restore { name, found } => self.restore(name, &found),
        }
    }

    /// Takes a snapshot, once the newest root covers all, by another consistency point.
    fn take(&mut self, name: &[u8], taking: &Taking) -> Result<bool, PointError>
        requires slot { IsSlotNumber taking.now.slot }
        requires short { length name.now ≤ SNAPSHOT_NAME_BYTES }
        ensures { Checkpoints self.old self.new (λ s.
            MayTake (blocks_of (disk_of self.old)) self.old.root name.now taking.now
            × (first_refusal (take_tests s name.now) ≡ None)) (Command.SnapTake name.now) result }
    {
        cuts_open();
        self.checkpoint()?;
        if !self.has_room_to_take() {
            return Ok(false);
        }
        let Some(_) = Generation::new(taking.order) else {
            return Err(self.lacks_order());
        };
        let change = SnapshotChange::Take {
            slot: taking.slot,
            order: taking.order,
            name,
        };
        made_of(self.point_with(&change))
    }

    /// Why a snapshot gets no order number, which has the limits of a generation: none is left, or
    /// else the image has a snapshot of a number that no point gave.
    fn lacks_order(&self) -> PointError
        ensures { LacksOrder self.now result }
    {
        match Generation::new(self.log.epoch().get()) {
            Some(_) => PointError::NotPlanned(PlanError::Damaged),
            None => PointError::NoGeneration,
        }
    }

    /// Deletes a snapshot by a consistency point, after the one under way, whose root holds all
    /// that the system has.
    fn delete(&mut self, name: &[u8], found: &FoundSnapshot) -> Result<bool, PointError>
        requires { IsSlotNumber found.now.slot }
        ensures { Checkpoints self.old self.new (λ s.
            HasSnapshot self.old.root (whole (blocks_of (disk_of self.old)) self.old.root)
            found.now.slot (snapshot_found name.now found.now)) (Command.SnapDelete name.now) result }
    {
        self.finish()?;
        made_of(self.point_with(&SnapshotChange::Delete { slot: found.slot }))
    }
}
