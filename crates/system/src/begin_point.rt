//! The planning of a consistency point.

ghost use Rattle.std.specs.Prelude.{◌≡◌, ◌≤◌, IfOk, None};
ghost use Rattle.layout.specs.Trees.{greatest_size};
ghost use Rattle.conspoint.specs.Plans.{IsPlanned};
ghost use Rattle.loading.specs.Images.{IsFileOfInode};
ghost use Rattle.planning.specs.Changes.{FitsSlots};
ghost use Rattle.system.specs.Slicing.{Begins};
ghost use Rattle.system.specs.Slots as slots;

use crate::laws::{cuts_open, new_roots_hold, points_go_on};
use crate::{PointError, System};
use blockmap::BlockMap;
use conspoint::{Plan, PlanError};
use inode::File;
use layout::{Generation, Inode, SLOT_A, SLOT_B};
use overlay::PendingPoint;
use planning::{Point, SnapshotChange, plan};
use station::Station;
use std::alloc::{AllocError, Global};
use std::mem;

/// The sector of the slot that isn't this one.
fn other_slot(slot: u64) -> u64
    ensures { result ≡ slots.other_slot slot }
{
    if slot == SLOT_A { SLOT_B } else { SLOT_A }
}

/// A plan with all memory that it takes until its end, and the inode file that it leads to.
fn take_memory(
    alloc: Global,
    plan: Plan,
    inode_file: Inode,
) -> Result<(PendingPoint, File), AllocError>
    requires size { inode_file.size ≤ greatest_size inode_file.layout }
    ensures plan { IfOk result (λ r. (r.0.plan ≡ plan) × IsPlanned plan) }
    ensures file { IfOk result (λ r. IsFileOfInode inode_file r.1) }
{
    let file = File::load(alloc, inode_file)?;
    let pending = PendingPoint::new(alloc, plan)?;
    Ok((pending, file))
}

impl<S: Station> System<S> {
    /// Plans a consistency point that does with the snapshots what is asked for, and lays it over
    /// the blocks: from then on it is under way. Memory stands on its root, and later records go to
    /// the next epoch. Nothing is written. Where it is refused, nothing changed.
    pub(crate) fn begin_point(&mut self, change: &SnapshotChange<'_>) -> Result<(), PointError>
        requires rests { self.old.blocks.pending ≡ None }
        requires fits { FitsSlots change.now }
        ensures { Begins change.now self.old self.new result }
    {
        cuts_open();
        new_roots_hold();
        points_go_on();
        let Some(generation) = Generation::new(self.log.epoch().get()) else {
            return Err(PointError::NoGeneration);
        };
        let orphans = self.cost_of_orphans(self.files.open_orphans());
        let slot = other_slot(self.slot);
        let mut map = mem::replace(&mut self.map, BlockMap::new(Vec::new(self.alloc), 0));
        // A point that was refused may have left changes of it.
        map.give_up();
        let (map, planned) = plan(
            self.alloc,
            &mut self.blocks,
            &self.root,
            generation,
            slot,
            &self.inodes,
            map,
            change,
        );
        self.map = map;
        let point = match planned {
            Ok(point) => point,
            Err(error) => return Err(PointError::NotPlanned(error)),
        };
        let Point { plan, root } = point;
        match take_memory(self.alloc, plan, root.inode_file) {
            Ok((pending, file)) => {
                self.blocks.begin(pending);
                self.inodes.switch_to_new_root(file);
                // The snapshots may be others under its root.
                self.view = None;
                self.root = root;
                self.slot = slot;
                self.log.go_on(generation.epoch_after(1));
                self.pledged_then = orphans;
                Ok(())
            }
            Err(_) => Err(PointError::NotPlanned(PlanError::NoMemory)),
        }
    }
}
