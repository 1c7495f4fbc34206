//! Objects that a consistency point settled, until they are freed.

ghost use Rattle.std.specs.BTreeMap as tree;

use crate::ObjectSlot;
use std::alloc::Global;
use std::collections::BTreeMap;
use std::marker::Model;
use std::mem;

/// What was in memory before the last consistency point was planned: freed when that ends, so that
/// the command which plans it doesn't wait for it. Contracts see nothing of it.
#[derive(Debug, Drop)]
pub(crate) struct Past {
    slots: BTreeMap<u32, ObjectSlot>,
}

impl Model for Past {
    ghost Value = { Unit {0} };

    ghost view = { λ p. tt };
}

impl Past {
    /// Nothing.
    pub(crate) fn new(alloc: Global) -> Past {
        Past {
            slots: BTreeMap::new(alloc),
        }
    }

    /// Takes all that is in memory. It frees what it had before.
    pub(crate) fn take_in(&mut self, slots: &mut BTreeMap<u32, ObjectSlot>)
        ensures { tree.IsEmpty slots.new }
    {
        mem::swap(&mut self.slots, slots);
        slots.clear();
    }

    /// Frees all that it has.
    pub(crate) fn clear(&mut self) {
        self.slots.clear();
    }
}
