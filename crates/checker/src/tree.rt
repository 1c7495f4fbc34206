//! A tree that a check looks at.

ghost use Rattle.std.specs.Prelude.{◌≤◌};
ghost use Rattle.layout.specs.declared.version.TheConstants.{SNAPSHOT_SLOTS};

use crate::findings::earlier_fault;
use crate::{Fault, TreeName};
use inode::File;
use layout::Inode;

/// A tree: its inode file, and the bytes of its inode map.
#[derive(Debug, Drop)]
pub(crate) struct Tree {
    pub(crate) name: TreeName,
    /// The bit of a block's entry that tells whether the tree names the block: 0 for the newest
    /// root's, else the snapshot's slot.
    pub(crate) plane: u32,
    pub(crate) top: Inode,
    pub(crate) file: File,
    pub(crate) numbers: Vec<u8>,
    /// Its first fault so far.
    pub(crate) fault: Option<Fault>,
    ghost known: { plane ≤ SNAPSHOT_SLOTS },
}

impl Tree {
    ghost use Rattle.std.specs.Prelude.{◌≡◌, ◌↔◌, ℕ, IsTrue, Some};
    ghost use Rattle.images.specs.BlockMap.{HasBit};
    ghost use Rattle.checker.specs.Findings.{first_fault};
    ghost use Rattle.checker.specs.Trees.{IsOut};

    /// The bit of a block's entry that is the tree's.
    pub(crate) fn bit(&self) -> u32
        ensures { (k : ℕ) → HasBit k result ↔ (k ≡ self.now.plane) }
    {
        1 << self.plane
    }

    /// Whether the tree is outside its grammar, so that no other fault of it is looked for.
    pub(crate) fn is_out(&self) -> bool
        ensures { IsTrue result ↔ IsOut self.now.fault }
    {
        matches!(self.fault, Some(Fault::Tree(_)))
    }

    /// The tree has a fault: it counts where none of a lesser number is known.
    pub(crate) fn add(&mut self, fault: Fault)
        ensures { self.new ≡ record self.old { fault = Some (first_fault self.old.fault fault) } }
    {
        let before = self.fault;
        self.fault = Some(earlier_fault(before, fault));
    }
}
