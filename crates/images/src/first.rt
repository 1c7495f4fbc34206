//! What a first root holds.

ghost use Rattle.std.specs.Prelude.{◌≡◌, ◌*◌, ℕ, List, []};
ghost use Rattle.layout.specs.StateLimits.{limits_of};
ghost use Rattle.layout.specs.Limits.{Sizes};
ghost use Rattle.layout.specs.Log.{LogHolds};
ghost use Rattle.layout.specs.Opens.{IsNewest};
ghost use Rattle.layout.specs.Places.{Blocks, blocks_of};
ghost use Rattle.layout.specs.declared.TheConstants.{SLOT_A, SLOT_B};
ghost use Rattle.layout.specs.declared.inode.Inode.{Inode};
ghost use Rattle.layout.specs.declared.root.Root.{Root};
ghost use Rattle.layout.specs.declared.trees.Layout.{Layout};
ghost use Rattle.images.specs.FirstRoots.{IsFirst, root_alone_volume};
ghost use Rattle.images.specs.Nodes.{Names, held};
ghost use Rattle.images.specs.Roots.{free_inode, whole};
ghost use Rattle.images.specs.Soundness.{IsSoundFile};
ghost use Rattle.images.specs.States.{HasReserve, Holds, OpensBy};
ghost use Rattle.model.specs.States.{empty};

/// A root whose image has nothing but an empty root directory holds that, and no snapshots. It does
/// nothing.
pub fn first_roots_hold()
    ensures { (r : Root) (e : Blocks) (numbers map : Inode) → IsFirst r e numbers map
        → Holds r (whole e r) root_alone_volume [] }
{}

/// A free inode is in the grammar and names no block: a file may be placed over it. It does
/// nothing.
pub fn free_files_hold_nothing()
    ensures sound { (s : Sizes) (d : Blocks) → IsSoundFile s (held d (free_inode s.layout)) }
    ensures none { (layout : Layout) (d : Blocks) (b : ℕ) → Names (held d (free_inode layout)) b → ⊥ }
{}

/// A disk whose newest root holds nothing but an empty root directory, with a log that holds no
/// records, opens by none to the state with an empty root directory and no snapshots. It does
/// nothing.
pub fn first_images_open_to_the_empty_state()
    ensures { (sectors : ℕ) (disk : ℕ → List ℕ) (nvram : List ℕ) (r : Root)
        → IsNewest r (disk SLOT_A) (disk SLOT_B) → sectors ≡ 8 * r.geometry.blocks
        → Holds r (whole (blocks_of disk) r) root_alone_volume []
        → HasReserve r (whole (blocks_of disk) r) root_alone_volume []
        → LogHolds r.geometry.half r.generation nvram []
        → OpensBy sectors disk nvram (empty (limits_of r.geometry)) [] }
{}
