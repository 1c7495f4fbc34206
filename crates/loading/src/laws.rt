//! A settled file as the layers below read it, and as images hold it.

ghost use Rattle.std.specs.Prelude.{ℕ, ◌≡◌, List};
ghost use Rattle.layout.specs.StateLimits.{limits_of};
ghost use Rattle.layout.specs.Places.{Blocks};
ghost use Rattle.layout.specs.Root.{IsRoot};
ghost use Rattle.layout.specs.SnapRoot.{Snapshot};
ghost use Rattle.layout.specs.declared.root.Root.{Root};
ghost use Rattle.layout.specs.declared.version.TheConstants.{VERSION};
ghost use Rattle.model.specs.Paths.{Name};
ghost use Rattle.model.specs.Trees.{Tree};
ghost use Rattle.model.specs.Volumes.{Volume};
ghost use Rattle.images.specs.Contents.{HoldsVolume, tree_contents};
ghost use Rattle.images.specs.Roots.{whole};
ghost use Rattle.images.specs.Snapshots.{HasSnapshot, IsFrozenTree};
ghost use Rattle.images.specs.States.{Holds};
ghost use Rattle.inode.specs.declared.file.File.{File};
ghost use Rattle.inofile.specs.Settled.{AreSettled, held_content};
ghost use Rattle.loading.specs.Images.{IsFileOfInode, IsReadable, inodes_of};
ghost use Rattle.loading.specs.Laws.{AreMapFiles, HaveSoundPaths, HaveWholeBodies, ReadAsHeld, TreesReadAsHeld};

use images::inodes_are_what_their_bytes_spell;
use inode::{based_trees_are_sound, nodes_are_where_pointers_lead, settled_files_are_as_held};

/// A file in its grammar reads as it is held. It does nothing.
pub fn sound_files_read_as_held()
    ensures { ReadAsHeld }
{
    settled_files_are_as_held();
}

/// All that stands over a block of a file in its grammar is in its grammar. It does nothing.
pub fn sound_files_have_sound_paths()
    ensures { HaveSoundPaths }
{
    nodes_are_where_pointers_lead();
}

/// The blocks of a file in its grammar can be read where the stored ones on the disk can. It does
/// nothing.
pub fn readable_files_are_whole()
    ensures { HaveWholeBodies }
{
    nodes_are_where_pointers_lead();
}

/// Of a map's file in its grammar all blocks are stored, and zeros stand past its end. It does
/// nothing.
pub fn files_without_holes_are_stored()
    ensures { AreMapFiles }
{
    sound_files_read_as_held();
    nodes_are_where_pointers_lead();
}

/// What is under a root that holds a volume is readable. It does nothing.
pub fn volumes_are_readable()
    ensures { (disk : Blocks) (r : Root) (first : Volume) (snapshots : List (Name × Tree))
        → Holds r (whole disk r) first snapshots → IsReadable disk r }
{}

/// Under a root that holds snapshots, the tree of each is the one under the inode of its inode
/// file, and it is readable. It does nothing.
pub fn snapshots_are_readable()
    ensures tree { (disk : Blocks) (r : Root) (k : ℕ) (s : Snapshot)
        → HasSnapshot r (whole disk r) k s
        → (whole disk (record r { inode_file = s.inode_file })).active
        ≡ (whole disk r).frozen k }
    ensures readable { (disk : Blocks) (r : Root) (first : Volume)
        (snapshots : List (Name × Tree)) (k : ℕ) (s : Snapshot) (tree : Tree)
        → Holds r (whole disk r) first snapshots → HasSnapshot r (whole disk r) k s
        → IsFrozenTree (limits_of r.geometry) ((whole disk r).frozen k) tree
        → IsReadable disk (record r { inode_file = s.inode_file }) }
{}

/// Under a root whose tree is readable, the inode file has the inodes of the tree, in the newest
/// version, and they hold what the tree holds. It does nothing.
pub fn readable_inodes_are_settled()
    ensures settled { (disk : Blocks) (r : Root) (file : File) → IsRoot r → IsReadable disk r
        → IsFileOfInode r.inode_file file
        → AreSettled r.geometry.blocks disk VERSION r.geometry file (inodes_of (whole disk r).active) }
    ensures holds { (disk : Blocks) (r : Root) (v : Volume) → IsRoot r → IsReadable disk r
        → HoldsVolume r.geometry.inodes (tree_contents (whole disk r).active) v
        → HoldsVolume r.geometry.inodes
        (λ n. held_content disk (inodes_of (whole disk r).active n)) v }
{
    trees_read_as_held();
}

/// What is read of a tree in its grammar is what the tree has. It does nothing.
pub(crate) fn trees_read_as_held()
    ensures { TreesReadAsHeld }
{
    sound_files_read_as_held();
    sound_files_have_sound_paths();
    readable_files_are_whole();
    files_without_holes_are_stored();
    inodes_are_what_their_bytes_spell();
    based_trees_are_sound();
}
