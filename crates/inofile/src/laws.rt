//! What memory stands for, as images have it.

ghost use Rattle.std.specs.Prelude.{ℕ, ◌≡◌, ◌≤◌, ◌^◌, List, Option};
ghost use Rattle.layout.specs.declared.inode.Inode.{Inode};
ghost use Rattle.model.specs.Volumes.{Node, Volume};
ghost use Rattle.blocktree.specs.Trees.{IsSoundAt};
ghost use Rattle.images.specs.Contents.{HoldsVolume};
ghost use Rattle.images.specs.Sizes.{CanReadBlock};
ghost use Rattle.images.specs.Soundness.{Detail};
ghost use Rattle.inode.specs.Files.{file_block};
ghost use Rattle.inode.specs.declared.object.Object.{Object};
ghost use Rattle.inofile.specs.Inodes.{HasNoChange, IsChanged, files_of};
ghost use Rattle.inofile.specs.Objects.{IsObjectIn};
ghost use Rattle.inofile.specs.Settled.{held_content};
ghost use Rattle.inofile.specs.Volumes.{IsVolumeIn, IsVolumeOf};
ghost use Rattle.inofile.specs.declared.inode_file.InodeFile.{InodeFile};

use images::files_hold_one_volume;
use inode::based_trees_are_sound;

/// The files of all numbers hold the volume that memory stands for, and those that aren't changed
/// are as they are settled. It does nothing.
pub fn memory_holds_its_volume()
    ensures holds { (count : ℕ) (disk : ℕ → List ℕ) (settled : ℕ → Inode) (s : InodeFile)
        (v : Volume) → IsVolumeOf count disk settled s v
        → HoldsVolume s.geometry.inodes (files_of disk settled s) v }
    ensures unchanged { (count : ℕ) (disk : ℕ → List ℕ) (settled : ℕ → Inode) (s : InodeFile)
        (v : Volume) (n : ℕ) → IsVolumeOf count disk settled s v → (IsChanged s n → ⊥)
        → files_of disk settled s n ≡ held_content disk (settled n) }
{}

/// Where no object is changed, memory stands for the volume that the settled inodes hold. It does
/// nothing.
pub fn unchanged_memory_is_settled()
    ensures { (count : ℕ) (disk : ℕ → List ℕ) (settled : ℕ → Inode) (s : InodeFile) (v w : Volume)
        → s.geometry.inodes ≤ 2 ^ 32 → IsVolumeOf count disk settled s v → HasNoChange s
        → HoldsVolume s.geometry.inodes (λ n. held_content disk (settled n)) w → w ≡ v }
{
    files_hold_one_volume();
}

/// All that stands over a block of an object in memory is in its grammar, where the block can be
/// read. It does nothing.
pub fn objects_stand_in_their_grammar()
    ensures { (detail : Detail) (count : ℕ) (disk : ℕ → List ℕ) (settled : ℕ → Inode)
        (s : InodeFile) (v : Volume) (n i : ℕ) (o : Object) (found : Option Node)
        → IsVolumeIn detail count disk settled s v
        → IsObjectIn detail disk s.geometry.inodes (settled n) o found
        → CanReadBlock detail (file_block disk o.file) i → IsSoundAt count disk o.file.tree i }
{
    based_trees_are_sound();
}
