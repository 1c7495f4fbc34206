//! What volumes tell of the files of descriptors. The function does nothing: its contract is a law.

ghost use Rattle.std.specs.Prelude.{ℕ, Option, ◌↔◌, IsFalse, IsTrue};
ghost use Rattle.model.specs.declared.limits.Limits.{Limits};
ghost use Rattle.model.specs.Trees.{Description, HasPath};
ghost use Rattle.model.specs.Volumes.{IsVolume, Volume, is_file_node, is_orphan, tree_of};

use model::volumes_tell_links;

/// A file of a volume stands at a path just where it has a name.
pub fn named_files_have_paths()
    ensures { (limits : Limits) (n : ℕ) (v : Volume) (table : ℕ → Option Description) → IsVolume
        limits v → IsTrue (is_file_node (v n)) → HasPath (tree_of v table) n ↔ IsFalse (is_orphan (v
        n)) }
{
    volumes_tell_links();
}
