//! What settled inodes have, as images have it.

ghost use Rattle.std.specs.Prelude.{ℕ, suc, ◌≡◌, ◌+◌, ◌≤◌, List};
ghost use Rattle.layout.specs.Limits.{Sizes};
ghost use Rattle.layout.specs.Places.{place};
ghost use Rattle.layout.specs.Trees.{level_of};
ghost use Rattle.layout.specs.declared.inode.Body.TheVariants.{Pointers};
ghost use Rattle.layout.specs.declared.inode.Inode.{Inode};
ghost use Rattle.layout.specs.declared.pointer.Pointer.{Pointer};
ghost use Rattle.layout.specs.declared.pointer.Pointer.TheVariants.{Hole};
ghost use Rattle.blocktree.specs.Places.{IsPath};
ghost use Rattle.blocktree.specs.Trees.{AreSound, IsSoundAt};
ghost use Rattle.blocktree.specs.declared.tree.BlockTree.{BlockTree};
ghost use Rattle.images.specs.Nodes.{file_block, held};
ghost use Rattle.images.specs.Soundness.{Detail, IsHeldFile, IsReadable, nodes_of_size};
ghost use Rattle.inode.specs.Bases.{IsBased};
ghost use Rattle.inode.specs.Bodies.{inode_block};

/// A file in its grammar has the blocks that an image has for it. It does nothing.
pub fn settled_files_are_as_held()
    ensures { (detail : Detail) (s : Sizes) (disk : ℕ → List ℕ) (i : Inode) (n : ℕ)
        → IsHeldFile detail s (held disk i) → inode_block disk i n ≡ file_block (held disk i) n }
{
    images::blocks_are_where_pointers_lead();
    images::inline_bytes_are_the_first_block();
}

/// Of a file in its grammar each node stands, at each height, where the inode's pointers lead at
/// the depth under them, and what stands over it is in its grammar. From the file's level on, and
/// past as many nodes as its size has, all are holes. It does nothing.
pub fn nodes_are_where_pointers_lead()
    ensures places { (disk : ℕ → List ℕ) (f : Inode) (pointers : List Pointer)
        (depth height i : ℕ) → f.body ≡ Pointers pointers
        → level_of f.layout f.size ≡ suc (depth + height)
        → (held disk f).place height i ≡ place f.layout disk pointers depth i }
    ensures paths { (detail : Detail) (s : Sizes) (disk : ℕ → List ℕ) (f : Inode)
        (pointers : List Pointer) (depth height i : ℕ) → IsHeldFile detail s (held disk f) → f.body ≡ Pointers pointers
        → level_of f.layout f.size ≡ suc (depth + height)
        → IsPath f.layout s.blocks disk pointers depth (nodes_of_size f.layout f.size height) i }
    ensures past { (detail : Detail) (s : Sizes) (disk : ℕ → List ℕ) (f : Inode) (height i : ℕ)
        → IsHeldFile detail s (held disk f) → nodes_of_size f.layout f.size height ≤ i
        → (held disk f).place height i ≡ Hole }
    ensures above { (disk : ℕ → List ℕ) (f : Inode) (height i : ℕ) → level_of f.layout f.size ≤ height
        → (held disk f).place height i ≡ Hole }
{}

/// What stands over the settled blocks of a tree that is based on a file in its grammar is in its
/// grammar, and where the file's stored blocks can be read, so can those of the tree. It does
/// nothing.
pub fn based_trees_are_sound()
    ensures all { (detail : Detail) (s : Sizes) (disk : ℕ → List ℕ) (i : Inode) (t : BlockTree)
        → IsHeldFile detail s (held disk i) → IsBased i t → AreSound s.blocks disk t }
    ensures at { (detail : Detail) (s : Sizes) (disk : ℕ → List ℕ) (i : Inode) (t : BlockTree)
        (k : ℕ) → IsHeldFile detail s (held disk i) → IsReadable (held disk i) → IsBased i t
        → IsSoundAt s.blocks disk t k }
{}
