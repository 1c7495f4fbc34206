//! Laws of the definitions.

ghost use Rattle.std.specs.Prelude.{ℕ, ◌≡◌, List, IsFalse};
ghost use Rattle.layout.specs.Bytes.{zeros};
ghost use Rattle.blocktree.specs.Trees.{is_stored, tree_block};
ghost use Rattle.blocktree.specs.declared.tree.BlockTree.{BlockTree};

/// A block that isn't stored reads as zeros. It does nothing.
pub fn holes_are_zeros()
    ensures { (disk : ℕ → List ℕ) (t : BlockTree) (i : ℕ)
        → IsFalse (is_stored disk t i) → tree_block disk t i ≡ zeros 4096 }
{}
