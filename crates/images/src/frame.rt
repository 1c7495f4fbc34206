//! What a root holds depends on the blocks that it names alone.

ghost use Rattle.std.specs.Prelude.{ℕ, ◌≡◌};
ghost use Rattle.layout.specs.Places.{Blocks};
ghost use Rattle.layout.specs.declared.inode.Inode.{Inode};
ghost use Rattle.layout.specs.declared.root.Root.{Root};
ghost use Rattle.images.specs.Nodes.{Agrees, Names, held};
ghost use Rattle.images.specs.Roots.{tree, Reach, whole, Needs};

/// Disks that agree on what a file or a tree names, or on what a root needs, hold the same under
/// it. It does nothing.
pub fn disks_that_agree_hold_the_same()
    ensures file { (d e : Blocks) (f : Inode) → Agrees (Names (held d f)) d e
        → held e f ≡ held d f }
    ensures tree { (d e : Blocks) (inodes : ℕ) (top : Inode)
        → Agrees (Reach (tree d inodes top)) d e → tree e inodes top ≡ tree d inodes top }
    ensures whole { (d e : Blocks) (r : Root)
        → Agrees (Needs r (whole d r)) d e → whole e r ≡ whole d r }
{}
