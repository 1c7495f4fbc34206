//! Inodes put into the inode file, one after the other.

ghost use Rattle.std.specs.Prelude.{ℕ, ◌≡◌, ◌≢◌, ◌*◌, List, drop};
ghost use Rattle.layout.specs.declared.TheConstants.{INODES_PER_BLOCK, INODE_BYTES};
ghost use Rattle.images.specs.InodeFiles.{FitsPlace, with_inode};
ghost use Rattle.images.specs.Nodes.{Held};
ghost use Rattle.images.specs.Overlays.{Overlay, overlaid_block};
ghost use Rattle.images.specs.Roots.{inode_bytes_at};

/// The inode that was put last is there, and all else of the inode file is as before. It does
/// nothing.
pub fn inodes_are_put_one_by_one()
    ensures there { (h : Held) (c : Overlay) (n : ℕ) (bytes : List ℕ) → FitsPlace h c n bytes
        → inode_bytes_at (overlaid_block h (with_inode h c n bytes)) n ≡ bytes }
    ensures others { (h : Held) (c : Overlay) (n m : ℕ) (bytes : List ℕ)
        → FitsPlace h c n bytes → m ≢ n
        → inode_bytes_at (overlaid_block h (with_inode h c n bytes)) m
        ≡ inode_bytes_at (overlaid_block h c) m }
    ensures behind { (h : Held) (c : Overlay) (n i : ℕ) (bytes : List ℕ) → FitsPlace h c n bytes
        → drop (INODE_BYTES * INODES_PER_BLOCK) (overlaid_block h (with_inode h c n bytes) i)
        ≡ drop (INODE_BYTES * INODES_PER_BLOCK) (overlaid_block h c i) }
{}
