//! What is read block by block is what the tree has.

ghost use Rattle.std.specs.Prelude.{ℕ, ◌≡◌, ◌-◌, ◌<◌, ◌≤◌, List, ◌++◌, take, Some, nat_lt, if◌then◌else◌};
ghost use Rattle.std.specs.Int.{div_ceil};
ghost use Rattle.layout.specs.Bytes.{zeros};
ghost use Rattle.layout.specs.Inode.{IsInode, inode_bytes};
ghost use Rattle.layout.specs.Limits.{AreSizes, Sizes};
ghost use Rattle.layout.specs.Places.{Blocks, place, pointed};
ghost use Rattle.layout.specs.SnapRoot.{IsSnapshot, Snapshot, snapshot_bytes, snapshot_in};
ghost use Rattle.layout.specs.Trees.{level_of};
ghost use Rattle.layout.specs.declared.TheConstants.{BLOCK_BYTES};
ghost use Rattle.layout.specs.declared.inode.Body.TheVariants.{Inline, Pointers};
ghost use Rattle.layout.specs.declared.inode.Inode.{Inode};
ghost use Rattle.layout.specs.declared.pointer.Pointer.{Pointer};
ghost use Rattle.layout.specs.declared.trees.Layout.{Layout};
ghost use Rattle.images.specs.Nodes.{file_block, held};
ghost use Rattle.images.specs.Roots.{free_inode, frozen_inode_file, inode_bytes_at, tree};
ghost use Rattle.images.specs.Soundness.{Detail, IsHeldFile};

/// A tree has the inode that the inode file's bytes spell, and past the last number free ones. It
/// does nothing.
pub fn inodes_are_what_their_bytes_spell()
    ensures spelled { (s : Sizes) (d : Blocks) (top i : Inode) (n : ℕ)
        → AreSizes s → top.layout ≡ s.layout → 1 ≤ n → n < s.inodes → IsInode s i
        → inode_bytes_at (file_block (held d top)) n ≡ inode_bytes i
        → tree d s.inodes top n ≡ held d i }
    ensures past { (d : Blocks) (inodes : ℕ) (top : Inode) (n : ℕ) → 1 ≤ n → inodes ≤ n
        → tree d inodes top n ≡ held d (free_inode top.layout) }
{}

/// A snapshot root block reads as the snapshot that its bytes spell. It does nothing.
pub fn snapshots_are_what_their_bytes_spell()
    ensures { (layout : Layout) (v : Snapshot) → IsSnapshot v → v.inode_file.layout ≡ layout
        → (snapshot_in layout (snapshot_bytes v) ≡ Some v)
        × (frozen_inode_file layout (snapshot_bytes v) ≡ v.inode_file) }
{}

/// Of a file in its grammar whose inode has pointers, the blocks before its end are those that the
/// pointers lead to, and zeros stand behind them. It does nothing.
pub fn blocks_are_where_pointers_lead()
    ensures { (detail : Detail) (s : Sizes) (d : Blocks) (f : Inode) (pointers : List Pointer)
        (i : ℕ) → IsHeldFile detail s (held d f) → f.body ≡ Pointers pointers
        → file_block (held d f) i
        ≡ (if nat_lt i (div_ceil f.size BLOCK_BYTES)
        then pointed d (place f.layout d pointers (level_of f.layout f.size - 1) i)
        else zeros BLOCK_BYTES) }
{}

/// Of a file in its grammar whose inode has the bytes itself, they are the first block up to the
/// size, with zeros behind them. It does nothing.
pub fn inline_bytes_are_the_first_block()
    ensures first { (s : Sizes) (d : Blocks) (f : Inode) (bytes : List ℕ) → IsInode s f
        → f.body ≡ Inline bytes
        → file_block (held d f) 0 ≡ take f.size bytes ++ zeros (BLOCK_BYTES - f.size) }
    ensures others { (d : Blocks) (f : Inode) (bytes : List ℕ) (i : ℕ)
        → f.body ≡ Inline bytes → 1 ≤ i → file_block (held d f) i ≡ zeros BLOCK_BYTES }
{}
