//! The inode file of an image with an empty root directory.

ghost use Rattle.std.specs.Prelude.{◌≡◌, ◌*◌, ℕ, ◌<◌, ◌≤◌, List, IfOk, OnOk, length};
ghost use Rattle.std.specs.Int.{div_ceil};
ghost use Rattle.layout.specs.Bytes.{zeros};
ghost use Rattle.layout.specs.Inode.{inode_bytes};
ghost use Rattle.layout.specs.Trees.{single_bytes};
ghost use Rattle.layout.specs.declared.trees.Layout.TheVariants.{Summed};
ghost use Rattle.model.specs.Attributes.{no_attributes};
ghost use Rattle.images.specs.FirstRoots.{empty_directory};
ghost use Rattle.images.specs.InodeFiles.{spliced_at};
ghost use Rattle.images.specs.Roots.{free_inode};
ghost use Rattle.blocktree.specs.Trees.{IsChanged};
ghost use Rattle.inode.specs.Bases.{IsBased};
ghost use Rattle.inode.specs.Files.{file_block};
ghost use Rattle.making.specs.Starts.{inodes_block};

use buffers::{Block, SharedBlock};
use entries::Known;
use inode::{File, Object, Status};
use layout::{Body, Geometry, INLINE_BYTES, INODE_BYTES, Inode, Kind, Layout};
use model::{Attributes, Mode, Permissions};
use std::alloc::{AllocError, Global};

/// The file, without blocks.
pub(crate) fn inode_file(alloc: Global, geometry: Geometry) -> Object
    ensures status { result.status
        ≡ record { kind = Kind.InodeFile; attributes = no_attributes; links = 1 } }
    ensures size { result.file.size ≡ 4096 * div_ceil geometry.inodes 21 }
    ensures small { result.file.size ≤ single_bytes Summed }
    ensures base { IsBased (free_inode geometry.layout) result.file.tree }
    ensures blocks { (disk : ℕ → List ℕ) (i : ℕ) → file_block disk result.file i ≡ zeros 4096 }
    ensures unchanged { (i : ℕ) → IsChanged result.file.tree i → ⊥ }
{
    let mut file = File::empty(alloc, geometry.layout());
    file.set_size(4096 * u64::from(geometry.inodes().div_ceil(21)));
    let status = Status::new(Kind::InodeFile, Attributes::none());
    let known = Known::new(alloc);
    Object {
        status,
        file,
        known,
    }
}

/// The root directory, without a name in it, in an image of this layout.
#[tactic(auto, unfolding(layout::specs::Bytes::zeros))]
fn root_directory(layout: Layout) -> Inode
    ensures { result ≡ empty_directory layout }
{
    Inode {
        layout,
        kind: Kind::Directory,
        attributes: Attributes::new(Permissions::of_mode(Mode::NEW_DIRECTORY)),
        links: 1,
        size: 0,
        body: Body::Inline([0; INLINE_BYTES]),
    }
}

/// Puts an inode at its place into a block of the inode file.
fn put_inode(block: &mut Block, at: u32, inode: &Inode)
    requires at { at < 21 }
    requires whole { length block.old ≡ 4096 }
    ensures whole { length block.new ≡ 4096 }
    ensures put { block.new ≡ spliced_at (INODE_BYTES * at) (inode_bytes inode.now) block.old }
    ensures long { length (inode_bytes inode.now) ≡ INODE_BYTES }
{
    let mut bytes = [0; INODE_BYTES];
    let _ = inode.write(&mut bytes);
    block.put(INODE_BYTES * at as usize, &bytes);
}

/// The file's first block, with the inodes of the two maps and of the root directory, in an image of
/// this layout.
pub(crate) fn first_block(
    alloc: Global,
    layout: Layout,
    numbers: &Inode,
    map: &Inode,
) -> Result<SharedBlock, AllocError>
    ensures bytes { IfOk result (λ b. b ≡ inodes_block layout numbers.now map.now) }
    ensures numbers { OnOk result (length (inode_bytes numbers.now) ≡ INODE_BYTES) }
    ensures map { OnOk result (length (inode_bytes map.now) ≡ INODE_BYTES) }
    ensures directory { OnOk result (length (inode_bytes (empty_directory layout)) ≡ INODE_BYTES) }
{
    let mut block = Block::zeroed(alloc)?;
    put_inode(&mut block, 1, numbers);
    put_inode(&mut block, 2, map);
    put_inode(&mut block, 3, &root_directory(layout));
    SharedBlock::new(alloc, block)
}
