//! The inode map of an image with an empty root directory.

ghost use Rattle.std.specs.Prelude.{◌≡◌, ℕ, ◌<◌, List, IfOk};
ghost use Rattle.std.specs.Int.{div_ceil};
ghost use Rattle.layout.specs.declared.inode.Inode.{Inode};
ghost use Rattle.model.specs.Attributes.{no_attributes};
ghost use Rattle.images.specs.Roots.{free_inode};
ghost use Rattle.inode.specs.Bases.{IsBased};
ghost use Rattle.inode.specs.Files.{file_block};
ghost use Rattle.placement.specs.Files.{AreAllChanged};
ghost use Rattle.making.specs.Starts.{numbers_block};

use buffers::{Block, SharedBlock};
use entries::Known;
use inode::{File, Object, Status};
use layout::{BLOCK_BYTES, Geometry, Kind};
use model::Attributes;
use std::alloc::{AllocError, Global};

/// Block `i` of the map: the numbers 0 to 3 are taken.
#[tactic(auto, unfolding(layout::specs::Bytes::zeros))]
fn map_block(alloc: Global, i: u32) -> Result<Block, AllocError>
    ensures { IfOk result (λ b. b ≡ numbers_block i) }
{
    let mut bytes = [0; BLOCK_BYTES];
    if i == 0 {
        bytes[0] = 15;
    }
    Block::copy_of(alloc, &bytes)
}

/// The map's file, with all its blocks.
pub(crate) fn inode_map(alloc: Global, geometry: Geometry) -> Result<Object, AllocError>
    ensures status { IfOk result
        (λ o. o.status
        ≡ record { kind = Kind.InodeMap; attributes = no_attributes; links = 1 }) }
    ensures size { IfOk result (λ o. o.file.size ≡ div_ceil geometry.inodes 8) }
    ensures base { IfOk result (λ o. IsBased (free_inode geometry.layout) o.file.tree) }
    ensures changed { IfOk result AreAllChanged }
    ensures blocks { IfOk result (λ o. (disk : ℕ → List ℕ) (i : ℕ)
        → file_block disk o.file i ≡ numbers_block i) }
{
    let size = geometry.inodes().div_ceil(8);
    let mut file = File::empty(alloc, geometry.layout());
    file.set_size(size as u64);
    for i in 0..size.div_ceil(4096) {
        file.make_room(i)?;
        let block = map_block(alloc, i)?;
        let shared = SharedBlock::new(alloc, block)?;
        file.set_block(i, shared);
    }
    let status = Status::new(Kind::InodeMap, Attributes::none());
    let known = Known::new(alloc);
    Ok(Object {
        status,
        file,
        known,
    })
}
