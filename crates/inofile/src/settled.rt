//! One inode of a settled inode file.

ghost use Rattle.std.specs.Prelude.{◌≡◌, ◌≤◌, ◌<◌, IfOk, IfErr, OnErr};
ghost use Rattle.layout.specs.Inode.{IsInode, inode_bytes};
ghost use Rattle.layout.specs.Version.{greatest_under};
ghost use Rattle.layout.specs.declared.inode.Inode.{Inode};
ghost use Rattle.buffers.specs.declared.error.BlockError.TheVariants.{Damaged};
ghost use Rattle.images.specs.Roots.{inode_part};

use buffers::BlockError;
use layout::{BLOCK_BYTES, Geometry, INODE_BYTES, Inode};

/// Reads inode `index` of a block of the inode file; Damaged where its bytes are no inode of an
/// image of this version and geometry.
pub(crate) fn read_inode(
    bytes: &[u8; BLOCK_BYTES],
    index: u32,
    version: u32,
    geometry: Geometry,
) -> Result<Inode, BlockError>
    requires { index < 21 }
    ensures read { (i : Inode) → IsInode geometry i
        → i.size ≤ greatest_under version → inode_part bytes.now index ≡ inode_bytes i
        → IfOk result (λ j. j ≡ i) }
    ensures fits { IfOk result (IsInode geometry) }
    ensures within { IfOk result (λ i. i.size ≤ greatest_under version) }
    ensures damaged { OnErr result ((i : Inode) → IsInode geometry i
        → i.size ≤ greatest_under version → inode_part bytes.now index ≡ inode_bytes i → ⊥) }
    ensures only { IfErr result (λ e. e ≡ Damaged) }
{
    let _ = geometry.inodes();
    let Some(inode) = Inode::read(part(bytes, index), geometry.layout()) else {
        return Err(BlockError::Damaged);
    };
    if inode.fits(geometry) && inode.size <= geometry.limits_under(version).file_bytes {
        Ok(inode)
    } else {
        Err(BlockError::Damaged)
    }
}

/// The bytes of inode `index` of a block of the inode file.
fn part(bytes: &[u8; BLOCK_BYTES], index: u32) -> &[u8]
    requires { index < 21 }
    ensures { result.now ≡ inode_part bytes.now index }
{
    let at = INODE_BYTES * index as usize;
    &bytes[at..at + INODE_BYTES]
}
