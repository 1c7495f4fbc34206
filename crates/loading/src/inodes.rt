//! The blocks of the inode file, as mount tests them.

ghost use Rattle.std.specs.Prelude.{◌≡◌, ◌↔◌, ℕ, ◌+◌, ◌*◌, ◌<◌, ◌≤◌, ◌^◌, List, IsTrue, OnOk, IfOk, IfSome, IsErrOf, Some, slice_index};
ghost use Rattle.layout.specs.Bytes.{zeros};
ghost use Rattle.layout.specs.Inode.{IsInode, inode_bytes};
ghost use Rattle.layout.specs.Version.{greatest_under};
ghost use Rattle.layout.specs.declared.TheConstants.{BLOCK_BYTES, INODE_BYTES};
ghost use Rattle.layout.specs.declared.inode.Inode.{Inode};
ghost use Rattle.buffers.specs.Reads.{ReadsBlocks};
ghost use Rattle.buffers.specs.Errors.{IsFault};
ghost use Rattle.blocktree.specs.Trees.{IsSoundAt};
ghost use Rattle.inode.specs.Files.{file_block};
ghost use Rattle.images.specs.Roots.{inode_part};
ghost use Rattle.images.specs.Soundness.{IsOrdinary};
ghost use Rattle.loading.specs.InodeBlocks.{AreInodeBlocks, HasKindOfPlace, IsInodeAt, IsInodeBlock};

use buffers::{BlockError, Blocks};
use inode::File;
use layout::{
    BLOCK_BYTES, Geometry, INODE_BYTES, INODES_PER_BLOCK, Inode, Kind, ROOT_NUMBER, greatest_under,
};

/// Tests all blocks of a settled inode file.
pub(crate) fn check_inodes<B: Blocks>(
    blocks: &mut B,
    file: &File,
    version: u32,
    geometry: Geometry,
) -> Result<(), BlockError>
    ensures reads { ReadsBlocks B.Blocks IsFault blocks.old blocks.new result }
    ensures are { (disk : ℕ → List ℕ) → B.Shows blocks.old disk
        → OnOk result (AreInodeBlocks version geometry (file_block disk file.now)) }
    ensures damaged { (disk : ℕ → List ℕ) → B.Shows blocks.old disk
        → IsErrOf result BlockError.Damaged
        → ((i : ℕ) → IsSoundAt (B.count blocks.old) disk file.now.tree i)
        → AreInodeBlocks version geometry (file_block disk file.now) → ⊥ }
{
    for i in 0..geometry.inodes().div_ceil(INODES_PER_BLOCK) {
        let location = file.locate(blocks, i)?;
        let bytes = file.bytes(blocks, i, location);
        if !is_inode_block(bytes, INODES_PER_BLOCK * i, version, geometry) {
            return Err(BlockError::Damaged);
        }
    }
    Ok(())
}

/// The inode at a place of block 0 of a settled inode file, where it is of this kind.
pub fn own_inode<B: Blocks>(
    blocks: &mut B,
    file: &File,
    number: u32,
    kind: Kind,
    geometry: Geometry,
) -> Result<Inode, BlockError>
    requires { number < INODES_PER_BLOCK }
    ensures reads { ReadsBlocks B.Blocks IsFault blocks.old blocks.new result }
    ensures is { IfOk result (IsInode geometry) }
    ensures kind { IfOk result (λ i. i.kind ≡ kind) }
    ensures spelled { (disk : ℕ → List ℕ) → B.Shows blocks.old disk
        → IfOk result (λ i. inode_part (file_block disk file.now 0) number ≡ inode_bytes i) }
    ensures damaged { (disk : ℕ → List ℕ) → B.Shows blocks.old disk
        → IsErrOf result BlockError.Damaged
        → IsSoundAt (B.count blocks.old) disk file.now.tree 0
        → (i : Inode) → IsInode geometry i → i.kind ≡ kind
        → inode_part (file_block disk file.now 0) number ≡ inode_bytes i → ⊥ }
{
    let location = file.locate(blocks, 0)?;
    let bytes = file.bytes(blocks, 0, location);
    match read_inode(part(bytes, number), geometry) {
        Some(inode) if inode.kind == kind => Ok(inode),
        _ => Err(BlockError::Damaged),
    }
}

/// The inode that these bytes spell in an image of this geometry.
fn read_inode(bytes: &[u8], geometry: Geometry) -> Option<Inode>
    ensures found { IfSome result (λ i. IsInode geometry i × (bytes.now ≡ inode_bytes i)) }
    ensures only { (i : Inode) → IsInode geometry i → bytes.now ≡ inode_bytes i
        → result ≡ Some i }
{
    let _ = geometry.inodes();
    let inode = Inode::read(bytes, geometry.layout())?;
    if inode.fits(geometry) {
        Some(inode)
    } else {
        None
    }
}

/// Whether these bytes are a block of an inode file whose first inode stands at this place.
fn is_inode_block(bytes: &[u8; BLOCK_BYTES], first: u32, version: u32, geometry: Geometry) -> bool
    requires { first + INODES_PER_BLOCK < 2 ^ 32 }
    ensures { IsTrue result ↔ IsInodeBlock version geometry first bytes.now }
{
    for k in 0..INODES_PER_BLOCK {
        if !is_inode_at(part(bytes, k), first + k, version, geometry) {
            return false;
        }
    }
    is_zero_from(bytes, INODE_BYTES * INODES_PER_BLOCK as usize)
}

/// The bytes of one inode of a block.
fn part(bytes: &[u8; BLOCK_BYTES], index: u32) -> &[u8]
    requires { index < INODES_PER_BLOCK }
    ensures { result.now ≡ inode_part bytes.now index }
{
    let at = INODE_BYTES * index as usize;
    &bytes[at..at + INODE_BYTES]
}

/// Whether these bytes are the inode at this place of an inode file.
fn is_inode_at(bytes: &[u8], place: u32, version: u32, geometry: Geometry) -> bool
    ensures { IsTrue result ↔ IsInodeAt version geometry place bytes.now }
{
    // Most inodes of an image are used by nothing, and a mount looks at each.
    if is_free(bytes) {
        return kind_fits(Kind::Free, place, geometry.inodes());
    }
    inode_at(bytes, place, version, geometry).is_some()
}

/// Whether these bytes are those of an inode that nothing uses.
fn is_free(bytes: &[u8]) -> bool
    ensures { IsTrue result ↔ (bytes.now ≡ zeros INODE_BYTES) }
{
    if bytes.len() != INODE_BYTES {
        return false;
    }
    for byte in bytes {
        if *byte != 0 {
            return false;
        }
    }
    true
}

/// The inode that these bytes are at a place of an inode file, if they are one.
pub fn inode_at(bytes: &[u8], place: u32, version: u32, geometry: Geometry) -> Option<Inode>
    ensures found { IfSome result (λ i. IsInode geometry i × (i.size ≤ greatest_under version)
        × (bytes.now ≡ inode_bytes i) × HasKindOfPlace geometry.inodes place i.kind) }
    ensures only { (i : Inode) → IsInode geometry i → i.size ≤ greatest_under version
        → bytes.now ≡ inode_bytes i
        → HasKindOfPlace geometry.inodes place i.kind → result ≡ Some i }
{
    let inode = read_inode(bytes, geometry)?;
    if inode.size <= greatest_under(version) && kind_fits(inode.kind, place, geometry.inodes()) {
        Some(inode)
    } else {
        None
    }
}

/// Whether the inode at a place may have this kind: the file system's own have theirs, and none is
/// in use at place 0 and past the last number.
fn kind_fits(kind: Kind, place: u32, inodes: u32) -> bool
    requires { ROOT_NUMBER < inodes }
    ensures { IsTrue result ↔ HasKindOfPlace inodes place kind }
{
    if place >= inodes {
        return kind == Kind::Free;
    }
    match place {
        0 => kind == Kind::Free,
        1 => kind == Kind::InodeMap,
        2 => kind == Kind::BlockMap,
        ROOT_NUMBER => kind == Kind::Directory,
        _ => is_ordinary(kind),
    }
}

/// Whether an object may have this kind.
fn is_ordinary(kind: Kind) -> bool
    ensures { IsTrue result ↔ IsOrdinary kind }
{
    match kind {
        Kind::Free | Kind::File | Kind::Directory | Kind::Link => true,
        Kind::InodeFile | Kind::InodeMap | Kind::BlockMap => false,
    }
}

/// Whether each byte of a block from one on is 0.
pub fn is_zero_from(bytes: &[u8; BLOCK_BYTES], from: usize) -> bool
    requires { from ≤ BLOCK_BYTES }
    ensures { IsTrue result
        ↔ ((i : ℕ) → from ≤ i → i < BLOCK_BYTES → slice_index bytes.now i ≡ 0) }
{
    for i in from..BLOCK_BYTES {
        if bytes[i] != 0 {
            return false;
        }
    }
    true
}
