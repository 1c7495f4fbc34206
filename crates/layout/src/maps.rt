//! What stands in the blocks of the two maps and in indirect blocks.

ghost use Rattle.std.specs.Prelude.{◌≡◌, ◌≢◌, ◌↔◌, ◌<◌, ◌≤◌, ◌+◌, ◌*◌, ◌^◌, ℕ, IsTrue, length};
ghost use Rattle.layout.specs.Maps.{IsIndirectBlock, IsInodeMap, IsPointerBlock, IsTaken, PointsWithin, SetsWord, indirect_pointer, map_entry};
ghost use Rattle.layout.specs.Pointer.{PointsBelow, pointer_number};
ghost use Rattle.layout.specs.declared.pointer.Pointer.TheVariants.{Hole};

use crate::indirect::is_filled;
use crate::pointer::word_at;
use crate::writing::put_u32;
use crate::{BLOCK_BYTES, BLOCK_POINTERS, Layout, Pointer};
use model::FIRST_NUMBER;

/// Whether an inode number is taken, in these bytes of an inode map from its beginning on.
pub fn is_taken(bytes: &[u8], number: u32) -> bool
    requires { number < 8 * length bytes.now }
    ensures { IsTrue result ↔ IsTaken bytes.now number }
{
    let byte = bytes[(number / 8) as usize];
    (byte >> (number % 8)) % 2 == 1
}

/// Whether these are bytes of an inode map of so many inodes, the first bit being that of number
/// `first`: 0 to 3 are taken, and none from `inodes` on. A map of several blocks is looked at block
/// by block.
pub fn is_inode_map(bytes: &[u8], first: u32, inodes: u32) -> bool
    requires { first + 8 * length bytes.now < 2 ^ 32 }
    ensures { IsTrue result ↔ IsInodeMap first inodes bytes.now }
{
    let bits = 8 * bytes.len() as u32;
    for own in 0..FIRST_NUMBER.saturating_sub(first).min(bits) {
        if !is_taken(bytes, own) {
            return false;
        }
    }
    for past in inodes.saturating_sub(first)..bits {
        if is_taken(bytes, past) {
            return false;
        }
    }
    true
}

/// Entry `index` of a block of the block map: bit 0 the active tree, bits 1 to 30 the snapshots,
/// bit 31 the system's own.
pub fn map_entry(bytes: &[u8; BLOCK_BYTES], index: u32) -> u32
    requires { index < BLOCK_POINTERS }
    ensures { result ≡ map_entry bytes.now index }
{
    word_at(bytes, index as usize)
}

/// Gives entry `index` of a block of the block map this value.
pub fn set_map_entry(bytes: &mut [u8; BLOCK_BYTES], index: u32, entry: u32)
    requires { index < BLOCK_POINTERS }
    ensures { SetsWord index entry bytes.old bytes.new }
{
    put_word(bytes, index as usize, entry);
}

/// Gives pointer `index` of an indirect block this value.
pub fn set_pointer(bytes: &mut [u8; BLOCK_BYTES], index: u32, pointer: Pointer)
    requires { index < BLOCK_POINTERS }
    ensures words { SetsWord index (pointer_number pointer) bytes.old bytes.new }
    ensures there { (blocks : ℕ) → PointsBelow blocks pointer
        → indirect_pointer bytes.new index ≡ pointer }
    ensures others { (k : ℕ) → k < BLOCK_POINTERS → k ≢ index
        → indirect_pointer bytes.new k ≡ indirect_pointer bytes.old k }
{
    put_word(bytes, index as usize, pointer.number());
}

// Writes a number into the four bytes at place `4 * index`.
fn put_word(bytes: &mut [u8], index: usize, number: u32)
    requires { 4 * index + 4 ≤ length bytes.old }
    ensures { SetsWord index number bytes.old bytes.new }
{
    put_u32(bytes, 4 * index, number);
}

/// Pointer `index` of an indirect block.
pub fn indirect_pointer(bytes: &[u8; BLOCK_BYTES], index: u32) -> Pointer
    requires { index < BLOCK_POINTERS }
    ensures { result ≡ indirect_pointer bytes.now index }
{
    Pointer::from_number(word_at(bytes, index as usize))
}

/// Whether these bytes are a stored indirect block, in an image of this layout and so many blocks,
/// over so many blocks of a file: each pointer is a hole or stays on the disk, those from `used` on
/// are holes, what stands behind the pointers is zeros, and one is no hole.
pub fn is_indirect_block(bytes: &[u8; BLOCK_BYTES], layout: Layout, blocks: u32, used: u32) -> bool
    ensures { IsTrue result ↔ IsIndirectBlock layout blocks used bytes.now }
{
    let used = used.min(layout.fan_out());
    is_filled(bytes, blocks, used) || is_spelled(bytes, blocks, used)
}

// The same, pointer by pointer.
fn is_spelled(bytes: &[u8; BLOCK_BYTES], blocks: u32, used: u32) -> bool
    ensures { IsTrue result ↔ IsPointerBlock blocks used bytes.now }
{
    points_within(bytes, blocks, used) && has_block(bytes)
}

fn points_within(bytes: &[u8; BLOCK_BYTES], blocks: u32, used: u32) -> bool
    ensures { IsTrue result ↔ PointsWithin blocks used bytes.now }
{
    for i in 0..BLOCK_POINTERS as u32 {
        let within = if i < used {
            indirect_pointer(bytes, i).fits(blocks)
        } else {
            indirect_pointer(bytes, i).is_hole()
        };
        if !within {
            return false;
        }
    }
    true
}

// Whether a pointer is no hole.
fn has_block(bytes: &[u8; BLOCK_BYTES]) -> bool
    ensures { IsTrue result
        ↔ ((i : ℕ) × (i < BLOCK_POINTERS) × (indirect_pointer bytes.now i ≡ Hole → ⊥)) }
{
    for i in 0..BLOCK_POINTERS as u32 {
        if !indirect_pointer(bytes, i).is_hole() {
            return true;
        }
    }
    false
}
