//! Pointers to blocks, and arrays of them.

ghost use Rattle.std.specs.Prelude.{◌≡◌, ◌↔◌, ◌≤◌, ◌+◌, ◌*◌, IsTrue, All, drop, length};
ghost use Rattle.layout.specs.Bytes.{Writes, number};
ghost use Rattle.layout.specs.Pointer.{PointsBelow, pointer_number, pointer_of, pointers_bytes, pointers_in};
ghost use Rattle.layout.specs.declared.pointer.Pointer.TheVariants.{Hole};

use crate::BlockNumber;
use crate::writing::put_u32;
use byteorder::{ByteOrder, LittleEndian};

/// Where a block of a file lies.
#[derive(Clone, Copy, Debug)]
pub enum Pointer {
    /// Nowhere: it reads as zeros.
    Hole,
    /// In this block of the disk.
    Block(BlockNumber),
}

impl Pointer {
    /// The pointer that this number spells: 0 is a hole.
    pub fn from_number(number: u32) -> Pointer
        ensures { result ≡ pointer_of number }
    {
        if number == 0 {
            Pointer::Hole
        } else {
            Pointer::Block(BlockNumber::new(number))
        }
    }

    /// The number that spells it.
    pub fn number(self) -> u32
        ensures { result ≡ pointer_number self }
    {
        match self {
            Pointer::Hole => 0,
            Pointer::Block(block) => block.get(),
        }
    }

    /// Whether it is a hole or names one of the blocks from 2 to `blocks - 1`: the first two hold
    /// the roots.
    pub fn fits(self, blocks: u32) -> bool
        ensures { IsTrue result ↔ PointsBelow blocks self }
    {
        match self {
            Pointer::Hole => true,
            Pointer::Block(block) => 2 <= block.get() && block.get() < blocks,
        }
    }

    pub fn is_hole(self) -> bool
        ensures { IsTrue result ↔ (self ≡ Hole) }
    {
        match self {
            Pointer::Hole => true,
            Pointer::Block(_) => false,
        }
    }
}

/// The number in the four bytes at place `4 * index`.
pub(crate) fn word_at(bytes: &[u8], index: usize) -> u32
    requires { 4 * index + 4 ≤ length bytes.now }
    ensures { result ≡ number 4 (drop (4 * index) bytes.now) }
{
    let (_, rest) = bytes.split_at(4 * index);
    LittleEndian::read_u32(rest)
}

/// Reads as many pointers as `out` has, four bytes each.
pub(crate) fn read_pointers(bytes: &[u8], out: &mut [Pointer])
    requires { 4 * length out.old ≤ length bytes.now }
    ensures { out.new ≡ pointers_in (length out.old) bytes.now }
{
    for i in 0..out.len() {
        out[i] = Pointer::from_number(word_at(bytes, i));
    }
}

/// Writes the pointers at a place, four bytes each.
pub(crate) fn put_pointers(out: &mut [u8], at: usize, pointers: &[Pointer])
    requires { at + 4 * length pointers.now ≤ length out.old }
    ensures { Writes at (at + 4 * length pointers.now) (pointers_bytes pointers.now)
        out.old out.new }
{
    for i in 0..pointers.len() {
        put_u32(out, at + 4 * i, pointers[i].number());
    }
}

/// Whether each is a hole or names one of the blocks from 2 to `blocks - 1`.
pub(crate) fn pointers_fit(pointers: &[Pointer], blocks: u32) -> bool
    ensures { IsTrue result ↔ All (PointsBelow blocks) pointers.now }
{
    pointers.iter().all(|pointer| pointer.fits(blocks))
}

/// Whether each is a hole.
pub(crate) fn are_holes(pointers: &[Pointer]) -> bool
    ensures { IsTrue result ↔ All (λ p. p ≡ Hole) pointers.now }
{
    pointers.iter().all(|pointer| pointer.is_hole())
}
