//! How the blocks of a file hang from its inode: what differs from one layout to the other.

ghost use Rattle.std.specs.Prelude.{◌≡◌, ◌≤◌};
ghost use Rattle.layout.specs.Trees.{double_bytes, fan_out, greatest_size, has_attributes, level_of, single_bytes};

use crate::{DIRECT_BYTES, INLINE_BYTES};

/// The layout of an image's trees of blocks. Its version says which it is.
#[derive(Clone, Copy, Debug, PartialEq, Eq)]
pub enum Layout {
    /// 1,024 pointers in an indirect block. Of attributes, inodes tell the mode alone.
    Plain,
    /// 512 pointers in an indirect block, and behind them room for the sums of what they lead to.
    Summed,
}

impl Layout {
    /// Pointers in an indirect block.
    pub fn fan_out(self) -> u32
        ensures value { result ≡ fan_out self }
        ensures least { 512 ≤ result }
        ensures most { result ≤ 1024 }
    {
        match self {
            Layout::Plain => 1024,
            Layout::Summed => 512,
        }
    }

    /// Whether its inodes tell owners, times and a generation.
    pub fn has_attributes(self) -> bool
        ensures { result ≡ has_attributes self }
    {
        match self {
            Layout::Plain => false,
            Layout::Summed => true,
        }
    }

    /// Greatest number of bytes of a file to whose blocks sixteen indirect blocks point.
    pub fn single_bytes(self) -> u64
        ensures { result ≡ single_bytes self }
    {
        match self {
            Layout::Plain => 67_108_864,
            Layout::Summed => 33_554_432,
        }
    }

    /// Greatest number of bytes of a file with one indirect block more on each way.
    pub fn double_bytes(self) -> u64
        ensures { result ≡ double_bytes self }
    {
        match self {
            Layout::Plain => 68_719_476_736,
            Layout::Summed => 17_179_869_184,
        }
    }

    /// The level of a file of so many bytes: 0 has the bytes in the inode, 1 has pointers to them,
    /// 2 has one indirect block between, 3 has two, 4 has three.
    pub fn level_of(self, size: u64) -> u8
        ensures { result ≡ level_of self size }
    {
        if size <= INLINE_BYTES as u64 {
            0
        } else if size <= DIRECT_BYTES {
            1
        } else if size <= self.single_bytes() {
            2
        } else if size <= self.double_bytes() {
            3
        } else {
            4
        }
    }

    /// Greatest number of bytes of a file.
    pub fn greatest_size(self) -> u64
        ensures { result ≡ greatest_size self }
    {
        match self {
            Layout::Plain => 68_719_476_736,
            Layout::Summed => 8_796_093_022_208,
        }
    }
}
