//! What an image's root says that never changes: its layout, and three numbers.

use crate::Layout;
use std::marker::Model;

/// The fewest blocks of a disk.
pub const LEAST_BLOCKS: u32 = 64;
/// The most blocks of a disk.
pub const MOST_BLOCKS: u32 = 1_048_576;
/// The fewest inode numbers.
pub const LEAST_INODES: u32 = 32;
/// The most inode numbers.
pub const MOST_INODES: u32 = 65_536;
/// The fewest bytes of a half of the NVRAM.
pub const LEAST_HALF: u32 = 131_072;
/// The most bytes of a half of the NVRAM.
pub const MOST_HALF: u32 = 8_388_608;

/// The layout of an image's trees, and its sizes: its blocks, its inodes and the bytes of one half
/// of its NVRAM, each within its limits.
#[derive(Clone, Copy, Debug, PartialEq, Eq)]
pub struct Geometry {
    layout: Layout,
    blocks: u32,
    inodes: u32,
    half: u32,
}

impl Model for Geometry {
    ghost use Rattle.layout.specs.Limits.{Sizes, AreSizes};

    ghost Value = { Sizes };

    ghost view = { λ g. record { layout = g.layout; blocks = g.blocks; inodes = g.inodes; half = g.half } };

    ghost invariant = { λ g. AreSizes (record { layout = g.layout; blocks = g.blocks; inodes = g.inodes; half = g.half }) };

    ghost inverse = { λ s. record { layout = s.layout; blocks = s.blocks; inodes = s.inodes; half = s.half } };
}

ghost use Rattle.std.specs.Prelude.{◌≡◌, ◌*◌, IsSome, IfSome, ◌↔◌};
ghost use Rattle.layout.specs.Limits.{AreSizes, sizes};

impl Geometry {
    /// The geometry of this layout and these numbers; None where one is out of its limits: `blocks` from 64 to
    /// 1,048,576, `inodes` from 32 to 65,536, `half` from 131,072 to 8,388,608 bytes.
    pub fn new(layout: Layout, blocks: u32, inodes: u32, half: u32) -> Option<Geometry>
        ensures within { IsSome result ↔ AreSizes (sizes layout blocks inodes half) }
        ensures value { IfSome result (λ g. g ≡ sizes layout blocks inodes half) }
    {
        let blocks_fit = (LEAST_BLOCKS..=MOST_BLOCKS).contains(&blocks);
        let inodes_fit = (LEAST_INODES..=MOST_INODES).contains(&inodes);
        let half_fits = (LEAST_HALF..=MOST_HALF).contains(&half);
        if blocks_fit && inodes_fit && half_fits {
            Some(Geometry {
                layout,
                blocks,
                inodes,
                half,
            })
        } else {
            None
        }
    }

    /// The layout of its trees.
    pub fn layout(&self) -> Layout
        ensures { result ≡ self.now.layout }
    {
        self.layout
    }

    /// Blocks of the disk.
    pub fn blocks(&self) -> u32
        ensures value { result ≡ self.now.blocks }
        ensures within { AreSizes self.now }
    {
        self.blocks
    }

    /// Inode numbers, from 0 on.
    pub fn inodes(&self) -> u32
        ensures value { result ≡ self.now.inodes }
        ensures within { AreSizes self.now }
    {
        self.inodes
    }

    /// Bytes of one half of the NVRAM.
    pub fn half(&self) -> u32
        ensures value { result ≡ self.now.half }
        ensures within { AreSizes self.now }
    {
        self.half
    }

    /// Sectors of the disk: eight a block.
    pub fn sectors(&self) -> u64
        ensures value { result ≡ 8 * self.now.blocks }
        ensures within { AreSizes self.now }
    {
        8 * u64::from(self.blocks)
    }

    /// Bytes of the NVRAM: two halves.
    pub fn nvram_bytes(&self) -> u32
        ensures value { result ≡ 2 * self.now.half }
        ensures within { AreSizes self.now }
    {
        2 * self.half
    }
}
