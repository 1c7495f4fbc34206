//! The formats (layout), of the disk and of the log: each is a grammar, read and written exactly,
//! so that no crate above looks at a byte of one again. Nothing here knows a device. All numbers
//! are little-endian. The tools of which these formats are made, numbers and fields one behind the
//! other (`reading.rt`, `writing.rt`), are for other formats of the same kind too.
#![tactic(auto)]

mod attributes;
mod directory;
mod entry;
mod fields;
mod geometry;
mod indirect;
mod inode;
mod kind;
mod limits;
mod log;
mod maps;
mod name;
mod numbers;
mod permissions;
mod pointer;
mod reading;
mod record;
mod record_read;
mod record_write;
mod root;
mod snap_root;
mod trees;
mod version;
mod writing;

pub use directory::{NextEntry, first_entry, is_directory_block, next_entry};
pub use entry::Entry;
pub use geometry::{
    Geometry, LEAST_BLOCKS, LEAST_HALF, LEAST_INODES, MOST_BLOCKS, MOST_HALF, MOST_INODES,
};
pub use inode::{Body, Inode};
pub use kind::Kind;
pub use limits::{
    DIRECTORY_NAMES, FILE_COST, FILE_NAMES, GREAT_FILE_COST, HEADROOM_BLOCKS, MODE_COST,
    NAMES_COST, ORPHAN_COST, PATH_BYTES, POINT_COST, SUMMED_FILE_COST, SUMMED_HEADROOM_BLOCKS,
    SUMMED_MODE_COST, SUMMED_NAMES_COST, costs_of,
};
pub use log::{
    CLOSED, EPOCH_AT, FIRST_GATE, Gate, HEADER_BYTES, HEADER_GATE, Header, LENGTH_BYTES, OPEN,
    RECORD_HEAD_BYTES, read_gate,
};
pub use maps::{
    indirect_pointer, is_indirect_block, is_inode_map, is_taken, map_entry, set_map_entry,
    set_pointer,
};
pub use model::{FIRST_NUMBER, ROOT_NUMBER};
pub use name::{is_link_text, is_name};
pub use numbers::{BlockNumber, Epoch, FIRST_GENERATION, Generation, InodeNumber, LAST_GENERATION};
pub use pointer::Pointer;
pub use reading::{part_at, u32_at, u64_at};
pub use record::{Edit, NewObject, Record};
pub use root::Root;
pub use snap_root::SnapRoot;
pub use trees::Layout;
pub use version::{
    FIRST_SLOTS, FIRST_VERSION, SNAPSHOT_SLOTS, SUMMED_VERSION, VERSION, greatest_under,
    is_version, layout_of, snapshot_slots,
};
pub use writing::{put_bytes, put_u16, put_u32, put_u64, put_zeros};

/// Bytes of a sector of the disk.
pub const SECTOR_BYTES: usize = 512;
/// Bytes of a block: eight sectors.
pub const BLOCK_BYTES: usize = 4096;
/// The sector of slot A, which holds a root: the first of block 0.
pub const SLOT_A: u64 = 0;
/// The sector of slot B, which holds another one: the first of block 1.
pub const SLOT_B: u64 = 8;
/// Bytes of a root: one sector.
pub const ROOT_BYTES: usize = 512;
/// Bytes of an inode.
pub const INODE_BYTES: usize = 192;
/// Inodes in one block of the inode file.
pub const INODES_PER_BLOCK: u32 = 21;
/// Pointers in an inode's body.
pub const BODY_POINTERS: usize = 16;
/// Numbers of four bytes in a block: the entries of one of the block map, and the most pointers that
/// an indirect block has in any layout.
pub const BLOCK_POINTERS: usize = 1024;
/// Greatest number of bytes that an inode holds itself.
pub const INLINE_BYTES: usize = 128;
/// Greatest number of bytes of a file to whose blocks its inode points: sixteen blocks.
pub const DIRECT_BYTES: u64 = 65_536;
/// Greatest number of bytes of a file to whose blocks sixteen indirect blocks of 1,024 pointers
/// point, and of any file under a root of the first version.
pub const SINGLE_BYTES: u64 = 67_108_864;
