//! The root: one sector, from which all else of an image is found.

ghost use Rattle.std.specs.Prelude.{◌≡◌, ◌↔◌, ◌≤◌, ◌+◌, All, IsTrue, IfSome, Some, drop, length};
ghost use Rattle.std.specs.Option.{option_map};
ghost use Rattle.layout.specs.Bytes.{Writes};
ghost use Rattle.layout.specs.Pointer.{PointsBelow, pointers_bytes, pointers_in};
ghost use Rattle.layout.specs.Root.{IsHead, IsRoot, magic, root_head, head_bytes, root_bytes};
ghost use Rattle.layout.specs.Version.{snapshot_slots};
ghost use Rattle.layout.specs.declared.pointer.Pointer.TheVariants.{Hole};
ghost use Rattle.layout.specs.RootReading.{head_of, root_in, sizes_of};
ghost use Rattle.layout.specs.declared.root.Root.{Root};

use crate::geometry::{
    LEAST_BLOCKS, LEAST_HALF, LEAST_INODES, MOST_BLOCKS, MOST_HALF, MOST_INODES,
};
use crate::numbers::{FIRST_GENERATION, LAST_GENERATION};
use crate::pointer::{are_holes, pointers_fit, put_pointers, read_pointers};
use crate::reading::{part_at, u32_within, u64_at, u64_within, zeros_at};
use crate::version::{FIRST_VERSION, VERSION, is_version, layout_of, snapshot_slots};
use crate::writing::{put_u32, put_u64, put_zeros};
use crate::{
    Generation, Geometry, INODE_BYTES, Inode, Kind, Pointer, ROOT_BYTES, SNAPSHOT_SLOTS, inode,
};

/// Bytes of the pointers to snapshots, one for each slot.
const SNAPSHOTS_BYTES: usize = 4 * SNAPSHOT_SLOTS;

/// Where they stand, behind the root inode.
const SNAPSHOTS_AT: usize = 224;

/// Where the zeros behind them begin, to the root's end.
const BEHIND_AT: usize = SNAPSHOTS_AT + SNAPSHOTS_BYTES;

/// The first eight bytes of a root, `WAFLROOT`, as a number.
const MAGIC: u64 = 0x544f_4f52_4c46_4157;

/// A root.
#[derive(Clone, Copy, Debug)]
pub struct Root {
    /// The version of the layout that it is written in.
    pub version: u32,
    pub generation: Generation,
    pub geometry: Geometry,
    /// The inode of the file of all inodes.
    pub inode_file: Inode,
    /// The root block of the snapshot in each slot, or a hole where the slot is free or the version
    /// doesn't have it.
    pub snapshots: [Pointer; SNAPSHOT_SLOTS],
}

impl Root {
    /// The root that these bytes spell; None where none does.
    pub fn read(bytes: &[u8]) -> Option<Root>
        ensures found { IfSome result (λ r. IsRoot r × (bytes.now ≡ root_bytes r)) }
        ensures only { (r : Root) → IsRoot r → bytes.now ≡ root_bytes r → result ≡ Some r }
    {
        let Some(root) = read_fields(bytes) else {
            return None;
        };
        if root.fits() { Some(root) } else { None }
    }

    /// Writes the root's 512 bytes, and answers how many they are.
    pub fn write(&self, out: &mut [u8]) -> usize
        requires { 512 ≤ length out.old }
        ensures length { result ≡ 512 }
        ensures wrote { Writes 0 512 (root_bytes self.now) out.old out.new }
    {
        put_head(out, self.version, self.generation, &self.geometry);
        self.inode_file.put(out, 32);
        put_snapshots(out, SNAPSHOTS_AT, &self.snapshots);
        put_zeros(out, BEHIND_AT, ROOT_BYTES - BEHIND_AT);
        ROOT_BYTES
    }

    /// Whether it is in the grammar: its inode is of the inode file of its geometry, and its
    /// pointers stay on the disk.
    pub fn fits(&self) -> bool
        ensures { IsTrue result ↔ IsRoot self.now }
    {
        let _ = self.generation.get();
        let blocks = self.geometry.blocks();
        self.inode_file.kind == Kind::InodeFile
            && self.inode_file.fits(self.geometry)
            && is_version(self.version)
            && self.geometry.layout() == layout_of(self.version)
            && snapshots_fit(&self.snapshots, blocks)
            && are_free_behind(&self.snapshots, self.version)
    }
}

// The root that these bytes spell, before its inode and its pointers are looked at.
#[tactic(auto, unfolding(crate::specs::RootReading::root_in))]
fn read_fields(bytes: &[u8]) -> Option<Root>
    ensures { result ≡ root_in bytes.now }
{
    let (head, bytes) = read_head(bytes)?;
    let (inode, bytes) = part_at(bytes, INODE_BYTES)?;
    let (snapshots, bytes) = part_at(bytes, SNAPSHOTS_BYTES)?;
    let bytes = zeros_at(bytes, ROOT_BYTES - BEHIND_AT)?;
    if !bytes.is_empty() {
        return None;
    }
    let layout = layout_of(head.version);
    let inode_file = inode::read_fields(inode, layout)?;
    Some(Root {
        version: head.version,
        generation: Generation::new(head.generation).unwrap(),
        geometry: Geometry::new(layout, head.blocks, head.inodes, head.half).unwrap(),
        inode_file,
        snapshots: read_snapshots(snapshots),
    })
}

// The numbers of a root's head, behind its magic.
#[derive(Clone, Copy)]
struct Head {
    version: u32,
    generation: u64,
    blocks: u32,
    inodes: u32,
    half: u32,
}

fn read_head(bytes: &[u8]) -> Option<(Head, &[u8])>
    ensures value { option_map (λ x. (head_of x.0, x.1.now)) result ≡ root_head.at bytes.now }
    ensures within { IfSome result (λ x. IsHead x.0.version x.0.generation (sizes_of x.0)) }
{
    let bytes = magic_at(bytes)?;
    let (version, bytes) = u32_within(bytes, FIRST_VERSION, VERSION)?;
    let (generation, bytes) = u64_within(bytes, FIRST_GENERATION, LAST_GENERATION)?;
    let (blocks, bytes) = u32_within(bytes, LEAST_BLOCKS, MOST_BLOCKS)?;
    let (inodes, bytes) = u32_within(bytes, LEAST_INODES, MOST_INODES)?;
    let (half, bytes) = u32_within(bytes, LEAST_HALF, MOST_HALF)?;
    let head = Head {
        version,
        generation,
        blocks,
        inodes,
        half,
    };
    Some((head, bytes))
}

fn magic_at(bytes: &[u8]) -> Option<&[u8]>
    ensures { option_map (λ rest. (tt, rest.now)) result ≡ magic.at bytes.now }
{
    let (number, bytes) = u64_at(bytes)?;
    if number == MAGIC { Some(bytes) } else { None }
}

fn put_head(out: &mut [u8], version: u32, generation: Generation, geometry: &Geometry)
    requires { 32 ≤ length out.old }
    ensures { Writes 0 32 (head_bytes version generation geometry.now) out.old out.new }
{
    put_u64(out, 0, MAGIC);
    put_u32(out, 8, version);
    put_u64(out, 12, generation.get());
    put_u32(out, 20, geometry.blocks());
    put_u32(out, 24, geometry.inodes());
    put_u32(out, 28, geometry.half());
}

fn read_snapshots(bytes: &[u8]) -> [Pointer; SNAPSHOT_SLOTS]
    requires { length bytes.now ≡ SNAPSHOTS_BYTES }
    ensures { result ≡ pointers_in SNAPSHOT_SLOTS bytes.now }
{
    let mut pointers = [Pointer::Hole; SNAPSHOT_SLOTS];
    read_pointers(bytes, &mut pointers);
    pointers
}

fn put_snapshots(out: &mut [u8], at: usize, snapshots: &[Pointer; SNAPSHOT_SLOTS])
    requires { at + SNAPSHOTS_BYTES ≤ length out.old }
    ensures { Writes at (at + SNAPSHOTS_BYTES) (pointers_bytes snapshots.now) out.old out.new }
{
    put_pointers(out, at, snapshots);
}

fn snapshots_fit(snapshots: &[Pointer; SNAPSHOT_SLOTS], blocks: u32) -> bool
    ensures { IsTrue result
        ↔ ((length snapshots.now ≡ SNAPSHOT_SLOTS)
        × All (PointsBelow blocks) snapshots.now) }
{
    pointers_fit(snapshots, blocks)
}

// Whether the slots that a version doesn't have are free.
fn are_free_behind(snapshots: &[Pointer; SNAPSHOT_SLOTS], version: u32) -> bool
    ensures { IsTrue result
        ↔ All (λ p. p ≡ Hole) (drop (snapshot_slots version) snapshots.now) }
{
    let snapshots: &[Pointer] = snapshots;
    let (_, behind) = snapshots.split_at(snapshot_slots(version));
    are_holes(behind)
}
