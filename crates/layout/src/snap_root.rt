//! The root block of a snapshot: its name, and the inode file as it was.

ghost use Rattle.std.specs.Prelude.{◌≡◌, ◌↔◌, ◌≤◌, IsTrue, IfSome, IsSomeAnd, length};
ghost use Rattle.std.specs.Option.{option_map};
ghost use Rattle.model.specs.declared.limits.TheConstants.{SNAPSHOT_NAME_BYTES};
ghost use Rattle.layout.specs.Bytes.{Writes};
ghost use Rattle.layout.specs.Format.{padded};
ghost use Rattle.layout.specs.SnapRoot.{IsSnapshot, Snapshot, snapshot_bytes, snapshot_in, snapshot_of};

use crate::numbers::{FIRST_GENERATION, LAST_GENERATION};
use crate::reading::{padded_at, part_at, u64_within, zeros_at};
use crate::writing::{put_bytes, put_u8, put_u64, put_zeros};
use crate::{BLOCK_BYTES, INODE_BYTES, Inode, Kind, Layout, inode};
use model::SNAPSHOT_NAME_BYTES;

/// Where the inode stands, behind the order and the name.
const INODE_AT: usize = 9 + SNAPSHOT_NAME_BYTES;

/// Where the zeros behind the inode begin, to the block's end.
const BEHIND_AT: usize = INODE_AT + INODE_BYTES;

/// The root of a snapshot.
#[derive(Clone, Copy)]
pub struct SnapRoot<'a> {
    /// From 1 to 2^62 - 1, rising from one snapshot to the next.
    pub order: u64,
    /// 1 to 63 bytes.
    pub name: &'a [u8],
    /// The inode of the file of all inodes, as it was.
    pub inode_file: Inode,
}

impl<'a> SnapRoot<'a> {
    /// The root that these bytes spell in an image of this layout and any sizes; None where none
    /// does.
    pub fn read(bytes: &'a [u8], layout: Layout) -> Option<SnapRoot<'a>>
        ensures found { IfSome result (λ r. let v = snapshot_of r in
            IsSnapshot v × (v.inode_file.layout ≡ layout) × (bytes.now ≡ snapshot_bytes v)) }
        ensures only { (v : Snapshot) → IsSnapshot v → v.inode_file.layout ≡ layout
            → bytes.now ≡ snapshot_bytes v → IsSomeAnd result (λ r. snapshot_of r ≡ v) }
    {
        let Some(root) = read_fields(bytes, layout) else {
            return None;
        };
        if root.fits() { Some(root) } else { None }
    }

    /// Writes the root's 4,096 bytes, and answers how many they are.
    pub fn write(&self, out: &mut [u8]) -> usize
        requires fits { length self.now.name.now ≤ SNAPSHOT_NAME_BYTES }
        requires room { 4096 ≤ length out.old }
        ensures length { result ≡ 4096 }
        ensures wrote { Writes 0 4096 (snapshot_bytes (snapshot_of self.now)) out.old out.new }
    {
        put_u64(out, 0, self.order);
        put_name(out, self.name);
        self.inode_file.put(out, INODE_AT);
        put_zeros(out, BEHIND_AT, BLOCK_BYTES - BEHIND_AT);
        BLOCK_BYTES
    }

    // Whether it is in the grammar of an image of some sizes.
    fn fits(&self) -> bool
        ensures { IsTrue result ↔ IsSnapshot (snapshot_of self.now) }
    {
        let length = self.name.len();
        FIRST_GENERATION <= self.order
            && self.order <= LAST_GENERATION
            && 1 <= length
            && length <= SNAPSHOT_NAME_BYTES
            && self.inode_file.kind == Kind::InodeFile
            && self.inode_file.fits_some()
    }
}

fn put_name(out: &mut [u8], name: &[u8])
    requires fits { length name.now ≤ SNAPSHOT_NAME_BYTES }
    requires room { INODE_AT ≤ length out.old }
    ensures { Writes 8 INODE_AT ((padded SNAPSHOT_NAME_BYTES).text name.now) out.old out.new }
{
    put_u8(out, 8, name.len() as u8);
    put_bytes(out, 9, name);
    put_zeros(out, 9 + name.len(), SNAPSHOT_NAME_BYTES - name.len());
}

// The root that these bytes spell in this layout, before the limits of its name and its inode are
// looked at.
#[tactic(auto, unfolding(crate::specs::SnapRoot::snapshot_in))]
fn read_fields(bytes: &[u8], layout: Layout) -> Option<SnapRoot<'_>>
    ensures { option_map snapshot_of result ≡ snapshot_in layout bytes.now }
{
    let (order, bytes) = u64_within(bytes, FIRST_GENERATION, LAST_GENERATION)?;
    let (name, bytes) = padded_at(bytes)?;
    let (inode, bytes) = part_at(bytes, INODE_BYTES)?;
    let bytes = zeros_at(bytes, BLOCK_BYTES - BEHIND_AT)?;
    if !bytes.is_empty() {
        return None;
    }
    let inode_file = inode::read_fields(inode, layout)?;
    Some(SnapRoot {
        order,
        name,
        inode_file,
    })
}
