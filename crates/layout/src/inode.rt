//! The inode: what an object is, and where its bytes are.

ghost use Rattle.std.specs.Prelude.{◌≡◌, ◌↔◌, ◌≤◌, ◌+◌, ◌-◌, ◌<◌, ◌++◌, IsTrue, IfSome, IfNone, Some, All, drop, length};
ghost use Rattle.layout.specs.Bytes.{Writes, zeros};
ghost use Rattle.layout.specs.Pointer.{pointers_bytes};
ghost use Rattle.layout.specs.declared.pointer.Pointer.TheVariants.{Hole};
ghost use Rattle.layout.specs.Inode.{IsInode, IsSomeInode, FitsKind, FitsBody, FitsInline, FitsPointers, body_bytes, inode_bytes, nodes_of_size, pointers_used};
ghost use Rattle.layout.specs.Limits.{AreSizes, Sizes};
ghost use Rattle.layout.specs.Trees.{greatest_size};
ghost use Rattle.layout.specs.InodeReading.{likely_blocks, likely_inodes, likely_sizes, body_in, inode_of, inode_in, kind_and_links_in};
ghost use Rattle.layout.specs.declared.inode.Inode.{Inode};
ghost use Rattle.layout.specs.declared.trees.Layout.TheVariants.{Summed};

use crate::attributes::{attributes_at, put_attributes};
use crate::fields::is_zero;
use crate::geometry::{LEAST_HALF, MOST_BLOCKS, MOST_INODES};
use crate::pointer::{are_holes, pointers_fit, put_pointers, read_pointers};
use crate::reading::{mode_at, part_at, u8_at, u16_at, u32_at, u64_at};
use crate::writing::{put_bytes, put_u8, put_u16, put_u32, put_u64, put_zeros};
use crate::{
    BODY_POINTERS, FILE_NAMES, Geometry, INLINE_BYTES, INODE_BYTES, Kind, Layout, PATH_BYTES,
    Pointer,
};
use model::{Attributes, LINK_MODE};

/// The bytes of a small object, or where a larger one's blocks are.
#[derive(Clone, Copy, Debug)]
pub enum Body {
    /// Level 0: the bytes, and zeros behind them.
    Inline([u8; INLINE_BYTES]),
    /// Level 1: pointer i is block i of the file. From level 2 on: pointer i is an indirect block.
    Pointers([Pointer; BODY_POINTERS]),
}

/// An inode. Its level is that of its size.
#[derive(Clone, Copy, Debug)]
pub struct Inode {
    /// The layout of its image, by which its blocks hang from it.
    pub layout: Layout,
    pub kind: Kind,
    pub attributes: Attributes,
    /// Names of a regular file, 1 for any other object.
    pub links: u32,
    /// Bytes of the object.
    pub size: u64,
    pub body: Body,
}

impl Inode {
    /// The inode that these bytes spell in an image of this layout and any sizes; None where none
    /// does.
    pub fn read(bytes: &[u8], layout: Layout) -> Option<Inode>
        ensures found { IfSome result (λ i. IsSomeInode i × (i.layout ≡ layout)
            × (bytes.now ≡ inode_bytes i)) }
        ensures only { (i : Inode) → IsSomeInode i → i.layout ≡ layout
            → bytes.now ≡ inode_bytes i → result ≡ Some i }
    {
        let Some(inode) = read_fields(bytes, layout) else {
            return None;
        };
        if inode.fits_some() { Some(inode) } else { None }
    }

    /// The kind and the links of the inode that these bytes spell, by its head alone; None where no
    /// head is.
    pub fn kind_and_links(bytes: &[u8]) -> Option<(Kind, u32)>
        ensures head { result ≡ kind_and_links_in bytes.now }
        ensures only { (s : Sizes) (i : Inode) → IsInode s i → bytes.now ≡ inode_bytes i
            → result ≡ Some (i.kind, i.links) }
    {
        read_kind_and_links(bytes)
    }

    /// Writes the inode's 192 bytes, and answers how many they are.
    pub fn write(&self, out: &mut [u8]) -> usize
        requires { 192 ≤ length out.old }
        ensures length { result ≡ 192 }
        ensures wrote { Writes 0 192 (inode_bytes self.now) out.old out.new }
    {
        self.put(out, 0);
        INODE_BYTES
    }

    /// Writes the inode's bytes at a place.
    pub(crate) fn put(&self, out: &mut [u8], at: usize)
        requires { at + 192 ≤ length out.old }
        ensures { Writes at (at + 192) (inode_bytes self.now) out.old out.new }
    {
        put_u16(out, at, self.kind.code());
        put_u16(out, at + 2, self.attributes.mode.bits());
        put_u32(out, at + 4, self.links);
        put_u64(out, at + 8, self.size);
        put_u8(out, at + 16, self.layout.level_of(self.size));
        put_attributes(out, at + 17, self.attributes);
        put_body(out, at + 64, &self.body);
    }

    /// Whether it is in the grammar of an image of this geometry.
    pub fn fits(&self, geometry: Geometry) -> bool
        ensures { IsTrue result ↔ IsInode geometry self.now }
    {
        self.attributes.fit();
        self.layout == geometry.layout()
            && (self.layout.has_attributes() || self.attributes.have_only_mode())
            && self.size <= self.layout.greatest_size()
            && kind_fits(self, geometry)
            && body_fits(self.layout, &self.body, geometry.blocks(), self.size)
    }

    /// Whether it is in the grammar of an image of some geometry.
    pub(crate) fn fits_some(&self) -> bool
        ensures { IsTrue result ↔ IsSomeInode self.now }
    {
        match likely_geometry(self.layout, self.kind, self.size) {
            Some(geometry) => self.fits(geometry),
            None => false,
        }
    }
}

// The geometry of an image that has an inode of this kind and size, if one has: of the one whose
// map or inode file has this size, and for other files of the greatest.
fn likely_geometry(layout: Layout, kind: Kind, size: u64) -> Option<Geometry>
    ensures found { IfSome result (λ g. (g ≡ likely_sizes layout kind size) × AreSizes g) }
    ensures none { IfNone result (size ≤ greatest_size layout
        → AreSizes (likely_sizes layout kind size) → ⊥) }
{
    if size > layout.greatest_size() {
        return None;
    }
    let geometry = Geometry::new(
        layout,
        likely_blocks(kind, size),
        likely_inodes(kind, size),
        LEAST_HALF,
    )?;
    let _ = geometry.blocks();
    Some(geometry)
}

fn likely_blocks(kind: Kind, size: u64) -> u32
    ensures { result ≡ likely_blocks kind size }
{
    match kind {
        Kind::BlockMap => (size / 4).min(u64::from(MOST_BLOCKS) + 1) as u32,
        _ => MOST_BLOCKS,
    }
}

fn likely_inodes(kind: Kind, size: u64) -> u32
    requires { size ≤ greatest_size Summed }
    ensures { result ≡ likely_inodes kind size }
{
    match kind {
        Kind::InodeFile => (21 * (size / 4096)).min(u64::from(MOST_INODES)) as u32,
        Kind::InodeMap => (8 * size).min(u64::from(MOST_INODES)) as u32,
        _ => MOST_INODES,
    }
}

/// The inode that these bytes spell in this layout, before its limits are looked at.
#[tactic(auto, unfolding(crate::specs::InodeReading::inode_in))]
pub(crate) fn read_fields(bytes: &[u8], layout: Layout) -> Option<Inode>
    ensures { result ≡ inode_in layout bytes.now }
{
    let (kind, bytes) = u16_at(bytes)?;
    let (mode, bytes) = mode_at(bytes)?;
    let (links, bytes) = u32_at(bytes)?;
    let (size, bytes) = u64_at(bytes)?;
    let (level, bytes) = u8_at(bytes)?;
    let Some((attributes, bytes)) = attributes_at(bytes, mode) else {
        return None;
    };
    let (body, bytes) = part_at(bytes, INLINE_BYTES)?;
    if !bytes.is_empty() {
        return None;
    }
    made_inode(layout, kind, attributes, links, size, level, body)
}

// The kind and the links in these bytes, before the limits are looked at.
#[tactic(auto, unfolding(crate::specs::InodeReading::kind_and_links_in))]
fn read_kind_and_links(bytes: &[u8]) -> Option<(Kind, u32)>
    ensures { result ≡ kind_and_links_in bytes.now }
{
    let (kind, bytes) = u16_at(bytes)?;
    let (_, bytes) = mode_at(bytes)?;
    let (links, bytes) = u32_at(bytes)?;
    let (_, bytes) = u64_at(bytes)?;
    let _ = u8_at(bytes)?;
    Some((Kind::from_code(kind)?, links))
}

// The inode of these fields.
#[tactic(auto, unfolding(crate::specs::InodeReading::inode_of))]
fn made_inode(
    layout: Layout,
    kind: u16,
    attributes: Attributes,
    links: u32,
    size: u64,
    level: u8,
    body: &[u8],
) -> Option<Inode>
    requires { length body.now ≡ 128 }
    ensures { result ≡ inode_of layout kind attributes links size level body.now }
{
    let kind = Kind::from_code(kind)?;
    let body = read_body(size, body)?;
    if level == layout.level_of(size) {
        Some(Inode {
            layout,
            kind,
            attributes,
            links,
            size,
            body,
        })
    } else {
        None
    }
}

#[tactic(auto, unfolding(crate::specs::InodeReading::body_in))]
fn read_body(size: u64, bytes: &[u8]) -> Option<Body>
    requires { length bytes.now ≡ 128 }
    ensures { result ≡ body_in size bytes.now }
{
    if size <= 128 {
        let mut inline = [0; INLINE_BYTES];
        inline.copy_from_slice(bytes);
        return Some(Body::Inline(inline));
    }
    let (_, behind) = bytes.split_at(64);
    if !is_zero(behind) {
        return None;
    }
    let mut pointers = [Pointer::Hole; BODY_POINTERS];
    read_pointers(bytes, &mut pointers);
    Some(Body::Pointers(pointers))
}

fn put_body(out: &mut [u8], at: usize, body: &Body)
    requires { at + 128 ≤ length out.old }
    ensures { Writes at (at + 128) (body_bytes body.now) out.old out.new }
{
    match body {
        Body::Inline(bytes) => put_inline(out, at, bytes),
        Body::Pointers(pointers) => put_pointer_body(out, at, pointers),
    }
}

fn put_inline(out: &mut [u8], at: usize, bytes: &[u8; INLINE_BYTES])
    requires { at + 128 ≤ length out.old }
    ensures { Writes at (at + 128) bytes.now out.old out.new }
{
    put_bytes(out, at, bytes);
}

fn put_pointer_body(out: &mut [u8], at: usize, pointers: &[Pointer; BODY_POINTERS])
    requires { at + 128 ≤ length out.old }
    ensures { Writes at (at + 128) (pointers_bytes pointers.now ++ zeros 64) out.old out.new }
{
    put_pointers(out, at, pointers);
    put_zeros(out, at + 64, 64);
}

// Whether attributes, links and size are those of an object of its kind.
fn kind_fits(inode: &Inode, geometry: Geometry) -> bool
    ensures { let i = inode.now in IsTrue result
        ↔ FitsKind i.kind geometry i.attributes i.links i.size }
{
    let none = inode.attributes.are_none();
    let mode = inode.attributes.mode.bits();
    let links = inode.links;
    let size = inode.size;
    let inodes = geometry.inodes();
    let blocks = geometry.blocks();
    match inode.kind {
        Kind::Free => none && links == 0 && size == 0,
        Kind::File => links <= FILE_NAMES,
        Kind::Directory => links == 1 && size % 4096 == 0,
        Kind::Link => {
            mode == LINK_MODE && links == 1 && 1 <= size && size <= u64::from(PATH_BYTES)
        }
        Kind::InodeFile => none && links == 1 && size == 4096 * u64::from(inodes.div_ceil(21)),
        Kind::InodeMap => none && links == 1 && size == u64::from(inodes.div_ceil(8)),
        Kind::BlockMap => none && links == 1 && size == 4 * u64::from(blocks),
    }
}

// Whether the body is of the size's level, with nothing past the size and no pointer past the disk.
fn body_fits(layout: Layout, body: &Body, blocks: u32, size: u64) -> bool
    ensures { IsTrue result ↔ FitsBody layout body.now blocks size }
{
    match body {
        Body::Inline(bytes) => inline_fits(bytes, size),
        Body::Pointers(pointers) => pointer_body_fits(layout, pointers, blocks, size),
    }
}

// Whether these are the bytes of a file of this size, with zeros behind them.
fn inline_fits(bytes: &[u8; INLINE_BYTES], size: u64) -> bool
    ensures { IsTrue result ↔ FitsInline bytes.now size }
{
    if size > 128 {
        return false;
    }
    let bytes: &[u8] = bytes;
    let (_, behind) = bytes.split_at(size as usize);
    is_zero(behind)
}

// Whether these point to the blocks of a file of this size, with holes behind them.
fn pointer_body_fits(
    layout: Layout,
    pointers: &[Pointer; BODY_POINTERS],
    blocks: u32,
    size: u64,
) -> bool
    ensures { IsTrue result ↔ FitsPointers layout pointers.now blocks size }
{
    if size <= 128 {
        return false;
    }
    let pointers: &[Pointer] = pointers;
    pointers_fit(pointers, blocks) && holes_behind(pointers, pointers_used(layout, size))
}

// Whether each pointer from this place on is a hole.
fn holes_behind(pointers: &[Pointer], used: u64) -> bool
    ensures { IsTrue result ↔ All (λ p. p ≡ Hole) (drop used pointers.now) }
{
    if used >= pointers.len() as u64 {
        return true;
    }
    let (_, behind) = pointers.split_at(used as usize);
    are_holes(behind)
}

// How many pointers of the body a file of so many bytes, more than 128, may use.
fn pointers_used(layout: Layout, size: u64) -> u64
    ensures { result ≡ pointers_used layout size }
{
    nodes_of_size(layout, size, layout.level_of(size).saturating_sub(1))
}

// How many nodes a file of so many bytes has at a height.
fn nodes_of_size(layout: Layout, size: u64, height: u8) -> u64
    ensures { result ≡ nodes_of_size layout size height }
{
    if height == 0 {
        return size.div_ceil(4096);
    }
    nodes_of_size(layout, size, height - 1).div_ceil(u64::from(layout.fan_out()))
}
