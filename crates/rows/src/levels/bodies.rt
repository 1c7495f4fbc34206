//! Settled inodes of files, as rows write them.

ghost use Rattle.std.specs.Prelude.{◌≡◌, ◌≤◌};

use layout::{BODY_POINTERS, Body, INLINE_BYTES, Inode, Kind, Layout, Pointer};
use model::Attributes;

/// An inode of so many bytes, with these pointers.
pub fn pointer_inode(layout: Layout, size: u64, words: &str) -> Inode
    ensures size { result.size ≡ size }
    ensures layout { result.layout ≡ layout }
{
    let mut pointers = [Pointer::Hole; BODY_POINTERS];
    for (i, word) in words.split_whitespace().enumerate() {
        if i < BODY_POINTERS {
            pointers[i] = Pointer::from_number(word.parse::<u32>().unwrap_or(0));
        }
    }
    inode(layout, size, Body::Pointers(pointers))
}

/// An inode with these bytes of its own, up to the 128 that it has room for.
pub fn inline_inode(layout: Layout, text: &str) -> Inode
    ensures { result.size ≤ 128 }
{
    let mut bytes = [0; INLINE_BYTES];
    let length = text.len().min(INLINE_BYTES);
    bytes[..length].copy_from_slice(&text.as_bytes()[..length]);
    inode(layout, length as u64, Body::Inline(bytes))
}

fn inode(layout: Layout, size: u64, body: Body) -> Inode
    ensures size { result.size ≡ size }
    ensures layout { result.layout ≡ layout }
{
    Inode {
        layout,
        kind: Kind::File,
        attributes: Attributes::none(),
        links: 1,
        size,
        body,
    }
}
