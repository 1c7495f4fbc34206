//! Entries of a directory, as a listing has them.

ghost use Rattle.std.specs.Prelude.{◌≡◌, ◌+◌, ◌<◌, ◌≤◌, ◌++◌, ◌↔◌, IfOk, IsTrue, OnErr, OnOk, length, vec_len, vec_capacity, if◌then◌else◌};
ghost use Rattle.layout.specs.Bytes.{zeros};
ghost use Rattle.fuse.specs.Directory.{code_of, listed_head_text, listed_of, listed_plus_text, listed_text, padding};

use crate::attributes::{ENTRY_BYTES, Entry, entry_bytes};
use layout::{put_u32, put_u64};
use std::alloc::AllocError;

/// Bytes in front of a name in a listing (`struct fuse_dirent`).
pub const LISTED_HEAD_BYTES: usize = 24;
/// The most bytes of a name that every kernel takes in a listing.
pub const LISTED_NAME_BYTES: usize = 1024;

/// What a name of a directory leads to, as `readdir` tells it.
#[derive(Clone, Copy, Debug)]
pub enum ListedKind {
    Unknown = 0,
    Fifo = 1,
    CharacterDevice = 2,
    Directory = 4,
    BlockDevice = 6,
    File = 8,
    SymbolicLink = 10,
    Socket = 12,
}

/// An entry of a directory.
#[derive(Clone, Copy, Debug)]
pub struct Listed<'a> {
    /// The number that programs see.
    pub inode: u64,
    /// The offset that the entries behind this one are asked from.
    pub offset: u64,
    pub kind: ListedKind,
    pub name: &'a [u8],
}

fn code_of(kind: ListedKind) -> u32
    ensures { result ≡ code_of kind }
{
    kind as u32
}

static ZEROS: [u8; 8] = [0; 8];

// The zeros behind a name of so many bytes.
fn padding(count: usize) -> &'static [u8]
    ensures value { result.now ≡ zeros (padding count) }
    ensures few { length result.now < 8 }
{
    &ZEROS[..(8 - count % 8) % 8]
}

fn listed_head_bytes(listed: &Listed<'_>) -> [u8; 24]
    requires { length listed.now.name.now ≤ LISTED_NAME_BYTES }
    ensures { result ≡ listed_head_text (listed_of listed.now) }
{
    let mut bytes = [0; 24];
    put_u64(&mut bytes, 0, listed.inode);
    put_u64(&mut bytes, 8, listed.offset);
    put_u32(&mut bytes, 16, listed.name.len() as u32);
    put_u32(&mut bytes, 20, code_of(listed.kind));
    bytes
}

/// How many bytes an entry has in a listing.
pub fn listed_len(listed: &Listed<'_>) -> usize
    requires { length listed.now.name.now ≤ LISTED_NAME_BYTES }
    ensures value { result ≡ length (listed_text (listed_of listed.now)) }
    ensures few { result < LISTED_HEAD_BYTES + LISTED_NAME_BYTES + 8 }
{
    LISTED_HEAD_BYTES + listed.name.len() + padding(listed.name.len()).len()
}

// Appends an entry; it fails only where there was no room for all of it.
fn append_listed(out: &mut Vec<u8>, listed: &Listed<'_>) -> Result<(), AllocError>
    requires { length listed.now.name.now ≤ LISTED_NAME_BYTES }
    ensures ok { OnOk result (out.new.items ≡ out.old.items ++ listed_text (listed_of listed.now)) }
    ensures full { OnErr result (vec_capacity out.old
        < vec_len out.old + length (listed_text (listed_of listed.now))) }
{
    out.extend_from_slice(&listed_head_bytes(listed))?;
    out.extend_from_slice(listed.name)?;
    out.extend_from_slice(padding(listed.name.len()))
}

// The same with what the entry's name leads to in front of it.
fn append_listed_plus(
    out: &mut Vec<u8>,
    entry: &Entry,
    listed: &Listed<'_>,
) -> Result<(), AllocError>
    requires { length listed.now.name.now ≤ LISTED_NAME_BYTES }
    ensures ok { OnOk result (out.new.items
        ≡ out.old.items ++ listed_plus_text entry.now (listed_of listed.now)) }
    ensures full { OnErr result (vec_capacity out.old
        < vec_len out.old + length (listed_plus_text entry.now (listed_of listed.now))) }
{
    out.extend_from_slice(&entry_bytes(entry))?;
    append_listed(out, listed)
}

// Whether a listing that may have `size` bytes has room for so many more.
fn has_room(listing: &[u8], size: usize, count: usize) -> bool
    ensures { IsTrue result ↔ (length listing.now + count ≤ size) }
{
    count <= size && listing.len() <= size - count
}

/// Appends an entry to a listing that may have `size` bytes, and answers whether it did: false
/// where the listing would have more. Where memory runs out nothing is appended.
pub fn list_entry(
    listing: &mut Vec<u8>,
    size: usize,
    listed: &Listed<'_>,
) -> Result<bool, AllocError>
    requires { length listed.now.name.now ≤ LISTED_NAME_BYTES }
    ensures fits { IfOk result (λ fits. IsTrue fits
        ↔ (length listing.old.items + length (listed_text (listed_of listed.now)) ≤ size)) }
    ensures ok { IfOk result (λ fits. listing.new.items ≡ (if fits
        then listing.old.items ++ listed_text (listed_of listed.now)
        else listing.old.items)) }
    ensures err { OnErr result (listing.new.items ≡ listing.old.items) }
{
    let count = listed_len(listed);
    if !has_room(listing, size, count) {
        return Ok(false);
    }
    listing.reserve(count)?;
    append_listed(listing, listed)?;
    Ok(true)
}

/// The same of an entry with what its name leads to in front of it.
pub fn list_entry_plus(
    listing: &mut Vec<u8>,
    size: usize,
    entry: &Entry,
    listed: &Listed<'_>,
) -> Result<bool, AllocError>
    requires { length listed.now.name.now ≤ LISTED_NAME_BYTES }
    ensures fits { IfOk result (λ fits. IsTrue fits
        ↔ (length listing.old.items
        + length (listed_plus_text entry.now (listed_of listed.now)) ≤ size)) }
    ensures ok { IfOk result (λ fits. listing.new.items ≡ (if fits
        then listing.old.items ++ listed_plus_text entry.now (listed_of listed.now)
        else listing.old.items)) }
    ensures err { OnErr result (listing.new.items ≡ listing.old.items) }
{
    let count = ENTRY_BYTES + listed_len(listed);
    if !has_room(listing, size, count) {
        return Ok(false);
    }
    listing.reserve(count)?;
    append_listed_plus(listing, entry, listed)?;
    Ok(true)
}
