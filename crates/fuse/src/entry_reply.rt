//! The replies that tell what a name leads to, and of a node its attributes.

ghost use Rattle.std.specs.Prelude.{◌≡◌, ◌++◌, OnOk, OnErr};
ghost use Rattle.fuse.specs.Attributes.{entry_text};
ghost use Rattle.fuse.specs.Replies.{attributes_reply_text, no_entry_text, reply_text};

use crate::attributes::{Attributes, Entry, attributes_bytes, entry_bytes};
use crate::reply::write_bytes;
use crate::time::Timeout;
use layout::{put_bytes, put_u32, put_u64, put_zeros};
use std::alloc::AllocError;

/// Writes the reply that tells what a name leads to.
pub fn write_entry(out: &mut Vec<u8>, unique: u64, entry: &Entry) -> Result<(), AllocError>
    ensures ok { OnOk result (out.new.items
        ≡ out.old.items ++ reply_text unique (entry_text entry.now)) }
    ensures err { OnErr result (out.new.items ≡ out.old.items) }
{
    write_bytes(out, unique, &entry_bytes(entry))
}

fn no_entry_bytes(stays: Timeout) -> [u8; 128]
    ensures { result ≡ no_entry_text stays }
{
    let mut bytes = [0; 128];
    put_u64(&mut bytes, 0, 0);
    put_u64(&mut bytes, 8, 0);
    put_u64(&mut bytes, 16, stays.seconds);
    put_u64(&mut bytes, 24, 0);
    put_u32(&mut bytes, 32, stays.nanoseconds);
    put_u32(&mut bytes, 36, 0);
    put_zeros(&mut bytes, 40, 88);
    bytes
}

/// Writes the reply that nothing has the name, which the kernel may keep so long.
pub fn write_no_entry(out: &mut Vec<u8>, unique: u64, stays: Timeout) -> Result<(), AllocError>
    ensures ok { OnOk result (out.new.items
        ≡ out.old.items ++ reply_text unique (no_entry_text stays)) }
    ensures err { OnErr result (out.new.items ≡ out.old.items) }
{
    write_bytes(out, unique, &no_entry_bytes(stays))
}

fn attributes_reply_bytes(stay: Timeout, told: &Attributes) -> [u8; 104]
    ensures { result ≡ attributes_reply_text stay told.now }
{
    let mut bytes = [0; 104];
    put_u64(&mut bytes, 0, stay.seconds);
    put_u32(&mut bytes, 8, stay.nanoseconds);
    put_u32(&mut bytes, 12, 0);
    put_bytes(&mut bytes, 16, &attributes_bytes(told));
    bytes
}

/// Writes the reply that tells a node's attributes, which the kernel may keep so long.
pub fn write_attributes(
    out: &mut Vec<u8>,
    unique: u64,
    stay: Timeout,
    told: &Attributes,
) -> Result<(), AllocError>
    ensures ok { OnOk result (out.new.items
        ≡ out.old.items ++ reply_text unique (attributes_reply_text stay told.now)) }
    ensures err { OnErr result (out.new.items ≡ out.old.items) }
{
    write_bytes(out, unique, &attributes_reply_bytes(stay, told))
}
