//! Requests for bytes of a file or entries of a directory.

ghost use Rattle.std.specs.Prelude.{◌≡◌};
ghost use Rattle.std.specs.Option.{option_map};
ghost use Rattle.fuse.specs.Bodies.{read_body, write_body, read_directory_body, read_directory_plus_body, transfer_fields};
ghost use Rattle.fuse.specs.Operation.{operation_of};
ghost use Rattle.fuse.specs.Transfers.{transfer_of};

use crate::operation::Operation;
use layout::{part_at, u32_at, u64_at};

/// The numbers that tell of bytes to be read or written.
#[derive(Clone, Copy)]
struct Transfer {
    handle: u64,
    offset: u64,
    size: u32,
    transfer_flags: u32,
    lock_owner: u64,
    flags: u32,
    padding: u32,
}

fn transfer_at(bytes: &[u8]) -> Option<(Transfer, &[u8])>
    ensures { option_map (λ x. (transfer_of x.0, x.1.now)) result ≡ transfer_fields.at bytes.now }
{
    let (handle, bytes) = u64_at(bytes)?;
    let (offset, bytes) = u64_at(bytes)?;
    let (size, bytes) = u32_at(bytes)?;
    let (transfer_flags, bytes) = u32_at(bytes)?;
    let (lock_owner, bytes) = u64_at(bytes)?;
    let (flags, bytes) = u32_at(bytes)?;
    let (padding, bytes) = u32_at(bytes)?;
    Some((
        Transfer {
            handle,
            offset,
            size,
            transfer_flags,
            lock_owner,
            flags,
            padding,
        },
        bytes,
    ))
}

#[tactic(auto, unfolding(crate::specs::Bodies::read_body))]
pub(crate) fn read_read(bytes: &[u8]) -> Option<Operation<'_>>
    ensures { option_map operation_of result ≡ read_body.read bytes.now }
{
    let (asked, bytes) = transfer_at(bytes)?;
    if !bytes.is_empty() {
        return None;
    }
    Some(Operation::Read {
        handle: asked.handle,
        offset: asked.offset,
        size: asked.size,
        read_flags: asked.transfer_flags,
        flags: asked.flags,
    })
}

#[tactic(auto, unfolding(crate::specs::Bodies::write_body))]
pub(crate) fn read_write(bytes: &[u8]) -> Option<Operation<'_>>
    ensures { option_map operation_of result ≡ write_body.read bytes.now }
{
    let (asked, bytes) = transfer_at(bytes)?;
    let (contents, bytes) = part_at(bytes, asked.size as usize)?;
    if !bytes.is_empty() {
        return None;
    }
    Some(Operation::Write {
        handle: asked.handle,
        offset: asked.offset,
        bytes: contents,
        write_flags: asked.transfer_flags,
        flags: asked.flags,
    })
}

#[tactic(auto, unfolding(crate::specs::Bodies::read_directory_body))]
pub(crate) fn read_read_directory(bytes: &[u8]) -> Option<Operation<'_>>
    ensures { option_map operation_of result ≡ read_directory_body.read bytes.now }
{
    let (asked, bytes) = transfer_at(bytes)?;
    if !bytes.is_empty() {
        return None;
    }
    Some(Operation::ReadDirectory {
        handle: asked.handle,
        offset: asked.offset,
        size: asked.size,
    })
}

#[tactic(auto, unfolding(crate::specs::Bodies::read_directory_plus_body))]
pub(crate) fn read_read_directory_plus(bytes: &[u8]) -> Option<Operation<'_>>
    ensures { option_map operation_of result ≡ read_directory_plus_body.read bytes.now }
{
    let (asked, bytes) = transfer_at(bytes)?;
    if !bytes.is_empty() {
        return None;
    }
    Some(Operation::ReadDirectoryPlus {
        handle: asked.handle,
        offset: asked.offset,
        size: asked.size,
    })
}
