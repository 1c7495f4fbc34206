//! Requests that open something, and those through a handle.

ghost use Rattle.std.specs.Prelude.{◌≡◌};
ghost use Rattle.std.specs.Option.{option_map};
ghost use Rattle.fuse.specs.Bodies.{open_body, open_directory_body, release_body, release_directory_body, flush_body, sync_body, sync_directory_body, seek_body};
ghost use Rattle.fuse.specs.Operation.{operation_of};

use crate::flags::is_set;
use crate::opcode::FSYNC_FDATASYNC;
use crate::operation::Operation;
use layout::{u32_at, u64_at};

#[tactic(auto, unfolding(crate::specs::Bodies::open_body))]
pub(crate) fn read_open(bytes: &[u8]) -> Option<Operation<'_>>
    ensures { option_map operation_of result ≡ open_body.read bytes.now }
{
    let (flags, bytes) = u32_at(bytes)?;
    let (open_flags, bytes) = u32_at(bytes)?;
    if !bytes.is_empty() {
        return None;
    }
    Some(Operation::Open { flags, open_flags })
}

#[tactic(auto, unfolding(crate::specs::Bodies::open_directory_body))]
pub(crate) fn read_open_directory(bytes: &[u8]) -> Option<Operation<'_>>
    ensures { option_map operation_of result ≡ open_directory_body.read bytes.now }
{
    let (flags, bytes) = u32_at(bytes)?;
    let (open_flags, bytes) = u32_at(bytes)?;
    if !bytes.is_empty() {
        return None;
    }
    Some(Operation::OpenDirectory { flags, open_flags })
}

#[tactic(auto, unfolding(crate::specs::Bodies::release_body))]
pub(crate) fn read_release(bytes: &[u8]) -> Option<Operation<'_>>
    ensures { option_map operation_of result ≡ release_body.read bytes.now }
{
    let (handle, bytes) = u64_at(bytes)?;
    let (flags, bytes) = u32_at(bytes)?;
    let (release_flags, bytes) = u32_at(bytes)?;
    let (_lock_owner, bytes) = u64_at(bytes)?;
    if !bytes.is_empty() {
        return None;
    }
    Some(Operation::Release {
        handle,
        flags,
        release_flags,
    })
}

#[tactic(auto, unfolding(crate::specs::Bodies::release_directory_body))]
pub(crate) fn read_release_directory(bytes: &[u8]) -> Option<Operation<'_>>
    ensures { option_map operation_of result ≡ release_directory_body.read bytes.now }
{
    let (handle, bytes) = u64_at(bytes)?;
    let (_flags, bytes) = u32_at(bytes)?;
    let (_release_flags, bytes) = u32_at(bytes)?;
    let (_lock_owner, bytes) = u64_at(bytes)?;
    if !bytes.is_empty() {
        return None;
    }
    Some(Operation::ReleaseDirectory { handle })
}

#[tactic(auto, unfolding(crate::specs::Bodies::flush_body))]
pub(crate) fn read_flush(bytes: &[u8]) -> Option<Operation<'_>>
    ensures { option_map operation_of result ≡ flush_body.read bytes.now }
{
    let (handle, bytes) = u64_at(bytes)?;
    let (_unused, bytes) = u32_at(bytes)?;
    let (_padding, bytes) = u32_at(bytes)?;
    let (_lock_owner, bytes) = u64_at(bytes)?;
    if !bytes.is_empty() {
        return None;
    }
    Some(Operation::Flush { handle })
}

#[tactic(auto, unfolding(crate::specs::Bodies::sync_body))]
pub(crate) fn read_sync(bytes: &[u8]) -> Option<Operation<'_>>
    ensures { option_map operation_of result ≡ sync_body.read bytes.now }
{
    let (handle, bytes) = u64_at(bytes)?;
    let (flags, bytes) = u32_at(bytes)?;
    let (_padding, bytes) = u32_at(bytes)?;
    if !bytes.is_empty() {
        return None;
    }
    Some(Operation::Sync {
        handle,
        data_only: is_set(flags, FSYNC_FDATASYNC),
    })
}

#[tactic(auto, unfolding(crate::specs::Bodies::sync_directory_body))]
pub(crate) fn read_sync_directory(bytes: &[u8]) -> Option<Operation<'_>>
    ensures { option_map operation_of result ≡ sync_directory_body.read bytes.now }
{
    let (handle, bytes) = u64_at(bytes)?;
    let (flags, bytes) = u32_at(bytes)?;
    let (_padding, bytes) = u32_at(bytes)?;
    if !bytes.is_empty() {
        return None;
    }
    Some(Operation::SyncDirectory {
        handle,
        data_only: is_set(flags, FSYNC_FDATASYNC),
    })
}

#[tactic(auto, unfolding(crate::specs::Bodies::seek_body))]
pub(crate) fn read_seek(bytes: &[u8]) -> Option<Operation<'_>>
    ensures { option_map operation_of result ≡ seek_body.read bytes.now }
{
    let (handle, bytes) = u64_at(bytes)?;
    let (offset, bytes) = u64_at(bytes)?;
    let (whence, bytes) = u32_at(bytes)?;
    let (_padding, bytes) = u32_at(bytes)?;
    if !bytes.is_empty() {
        return None;
    }
    Some(Operation::Seek {
        handle,
        offset,
        whence,
    })
}
