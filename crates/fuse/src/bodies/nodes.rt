//! Requests about a node as a whole, about the file system, and about requests.

ghost use Rattle.std.specs.Prelude.{◌≡◌};
ghost use Rattle.std.specs.Option.{option_map};
ghost use Rattle.fuse.specs.Bodies.{forget_body, batch_forget_body, get_attributes_body, set_attributes_body, read_link_body, access_body, stat_file_system_body, init_body, interrupt_body, destroy_body, retrieved_body};
ghost use Rattle.fuse.specs.Operation.{operation_of};

use crate::attribute_changes::{changes_of, rights_at, targets_at, times_at};
use crate::flags::given;
use crate::forgets::Forgets;
use crate::opcode::GETATTR_FH;
use crate::operation::Operation;
use layout::{part_at, u32_at, u64_at};

#[tactic(auto, unfolding(crate::specs::Bodies::forget_body))]
pub(crate) fn read_forget(bytes: &[u8]) -> Option<Operation<'_>>
    ensures { option_map operation_of result ≡ forget_body.read bytes.now }
{
    let (lookups, bytes) = u64_at(bytes)?;
    if !bytes.is_empty() {
        return None;
    }
    Some(Operation::Forget { lookups })
}

#[tactic(auto, unfolding(crate::specs::Bodies::batch_forget_body))]
pub(crate) fn read_batch_forget(bytes: &[u8]) -> Option<Operation<'_>>
    ensures { option_map operation_of result ≡ batch_forget_body.read bytes.now }
{
    let (count, bytes) = u32_at(bytes)?;
    let (_padding, bytes) = u32_at(bytes)?;
    let (forgets, bytes) = part_at(bytes, 16 * count as usize)?;
    if !bytes.is_empty() {
        return None;
    }
    Some(Operation::BatchForget {
        forgets: Forgets { bytes: forgets },
    })
}

#[tactic(auto, unfolding(crate::specs::Bodies::get_attributes_body))]
pub(crate) fn read_get_attributes(bytes: &[u8]) -> Option<Operation<'_>>
    ensures { option_map operation_of result ≡ get_attributes_body.read bytes.now }
{
    let (flags, bytes) = u32_at(bytes)?;
    let (_padding, bytes) = u32_at(bytes)?;
    let (handle, bytes) = u64_at(bytes)?;
    if !bytes.is_empty() {
        return None;
    }
    Some(Operation::GetAttributes {
        handle: given(flags, GETATTR_FH, handle),
    })
}

#[tactic(auto, unfolding(crate::specs::Bodies::set_attributes_body))]
pub(crate) fn read_set_attributes(bytes: &[u8]) -> Option<Operation<'_>>
    ensures { option_map operation_of result ≡ set_attributes_body.read bytes.now }
{
    let (targets, bytes) = targets_at(bytes)?;
    let (times, bytes) = times_at(bytes)?;
    let (rights, bytes) = rights_at(bytes)?;
    if !bytes.is_empty() {
        return None;
    }
    Some(Operation::SetAttributes {
        changes: changes_of(targets, times, rights),
    })
}

#[tactic(auto, unfolding(crate::specs::Bodies::read_link_body))]
pub(crate) fn read_read_link(bytes: &[u8]) -> Option<Operation<'_>>
    ensures { option_map operation_of result ≡ read_link_body.read bytes.now }
{
    if !bytes.is_empty() {
        return None;
    }
    Some(Operation::ReadLink)
}

#[tactic(auto, unfolding(crate::specs::Bodies::access_body))]
pub(crate) fn read_access(bytes: &[u8]) -> Option<Operation<'_>>
    ensures { option_map operation_of result ≡ access_body.read bytes.now }
{
    let (mask, bytes) = u32_at(bytes)?;
    let (_padding, bytes) = u32_at(bytes)?;
    if !bytes.is_empty() {
        return None;
    }
    Some(Operation::Access { mask })
}

#[tactic(auto, unfolding(crate::specs::Bodies::stat_file_system_body))]
pub(crate) fn read_stat_file_system(bytes: &[u8]) -> Option<Operation<'_>>
    ensures { option_map operation_of result ≡ stat_file_system_body.read bytes.now }
{
    if !bytes.is_empty() {
        return None;
    }
    Some(Operation::StatFileSystem)
}

#[tactic(auto, unfolding(crate::specs::Bodies::init_body))]
pub(crate) fn read_init(bytes: &[u8]) -> Option<Operation<'_>>
    ensures { option_map operation_of result ≡ init_body.read bytes.now }
{
    let (major, bytes) = u32_at(bytes)?;
    let (minor, bytes) = u32_at(bytes)?;
    let (max_readahead, bytes) = u32_at(bytes)?;
    let (flags, _) = u32_at(bytes)?;
    Some(Operation::Init {
        major,
        minor,
        max_readahead,
        flags,
    })
}

#[tactic(auto, unfolding(crate::specs::Bodies::interrupt_body))]
pub(crate) fn read_interrupt(bytes: &[u8]) -> Option<Operation<'_>>
    ensures { option_map operation_of result ≡ interrupt_body.read bytes.now }
{
    let (unique, bytes) = u64_at(bytes)?;
    if !bytes.is_empty() {
        return None;
    }
    Some(Operation::Interrupt { unique })
}

#[tactic(auto, unfolding(crate::specs::Bodies::destroy_body))]
pub(crate) fn read_destroy(bytes: &[u8]) -> Option<Operation<'_>>
    ensures { option_map operation_of result ≡ destroy_body.read bytes.now }
{
    if !bytes.is_empty() {
        return None;
    }
    Some(Operation::Destroy)
}

#[tactic(auto, unfolding(crate::specs::Bodies::retrieved_body))]
pub(crate) fn read_retrieved(bytes: &[u8]) -> Option<Operation<'_>>
    ensures { option_map operation_of result ≡ retrieved_body.read bytes.now }
{
    let _any = bytes;
    Some(Operation::Retrieved)
}
