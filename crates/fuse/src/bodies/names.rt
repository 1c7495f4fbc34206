//! Requests with a name.

ghost use Rattle.std.specs.Prelude.{◌≡◌};
ghost use Rattle.std.specs.Option.{option_map};
ghost use Rattle.fuse.specs.Bodies.{lookup_body, symbolic_link_body, make_node_body, make_directory_body, create_body, unlink_body, remove_directory_body, rename_body, rename_by_flags_body, link_body};
ghost use Rattle.fuse.specs.Operation.{operation_of};

use crate::name::ended_at;
use crate::operation::Operation;
use layout::{u32_at, u64_at};

#[tactic(auto, unfolding(crate::specs::Bodies::lookup_body))]
pub(crate) fn read_lookup(bytes: &[u8]) -> Option<Operation<'_>>
    ensures { option_map operation_of result ≡ lookup_body.read bytes.now }
{
    let (name, bytes) = ended_at(bytes)?;
    if !bytes.is_empty() {
        return None;
    }
    Some(Operation::Lookup { name })
}

#[tactic(auto, unfolding(crate::specs::Bodies::symbolic_link_body))]
pub(crate) fn read_symbolic_link(bytes: &[u8]) -> Option<Operation<'_>>
    ensures { option_map operation_of result ≡ symbolic_link_body.read bytes.now }
{
    let (name, bytes) = ended_at(bytes)?;
    let (text, bytes) = ended_at(bytes)?;
    if !bytes.is_empty() {
        return None;
    }
    Some(Operation::SymbolicLink { name, text })
}

#[tactic(auto, unfolding(crate::specs::Bodies::make_node_body))]
pub(crate) fn read_make_node(bytes: &[u8]) -> Option<Operation<'_>>
    ensures { option_map operation_of result ≡ make_node_body.read bytes.now }
{
    let (mode, bytes) = u32_at(bytes)?;
    let (device, bytes) = u32_at(bytes)?;
    let (umask, bytes) = u32_at(bytes)?;
    let (_padding, bytes) = u32_at(bytes)?;
    let (name, bytes) = ended_at(bytes)?;
    if !bytes.is_empty() {
        return None;
    }
    Some(Operation::MakeNode {
        name,
        mode,
        device,
        umask,
    })
}

#[tactic(auto, unfolding(crate::specs::Bodies::make_directory_body))]
pub(crate) fn read_make_directory(bytes: &[u8]) -> Option<Operation<'_>>
    ensures { option_map operation_of result ≡ make_directory_body.read bytes.now }
{
    let (mode, bytes) = u32_at(bytes)?;
    let (umask, bytes) = u32_at(bytes)?;
    let (name, bytes) = ended_at(bytes)?;
    if !bytes.is_empty() {
        return None;
    }
    Some(Operation::MakeDirectory { name, mode, umask })
}

#[tactic(auto, unfolding(crate::specs::Bodies::create_body))]
pub(crate) fn read_create(bytes: &[u8]) -> Option<Operation<'_>>
    ensures { option_map operation_of result ≡ create_body.read bytes.now }
{
    let (flags, bytes) = u32_at(bytes)?;
    let (mode, bytes) = u32_at(bytes)?;
    let (umask, bytes) = u32_at(bytes)?;
    let (open_flags, bytes) = u32_at(bytes)?;
    let (name, bytes) = ended_at(bytes)?;
    if !bytes.is_empty() {
        return None;
    }
    Some(Operation::Create {
        name,
        mode,
        umask,
        flags,
        open_flags,
    })
}

#[tactic(auto, unfolding(crate::specs::Bodies::unlink_body))]
pub(crate) fn read_unlink(bytes: &[u8]) -> Option<Operation<'_>>
    ensures { option_map operation_of result ≡ unlink_body.read bytes.now }
{
    let (name, bytes) = ended_at(bytes)?;
    if !bytes.is_empty() {
        return None;
    }
    Some(Operation::Unlink { name })
}

#[tactic(auto, unfolding(crate::specs::Bodies::remove_directory_body))]
pub(crate) fn read_remove_directory(bytes: &[u8]) -> Option<Operation<'_>>
    ensures { option_map operation_of result ≡ remove_directory_body.read bytes.now }
{
    let (name, bytes) = ended_at(bytes)?;
    if !bytes.is_empty() {
        return None;
    }
    Some(Operation::RemoveDirectory { name })
}

#[tactic(auto, unfolding(crate::specs::Bodies::rename_body))]
pub(crate) fn read_rename(bytes: &[u8]) -> Option<Operation<'_>>
    ensures { option_map operation_of result ≡ rename_body.read bytes.now }
{
    let (new_parent, bytes) = u64_at(bytes)?;
    let (name, bytes) = ended_at(bytes)?;
    let (new_name, bytes) = ended_at(bytes)?;
    if !bytes.is_empty() {
        return None;
    }
    Some(Operation::Rename {
        name,
        new_parent,
        new_name,
        flags: 0,
    })
}

#[tactic(auto, unfolding(crate::specs::Bodies::rename_by_flags_body))]
pub(crate) fn read_rename_by_flags(bytes: &[u8]) -> Option<Operation<'_>>
    ensures { option_map operation_of result ≡ rename_by_flags_body.read bytes.now }
{
    let (new_parent, bytes) = u64_at(bytes)?;
    let (flags, bytes) = u32_at(bytes)?;
    let (_padding, bytes) = u32_at(bytes)?;
    let (name, bytes) = ended_at(bytes)?;
    let (new_name, bytes) = ended_at(bytes)?;
    if !bytes.is_empty() {
        return None;
    }
    Some(Operation::Rename {
        name,
        new_parent,
        new_name,
        flags,
    })
}

#[tactic(auto, unfolding(crate::specs::Bodies::link_body))]
pub(crate) fn read_link(bytes: &[u8]) -> Option<Operation<'_>>
    ensures { option_map operation_of result ≡ link_body.read bytes.now }
{
    let (node, bytes) = u64_at(bytes)?;
    let (name, bytes) = ended_at(bytes)?;
    if !bytes.is_empty() {
        return None;
    }
    Some(Operation::Link { name, node })
}
