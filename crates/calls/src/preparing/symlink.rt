//! Making a symbolic link over a path.

ghost use Rattle.std.specs.Prelude.{◌≡◌, ◌==◌, is_some};
ghost use Rattle.std.specs.List.{list_any};
ghost use Rattle.layout.specs.StateLimits.{limits_of};
ghost use Rattle.model.specs.Attributes.{FitAttributes, KeepsTime, new_attributes};
ghost use Rattle.model.specs.declared.limits.TheConstants.{LINK_MODE};
ghost use Rattle.model.specs.Changing.{link_text_tests, makes_symlink};
ghost use Rattle.model.specs.Paths.{first_refusal};
ghost use Rattle.model.specs.Volumes.{tree_of};
ghost use Rattle.calls.specs.Changing.{Comes};
ghost use Rattle.calls.specs.Preparing.{Prepares};

use crate::making::make;
use crate::{Changing, LinkText, OwnedObject};
use buffers::Blocks;
use inofile::InodeFile;
use model::{Errno, Limits, Permissions, Time};
use records::Failure;
use std::alloc::Global;

/// Makes a symbolic link of this text and these permissions where a path leads, as `make_directory`
/// does a directory.
pub fn symlink<B: Blocks>(
    alloc: Global,
    inodes: &mut InodeFile,
    blocks: &mut B,
    now: Option<Time>,
    text: &[u8],
    path: &[u8],
    permissions: Permissions,
) -> Result<Changing, Failure>
    requires now { KeepsTime (limits_of inodes.old.geometry).has_attributes now }
    requires mode { permissions.mode ≡ LINK_MODE }
    requires kept { FitAttributes (is_some now) (new_attributes permissions) }
    ensures { Prepares now B.Blocks blocks.old blocks.new inodes.old inodes.new
        (λ limits v table. Comes (makes_symlink limits now (tree_of v table) text.now path.now
        permissions) limits v table) result }
{
    if let Some(errno) = refusal_of_link_text(inodes.limits(), text) {
        return Err(Failure::Refused(errno));
    }
    let bytes = Vec::from_slice(alloc, text)?;
    let Some(text) = LinkText::new(bytes) else {
        unreachable!()
    };
    let Permissions { owner, group, .. } = permissions;
    let object = OwnedObject::Link { owner, group, text };
    make(alloc, inodes, blocks, now, path, object)
}

// Why the text of a symbolic link is refused.
fn refusal_of_link_text(limits: Limits, text: &[u8]) -> Option<Errno>
    ensures { result ≡ first_refusal (link_text_tests limits text.now) }
{
    if text.is_empty() {
        Some(Errno::ENOENT)
    } else if has_zero(text) {
        Some(Errno::EINVAL)
    } else if text.len() > limits.path_bytes as usize {
        Some(Errno::ENAMETOOLONG)
    } else {
        None
    }
}

fn has_zero(text: &[u8]) -> bool
    ensures { result ≡ list_any (λ byte. byte == 0) text.now }
{
    text.iter().any(|byte| *byte == 0)
}
