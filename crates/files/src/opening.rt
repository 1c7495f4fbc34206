//! Opening a file.

ghost use Rattle.std.specs.Prelude.{◌≡◌, IfSome, IsTrue, is_some};
ghost use Rattle.layout.specs.StateLimits.{limits_of};
ghost use Rattle.model.specs.Attributes.{FitAttributes, KeepsTime, new_attributes};
ghost use Rattle.model.specs.Descriptors.{open_tests, opens};
ghost use Rattle.model.specs.Paths.{first_refusal};
ghost use Rattle.calls.specs.Refusals.{is_path_refusal};
ghost use Rattle.files.specs.Opened.{tree_with};
ghost use Rattle.files.specs.Opening.{CanOpen, OpensDescriptor, of_opening};
ghost use Rattle.files.specs.Preparing.{PreparesOpen};

use crate::writing::is_writing;
use buffers::Blocks;
use calls::{Changing, open_along, refusal_of_path};
use descriptors::{Descriptors, OpenFile};
use inofile::InodeFile;
use model::{Errno, FileType, Flags, Permissions, Stat, Time};
use paths::Parts;
use records::Failure;
use std::alloc::Global;

/// A file that is to be opened, and its descriptor.
#[derive(Drop)]
pub struct Opening {
    /// The lowest descriptor that is free.
    pub fd: u32,
    /// The file as it is open then.
    pub file: OpenFile,
    /// What `fstat` tells of it then.
    pub stat: Stat,
    /// What is changed beside: the file is made, or truncated to no bytes.
    pub changing: Option<Changing>,
}

/// Opens the file where a path leads, or makes one where the flags say so, as far as nothing of it
/// is seen yet: prepares the record, if there is one, and tells the descriptor, which is below a
/// number, the open file that the table is to have, and what `fstat` tells of it then. Or tells why
/// the call is refused: EINVAL where the flags want a new file and don't say that one is made, or
/// want a file truncated that isn't for writing; EMFILE where no such descriptor is free; EEXIST
/// where a new file is wanted and something stands there; EISDIR of a directory; ENOENT where
/// nothing stands there and no file is to be made. NoMemory; Device where a read failed; Damaged
/// where a block on the way is outside its format, or where a number that is free has an object.
#[allow(clippy::too_many_arguments)]
pub fn prepare_open<B: Blocks>(
    alloc: Global,
    inodes: &mut InodeFile,
    blocks: &mut B,
    now: Option<Time>,
    table: &Descriptors,
    path: &[u8],
    flags: Flags,
    permissions: Permissions,
    below: u32,
) -> Result<Opening, Failure>
    requires now { KeepsTime (limits_of inodes.old.geometry).has_attributes now }
    requires kept { FitAttributes (is_some now) (new_attributes permissions) }
    ensures { PreparesOpen of_opening (CanOpen table.now inodes.old.geometry.inodes) now B.Blocks
        blocks.old blocks.new inodes.old inodes.new table.now
        (λ v. OpensDescriptor (λ tells. opens tells below (limits_of inodes.old.geometry) now
        (tree_with table.now v) path.now flags permissions) (limits_of inodes.old.geometry) v
        table.now) result }
{
    let parts = Parts::of(alloc, path)?;
    if let Some(errno) = refusal_of_path(inodes, path, &parts) {
        return Err(Failure::Refused(errno));
    }
    if let Some(errno) = refusal_of_flags(flags) {
        return Err(Failure::Refused(errno));
    }
    let Some(fd) = table.lowest_free(below) else {
        return Err(Failure::Refused(Errno::EMFILE));
    };
    let opened = open_along(alloc, inodes, blocks, now, path, parts, flags, permissions)?;
    let stat = Stat {
        number: opened.number.get(),
        kind: FileType::File,
        mode: opened.mode,
        links: opened.links,
        size: opened.size,
    };
    let file = OpenFile::opened(stat.number, flags, stat.size, stat.links);
    Ok(Opening {
        fd,
        file,
        stat,
        changing: opened.changing,
    })
}

// Why flags are refused: they want a new file and don't say that one is made, or want a file
// truncated that isn't for writing.
fn refusal_of_flags(flags: Flags) -> Option<Errno>
    ensures first { result ≡ first_refusal (open_tests flags) }
    ensures own { IfSome result (λ e. IsTrue (is_path_refusal e)) }
{
    if flags.exclusive && !flags.creates {
        return Some(Errno::EINVAL);
    }
    if flags.truncates && !is_writing(flags.access) {
        return Some(Errno::EINVAL);
    }
    None
}
