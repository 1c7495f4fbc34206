//! What stands where a path leads: its number, kind, mode, links and size.

ghost use Rattle.std.specs.Prelude.{◌≤◌, ℕ, List, Option, IfOk, IfSome, MatchOption, false, true};
ghost use Rattle.layout.specs.declared.inode.Inode.{Inode};
ghost use Rattle.model.specs.Reading.{stats};
ghost use Rattle.model.specs.Volumes.{Node};
ghost use Rattle.model.specs.declared.limits.TheConstants.{GREATEST_OFFSET};
ghost use Rattle.inofile.specs.Objects.{IsObject};
ghost use Rattle.paths.specs.Numbers.{IsInodeNumber};
ghost use Rattle.calls.specs.Stat.{IsStatOf, TellsStat, stat_reply};
ghost use Rattle.calls.specs.Seeing.{Answers, Tells};

use crate::leading::lead;
use buffers::Blocks;
use inode::Object;
use inofile::InodeFile;
use layout::{InodeNumber, Kind};
use model::{Errno, Stat, volumes_tell_links};
use records::{Failure, load};
use std::alloc::Global;

/// What stands where a path leads, where a last symbolic link is followed, or why the call is
/// refused. NoMemory; Device where a read failed; Damaged where a block on the way is outside its
/// format.
pub fn stat<B: Blocks>(
    alloc: Global,
    inodes: &mut InodeFile,
    blocks: &mut B,
    path: &[u8],
) -> Result<Stat, Failure>
    ensures { Answers B.Blocks blocks.old blocks.new inodes.old inodes.new
        (λ limits t. stats limits t true path.now) stat_reply result }
{
    stat_at(alloc, inodes, blocks, path, true)
}

/// The same where a last symbolic link isn't followed: what is told is of the link itself.
pub fn lstat<B: Blocks>(
    alloc: Global,
    inodes: &mut InodeFile,
    blocks: &mut B,
    path: &[u8],
) -> Result<Stat, Failure>
    ensures { Answers B.Blocks blocks.old blocks.new inodes.old inodes.new
        (λ limits t. stats limits t false path.now) stat_reply result }
{
    stat_at(alloc, inodes, blocks, path, false)
}

// What stands where a path leads, where a last symbolic link is followed or not.
fn stat_at<B: Blocks>(
    alloc: Global,
    inodes: &mut InodeFile,
    blocks: &mut B,
    path: &[u8],
    follow: bool,
) -> Result<Stat, Failure>
    ensures { Answers B.Blocks blocks.old blocks.new inodes.old inodes.new
        (λ limits t. stats limits t follow path.now) stat_reply result }
{
    volumes_tell_links();
    let number = lead(alloc, inodes, blocks, path, follow)?;
    stat_number(alloc, inodes, blocks, number)
}

/// What the object with a number is; DAMAGED where there is none. NoMemory; Device where a read
/// failed; Damaged where a block on the way is outside its format.
pub fn stat_number<B: Blocks>(
    alloc: Global,
    inodes: &mut InodeFile,
    blocks: &mut B,
    number: InodeNumber,
) -> Result<Stat, Failure>
    requires { IsInodeNumber inodes.old.geometry.inodes number }
    ensures within { IfOk result (λ s. s.size ≤ GREATEST_OFFSET) }
    ensures told { Tells B.Blocks blocks.old blocks.new inodes.old inodes.new
        (λ v. TellsStat v number) result }
{
    load(alloc, inodes, blocks, number)?;
    let at = number.get();
    let Some(object) = inodes.get(at) else {
        return Err(Failure::Refused(Errno::DAMAGED));
    };
    let Some(stat) = stat_of(at, object) else {
        return Err(Failure::Refused(Errno::DAMAGED));
    };
    Ok(stat)
}

// What is told of an object in memory; None where it is one of the file system's own files.
fn stat_of(number: u32, object: &Object) -> Option<Stat>
    ensures told { (disk : ℕ → List ℕ) (inodes : ℕ) (settled : Inode) (found : Option Node)
        → IsObject disk inodes settled object.now found
        → MatchOption result ⊥ (IsStatOf number found) }
    ensures within { IfSome result (λ s. s.size ≤ GREATEST_OFFSET) }
{
    let mode = object.status.attributes.mode;
    match object.status.kind {
        Kind::Directory => Some(Stat {
            number,
            kind: model::FileType::Dir,
            mode,
            links: 1,
            size: 0,
        }),
        Kind::File => Some(Stat {
            number,
            kind: model::FileType::File,
            mode,
            links: object.status.links,
            size: object.file.size(),
        }),
        Kind::Link => Some(Stat {
            number,
            kind: model::FileType::Link,
            mode,
            links: 1,
            size: object.file.size(),
        }),
        _ => None,
    }
}
