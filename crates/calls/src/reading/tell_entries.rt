//! Telling a part of a directory's names over a path.

ghost use Rattle.std.specs.Prelude.{◌≡◌, ◌≤◌, ◌||◌, ◌==◌, All, None, nat_lt};
ghost use Rattle.layout.specs.StateLimits.{limits_of};
ghost use Rattle.model.specs.Paths.{first_refusal, parts as parts_of, text_tests_then};
ghost use Rattle.model.specs.Reading.{is_negative, tells_entries};
ghost use Rattle.model.specs.declared.limits.TheConstants.{ENTRIES_TOLD};
ghost use Rattle.paths.specs.Numbers.{IsInodeNumber};
ghost use Rattle.calls.specs.Entries.{TellsEach, TellsName, entries_reply, part_tests};
ghost use Rattle.calls.specs.Seeing.{Answers, Tells};

use crate::leading::find_object;
use crate::reading::part::{ToldName, part_of};
use crate::reading::stat::stat_number;
use crate::texts::refusal_of_path;
use buffers::Blocks;
use dirs::NumberedName;
use inofile::InodeFile;
use layout::InodeNumber;
use model::{ENTRIES_TOLD, Entries, Entry, Errno, FileType, Stat, Text, volumes_tell_links};
use paths::{Parts, list_numbered};
use records::{Failure, is_directory_at};
use std::alloc::Global;

/// Of the directory that a path leads to, the names behind a cookie, in the order of their cookies
/// and of their bytes: at least so many where there are as many, and all of a cookie where there is
/// one of it; each with its cookie and what `lstat` tells of it. Or why the call is refused.
/// NoMemory; Device where a read failed; Damaged where a block on the way is outside its format.
pub fn entries<B: Blocks>(
    alloc: Global,
    inodes: &mut InodeFile,
    blocks: &mut B,
    path: &[u8],
    after: i64,
    count: u32,
) -> Result<Entries, Failure>
    ensures { Answers B.Blocks blocks.old blocks.new inodes.old inodes.new
        (λ limits t. tells_entries limits t path.now after count) entries_reply result }
{
    let parts = Parts::of(alloc, path)?;
    if let Some(errno) = refusal_of_path(inodes, path, &parts) {
        return Err(Failure::Refused(errno));
    }
    if is_no_part(after, count) {
        return Err(Failure::Refused(Errno::EINVAL));
    }
    entries_along(alloc, inodes, blocks, path, parts, after, count)
}

// Whether there is no such cookie, or no part of so many names.
fn is_no_part(after: i64, count: u32) -> bool
    ensures { result ≡ (is_negative after || count == 0 || nat_lt ENTRIES_TOLD count) }
{
    after < 0 || count == 0 || count > ENTRIES_TOLD
}

// The same with a text that passed its tests, and its parts; ENOTDIR where it leads to no
// directory.
fn entries_along<B: Blocks>(
    alloc: Global,
    inodes: &mut InodeFile,
    blocks: &mut B,
    path: &[u8],
    parts: Parts,
    after: i64,
    count: u32,
) -> Result<Entries, Failure>
    requires parts { parts ≡ parts_of path.now }
    requires passed { first_refusal (text_tests_then (limits_of inodes.old.geometry) (part_tests
        after count) path.now) ≡ None }
    requires some { 1 ≤ count }
    ensures { Answers B.Blocks blocks.old blocks.new inodes.old inodes.new
        (λ limits t. tells_entries limits t path.now after count) entries_reply result }
{
    volumes_tell_links();
    let number = find_object(alloc, inodes, blocks, path, parts, true)?;
    let found = is_directory_at(alloc, inodes, blocks, number)?;
    if !found {
        return Err(Failure::Refused(Errno::ENOTDIR));
    }
    let names = list_numbered(alloc, inodes, blocks, number)?;
    let told = part_of(alloc, names, after.unsigned_abs(), count as usize)?;
    let entries = tell_each(alloc, inodes, blocks, number, told)?;
    Ok(Entries::new(entries))
}

// What is told of each of these names of a directory.
fn tell_each<B: Blocks>(
    alloc: Global,
    inodes: &mut InodeFile,
    blocks: &mut B,
    directory: InodeNumber,
    told: Vec<ToldName>,
) -> Result<Vec<Entry>, Failure>
    requires { All (λ t. IsInodeNumber inodes.old.geometry.inodes t.numbered.number) told.items }
    ensures { Tells B.Blocks blocks.old blocks.new inodes.old inodes.new
        (λ v. TellsEach v told.items) result }
{
    let mut entries = Vec::new(alloc);
    for name in told {
        let entry = tell(alloc, inodes, blocks, directory, name)?;
        entries.push(entry)?;
    }
    Ok(entries)
}

// What is told of a name of a directory. Where a directory has the name, it is remembered where that
// stands, as if it were looked up: who is told its number needn't do that.
fn tell<B: Blocks>(
    alloc: Global,
    inodes: &mut InodeFile,
    blocks: &mut B,
    directory: InodeNumber,
    name: ToldName,
) -> Result<Entry, Failure>
    requires { IsInodeNumber inodes.old.geometry.inodes name.numbered.number }
    ensures { Tells B.Blocks blocks.old blocks.new inodes.old inodes.new
        (λ v. TellsName v name) result }
{
    let ToldName { cookie, numbered } = name;
    let NumberedName { name, number } = numbered;
    let stat = stat_number(alloc, inodes, blocks, number)?;
    note_told(inodes, directory, &name, &stat);
    Ok(Entry {
        cookie,
        name: Text::new(name),
        stat,
    })
}

// Remembers where a directory stands of which this is told, as a hint.
fn note_told(inodes: &mut InodeFile, parent: InodeNumber, name: &[u8], stat: &Stat)
    ensures { inodes.new ≡ inodes.old }
{
    if stat.kind == FileType::Dir {
        inodes.note_parent(stat.number, parent.get(), name);
    }
}
