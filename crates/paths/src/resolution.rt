//! Where the parts of a path lead.

ghost use Rattle.std.specs.Prelude.{◌≡◌, false};
ghost use Rattle.model.specs.Finding.{find_within, trail_from};
ghost use Rattle.model.specs.Paths.{is_empty, is_number_alone, parts as parts_of};
ghost use Rattle.paths.specs.Loads.{LooksUp};
ghost use Rattle.paths.specs.Numbers.{IsInodeNumber};
ghost use Rattle.paths.specs.Places.{IsPlaceWithin, model_place_of};
ghost use Rattle.paths.specs.Resolves.{Resolves, ResolvesFrom, ResolvesParts, ResolvesPlace};
ghost use Rattle.paths.specs.Targets.{target_alone};

use crate::lookup::placed_at;
use crate::text::starts_with_slash;
use crate::walk::{WalkEnd, walk};
use crate::{Found, Parts, Place, Target, Trail};
use buffers::{BlockError, Blocks};
use inofile::InodeFile;
use layout::InodeNumber;
use model::{
    Errno, LINKS_FOLLOWED, ROOT_NUMBER, resolution_is_by_numbers, resolution_is_from_numbers,
    volumes_tell_numbers,
};
use std::alloc::Global;

/// Where the text of a path leads, which has these parts and passed its tests: from the root, or
/// from the object with the number that it begins at. From the root a link with parts behind it is
/// followed, and a last one where `follow` says so; more than eight links in a row are ELOOP. Behind
/// a number no link is followed: where one would be, it is ELOOP. ESTALE where nothing with the
/// number stands at a path, ENOTDIR where parts stand behind that of no directory. Objects on the way
/// come into memory. NoMemory; Device where a read failed; Damaged where a block on the way is
/// outside its format.
pub fn resolve<B: Blocks>(
    alloc: Global,
    inodes: &mut InodeFile,
    blocks: &mut B,
    text: &[u8],
    mut parts: Parts,
    follow: bool,
) -> Result<Target, BlockError>
    requires { parts ≡ parts_of text.now }
    ensures { Resolves B.Blocks blocks.old blocks.new inodes.old inodes.new text.now follow result }
{
    match parts.start(text) {
        None => {
            let place = resolve_parts(alloc, inodes, blocks, parts, follow)?;
            Ok(Target::Place(place))
        }
        Some(number) => {
            let _ = parts.next();
            resolve_from(alloc, inodes, blocks, number, parts, follow)
        }
    }
}

/// The same of a text that isn't a number alone: a place is there.
pub fn resolve_place<B: Blocks>(
    alloc: Global,
    inodes: &mut InodeFile,
    blocks: &mut B,
    text: &[u8],
    parts: Parts,
    follow: bool,
) -> Result<Place, BlockError>
    requires parts { parts ≡ parts_of text.now }
    requires named { is_number_alone text.now ≡ false }
    ensures { ResolvesPlace B.Blocks blocks.old blocks.new inodes.old inodes.new text.now follow
        result }
{
    let target = resolve(alloc, inodes, blocks, text, parts, follow)?;
    match target {
        Target::Place(place) => Ok(place),
        Target::Object(_number) => unreachable!(),
    }
}

// Where parts lead from the object with a number.
fn resolve_from<B: Blocks>(
    alloc: Global,
    inodes: &mut InodeFile,
    blocks: &mut B,
    number: u32,
    names: Parts,
    follow: bool,
) -> Result<Target, BlockError>
    ensures { ResolvesFrom B.Blocks blocks.old blocks.new inodes.old inodes.new number names follow
        result }
{
    volumes_tell_numbers();
    resolution_is_from_numbers();
    if number < ROOT_NUMBER || number >= inodes.geometry().inodes() {
        return Ok(Target::Place(Place::Refusal(Errno::ESTALE)));
    }
    let start = InodeNumber::new(number);
    let found = placed_at(alloc, inodes, blocks, start)?;
    match found {
        Found::Directory => {
            let place = walk_from(alloc, inodes, blocks, start, names, follow)?;
            Ok(Target::Place(place))
        }
        Found::Nothing => Ok(Target::Place(Place::Refusal(Errno::ESTALE))),
        Found::File => Ok(target_alone(start, &names, false)),
        Found::Link => Ok(target_alone(start, &names, follow)),
    }
}

// Where parts lead from an object that is no directory: to itself where there are none, unless it is
// a link that would be followed.
fn target_alone(start: InodeNumber, names: &Parts, follows: bool) -> Target
    ensures { result ≡ target_alone start (is_empty names.now) follows }
{
    if !names.is_empty() {
        return Target::Place(Place::Refusal(Errno::ENOTDIR));
    }
    if follows {
        return Target::Place(Place::Refusal(Errno::ELOOP));
    }
    Target::Object(start)
}

// Where parts lead from the directory with a number, with no link followed.
fn walk_from<B: Blocks>(
    alloc: Global,
    inodes: &mut InodeFile,
    blocks: &mut B,
    start: InodeNumber,
    names: Parts,
    follow: bool,
) -> Result<Place, BlockError>
    requires { IsInodeNumber inodes.old.geometry.inodes start }
    ensures { LooksUp B.Blocks blocks.old blocks.new inodes.old inodes.new
        (IsPlaceWithin inodes.old.geometry.inodes)
        (λ v place. model_place_of place ≡ find_within 0 v follow (trail_from start) names) result }
{
    // An image has more inode numbers than the root's.
    let _ = inodes.geometry().inodes();
    let trail = Trail::from(alloc, start)?;
    let end = walk(alloc, inodes, blocks, trail, names, follow)?;
    match end {
        WalkEnd::At(place) => Ok(place),
        WalkEnd::AtLink {
            trail: _trail,
            text: _text,
            rest: _rest,
        } => Ok(Place::Refusal(Errno::ELOOP)),
    }
}

// Where the parts of a path lead from the root. A link with parts behind it is followed; a last
// one where `follow` says so. More than eight links in a row are too many. Directories and links
// on the way come into memory. NoMemory; Device where a read failed; Damaged where a block on the
// way is outside its format.
fn resolve_parts<B: Blocks>(
    alloc: Global,
    inodes: &mut InodeFile,
    blocks: &mut B,
    path: Parts,
    follow: bool,
) -> Result<Place, BlockError>
    ensures { ResolvesParts B.Blocks blocks.old blocks.new inodes.old inodes.new path follow result }
{
    // An image has more inode numbers than the root's, where each walk begins.
    let _ = inodes.geometry().inodes();
    resolution_is_by_numbers();
    let mut trail = Trail::root(alloc);
    let mut parts = path;
    for _link in 0..=LINKS_FOLLOWED {
        match walk(alloc, inodes, blocks, trail, parts, follow)? {
            WalkEnd::At(place) => return Ok(place),
            WalkEnd::AtLink {
                trail: directory,
                text,
                rest,
            } => {
                parts = Parts::of(alloc, &text)?.before(rest)?;
                trail = if starts_with_slash(&text) {
                    Trail::root(alloc)
                } else {
                    directory
                };
            }
        }
    }
    Ok(Place::Refusal(Errno::ELOOP))
}
