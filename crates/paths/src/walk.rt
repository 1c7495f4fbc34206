//! A walk along the parts of a path, up to a link that is followed.

ghost use Rattle.std.specs.Prelude.{◌≡◌, ◌<◌};
ghost use Rattle.model.specs.declared.limits.TheConstants.{ROOT_NUMBER};
ghost use Rattle.model.specs.Finding.{find_along};
ghost use Rattle.paths.specs.Loads.{LooksUp};
ghost use Rattle.paths.specs.Numbers.{AreInodeNumbers};
ghost use Rattle.paths.specs.Halts.{walk_end_of, IsWalkEndWithin};

use crate::lookup::text_at;
use crate::step::{WalkStep, walk_step};
use crate::{Parts, Place, Trail};
use buffers::{BlockError, Blocks};
use inofile::InodeFile;
use std::alloc::Global;

/// Where a walk ends: at the answer, or at a link that is followed, which stands in the directory
/// at the end of the trail, with its text and the parts that are left.
#[derive(Debug, Drop)]
pub(crate) enum WalkEnd {
    At(Place),
    AtLink {
        trail: Trail,
        text: Vec<u8>,
        rest: Parts,
    },
}

/// Where parts lead from the end of a trail, up to a link that is followed: one with parts behind
/// it, or a last one where `follow` says so.
pub(crate) fn walk<B: Blocks>(
    alloc: Global,
    inodes: &mut InodeFile,
    blocks: &mut B,
    mut trail: Trail,
    mut parts: Parts,
    follow: bool,
) -> Result<WalkEnd, BlockError>
    requires root { ROOT_NUMBER < inodes.old.geometry.inodes }
    requires numbers { AreInodeNumbers inodes.old.geometry.inodes trail }
    ensures { LooksUp B.Blocks blocks.old blocks.new inodes.old inodes.new
        (IsWalkEndWithin inodes.old.geometry.inodes)
        (λ v halt. walk_end_of halt ≡ find_along v follow trail parts) result }
{
    while let Some(name) = parts.next() {
        let is_last = parts.is_empty();
        match walk_step(
            alloc,
            inodes,
            blocks,
            trail.here(),
            name.as_slice(),
            is_last,
            follow,
        )? {
            WalkStep::Stays => {}
            WalkStep::Rises => trail.rise(),
            WalkStep::Enters(number) => trail.enter(number)?,
            WalkStep::Follows(number) => {
                let text = text_at(alloc, inodes, blocks, number)?;
                return Ok(WalkEnd::AtLink {
                    trail,
                    text,
                    rest: parts,
                });
            }
            WalkStep::EndsAt(number) => {
                return Ok(WalkEnd::At(Place::Entry {
                    trail,
                    name,
                    number,
                }));
            }
            WalkStep::FindsNothing => return Ok(WalkEnd::At(Place::Missing { trail, name })),
            WalkStep::Refused(errno) => return Ok(WalkEnd::At(Place::Refusal(errno))),
        }
    }
    Ok(WalkEnd::At(Place::Directory(trail)))
}
