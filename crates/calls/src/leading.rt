//! What stands where a path leads, over memory that stands for a volume.

ghost use Rattle.std.specs.Prelude.{◌≡◌, Ok};
ghost use Rattle.model.specs.Paths.{parts as parts_of, text_tests};
ghost use Rattle.paths.specs.Resolves.{LeadsUpNowhere};
ghost use Rattle.records.specs.Failures.{read_outcome};
ghost use Rattle.calls.specs.Leading.{IsLed, LeadsAlong, TellsWhere, led_of};

use crate::texts::refusal_of_path;
use buffers::Blocks;
use inofile::InodeFile;
use layout::InodeNumber;
use model::Errno;
use paths::{Parts, Place, Target, resolve};
use records::Failure;
use std::alloc::Global;

/// The number of what stands where the text of a path leads, which has these parts and passed its
/// tests, or the refusal: ENOENT where nothing stands there.
pub(crate) fn find_object<B: Blocks>(
    alloc: Global,
    inodes: &mut InodeFile,
    blocks: &mut B,
    path: &[u8],
    parts: Parts,
    follow: bool,
) -> Result<InodeNumber, Failure>
    requires parts { parts ≡ parts_of path.now }
    requires level { LeadsUpNowhere path.now }
    ensures { TellsWhere B.Blocks blocks.old blocks.new inodes.old inodes.new follow
        (λ limits t v. LeadsAlong t v follow path.now) result }
{
    let target = resolve(alloc, inodes, blocks, path, parts, follow)?;
    match target {
        Target::Object(number) => Ok(number),
        Target::Place(place) => number_of(place),
    }
}

// The number of what stands at a place; ENOENT where nothing does.
fn number_of(place: Place) -> Result<InodeNumber, Failure>
    ensures { read_outcome result ≡ Ok (led_of place) }
{
    match place {
        Place::Directory(trail) => Ok(trail.here()),
        Place::Entry {
            trail: _trail,
            name: _name,
            number,
        } => Ok(number),
        Place::Refusal(errno) => Err(Failure::Refused(errno)),
        Place::Missing {
            trail: _trail,
            name: _name,
        } => Err(Failure::Refused(Errno::ENOENT)),
    }
}

/// The same where a path leads whose text is tested first.
pub(crate) fn lead<B: Blocks>(
    alloc: Global,
    inodes: &mut InodeFile,
    blocks: &mut B,
    path: &[u8],
    follow: bool,
) -> Result<InodeNumber, Failure>
    ensures { TellsWhere B.Blocks blocks.old blocks.new inodes.old inodes.new follow
        (λ limits t v. IsLed (text_tests limits path.now) t v follow path.now) result }
{
    let parts = Parts::of(alloc, path)?;
    if let Some(errno) = refusal_of_path(inodes, path, &parts) {
        return Err(Failure::Refused(errno));
    }
    find_object(alloc, inodes, blocks, path, parts, follow)
}
