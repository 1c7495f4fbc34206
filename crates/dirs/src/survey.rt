//! A survey of a directory, before a name is added to it.

ghost use Rattle.std.specs.Prelude.{◌≡◌, ◌+◌, ◌^◌, ◌<◌, ◌≤◌, ℕ, List, IfOk, IsErrOf, None};
ghost use Rattle.buffers.specs.Reads.{ReadsBlocks};
ghost use Rattle.buffers.specs.Errors.{IsFault};
ghost use Rattle.entries.specs.Known.{Knows};
ghost use Rattle.dirs.specs.Edits.{edited_block, IsReached, IsSoundEdit};
ghost use Rattle.dirs.specs.Surveys.{SurveysBlocks, IsBounded, next_place, next_room};

use crate::Edit;
use crate::edit::Place;
use buffers::{BlockError, Blocks};
use entries::{Known, Look, hash_of};
use inode::File;
use layout::BLOCK_BYTES;

/// What a survey tells.
#[derive(Clone, Copy, Debug)]
pub(crate) struct Survey {
    /// Where the name stands that is looked for.
    pub(crate) place: Option<Place>,
    /// Names of the directory.
    pub(crate) names: u64,
    /// The first block with room.
    pub(crate) room: Option<u32>,
}

/// Counts the names of a directory, looks for one, and finds the first block with room for an entry
/// of so many bytes.
pub(crate) fn survey_of<B: Blocks>(
    edit: &Edit,
    file: &File,
    known: &mut Known,
    blocks: &mut B,
    inodes: u32,
    name: &[u8],
    bytes: usize,
) -> Result<Survey, BlockError>
    requires { bytes ≤ 260 }
    ensures reads { ReadsBlocks B.Blocks IsFault blocks.old blocks.new result }
    ensures knows { (disk : ℕ → List ℕ) → B.Shows blocks.old disk →
        Knows inodes (edited_block disk file.now edit.now) known.old →
        Knows inodes (edited_block disk file.now edit.now) known.new }
    ensures finds { (disk : ℕ → List ℕ) → B.Shows blocks.old disk →
        Knows inodes (edited_block disk file.now edit.now) known.old →
        IfOk result
        (SurveysBlocks inodes (edited_block disk file.now edit.now) edit.now.count name.now bytes) }
    ensures bounded { IfOk result (λ s. IsBounded edit.now.count s s.room) }
    ensures damaged { (disk : ℕ → List ℕ) → B.Shows blocks.old disk →
        IsErrOf result BlockError.Damaged →
        IsReached (B.count blocks.old) disk file.now edit.now.count →
        IsSoundEdit inodes disk file.now edit.now → ⊥ }
{
    let mut survey = Survey {
        place: None,
        names: 0,
        room: None,
    };
    let hash = hash_of(name);
    for i in 0..edit.count {
        let look = edit.look(file, known, blocks, i, inodes, name, hash)?;
        survey = with_block(survey, i, look, bytes);
    }
    Ok(survey)
}

// What is told with one more block.
fn with_block(before: Survey, i: u32, look: Look, bytes: usize) -> Survey
    requires names { before.names + look.names < 2 ^ 64 }
    requires bytes { bytes ≤ 260 }
    ensures place { result.place ≡ next_place i look.number before.place }
    ensures names { result.names ≡ before.names + look.names }
    ensures room { result.room ≡ next_room i (look.used + bytes) before.room }
{
    let room = match before.room {
        Some(first) => Some(first),
        None if look.used as usize + bytes <= BLOCK_BYTES => Some(i),
        None => None,
    };
    let place = match before.place {
        Some(first) => Some(first),
        None => place_in(i, look.number),
    };
    Survey {
        place,
        names: before.names + u64::from(look.names),
        room,
    }
}

// Where a name stands that stands for this number in block `i`.
fn place_in(i: u32, number: Option<u32>) -> Option<Place>
    ensures { result ≡ next_place i number None }
{
    match number {
        Some(number) => Some(Place { block: i, number }),
        None => None,
    }
}
