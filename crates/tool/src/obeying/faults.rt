//! What is to go wrong in a run.

ghost use Rattle.std.specs.Prelude.{◌≡◌, IfOk};
ghost use Rattle.tool.specs.Words.{IsToFail, KeepsAsTold, mark_told};

use command_line::{Kept, RunFaults};
use host_files::{FileError, Held, Image, ImageStation, Patience, load_station};
use memory_station::{CutOutcome, Mark, Sim};
use std::alloc::{AllocError, Global};

/// An image in memory that is to fail as these faults say.
pub(super) fn failing_image<'a>(
    rt: &HostRuntime,
    image: Image<'a>,
    faults: RunFaults<'_>,
    patience: Patience,
) -> Result<ImageStation, FileError<'a>> {
    let (sim, held) = failing_station(rt, image, faults, patience)?;
    Ok(ImageStation::Memory(sim, held))
}

/// What a run in memory starts from: a station that is to fail as these faults say, and what holds
/// the image's files.
fn failing_station<'a>(
    rt: &HostRuntime,
    image: Image<'a>,
    faults: RunFaults<'_>,
    patience: Patience,
) -> Result<(Sim, Held), FileError<'a>>
    ensures { IfOk result (λ run. IsToFail faults.entry run.0) }
{
    let (mut sim, held) = load_station(rt, image, patience)?;
    if let Some(cut) = faults.cut {
        sim.cut_at(cut, cut_outcome_of(rt.alloc(), faults.keep)?, faults.bytes);
    }
    if let Some(sync) = faults.fail_sync {
        sim.fail_sync_at(sync);
    }
    Ok((sim, held))
}

/// Which writes a cut keeps, by the word for it.
fn cut_outcome_of(alloc: Global, kept: Kept<'_>) -> Result<CutOutcome, AllocError>
    ensures { IfOk result (KeepsAsTold kept.entry) }
{
    match kept {
        Kept::Nothing => Ok(CutOutcome::Nothing),
        Kept::Everything => Ok(CutOutcome::Everything),
        Kept::Bits(text) => Ok(CutOutcome::Bits(
            text.bytes().map(|byte| mark_of(byte)).collect(alloc)?,
        )),
    }
}

/// What a character of a text says of a sector write: 0 drops it, 1 keeps it, and with 2 the sector
/// can't be read.
fn mark_of(byte: u8) -> Mark
    ensures { result ≡ mark_told byte }
{
    match byte {
        b'1' => Mark::Kept,
        b'2' => Mark::Lost,
        _ => Mark::Dropped,
    }
}
