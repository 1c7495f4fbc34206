//! What a power cut does with the unsynced sector writes.

/// What a power cut does with a sector write.
#[derive(Clone, Copy, Debug, PartialEq, Eq)]
pub enum Mark {
    /// It leaves the sector as it was before the write.
    Dropped,
    /// It leaves the bytes that were written.
    Kept,
    /// The sector can't be read then.
    Lost,
}

/// What a power cut does with each of the sector writes since the last sync that succeeded, the cut
/// write's included, in the order written (a block's eight in rising order). A sector is as the
/// last of its writes that isn't dropped leaves it; where all are, its settled value stands.
#[derive(Debug, Drop)]
pub enum CutOutcome {
    /// All are dropped.
    Nothing,
    /// All are kept.
    Everything,
    /// The i-th has the i-th of these marks. The list is used again from its start; with an empty
    /// one all are dropped.
    Bits(Vec<Mark>),
}

impl CutOutcome {
    ghost use Rattle.std.specs.Prelude.{◌≡◌};
    ghost use Rattle.memory_station.specs.Unsynced.{mark_of};

    /// The mark of the write at this place, counted from 0.
    pub(crate) fn mark(&self, place: usize) -> Mark
        ensures { result ≡ mark_of self.now place }
    {
        match self {
            CutOutcome::Nothing => Mark::Dropped,
            CutOutcome::Everything => Mark::Kept,
            CutOutcome::Bits(marks) => {
                if marks.is_empty() {
                    Mark::Dropped
                } else {
                    marks[place % marks.len()]
                }
            }
        }
    }
}
