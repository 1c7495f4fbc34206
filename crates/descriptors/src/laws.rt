//! What a table of open files keeps beside the volume that they are of. Each function's contract is
//! a law; it does nothing.

ghost use Rattle.std.specs.Prelude.{ℕ, ◌≡◌};
ghost use Rattle.model.specs.Volumes.{IsMounted, Volume, swept};
ghost use Rattle.descriptors.specs.Fits.{FitsVolume, SameFigures};
ghost use Rattle.descriptors.specs.Tables.{table_of};

use crate::Descriptors;

/// A table that fits a volume fits each in which its files have the same figures, among these the
/// volume without the files that have neither name nor descriptor; and where none is left of these,
/// its descriptors are those of a mounted system.
pub fn tables_follow_volumes(table: &Descriptors)
    ensures same { (v w : Volume) → FitsVolume table.now v → SameFigures table.now v w
        → FitsVolume table.now w }
    ensures swept { (v : Volume) → FitsVolume table.now v
        → FitsVolume table.now (swept (table_of table.now) v) }
    ensures mounted { (v : Volume) → FitsVolume table.now v
        → ((n : ℕ) → swept (table_of table.now) v n ≡ v n) → IsMounted v (table_of table.now) }
{}
