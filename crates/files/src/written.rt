//! What a call writes into a file.

ghost use Rattle.std.specs.Prelude.{◌≤◌};
ghost use Rattle.model.specs.declared.limits.TheConstants.{GREATEST_OFFSET};

use layout::InodeNumber;
use records::Prepared;

/// Where bytes go that a call writes.
#[derive(Clone, Copy, Debug)]
pub struct Written {
    /// The file's inode number.
    pub number: InodeNumber,
    /// Where the bytes go, in bytes.
    pub offset: u64,
    /// The place behind the bytes, in bytes.
    pub behind: u64,
    ghost behind_within: { behind ≤ GREATEST_OFFSET },
}

/// A write that is prepared.
#[derive(Drop)]
pub struct Writing {
    pub written: Written,
    pub prepared: Prepared,
}
