//! Where a path leads.

use crate::Trail;
use layout::InodeNumber;
use model::Errno;

/// Where a path leads.
#[derive(Debug, Drop)]
pub enum Place {
    /// To a directory that `.`, `..` or no part at all named: the one at the end of the trail.
    Directory(Trail),
    /// To what a name of the directory at the end of the trail stands for.
    Entry {
        trail: Trail,
        name: Vec<u8>,
        number: InodeNumber,
    },
    /// To a name that the directory at the end of the trail doesn't have.
    Missing {
        trail: Trail,
        name: Vec<u8>,
    },
    /// Nowhere.
    Refusal(Errno),
}

/// Where the text of a path leads, from the root or from an object's number.
#[derive(Debug, Drop)]
pub enum Target {
    /// To where parts lead: from the root, or from the directory with the number.
    Place(Place),
    /// To the object with this number, which is no directory, by its number alone.
    Object(InodeNumber),
}
