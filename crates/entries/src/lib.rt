//! A block of a directory: its entries, what a look at it tells of a name, and what is known of
//! blocks that were looked at before.
#![tactic(auto)]

mod entries;
mod known;
mod look;
mod marks;
mod summary;

pub use entries::{add, count, remove};
pub use known::Known;
pub use look::Look;
pub use marks::hash_of;

/// Places for the marks of a block's names.
const MARKS: usize = 8192;

/// Hashes of names are below this number: the places of two marks.
const HASHES: usize = MARKS * MARKS;

/// Names with other prints have other marks, so that few names of a block are looked for in others.
const PRINTS: usize = 251;

/// The mark of names with several prints.
const SHARED: u8 = 255;

/// Blocks of one directory of which a summary is kept: its first ones.
const MOST_KNOWN: u32 = 256;

/// Changes that a summary follows. The marks of names that were taken away stay, so it is made anew
/// before they are many.
const MOST_CHANGES: u32 = 256;

/// Entries that a block has at the most.
const MOST_NAMES: u32 = 4096;
