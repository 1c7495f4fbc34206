//! Directories: a map from names to numbers, in blocks of entries. What is changed of a directory
//! is prepared as one edit, which may take names away and add one, and is committed without
//! failing. Nothing here knows where a block lies.
#![tactic(auto)]

mod adding;
mod directory;
mod edit;
mod error;
mod removing;
mod survey;

pub use directory::{NumberedName, find, list, list_numbered};
pub use edit::Edit;
pub use error::AddError;

/// Blocks that a directory has at the most to which a block was added: those of a file without a
/// third height of indirect blocks.
const GROWN_BLOCKS: u32 = 16_384;
