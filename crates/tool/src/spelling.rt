//! A word of the program's own that names something in an image: as somebody types it, or as
//! scripts spell it.

use model::{Command, PathCall};
use script::read_command;
use std::alloc::{AllocError, Global};

/// A call whose only word is a path.
const CALL: &[u8] = b"lstat ";

/// The bytes that a word names. None where scripts are to spell it, and none spells anything so.
pub(crate) fn bytes_of(
    alloc: Global,
    word: &str,
    is_encoded: bool,
) -> Result<Option<Vec<u8>>, AllocError> {
    if !is_encoded {
        return Ok(Some(Vec::from_slice(alloc, word.as_bytes())?));
    }
    let mut line = Vec::from_slice(alloc, CALL)?;
    line.extend_from_slice(word.as_bytes())?;
    match read_command(alloc, line.as_slice()) {
        Ok(Command::Path(PathCall::Lstat { path })) => {
            Ok(Some(Vec::from_slice(alloc, path.as_bytes())?))
        }
        _ => Ok(None),
    }
}
