//! Paths that begin at an object's number.

ghost use Rattle.std.specs.Prelude.{◌≡◌, ◌∷◌, [], IfOk, Some};
ghost use Rattle.model.specs.Paths.{IsName, parts, parts_behind, start_number};

use std::alloc::{AllocError, Global};

/// The text of a path that begins at the object with a number: `@17`, and `@17/name` where it goes
/// on to a name, or over several with slashes between them.
pub fn path_from(alloc: Global, number: u32, names: &[u8]) -> Result<Vec<u8>, AllocError>
    ensures starts { IfOk result (λ text. start_number text.items ≡ Some number) }
    ensures goes_on { IfOk result (λ text. parts_behind text.items ≡ parts names.now) }
    ensures one_name { IfOk result (λ text. IsName names.now
        → parts_behind text.items ≡ names.now ∷ []) }
{
    let mut text = format!(in alloc; "@{number}")?.into_bytes();
    if !names.is_empty() {
        text.push(b'/')?;
        text.extend_from_slice(names)?;
    }
    Ok(text)
}
