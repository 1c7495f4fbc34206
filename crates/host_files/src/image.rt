//! The names of an image's files.

ghost use Rattle.std.specs.Prelude.{◌≡◌, ◌++◌, IfOk, codes};
ghost use Rattle.std.specs.String.{string_bytes};

use std::alloc::{AllocError, Global};

/// The names of an image's files.
#[derive(Clone, Copy, Debug)]
pub struct Image<'a> {
    pub disk: &'a str,
    pub nvram: &'a str,
    /// The list of the disk's sectors that can't be read. No such file is there where all can be.
    pub bad: &'a str,
}

/// The name of the list that belongs to a disk of this name.
pub fn list_name(alloc: Global, disk: &str) -> Result<String, AllocError>
    ensures { IfOk result (λ name. string_bytes name ≡ disk.now ++ codes ".bad") }
{
    format!(in alloc; "{disk}.bad")
}
