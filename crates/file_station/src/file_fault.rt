//! A call of the system that failed on one of an image's files.

ghost use Rattle.std.specs.Prelude.{◌≡◌, None, IfErr, IfSome, IsSome, OnOk};

use crate::Part;
use std::{fmt, io};

/// What was called.
#[derive(Clone, Copy, Debug, PartialEq, Eq)]
pub enum FileCall {
    Read,
    Write,
    Sync,
}

impl fmt::Display for FileCall {
    fn fmt<W: fmt::Write>(&self, f: &mut fmt::Formatter<W>) -> fmt::Result {
        f.write_str(match self {
            FileCall::Read => "read",
            FileCall::Write => "write",
            FileCall::Sync => "sync",
        })
    }
}

/// A call that failed.
#[derive(Clone, Copy, Debug)]
pub struct FileFault {
    pub part: Part,
    pub call: FileCall,
    pub error: io::Error,
}

/// Keeps a call that failed where none is kept yet, and answers as it did.
pub(crate) fn kept(
    fault: &mut Option<FileFault>,
    part: Part,
    call: FileCall,
    done: io::Result<()>,
) -> io::Result<()>
    ensures answer { result ≡ done }
    ensures first { IsSome fault.old → fault.new ≡ fault.old }
    ensures ok { OnOk result (fault.new ≡ fault.old) }
    ensures kept { IfErr result (λ error. fault.old ≡ None → IfSome fault.new
        (λ kept. (kept.part ≡ part) × (kept.call ≡ call) × (kept.error ≡ error))) }
{
    if let Err(error) = done
        && fault.is_none()
    {
        *fault = Some(FileFault { part, call, error });
    }
    done
}
