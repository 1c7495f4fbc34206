//! Why nothing was run, and what a refusal means, in a line for people behind the one that programs
//! read.

mod mounting;
mod refusals;

use command_line::explain_line;
use host_files::Image;
pub(crate) use mounting::{explain_mount, geometry_in};
pub(crate) use refusals::tell_refusal;
use session::{Ending, Fault};
use std::io::Write;

/// Tells why nothing was run, where that is so. Where it can't be told, what was told before has to
/// do.
pub(crate) fn explain_ending<E: Write>(
    rt: &HostRuntime,
    image: Image<'_>,
    script: &[u8],
    ending: Ending,
    err: &mut E,
) {
    match ending {
        Ending::Unrun(Fault::Line(number), _) => explain_line(rt.alloc(), script, number, err),
        Ending::Unrun(Fault::Mount(error), _) => explain_mount(rt, image, error, err),
        _ => {}
    }
}
