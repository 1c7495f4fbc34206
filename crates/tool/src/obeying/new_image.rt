//! Making an image, behind a question where something would be lost.

use super::{Streams, tell};
use crate::asking::may_replace;
use crate::image_making::make_image;
use host_files::Image;
use session::Status;
use std::io::{Read, Write};

/// Makes an empty image of these sizes: blocks, inodes and bytes of a half.
pub(super) fn make_files<I: Read, O: Write, E: Write>(
    rt: &HostRuntime,
    image: Image<'_>,
    sizes: (u32, u32, u32),
    is_new: bool,
    streams: &mut Streams<I, O, E>,
) -> Status {
    if asks(is_new, streams) {
        match may_replace(
            rt,
            image,
            streams.patience,
            &mut streams.input,
            &mut streams.err,
        ) {
            Ok(true) => {}
            Ok(false) => {
                let _ = writeln!(streams.err, "wafl: no image made: all stays as it is");
                return Status::FileFault;
            }
            Err(error) => return tell(&error, &mut streams.err),
        }
    }
    let (blocks, inodes, half) = sizes;
    match make_image(rt, image, blocks, inodes, half, is_new, streams.patience) {
        Ok(()) => Status::Done,
        Err(error) => {
            let _ = writeln!(streams.err, "wafl: {error}");
            Status::FileFault
        }
    }
}

/// Whether somebody sits there to be asked.
fn asks<I, O, E>(is_new: bool, streams: &Streams<I, O, E>) -> bool {
    streams.terminals.input && streams.terminals.err && !is_new && !streams.options.forces
}
