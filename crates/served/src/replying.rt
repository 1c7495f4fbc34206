//! An answer as the kernel reads it.

ghost use Rattle.std.specs.Prelude.{◌≡◌, ◌++◌, OnErr, OnOk};
ghost use Rattle.served.specs.Replying.{bytes_spelled, spelled};

use crate::answer::Answer;
use crate::errno::{ENOSYS, ENXIO, EPROTO, linux_number};
use crate::numbers::FOREVER;
use fuse::{
    write_attributes, write_bytes, write_count, write_created, write_done, write_entry,
    write_error, write_init, write_no_entry, write_offset, write_open, write_statfs,
};
use model::Errno;
use std::alloc::AllocError;

/// Writes the reply to the request of this number; nothing where it has none.
pub(crate) fn write_answer(
    out: &mut Vec<u8>,
    unique: u64,
    answer: &Answer,
) -> Result<(), AllocError>
    ensures ok { OnOk result (out.new.items ≡ out.old.items ++ spelled unique answer.now) }
    ensures err { OnErr result (out.new.items ≡ out.old.items) }
{
    match answer {
        Answer::Silent => Ok(()),
        Answer::Done => write_done(out, unique),
        Answer::Refused(errno) => write_error(out, unique, linux_number(*errno)),
        Answer::NotServed => write_error(out, unique, ENOSYS),
        Answer::NothingBehind => write_error(out, unique, ENXIO),
        Answer::OtherVersion => write_error(out, unique, EPROTO),
        Answer::NoEntry => write_no_entry(out, unique, FOREVER),
        Answer::Entry(entry) => write_entry(out, unique, entry),
        Answer::Attributes(told) => write_attributes(out, unique, FOREVER, told),
        Answer::Bytes(text) => write_text(out, unique, text.as_bytes()),
        Answer::Wrote(count) => write_count(out, unique, *count),
        Answer::Opened(opened) => write_open(out, unique, opened),
        Answer::Created(entry, opened) => write_created(out, unique, entry, opened),
        Answer::Space(told) => write_statfs(out, unique, told),
        Answer::Offset(offset) => write_offset(out, unique, *offset),
        Answer::Agreed(reply) => write_init(out, unique, reply),
    }
}

/// Writes bytes, if they fit a reply.
fn write_text(out: &mut Vec<u8>, unique: u64, bytes: &[u8]) -> Result<(), AllocError>
    ensures ok { OnOk result (out.new.items ≡ out.old.items ++ bytes_spelled unique bytes.now) }
    ensures err { OnErr result (out.new.items ≡ out.old.items) }
{
    if bytes.len() < MOST_REPLY {
        write_bytes(out, unique, bytes)
    } else {
        write_error(out, unique, linux_number(Errno::EIO))
    }
}

/// So many bytes a reply has no place for, behind its head.
const MOST_REPLY: usize = 4_294_967_280;
