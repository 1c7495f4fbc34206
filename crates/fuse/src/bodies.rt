//! What stands behind a request's head, by its opcode.

ghost use Rattle.std.specs.Prelude.{◌≡◌};
ghost use Rattle.std.specs.Option.{option_map};
ghost use Rattle.fuse.specs.Bodies.{body, other_body};
ghost use Rattle.fuse.specs.Operation.{operation_of};

mod handles;
mod names;
mod nodes;
mod transfers;

use crate::opcode::{
    ACCESS, BATCH_FORGET, CREATE, DESTROY, FLUSH, FORGET, FSYNC, FSYNCDIR, GETATTR, INIT,
    INTERRUPT, LINK, LOOKUP, LSEEK, MKDIR, MKNOD, NOTIFY_REPLY, OPEN, OPENDIR, READ, READDIR,
    READDIRPLUS, READLINK, RELEASE, RELEASEDIR, RENAME, RENAME2, RMDIR, SETATTR, STATFS, SYMLINK,
    UNLINK, WRITE,
};
use crate::operation::Operation;
use handles::{
    read_flush, read_open, read_open_directory, read_release, read_release_directory, read_seek,
    read_sync, read_sync_directory,
};
use names::{
    read_create, read_link, read_lookup, read_make_directory, read_make_node,
    read_remove_directory, read_rename, read_rename_by_flags, read_symbolic_link, read_unlink,
};
use nodes::{
    read_access, read_batch_forget, read_destroy, read_forget, read_get_attributes, read_init,
    read_interrupt, read_read_link, read_retrieved, read_set_attributes, read_stat_file_system,
};
use transfers::{read_read, read_read_directory, read_read_directory_plus, read_write};

/// What the bytes behind a head of this opcode ask; None where they aren't in its format.
#[tactic(auto, unfolding(crate::specs::Bodies::body))]
pub(crate) fn read_body(opcode: u32, bytes: &[u8]) -> Option<Operation<'_>>
    ensures { option_map operation_of result ≡ (body opcode).read bytes.now }
{
    match opcode {
        LOOKUP => read_lookup(bytes),
        FORGET => read_forget(bytes),
        GETATTR => read_get_attributes(bytes),
        SETATTR => read_set_attributes(bytes),
        READLINK => read_read_link(bytes),
        SYMLINK => read_symbolic_link(bytes),
        MKNOD => read_make_node(bytes),
        MKDIR => read_make_directory(bytes),
        UNLINK => read_unlink(bytes),
        RMDIR => read_remove_directory(bytes),
        RENAME => read_rename(bytes),
        LINK => read_link(bytes),
        OPEN => read_open(bytes),
        READ => read_read(bytes),
        WRITE => read_write(bytes),
        STATFS => read_stat_file_system(bytes),
        RELEASE => read_release(bytes),
        FSYNC => read_sync(bytes),
        FLUSH => read_flush(bytes),
        INIT => read_init(bytes),
        OPENDIR => read_open_directory(bytes),
        READDIR => read_read_directory(bytes),
        RELEASEDIR => read_release_directory(bytes),
        FSYNCDIR => read_sync_directory(bytes),
        ACCESS => read_access(bytes),
        CREATE => read_create(bytes),
        INTERRUPT => read_interrupt(bytes),
        DESTROY => read_destroy(bytes),
        NOTIFY_REPLY => read_retrieved(bytes),
        BATCH_FORGET => read_batch_forget(bytes),
        READDIRPLUS => read_read_directory_plus(bytes),
        RENAME2 => read_rename_by_flags(bytes),
        LSEEK => read_seek(bytes),
        _ => read_other(opcode, bytes),
    }
}

#[tactic(auto, unfolding(crate::specs::Bodies::other_body))]
fn read_other(opcode: u32, bytes: &[u8]) -> Option<Operation<'_>>
    ensures { option_map operation_of result ≡ (other_body opcode).read bytes.now }
{
    let _any = bytes;
    Some(Operation::Other { opcode })
}
