//! A notification that the kernel answers.

ghost use Rattle.std.specs.Prelude.{◌≡◌};
ghost use Rattle.fuse.specs.Retrieval.{retrieval_text};

use crate::reply::head_bytes;
use layout::{put_bytes, put_u32, put_u64};

/// What tells the kernel of a notification, in the place of an error, what it is of
/// (`FUSE_NOTIFY_RETRIEVE`).
pub const NOTIFY_RETRIEVE: u32 = 5;
/// Bytes of the notification: a head, and what it asks for (`struct fuse_notify_retrieve_out`).
pub const RETRIEVAL_BYTES: usize = 48;

/// The notification that asks for none of the bytes that the kernel has of a node. The kernel sends
/// them, as `Retrieved`, behind the requests that wait then; so whoever reads that has read those.
/// The kernel has to know the node, and it has to be a file: else it refuses the notification.
pub fn retrieval(node: u64) -> [u8; 48]
    ensures { result ≡ retrieval_text node }
{
    let mut bytes = [0; 48];
    put_bytes(
        &mut bytes,
        0,
        &head_bytes(RETRIEVAL_BYTES as u32, NOTIFY_RETRIEVE, 0),
    );
    put_u64(&mut bytes, 16, 0);
    put_u64(&mut bytes, 24, node);
    put_u64(&mut bytes, 32, 0);
    put_u32(&mut bytes, 40, 0);
    put_u32(&mut bytes, 44, 0);
    bytes
}
