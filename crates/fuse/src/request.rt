//! Requests, as they are read.

ghost use Rattle.std.specs.Prelude.{◌≡◌, ℕ, List, Some, IfSome, IsSomeAnd};
ghost use Rattle.fuse.specs.Head.{fields_of, head};
ghost use Rattle.fuse.specs.Request.{IsRequest, RequestValue, request_of};

use crate::bodies::read_body;
use crate::head::{Head, read_head};
use crate::operation::Operation;

/// A request of the kernel.
#[derive(Clone, Copy)]
pub struct Request<'a> {
    pub head: Head,
    pub operation: Operation<'a>,
}

/// The request that these bytes spell, all of them; None where they spell none.
pub fn read_request(bytes: &[u8]) -> Option<Request<'_>>
    ensures found { IfSome result (λ r. IsRequest bytes.now (request_of r)) }
    ensures only { (r : RequestValue) → IsRequest bytes.now r
        → IsSomeAnd result (λ q. request_of q ≡ r) }
    ensures head { IfSome result (λ r. (extra : ℕ) × (rest : List ℕ)
        × (head.at bytes.now ≡ Some (fields_of r.head extra, rest))) }
{
    let Some((head, _, body)) = read_head(bytes) else {
        return None;
    };
    if head.length as usize != bytes.len() {
        return None;
    }
    let Some(operation) = read_body(head.opcode, body) else {
        return None;
    };
    Some(Request { head, operation })
}
