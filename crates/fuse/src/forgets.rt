//! What the kernel forgets at once.

use layout::u64_at;

/// So many of the times that the kernel was told of a node.
#[derive(Clone, Copy, Debug)]
pub struct Forget {
    pub node: u64,
    pub lookups: u64,
}

/// Several of them, one behind the other, as the request has them.
#[derive(Clone, Copy)]
pub struct Forgets<'a> {
    /// Sixteen for each.
    pub bytes: &'a [u8],
}

impl<'a> Forgets<'a> {
    ghost use Rattle.std.specs.Prelude.{◌≡◌, ◌∷◌, [], IfNone, IfSome};
    ghost use Rattle.fuse.specs.Forgets.{forgets_of};

    /// The first, and those behind it; None where none is left.
    pub fn split_first(&self) -> Option<(Forget, Forgets<'a>)>
        ensures some { IfSome result (λ x. forgets_of self.now ≡ x.0 ∷ forgets_of x.1) }
        ensures none { IfNone result (forgets_of self.now ≡ []) }
    {
        let (node, bytes) = u64_at(self.bytes)?;
        let (lookups, bytes) = u64_at(bytes)?;
        Some((Forget { node, lookups }, Forgets { bytes }))
    }
}
