//! What an inode says beside a file's bytes.

ghost use Rattle.std.specs.Prelude.{◌≡◌, ℕ, ◌≤◌, List, IfOk};
ghost use Rattle.layout.specs.Trees.{greatest_size};
ghost use Rattle.inode.specs.Bodies.{inode_block};

use crate::File;
use entries::Known;
use layout::{Inode, Kind};
use model::Attributes;
use std::alloc::{AllocError, Global};

/// What an object is, beside its bytes.
#[derive(Clone, Copy, Debug, PartialEq, Eq)]
pub struct Status {
    pub kind: Kind,
    pub attributes: Attributes,
    /// Names of a regular file, 1 for any other object.
    pub links: u32,
}

impl Status {
    ghost use Rattle.model.specs.Attributes.{no_attributes};

    /// That of a new object of this kind, with its one name.
    pub fn new(kind: Kind, attributes: Attributes) -> Status
        ensures { result ≡ record { kind = kind; attributes = attributes; links = 1 } }
    {
        Status {
            kind,
            attributes,
            links: 1,
        }
    }

    /// That of a free inode.
    pub fn free() -> Status
        ensures { result ≡ record { kind = Kind.Free; attributes = no_attributes; links = 0 } }
    {
        Status {
            kind: Kind::Free,
            attributes: Attributes::none(),
            links: 0,
        }
    }
}

/// An object in memory.
#[derive(Debug, Drop)]
pub struct Object {
    pub status: Status,
    pub file: File,
    /// What is known of a directory's blocks; of another object nothing.
    pub known: Known,
}

impl Object {
    ghost use Rattle.entries.specs.Known.{Knows};
    ghost use Rattle.layout.specs.Limits.{Sizes};
    ghost use Rattle.images.specs.Nodes.{held};
    ghost use Rattle.images.specs.Soundness.{Detail, IsHeldFile, IsSoundFile};
    ghost use Rattle.inode.specs.Bases.{IsBased, StartsFrom, StartsUnchanged};
    ghost use Rattle.inode.specs.Files.{IsAsHeld, IsFile, file_block};

    /// The object of a settled inode.
    pub fn load(alloc: Global, inode: Inode) -> Result<Object, AllocError>
        requires { inode.size ≤ greatest_size inode.layout }
        ensures status { IfOk result
            (λ o. o.status
            ≡ record {
              kind = inode.kind;
              attributes = inode.attributes;
              links = inode.links;
            }) }
        ensures size { IfOk result (λ o. o.file.size ≡ inode.size) }
        ensures blocks { IfOk result (λ o. (disk : ℕ → List ℕ) (i : ℕ)
            → file_block disk o.file i ≡ inode_block disk inode i) }
        ensures held { (detail : Detail) (s : Sizes) (disk : ℕ → List ℕ)
            → IsHeldFile detail s (held disk inode) → IfOk result (λ o. IsAsHeld disk inode o.file) }
        ensures ends { (s : Sizes) (disk : ℕ → List ℕ) → IsSoundFile s (held disk inode)
            → IfOk result (λ o. IsFile disk o.file) }
        ensures settled { IfOk result
            (λ o. StartsFrom inode.layout inode.body inode.size o.file.tree) }
        ensures unchanged { IfOk result (λ o. StartsUnchanged inode.body o.file.tree) }
        ensures base { IfOk result (λ o. IsBased inode o.file.tree) }
        ensures known { IfOk result (λ o. (inodes : ℕ) (block : ℕ → List ℕ)
            → Knows inodes block o.known) }
    {
        let status = Status {
            kind: inode.kind,
            attributes: inode.attributes,
            links: inode.links,
        };
        let file = File::load(alloc, inode)?;
        let known = Known::new(alloc);
        Ok(Object {
            status,
            file,
            known,
        })
    }
}
