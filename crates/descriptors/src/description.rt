//! What a descriptor is open by.

use model::Access;

/// What a descriptor is open by, apart from what all descriptors of its file share.
#[derive(Clone, Copy, Debug, PartialEq, Eq)]
pub(crate) struct OpenDescription {
    /// The file's inode number.
    pub(crate) number: u32,
    /// Where the next read or write begins, in bytes.
    pub(crate) offset: u64,
    pub(crate) access: Access,
    /// Each write goes behind the last byte.
    pub(crate) appends: bool,
}
