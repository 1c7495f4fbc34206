//! What names an object for as long as a file system is mounted.

/// The number of an object, and its generation: how often since the mount the number may have got
/// another object.
#[derive(Clone, Copy, Debug, PartialEq, Eq)]
pub struct Handle {
    pub number: u32,
    pub generation: u32,
}
