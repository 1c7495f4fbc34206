//! What a consistency point may store, and what stays free behind a call: in blocks of 4,096 bytes.
//! The room that a call asks for is summed from these alone.

/// What the records of a file system cost, and its consistency points.
#[derive(Clone, Copy, Debug, PartialEq, Eq)]
pub struct Costs {
    /// For a record that adds a name: it creates, links or renames.
    pub adds_name: u32,
    /// For one that takes a name away.
    pub removes_name: u32,
    /// For one that changes a file's size; and for one that writes to a file, beside two for each
    /// block that it touches.
    pub file: u32,
    /// For one that writes to a file that is or becomes longer than `single_file`, likewise.
    pub great_file: u32,
    /// Greatest length in bytes of a file whose writes cost `file`.
    pub single_file: u64,
    /// For one that changes a mode.
    pub mode: u32,
    /// For an orphan that the root has, a file that no directory names: it is taken away.
    pub orphan: u32,
    /// For each consistency point, whatever changed.
    pub point: u32,
    /// Blocks that stay free behind a record that adds to the tree, so that files can still be
    /// taken away.
    pub headroom: u32,
}
