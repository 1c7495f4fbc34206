//! The nine faults that an image may have, with what was found.

use model::SNAPSHOT_NAME_BYTES;

/// A fault, with what was found.
#[derive(Clone, Copy, Debug, PartialEq, Eq)]
pub enum Fault {
    /// 1: the roots.
    Roots(RootsFault),
    /// 2: the root block of the snapshot in a slot, counted from 1.
    Snapshot {
        slot: u32,
        block: u32,
        found: SnapshotFault,
    },
    /// 3: an inode, an indirect block or a map of a tree is outside its grammar, as each of these
    /// blocks is that can't be read.
    Tree(TreeFault),
    /// 4: a tree names a block twice.
    Shared {
        block: u32,
        first: FileNode,
        second: FileNode,
    },
    /// 5: the block map says of a block what the trees don't.
    MapBit {
        block: u32,
        entry: u32,
        expected: u32,
    },
    /// 6: the inode map says of a number what its inode doesn't.
    InodeMap {
        number: u32,
        is_taken: bool,
    },
    /// 7: a tree's directories.
    Directory(DirectoryFault),
    /// 8: a file has another number of names than of links.
    Links {
        number: u32,
        names: u32,
        links: u32,
    },
    /// 9: the log.
    Log(LogFault),
}

/// What is wrong with the roots.
#[derive(Clone, Copy, Debug, PartialEq, Eq)]
pub enum RootsFault {
    /// No slot holds one.
    None,
    /// Two are of one generation or of different sizes, or the station has another size.
    Unfit,
}

/// What is wrong with a snapshot's root block.
#[derive(Clone, Copy, Debug, PartialEq, Eq)]
pub enum SnapshotFault {
    /// It is outside its grammar or can't be read, or its order number is above the newest root's
    /// generation.
    NoSnapshot,
    /// It has the name or the order number of the one in another slot.
    SameAs(u32),
}

/// What of a tree is outside its grammar.
#[derive(Clone, Copy, Debug, PartialEq, Eq)]
pub enum TreeFault {
    /// Bytes of the inode file that belong to no inode, in this block of it.
    InodeBlock(u32),
    /// The inode of a number.
    Inode(u32),
    /// An indirect block of a number's file; of that of inodes, where it is 0.
    Indirect { number: u32, block: u32 },
    InodeMap,
    BlockMap,
}

/// A node of a file: its inode's number, 0 for the file of inodes; how many heights it stands over
/// the file's blocks; and which one of its height it is.
#[derive(Clone, Copy, Debug, PartialEq, Eq)]
pub struct FileNode {
    pub number: u32,
    pub height: u32,
    pub index: u32,
}

/// What is wrong with a tree's directories.
#[derive(Clone, Copy, Debug, PartialEq, Eq)]
pub enum DirectoryFault {
    /// A block of a directory's entries is outside its grammar, or can't be read.
    Entries { directory: u32, block: u32 },
    /// A name stands twice in a directory.
    Repeated { directory: u32 },
    /// A name in a directory leads to a number that no object has.
    Unused { directory: u32, number: u32 },
    /// A directory or a link has two names.
    Twice { number: u32 },
    /// A directory or a link has no name, or none in a directory that is reached from the root.
    Unreached { number: u32 },
}

/// What is wrong with the log.
#[derive(Clone, Copy, Debug, PartialEq, Eq)]
pub enum LogFault {
    /// A half's header is no gate, or is open for an epoch that isn't its own or too late.
    Header,
    /// The record whose gate stands at this byte of a half is malformed, or doesn't apply, or
    /// writes into a part of a block that can't be read.
    Record { half: u32, at: u32 },
}

/// The name of a snapshot.
#[derive(Clone, Copy, Debug)]
pub struct SnapshotName {
    bytes: [u8; SNAPSHOT_NAME_BYTES],
    length: usize,
    ghost within: { length ≤ SNAPSHOT_NAME_BYTES },
}

ghost use Rattle.std.specs.Prelude.{◌≤◌, length};
ghost use Rattle.model.specs.declared.limits.TheConstants.{SNAPSHOT_NAME_BYTES};

/// What a fault was found in.
#[derive(Clone, Copy, Debug)]
pub enum TreeName {
    /// Nothing less than the image.
    Image,
    /// The newest root's tree.
    Newest,
    /// The tree of the snapshot in a slot, counted from 1.
    Snapshot { slot: u32, name: SnapshotName },
}

/// A fault, and what it was found in.
#[derive(Clone, Copy, Debug)]
pub struct Finding {
    pub tree: TreeName,
    pub fault: Fault,
}

impl SnapshotName {
    ghost use Rattle.std.specs.Prelude.{◌≡◌, take};
    ghost use Rattle.checker.specs.Findings.{name_bytes};

    /// The name with these bytes; of a longer one its first 63.
    pub fn new(name: &[u8]) -> SnapshotName
        ensures { name_bytes result ≡ take SNAPSHOT_NAME_BYTES name.now }
    {
        let length = name.len().min(SNAPSHOT_NAME_BYTES);
        let mut bytes = [0; SNAPSHOT_NAME_BYTES];
        bytes[..length].copy_from_slice(&name[..length]);
        SnapshotName { bytes, length }
    }

    pub fn bytes(&self) -> &[u8]
        ensures { result.now ≡ name_bytes self.now }
    {
        &self.bytes[..self.length]
    }
}

impl Fault {
    ghost use Rattle.std.specs.Prelude.{◌≡◌};
    ghost use Rattle.checker.specs.Findings.{fault_number};

    /// Its number: faults are told in this order.
    pub fn number(&self) -> u32
        ensures { result ≡ fault_number self.now }
    {
        match self {
            Fault::Roots(_) => 1,
            Fault::Snapshot { .. } => 2,
            Fault::Tree(_) => 3,
            Fault::Shared { .. } => 4,
            Fault::MapBit { .. } => 5,
            Fault::InodeMap { .. } => 6,
            Fault::Directory(_) => 7,
            Fault::Links { .. } => 8,
            Fault::Log(_) => 9,
        }
    }

    /// Its name, as it is printed.
    pub fn name(&self) -> &'static str {
        match self {
            Fault::Roots(_) => "ROOTS",
            Fault::Snapshot { .. } => "SNAPROOT",
            Fault::Tree(_) => "TREE",
            Fault::Shared { .. } => "SHARED",
            Fault::MapBit { .. } => "MAPBIT",
            Fault::InodeMap { .. } => "INODEMAP",
            Fault::Directory(_) => "DIR",
            Fault::Links { .. } => "LINKS",
            Fault::Log(_) => "LOG",
        }
    }
}
