//! Faults in words.

use crate::fault::{
    DirectoryFault, Fault, FileNode, Finding, LogFault, RootsFault, SnapshotFault, SnapshotName,
    TreeFault, TreeName,
};
use std::fmt;

impl fmt::Display for RootsFault {
    fn fmt<W: fmt::Write>(&self, f: &mut fmt::Formatter<W>) -> fmt::Result {
        match self {
            RootsFault::None => write!(f, "no slot holds a root"),
            RootsFault::Unfit => write!(f, "the roots don't fit one another, or the image's files"),
        }
    }
}

impl fmt::Display for SnapshotFault {
    fn fmt<W: fmt::Write>(&self, f: &mut fmt::Formatter<W>) -> fmt::Result {
        match self {
            SnapshotFault::NoSnapshot => write!(f, "is no root of a snapshot"),
            SnapshotFault::SameAs(slot) => {
                write!(f, "has the name or the number of the one in slot {slot}")
            }
        }
    }
}

impl fmt::Display for TreeFault {
    fn fmt<W: fmt::Write>(&self, f: &mut fmt::Formatter<W>) -> fmt::Result {
        match self {
            TreeFault::InodeBlock(index) => {
                write!(f, "block {index} of the inode file is outside the format")
            }
            TreeFault::Inode(number) => write!(f, "inode {number} is outside the format"),
            TreeFault::Indirect { number, block } => {
                write!(
                    f,
                    "block {block}, an indirect one of inode {number}, is outside the format"
                )
            }
            TreeFault::InodeMap => write!(f, "the inode map is outside the format"),
            TreeFault::BlockMap => write!(f, "the block map is outside the format"),
        }
    }
}

impl fmt::Display for FileNode {
    fn fmt<W: fmt::Write>(&self, f: &mut fmt::Formatter<W>) -> fmt::Result {
        let FileNode {
            number,
            height,
            index,
        } = self;
        match height {
            0 => write!(f, "inode {number} (block {index} of it)"),
            _ => write!(f, "inode {number} (indirect block {index} of it)"),
        }
    }
}

impl fmt::Display for DirectoryFault {
    fn fmt<W: fmt::Write>(&self, f: &mut fmt::Formatter<W>) -> fmt::Result {
        match self {
            DirectoryFault::Entries { directory, block } => {
                write!(
                    f,
                    "block {block} of directory {directory} is outside the format"
                )
            }
            DirectoryFault::Repeated { directory } => {
                write!(f, "a name stands twice in directory {directory}")
            }
            DirectoryFault::Unused { directory, number } => {
                write!(
                    f,
                    "directory {directory} names inode {number}, which is free"
                )
            }
            DirectoryFault::Twice { number } => write!(f, "inode {number} has two names"),
            DirectoryFault::Unreached { number } => {
                write!(f, "inode {number} isn't reached by any path")
            }
        }
    }
}

impl fmt::Display for LogFault {
    fn fmt<W: fmt::Write>(&self, f: &mut fmt::Formatter<W>) -> fmt::Result {
        match self {
            LogFault::Header => write!(f, "log: the header of a half is outside the format"),
            LogFault::Record { half, at } => {
                write!(f, "half {half}: the record at byte {at} doesn't apply")
            }
        }
    }
}

impl fmt::Display for Fault {
    fn fmt<W: fmt::Write>(&self, f: &mut fmt::Formatter<W>) -> fmt::Result {
        match self {
            Fault::Roots(found) => write!(f, "roots: {found}"),
            Fault::Snapshot { slot, block, found } => {
                write!(f, "snapshot in slot {slot}: block {block} {found}")
            }
            Fault::Tree(found) => write!(f, "{found}"),
            Fault::Shared {
                block,
                first,
                second,
            } => write!(f, "block {block} is named by {first} and by {second}"),
            Fault::MapBit {
                block,
                entry,
                expected,
            } => write!(
                f,
                "map: block {block} has entry {entry:08x}, and should have {expected:08x}"
            ),
            Fault::InodeMap {
                number,
                is_taken: true,
            } => write!(
                f,
                "the inode map has {number} as taken, and inode {number} is free"
            ),
            Fault::InodeMap { number, .. } => {
                write!(
                    f,
                    "the inode map has {number} as free, and inode {number} is in use"
                )
            }
            Fault::Directory(found) => write!(f, "{found}"),
            Fault::Links {
                number,
                names,
                links,
            } => write!(f, "inode {number} has {names} names and {links} links"),
            Fault::Log(found) => write!(f, "{found}"),
        }
    }
}

impl fmt::Display for SnapshotName {
    fn fmt<W: fmt::Write>(&self, f: &mut fmt::Formatter<W>) -> fmt::Result {
        for byte in self.bytes() {
            match byte {
                0x21..=0x24 | 0x26..=0x7e => f.write_char(char::from(*byte))?,
                _ => write!(f, "%{byte:02x}")?,
            }
        }
        Ok(())
    }
}

impl fmt::Display for Finding {
    fn fmt<W: fmt::Write>(&self, f: &mut fmt::Formatter<W>) -> fmt::Result {
        let Finding { tree, fault } = self;
        match tree {
            TreeName::Image => write!(f, "{fault}"),
            TreeName::Newest => write!(f, "/: {fault}"),
            TreeName::Snapshot { name, .. } => write!(f, "snapshot {name}: {fault}"),
        }
    }
}
