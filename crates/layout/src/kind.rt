//! The kinds of inodes.

ghost use Rattle.std.specs.Prelude.{◌≡◌};

/// What an inode is.
#[derive(Clone, Copy, Debug, PartialEq, Eq)]
pub enum Kind {
    /// No object: all bytes of the inode are 0.
    Free = 0,
    /// A regular file.
    File = 1,
    Directory = 2,
    /// A symbolic link; its text is its contents.
    Link = 3,
    /// The file of all inodes; only roots hold its inode.
    InodeFile = 4,
    /// A bit for each inode number: number 1.
    InodeMap = 5,
    /// A word for each block of the disk: number 2.
    BlockMap = 6,
}

impl Kind {
    ghost use Rattle.layout.specs.Inode.{kind_code};
    ghost use Rattle.layout.specs.InodeReading.{kind_of};

    /// The kind of this code; None above 6.
    #[tactic(auto, unfolding(crate::specs::InodeReading::kind_of))]
    pub fn from_code(code: u16) -> Option<Kind>
        ensures { result ≡ kind_of code }
    {
        match code {
            0 => Some(Kind::Free),
            1 => Some(Kind::File),
            2 => Some(Kind::Directory),
            3 => Some(Kind::Link),
            4 => Some(Kind::InodeFile),
            5 => Some(Kind::InodeMap),
            6 => Some(Kind::BlockMap),
            _ => None,
        }
    }

    /// Its code, from 0 to 6.
    pub fn code(self) -> u16
        ensures { result ≡ kind_code self }
    {
        self as u16
    }
}
