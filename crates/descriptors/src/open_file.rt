//! An open file.

ghost use Rattle.std.specs.Prelude.{◌≡◌, ◌≤◌};
ghost use Rattle.model.specs.Descriptors.{described_by};
ghost use Rattle.model.specs.declared.limits.TheConstants.{GREATEST_OFFSET};

use crate::description::OpenDescription;
use crate::shared::SharedFile;
use model::{Access, Flags};

/// An open file: what it is open by, and what it has as a file.
#[derive(Clone, Copy, Debug, PartialEq, Eq)]
pub struct OpenFile {
    /// The file's inode number.
    pub number: u32,
    /// Where the next read or write begins, in bytes.
    pub offset: u64,
    pub access: Access,
    /// Each write goes behind the last byte.
    pub appends: bool,
    /// The file's size in bytes.
    pub size: u64,
    /// How many names the file has.
    pub links: u32,
}

impl OpenFile {
    ghost use Rattle.descriptors.specs.Files.{KeepsBounds, description_of, figures_of};
    ghost use Rattle.descriptors.specs.Openings.{open_description, opened_file};

    /// The file with a number as it is just opened with these flags, at offset 0; it has so many
    /// bytes and so many names.
    pub fn opened(number: u32, flags: Flags, size: u64, links: u32) -> OpenFile
        ensures described { description_of result ≡ described_by number flags }
        ensures figures { figures_of result ≡ record { links = links; size = size } }
        ensures within { size ≤ GREATEST_OFFSET → KeepsBounds result }
    {
        OpenFile {
            number,
            offset: 0,
            access: flags.access,
            appends: flags.appends,
            size,
            links,
        }
    }

    /// The file that a descriptor is open for.
    pub(crate) fn of(description: OpenDescription, file: SharedFile) -> OpenFile
        ensures { result ≡ opened_file description file }
    {
        OpenFile {
            number: description.number,
            offset: description.offset,
            access: description.access,
            appends: description.appends,
            size: file.size,
            links: file.links,
        }
    }

    /// What its descriptor is open by.
    pub(crate) fn description(&self) -> OpenDescription
        ensures { result ≡ open_description self.now }
    {
        OpenDescription {
            number: self.number,
            offset: self.offset,
            access: self.access,
            appends: self.appends,
        }
    }
}
