//! Where names lead to, through symbolic links.

ghost use Rattle.std.specs.Prelude.{◌≡◌, IfOk, IsTrue};
ghost use Rattle.std.specs.Path.{path_join};
ghost use Rattle.std.specs.String.{string_bytes};

use crate::error::{FileError, on};
use std::alloc::Global;
use std::fs::Metadata;
use std::io::ErrorKind;
use std::os::unix::fs::MetadataExt;
use std::path::Path;
use std::rt::Files;
use std::{fs, io};

/// So many links of a name are followed, as Linux follows them.
const LINKS: u32 = 40;

/// The folder of what programs have open: its links lead to files that are open already.
const OPEN_FILES: &str = "/proc/self";

/// The place that a name leads to.
#[derive(Drop)]
pub struct Place<'a> {
    /// What the user calls it.
    pub name: &'a str,
    /// Its path, at whose end no symbolic link stands.
    pub path: String,
    /// What is there.
    pub found: Found,
}

/// What is in a place.
#[derive(Drop)]
pub enum Found {
    /// Nothing.
    Nothing,
    /// A file, which another one may replace.
    File(Metadata),
    /// A folder.
    Folder,
    /// Something that is written into: a device, a FIFO, or a file that a program has open and that
    /// is named by its descriptor.
    Stream,
}

/// The place that a name leads to, behind every symbolic link at its end.
pub fn find_place<'a, R: Files + AllocGlobal>(
    rt: &R,
    name: &'a str,
) -> Result<Place<'a>, FileError<'a>> {
    let found = match fs::metadata(rt, name) {
        Ok(found) => Some(found),
        Err(error) if error.kind() == ErrorKind::NotFound => None,
        Err(error) => return Err(FileError::Io { path: name, error }),
    };
    let (path, is_open) = on(name, follow(rt, name))?;
    let found = match found {
        None => Found::Nothing,
        Some(found) if found.is_dir() => Found::Folder,
        Some(found) if found.is_file() && !is_open => Found::File(found),
        Some(_) => Found::Stream,
    };
    Ok(Place { name, path, found })
}

/// The path of a name in a folder. An error of kind `InvalidInput` where the name isn't UTF-8, and
/// so has no path here.
pub fn place_in<'a, R: AllocGlobal>(
    rt: &R,
    folder: &'a str,
    name: &[u8],
) -> Result<String, FileError<'a>>
    ensures { IfOk result (λ path. string_bytes path ≡ path_join folder.now name.now) }
{
    let Ok(name) = std::str::from_utf8(name) else {
        return Err(FileError::Io {
            path: folder,
            error: io::Error::new(
                ErrorKind::InvalidInput,
                "the name in it is to be UTF-8, and isn't",
            ),
        });
    };
    Ok(Path::new(folder).join(rt.alloc(), name)?.into_string())
}

/// The path behind the links at a path's end, and whether one of them leads to an open file.
fn follow<R: Files + AllocGlobal>(rt: &R, name: &str) -> io::Result<(String, bool)> {
    let mut path = String::from_str(rt.alloc(), name)?;
    for _ in 0..LINKS {
        let link = match fs::symlink_metadata(rt, path.as_str()) {
            Ok(found) if found.is_symlink() => found,
            _ => return Ok((path, false)),
        };
        if is_of_open_file(rt, &link) {
            return Ok((path, true));
        }
        let text = fs::read_link(rt, path.as_str())?.into_string();
        path = from_link(rt.alloc(), path.as_str(), text.as_str())?;
    }
    Err(io::Error::from(ErrorKind::FilesystemLoop))
}

/// Whether a link stands among those of the open files.
fn is_of_open_file<R: Files>(rt: &R, link: &Metadata) -> bool {
    match fs::metadata(rt, OPEN_FILES) {
        Ok(folder) => folder.dev() == link.dev(),
        Err(_) => false,
    }
}

/// The path that a link's text means: from the folder that the link stands in, where it isn't
/// absolute.
fn from_link(alloc: Global, link: &str, text: &str) -> io::Result<String> {
    let folder = Path::new(link).parent().unwrap_or(Path::new(""));
    Ok(folder.join(alloc, text)?.into_string())
}

/// Whether two names are the same, or lead to one file that is there, through symbolic links too.
pub fn is_one_file<R: Files>(rt: &R, a: &str, b: &str) -> bool
    ensures { a.now ≡ b.now → IsTrue result }
{
    a == b || leads_to_one_file(rt, a, b)
}

fn leads_to_one_file<R: Files>(rt: &R, a: &str, b: &str) -> bool {
    match (fs::metadata(rt, a), fs::metadata(rt, b)) {
        (Ok(a), Ok(b)) => {
            let (device, number) = (a.dev(), a.ino());
            // A system that numbers no files gives zeros.
            (device, number) != (0, 0) && (device, number) == (b.dev(), b.ino())
        }
        _ => false,
    }
}
