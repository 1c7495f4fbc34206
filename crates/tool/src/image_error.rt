//! Why no image is made.

ghost use Rattle.std.specs.Prelude.{◌≡◌};
ghost use Rattle.tool.specs.declared.image_error.ImageError.TheVariants.{File};

use host_files::FileError;
use mount::MakeError;
use thiserror::Error;

/// Why no image is made.
#[derive(Debug, Drop, Error)]
pub enum ImageError<'a> {
    /// A file can't be read or written, or isn't to be replaced.
    #[error("{0}")]
    File(FileError<'a>),
    /// The station refuses an image, or there is none of these sizes.
    #[error("no image made: {0}")]
    Make(MakeError),
}

impl<'a> From<FileError<'a>> for ImageError<'a> {
    ghost from_gives = { λ error e. e ≡ File error };

    fn from(error: FileError<'a>) -> ImageError<'a> {
        ImageError::File(error)
    }
}
