//! Tests of the texts of paths, by the limits of an image.

ghost use Rattle.std.specs.Prelude.{◌≡◌};
ghost use Rattle.layout.specs.StateLimits.{limits_of};
ghost use Rattle.model.specs.Paths.{first_refusal, new_text_tests, parts as parts_of, text_tests};

use inofile::InodeFile;
use model::Errno;
use paths::{Parts, refusal_of_new_text, refusal_of_text};

/// Why the text of a path, which has these parts, is refused.
pub fn refusal_of_path(inodes: &InodeFile, path: &[u8], parts: &Parts) -> Option<Errno>
    requires { parts.now ≡ parts_of path.now }
    ensures { result ≡ first_refusal (text_tests (limits_of inodes.now.geometry) path.now) }
{
    refusal_of_text(inodes.limits(), path, parts)
}

/// The same, where the text is of something to be made or taken away.
pub(crate) fn refusal_of_new_path(inodes: &InodeFile, path: &[u8], parts: &Parts) -> Option<Errno>
    requires { parts.now ≡ parts_of path.now }
    ensures { result ≡ first_refusal (new_text_tests (limits_of inodes.now.geometry) path.now) }
{
    refusal_of_new_text(inodes.limits(), path, parts)
}
