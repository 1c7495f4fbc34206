//! Names and texts.

ghost use Rattle.std.specs.Prelude.{◌↔◌, IsTrue};
ghost use Rattle.model.specs.Paths.{IsName};
ghost use Rattle.layout.specs.LinkText.{IsLinkText};
ghost use Rattle.layout.specs.declared.limits.TheConstants.{PATH_BYTES};

use crate::PATH_BYTES;
use model::NAME_BYTES;

/// Whether these bytes are a name in a directory: 1 to 255 bytes, none of them `/` or zero, and not
/// `.` or `..`.
pub fn is_name(name: &[u8]) -> bool
    ensures { IsTrue result ↔ IsName name.now }
{
    !name.is_empty()
        && name.len() <= NAME_BYTES
        && name.iter().all(|byte| *byte != 0 && *byte != b'/')
        && name != b".".as_slice()
        && name != b"..".as_slice()
}

/// Whether these bytes may be the text of a symbolic link: 1 to 1,023 bytes, none of them zero.
pub fn is_link_text(text: &[u8]) -> bool
    ensures { IsTrue result ↔ IsLinkText PATH_BYTES text.now }
{
    !text.is_empty() && text.len() <= PATH_BYTES as usize && text.iter().all(|byte| *byte != 0)
}
