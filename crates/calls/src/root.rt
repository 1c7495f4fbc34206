//! Paths from the root.

ghost use Rattle.std.specs.Prelude.{◌≡◌};
ghost use Rattle.model.specs.Paths.{is_root_text, starts_with_slash};

const ROOT_PATH: &[u8] = b"/";

/// Whether the text of a path is `/`.
pub(crate) fn is_root(path: &[u8]) -> bool
    ensures { result ≡ is_root_text path.now }
{
    path == ROOT_PATH
}

/// Whether the text of a path leads from the root.
pub(crate) fn is_rooted(path: &[u8]) -> bool
    ensures { result ≡ starts_with_slash path.now }
{
    !path.is_empty() && path[0] == b'/'
}
