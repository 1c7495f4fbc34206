//! The first words of commands.

ghost use Rattle.std.specs.Prelude.{◌≡◌, ◌≢◌, All, IfSome, IfNone};
ghost use Rattle.script.specs.Verbs.{is_call, verb_name};

/// The first word of a command; of `snap`, the second one too.
#[derive(Clone, Copy)]
pub(crate) enum Verb {
    List,
    Entries,
    Stat,
    Lstat,
    Attr,
    Lattr,
    Readlink,
    Get,
    Mkdir,
    Rmdir,
    Unlink,
    Link,
    Symlink,
    Rename,
    RenameNew,
    Chmod,
    Chown,
    Lchown,
    Utimens,
    Lutimens,
    Truncate,
    Store,
    Set,
    Open,
    OpenStat,
    Close,
    Read,
    Write,
    Pread,
    Pwrite,
    Lseek,
    Ftruncate,
    Fchmod,
    Fchown,
    Futimens,
    Fstat,
    Fattr,
    Fsync,
    Extent,
    At,
    As,
    Sync,
    Df,
    Statfs,
    Snap,
    Take,
    Delete,
    Restore,
    In,
}

impl Verb {
    const ALL: [Verb; 49] = [
        Verb::List,
        Verb::Entries,
        Verb::Stat,
        Verb::Lstat,
        Verb::Attr,
        Verb::Lattr,
        Verb::Readlink,
        Verb::Get,
        Verb::Mkdir,
        Verb::Rmdir,
        Verb::Unlink,
        Verb::Link,
        Verb::Symlink,
        Verb::Rename,
        Verb::RenameNew,
        Verb::Chmod,
        Verb::Chown,
        Verb::Lchown,
        Verb::Utimens,
        Verb::Lutimens,
        Verb::Truncate,
        Verb::Store,
        Verb::Set,
        Verb::Open,
        Verb::OpenStat,
        Verb::Close,
        Verb::Read,
        Verb::Write,
        Verb::Pread,
        Verb::Pwrite,
        Verb::Lseek,
        Verb::Ftruncate,
        Verb::Fchmod,
        Verb::Fchown,
        Verb::Futimens,
        Verb::Fstat,
        Verb::Fattr,
        Verb::Fsync,
        Verb::Extent,
        Verb::At,
        Verb::As,
        Verb::Sync,
        Verb::Df,
        Verb::Statfs,
        Verb::Snap,
        Verb::Take,
        Verb::Delete,
        Verb::Restore,
        Verb::In,
    ];

    /// The verb of this name.
    pub(crate) fn named(word: &[u8]) -> Option<Verb>
        ensures some { IfSome result (λ verb. word.now ≡ verb_name verb) }
        ensures none { IfNone result ((verb : _) → word.now ≢ verb_name verb) }
    {
        Verb::find(&Verb::ALL, word)
    }

    fn find(verbs: &[Verb], word: &[u8]) -> Option<Verb>
        ensures some { IfSome result (λ verb. word.now ≡ verb_name verb) }
        ensures none { IfNone result (All (λ verb. word.now ≢ verb_name verb) verbs.now) }
    {
        for verb in verbs {
            if verb.name() == word {
                return Some(*verb);
            }
        }
        None
    }

    /// Whether it begins a call that names a path.
    pub(crate) fn is_call(self) -> bool
        ensures { result ≡ is_call self }
    {
        matches!(
            self,
            Verb::List
                | Verb::Entries
                | Verb::Stat
                | Verb::Lstat
                | Verb::Attr
                | Verb::Lattr
                | Verb::Readlink
                | Verb::Get
                | Verb::Mkdir
                | Verb::Rmdir
                | Verb::Unlink
                | Verb::Link
                | Verb::Symlink
                | Verb::Rename
                | Verb::RenameNew
                | Verb::Chmod
                | Verb::Chown
                | Verb::Lchown
                | Verb::Utimens
                | Verb::Lutimens
                | Verb::Truncate
                | Verb::Store
                | Verb::Set
        )
    }

    pub(crate) fn name(self) -> &'static [u8]
        ensures { result.now ≡ verb_name self }
    {
        match self {
            Verb::List => b"list",
            Verb::Entries => b"entries",
            Verb::Stat => b"stat",
            Verb::Lstat => b"lstat",
            Verb::Attr => b"attr",
            Verb::Lattr => b"lattr",
            Verb::Readlink => b"readlink",
            Verb::Get => b"get",
            Verb::Mkdir => b"mkdir",
            Verb::Rmdir => b"rmdir",
            Verb::Unlink => b"unlink",
            Verb::Link => b"link",
            Verb::Symlink => b"symlink",
            Verb::Rename => b"rename",
            Verb::RenameNew => b"renamenew",
            Verb::Chmod => b"chmod",
            Verb::Chown => b"chown",
            Verb::Lchown => b"lchown",
            Verb::Utimens => b"utimens",
            Verb::Lutimens => b"lutimens",
            Verb::Truncate => b"truncate",
            Verb::Store => b"store",
            Verb::Set => b"set",
            Verb::Open => b"open",
            Verb::OpenStat => b"openstat",
            Verb::Close => b"close",
            Verb::Read => b"read",
            Verb::Write => b"write",
            Verb::Pread => b"pread",
            Verb::Pwrite => b"pwrite",
            Verb::Lseek => b"lseek",
            Verb::Ftruncate => b"ftruncate",
            Verb::Fchmod => b"fchmod",
            Verb::Fchown => b"fchown",
            Verb::Futimens => b"futimens",
            Verb::Fstat => b"fstat",
            Verb::Fattr => b"fattr",
            Verb::Fsync => b"fsync",
            Verb::Extent => b"extent",
            Verb::At => b"at",
            Verb::As => b"as",
            Verb::Sync => b"sync",
            Verb::Df => b"df",
            Verb::Statfs => b"statfs",
            Verb::Snap => b"snap",
            Verb::Take => b"take",
            Verb::Delete => b"delete",
            Verb::Restore => b"restore",
            Verb::In => b"in",
        }
    }
}
