//! The forms of a script's commands: what stands in the place of each word.

use std::alloc::{AllocError, Global};

/// The calls that name a path, with their fields in capitals; one that may be left out stands in
/// brackets, and TIME is one word or two.
const CALLS: [&str; 23] = [
    "list PATH",
    "entries PATH COOKIE COUNT",
    "stat PATH",
    "lstat PATH",
    "attr PATH",
    "lattr PATH",
    "readlink PATH",
    "get PATH OFFSET COUNT",
    "mkdir PATH [MODE]",
    "rmdir PATH",
    "unlink PATH",
    "link PATH NEW",
    "symlink TEXT PATH",
    "rename PATH NEW",
    "renamenew PATH NEW",
    "chmod PATH MODE",
    "chown PATH OWNER GROUP",
    "lchown PATH OWNER GROUP",
    "utimens PATH TIME",
    "lutimens PATH TIME",
    "truncate PATH SIZE",
    "set PATH MODE SIZE",
    "store PATH OFFSET DATA",
];

/// The other commands, but `in`, which stands before a call.
const OTHERS: [&str; 25] = [
    "open PATH FLAGS [MODE]",
    "openstat PATH FLAGS [MODE]",
    "close FD",
    "read FD COUNT",
    "write FD DATA",
    "pread FD OFFSET COUNT",
    "pwrite FD OFFSET DATA",
    "lseek FD FROM OFFSET",
    "ftruncate FD SIZE",
    "fchmod FD MODE",
    "fchown FD OWNER GROUP",
    "futimens FD TIME",
    "fstat FD",
    "fattr FD",
    "fsync FD",
    "extent PATH OFFSET",
    "at SECONDS NANOSECONDS",
    "as OWNER GROUP",
    "sync",
    "df",
    "statfs",
    "snap take NAME",
    "snap list",
    "snap delete NAME",
    "snap restore NAME",
];

/// The form of the call that names a path, as far as these words go.
pub fn call_form(words: &[&[u8]]) -> Option<&'static str> {
    let mut forms = CALLS.iter();
    forms.find(|form| has_name(form, words)).copied()
}

/// The form of the command that isn't in a snapshot, as far as these words go.
pub fn command_form(words: &[&[u8]]) -> Option<&'static str> {
    let mut forms = CALLS.iter().chain(OTHERS.iter());
    forms.find(|form| has_name(form, words)).copied()
}

/// The first words of all commands.
pub fn command_names(alloc: Global) -> Result<Vec<&'static str>, AllocError> {
    let mut names = Vec::from_slice(alloc, &["in"])?;
    for form in CALLS.iter().chain(OTHERS.iter()) {
        names.push(form.split(' ').next().unwrap_or(form))?;
    }
    Ok(names)
}

/// Whether words begin as this form does, as far as they go.
fn has_name(form: &str, words: &[&[u8]]) -> bool {
    !words.is_empty()
        && form.split(' ').zip(words.iter()).all(|(field, word)| is_field(field)
            || field.as_bytes() == *word)
}

/// Whether a word of a form stands for others: it is in capitals.
pub fn is_field(field: &str) -> bool {
    field.bytes().any(|byte| byte.is_ascii_uppercase())
}

/// The mode that a command of this form has where none is written.
pub fn default_mode(form: &str) -> &'static [u8] {
    if form.starts_with("mkdir") {
        b"0755"
    } else {
        b"0644"
    }
}

/// Whether `-` may stand in the place of this field: what it would give stays as it is.
pub fn may_stay(form: &str, field: &str) -> bool {
    match field {
        "OWNER" | "GROUP" => !form.starts_with("as "),
        "MODE" | "SIZE" => form.starts_with("set "),
        _ => false,
    }
}
