//! What a command that there isn't was meant as.

use crate::forms::command_names;
use std::alloc::{AllocError, Global};
use strsim::levenshtein;

/// How many edits a word is away from a command at most that it was meant as.
const MOST_EDITS: usize = 2;

/// Why words whose first is this one are no command: no command begins so.
pub fn unknown_reason(alloc: Global, word: &[u8]) -> Result<String, AllocError> {
    let Ok(word) = std::str::from_utf8(word) else {
        return String::from_str(alloc, "unknown command");
    };
    if let Some(hint) = known_hint(word) {
        return format!(in alloc; "unknown command: {hint}");
    }
    match nearest(alloc, word)? {
        Some(name) => format!(in alloc; "unknown command: did you mean {name}?"),
        None => String::from_str(alloc, "unknown command"),
    }
}

/// What is told of a word that other programs know.
fn known_hint(word: &str) -> Option<&'static str> {
    match word {
        "ls" | "dir" | "ll" => Some("did you mean list?"),
        "cat" => Some("did you mean get?"),
        "rm" | "del" => Some("did you mean unlink?"),
        "mv" => Some("did you mean rename?"),
        "cp" => Some("did you mean wafl put or wafl get?"),
        "ln" => Some("did you mean link or symlink?"),
        "touch" => Some("did you mean open PATH wc?"),
        "chgrp" => Some("did you mean chown PATH - GROUP?"),
        "cd" | "pwd" => Some("there is no working directory: paths begin at / or at a number"),
        "exit" => Some("did you mean quit?"),
        "snapshot" => Some("did you mean snap?"),
        "restore" => Some("did you mean snap restore?"),
        "snap" => Some("snap take NAME, snap list, snap delete NAME or snap restore NAME"),
        _ => None,
    }
}

/// The command that is the fewest edits away from a word, where it isn't another word altogether.
fn nearest(alloc: Global, word: &str) -> Result<Option<&'static str>, AllocError> {
    let mut nearest = None;
    let mut least = word.len().min(MOST_EDITS + 1);
    for name in &command_names(alloc)? {
        let edits = levenshtein(alloc, word, name)?;
        if edits < least {
            least = edits;
            nearest = Some(*name);
        }
    }
    Ok(nearest)
}
