//! What `entries` tells: names in a directory, with their cookies.

use crate::{Stat, Text};
use std::alloc::Global;
use std::marker::Model;

/// A name in a directory: its cookie, and what `lstat` tells of what it names.
#[derive(Debug, Drop)]
pub struct Entry {
    pub cookie: u64,
    pub name: Text,
    pub stat: Stat,
}

/// Names in a directory with what is told of each, in the order in which a reply gives them.
#[derive(Debug, Drop)]
pub struct Entries {
    entries: Vec<Entry>,
}

impl Model for Entries {
    ghost use Rattle.std.specs.Prelude.{List};
    ghost use Rattle.model.specs.declared.entries.Entry.{Entry};

    ghost Value = { List Entry };

    ghost view = { λ e. e.entries.items };
}

impl Entries {
    ghost use Rattle.std.specs.Prelude.{◌≡◌};

    pub fn new(entries: Vec<Entry>) -> Entries
        ensures { result ≡ entries.items }
    {
        Entries { entries }
    }

    pub fn as_slice(&self) -> &[Entry]
        ensures { result.now ≡ self.now }
    {
        &self.entries
    }
}
