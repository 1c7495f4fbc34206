//! Where directories stand, as hints.

use lru::LruCache;
use std::alloc::Global;
use std::marker::Model;
use std::num::NonZeroUsize;

/// Of how many directories it is remembered where they stand, those that were looked up last: more
/// than a caller goes through at a time, and 1.5 MB where each name is as long as it may be.
const HINTED_DIRECTORIES: usize = 4096;

/// Where a directory stood when it was found last: in which directory, and under which name there.
/// It may have been moved or removed since, so this is no more than what is worth a look.
#[derive(Debug, Drop)]
pub struct ParentHint {
    pub parent: u32,
    pub name: Vec<u8>,
}

/// Where directories stand, by their numbers, as far as there is memory for it. Contracts see
/// nothing of it: whoever takes a hint looks whether it is true.
#[derive(Debug, Drop)]
pub(crate) struct ParentHints {
    /// It is made for the first of them.
    hints: Option<LruCache<u32, ParentHint>>,
    alloc: Global,
}

impl Model for ParentHints {
    ghost Value = { Unit {0} };

    ghost view = { λ h. tt };
}

impl ParentHints {
    /// Nothing is remembered.
    pub(crate) fn new(alloc: Global) -> ParentHints {
        ParentHints { hints: None, alloc }
    }

    /// Remembers that a directory stands in a parent under a name. Without memory for it nothing
    /// is remembered of the directory, or what was before.
    pub(crate) fn note(&mut self, number: u32, parent: u32, name: &[u8]) {
        if self.has(number, parent, name) {
            return;
        }
        let Ok(name) = name.to_vec(self.alloc) else {
            return;
        };
        self.make_hints();
        if let Some(hints) = &mut self.hints {
            let _ = hints.put(number, ParentHint { parent, name });
        }
    }

    /// The same of a directory of which something is remembered; of no other number.
    pub(crate) fn note_move(&mut self, number: u32, parent: u32, name: &[u8]) {
        if self.is_hinted(number) {
            self.note(number, parent, name);
        }
    }

    /// What is remembered of a number; None where nothing is, or there is no memory for a copy.
    pub(crate) fn get(&mut self, number: u32) -> Option<ParentHint> {
        let hint = self.hints.as_mut()?.get(&number)?;
        let Ok(name) = hint.name.as_slice().to_vec(self.alloc) else {
            return None;
        };
        Some(ParentHint {
            parent: hint.parent,
            name,
        })
    }

    // Whether just this is remembered of a directory, which then counts as looked up.
    fn has(&mut self, number: u32, parent: u32, name: &[u8]) -> bool {
        let Some(hints) = &mut self.hints else {
            return false;
        };
        match hints.get(&number) {
            Some(hint) => hint.parent == parent && hint.name.as_slice() == name,
            None => false,
        }
    }

    // Whether anything is remembered of a number.
    fn is_hinted(&self, number: u32) -> bool {
        match &self.hints {
            Some(hints) => hints.contains(&number),
            None => false,
        }
    }

    // Makes the place for hints, where there is none and there is memory for it.
    fn make_hints(&mut self) {
        if self.hints.is_none() {
            self.hints = new_hints(self.alloc);
        }
    }
}

// Place for hints; None where there is no memory for it.
fn new_hints(alloc: Global) -> Option<LruCache<u32, ParentHint>> {
    match LruCache::sparse(alloc, NonZeroUsize::new(HINTED_DIRECTORIES).unwrap()) {
        Ok(hints) => Some(hints),
        Err(_) => None,
    }
}
