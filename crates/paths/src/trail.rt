//! The directories that a walk came through.

ghost use Rattle.std.specs.Prelude.{◌≡◌, ◌-◌, ◌++◌, ◌∷◌, ◌↔◌, [], List, ℕ, IsTrue, length, take, IfOk, OnOk, OnErr};
ghost use Rattle.std.specs.List.{Contains};
ghost use Rattle.model.specs.Finding.{here, trail_from};

use layout::InodeNumber;
use model::ROOT_NUMBER;
use std::alloc::{AllocError, Global};
use std::marker::Model;

/// The numbers of the directories from the root's child down to where a walk stands. The root's
/// trail is empty.
#[derive(Debug, Drop)]
pub struct Trail {
    numbers: Vec<InodeNumber>,
}

impl Model for Trail {
    ghost Value = { List ℕ };

    ghost view = { λ t. t.numbers.items };
}

impl Trail {
    /// The trail of the root.
    pub fn root(alloc: Global) -> Trail
        ensures { result ≡ [] }
    {
        Trail {
            numbers: Vec::new(alloc),
        }
    }

    /// The trail of a walk that begins at a directory's number.
    pub(crate) fn from(alloc: Global, number: InodeNumber) -> Result<Trail, AllocError>
        ensures { IfOk result (λ trail. trail ≡ trail_from number) }
    {
        let mut trail = Trail::root(alloc);
        trail.enter(number)?;
        Ok(trail)
    }

    /// Whether a directory is one of them.
    pub fn passes(&self, number: InodeNumber) -> bool
        ensures { IsTrue result ↔ Contains self.now number }
    {
        self.numbers
            .iter()
            .any(|passed| passed.get() == number.get())
    }

    /// The number of the directory at the end.
    pub fn here(&self) -> InodeNumber
        ensures { result ≡ here self.now }
    {
        match self.numbers.as_slice() {
            [.., number] => *number,
            [] => InodeNumber::new(ROOT_NUMBER),
        }
    }

    /// Goes up to the parent. The root is its own.
    pub(crate) fn rise(&mut self)
        ensures { self.new ≡ take (length self.old - 1) self.old }
    {
        self.numbers.pop();
    }

    /// Goes down into a directory.
    pub(crate) fn enter(&mut self, number: InodeNumber) -> Result<(), AllocError>
        ensures entered { OnOk result (self.new ≡ self.old ++ number ∷ []) }
        ensures same { OnErr result (self.new ≡ self.old) }
    {
        self.numbers.push(number)?;
        Ok(())
    }
}
