//! The open files by their numbers.

ghost use Rattle.std.specs.Prelude.{ℕ, ◌≡◌, ◌≤◌, ◌<◌, ◌==◌, Some, None, IsSome, IsTrue, IsFalse, OnOk, count_by, nat_eq};
ghost use Rattle.std.specs.HashMap.{IsUnique, values};

use std::alloc::{AllocError, Global};
use std::collections::HashMap;

/// What all descriptors of a file share.
#[derive(Clone, Copy, Debug, PartialEq, Eq)]
pub(crate) struct SharedFile {
    /// So many descriptors are open for it.
    pub(crate) openings: u32,
    /// Its size in bytes.
    pub(crate) size: u64,
    /// How many names it has.
    pub(crate) links: u32,
}

/// The open files, by their numbers.
#[derive(Drop)]
pub(crate) struct SharedFiles {
    files: HashMap<u32, SharedFile>,
}

impl SharedFiles {
    ghost use Rattle.descriptors.specs.Openings.{kept_openings, less_opened};
    ghost use Rattle.descriptors.specs.Putting.{put_open};
    ghost use Rattle.descriptors.specs.Shared.{has_room, shared_at};

    /// No file is open.
    pub(crate) fn new(alloc: Global) -> SharedFiles
        ensures { (n : ℕ) → shared_at result n ≡ None }
    {
        SharedFiles {
            files: HashMap::new(alloc),
        }
    }

    /// The file with a number, if it is open.
    pub(crate) fn get(&self, number: u32) -> Option<SharedFile>
        ensures { result ≡ shared_at self.now number }
    {
        self.files.get(&number).copied()
    }

    /// How many descriptors are open for the file with a number.
    pub(crate) fn openings(&self, number: u32) -> u32
        ensures { result ≡ kept_openings (shared_at self.now number) }
    {
        match self.files.get(&number) {
            Some(file) => file.openings,
            None => 0,
        }
    }

    /// Takes memory for one file more.
    pub(crate) fn make_room(&mut self) -> Result<(), AllocError>
        ensures same { (n : ℕ) → shared_at self.new n ≡ shared_at self.old n }
        ensures room { OnOk result (IsTrue (has_room self.new)) }
        ensures keeps { IsTrue (has_room self.old) → IsTrue (has_room self.new) }
    {
        self.files.reserve(1)
    }

    /// Puts a file at its number.
    pub(crate) fn put(&mut self, number: u32, file: SharedFile)
        requires { IsTrue (has_room self.old) }
        ensures { (n : ℕ) → shared_at self.new n
            ≡ put_open number (Some file) (shared_at self.old) n }
    {
        let _ = self.files.insert(number, file);
    }

    /// Changes a file that is open.
    pub(crate) fn change(&mut self, number: u32, file: SharedFile)
        requires { IsSome (shared_at self.old number) }
        ensures files { (n : ℕ) → shared_at self.new n
            ≡ put_open number (Some file) (shared_at self.old) n }
        ensures room { IsTrue (has_room self.old) → IsTrue (has_room self.new) }
    {
        if let Some(place) = self.files.get_mut(&number) {
            *place = file;
        }
    }

    // Takes out the file with a number.
    fn remove(&mut self, number: u32)
        ensures files { (n : ℕ) → shared_at self.new n
            ≡ put_open number None (shared_at self.old) n }
        ensures room { IsTrue (has_room self.old) → IsTrue (has_room self.new) }
    {
        let _ = self.files.remove(&number);
    }

    /// Frees a descriptor of a file that is open: it has one less, and is gone where it has none
    /// left.
    pub(crate) fn release(&mut self, number: u32, file: SharedFile)
        requires open { shared_at self.old number ≡ Some file }
        requires used { 0 < file.openings }
        ensures files { (n : ℕ) → shared_at self.new n
            ≡ put_open number (less_opened file) (shared_at self.old) n }
        ensures room { IsTrue (has_room self.old) → IsTrue (has_room self.new) }
    {
        if file.openings == 1 {
            self.remove(number);
        } else {
            let openings = file.openings - 1;
            self.change(number, SharedFile { openings, ..file });
        }
    }

    /// Whether no file is open.
    pub(crate) fn is_empty(&self) -> bool
        ensures none { IsTrue result → (n : ℕ) → shared_at self.now n ≡ None }
        ensures some { IsFalse result → (n : ℕ) × IsSome (shared_at self.now n) }
    {
        self.files.is_empty()
    }

    /// How many have no name.
    pub(crate) fn orphans(&self) -> usize
        ensures counted { result ≡ count_by (λ f. f.links == 0) (values self.now.files) }
        ensures unique { IsUnique nat_eq self.now.files }
    {
        self.files.values().filter(|f| f.links == 0).count()
    }
}
