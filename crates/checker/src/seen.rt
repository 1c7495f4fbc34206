//! The names of a directory that were seen so far: one behind the other in one text, as long as
//! each is greater than those before it, which most directories' are; and a set of them else.

ghost use Rattle.std.specs.Prelude.{◌≡◌, ◌↔◌, ◌⊎◌, ◌<◌, ◌≤◌, All, IfOk, IsFalse, IsTrue, OnOk, drop, length, true, is_some, slice_get, Some, None};
ghost use Rattle.layout.specs.DirectoryNames.{NameMap};
ghost use Rattle.model.specs.Paths.{Name};
ghost use Rattle.checker.specs.Spans.{IsLess, IsSpan, name_in};

use std::alloc::{AllocError, Global};
use std::collections::BTreeSet;

/// Where a name stands in a text.
#[derive(Clone, Copy, Debug)]
pub(crate) struct Span {
    pub(crate) from: usize,
    pub(crate) to: usize,
}

/// Names, each greater than those before it.
#[derive(Drop)]
pub(crate) struct Rising {
    pub(crate) text: Vec<u8>,
    pub(crate) spans: Vec<Span>,
    /// Where the last of them begins.
    pub(crate) last: usize,
    ghost behind: { last ≤ length text.items },
    ghost within: { All (λ s. IsSpan s text.items) spans.items },
    ghost rising: { All (λ s. IsLess (drop last text.items) (name_in text.items s) → ⊥) spans.items },
}

impl Rising {
    ghost use Rattle.checker.specs.Seen.{HasRisen, KnowsRisen, KnowsSet};
    ghost use Rattle.checker.specs.declared.seen.Span.{Span};

    /// No name was seen.
    fn new(alloc: Global) -> Rising
        ensures { (x : Name) → HasRisen result x → ⊥ }
    {
        Rising {
            text: Vec::new(alloc),
            spans: Vec::new(alloc),
            last: 0,
        }
    }

    /// Whether the last name is less than this one.
    fn precedes(&self, name: &[u8]) -> bool
        ensures { IsTrue result → IsLess (drop self.now.last self.now.text.items) name.now }
    {
        let last = &self.text[self.last..];
        last.cmp(&name).is_lt()
    }

    /// Adds a name that is greater than the last one.
    fn push(&mut self, name: &[u8]) -> Result<(), AllocError>
        requires { IsLess (drop self.old.last self.old.text.items) name.now }
        ensures { OnOk result ((x : Name) → HasRisen self.new x
            ↔ ((x ≡ name.now) ⊎ HasRisen self.old x)) }
    {
        let from = self.text.len();
        self.text.extend_from_slice(name)?;
        let to = self.text.len();
        let Ok(()) = self.spans.push(Span { from, to }) else {
            self.text.truncate(from);
            return Err(AllocError);
        };
        self.last = from;
        Ok(())
    }

    /// The k-th of the names.
    fn name(&self, k: usize) -> &[u8]
        requires { k < length self.now.spans.items }
        ensures { (s : Span) → slice_get self.now.spans.items k ≡ Some s
            → result.now ≡ name_in self.now.text.items s }
    {
        let span = self.spans[k];
        &self.text[span.from..span.to]
    }

    /// The names as a set.
    fn to_set(&self, alloc: Global) -> Result<BTreeSet<Vec<u8>>, AllocError>
        ensures { IfOk result (λ set. (names : NameMap) → KnowsRisen self.now names → KnowsSet set names) }
    {
        let mut set = BTreeSet::new(alloc);
        for k in 0..self.spans.len() {
            let name = Vec::from_slice(alloc, self.name(k))?;
            let _ = set.insert(name)?;
        }
        Ok(set)
    }
}

/// The names that were seen.
#[derive(Drop)]
pub(crate) struct Seen {
    rising: Rising,
    /// All of them, where one isn't greater than that before it.
    set: Option<BTreeSet<Vec<u8>>>,
    alloc: Global,
}

impl Seen {
    ghost use Rattle.checker.specs.Seen.{AddsName, KnowsSeen};

    /// No name was seen.
    pub(crate) fn none(alloc: Global) -> Seen
        ensures { (names : NameMap) → ((x : Name) → names x ≡ None) → KnowsSeen result names }
    {
        Seen {
            rising: Rising::new(alloc),
            set: None,
            alloc,
        }
    }

    /// A name is seen. It tells whether it wasn't before.
    pub(crate) fn add(&mut self, name: &[u8]) -> Result<bool, AllocError>
        ensures new { IfOk result (λ is_new. IsTrue is_new → (names more : NameMap)
            → KnowsSeen self.old names → AddsName name.now names more
            → (names name.now ≡ None) × KnowsSeen self.new more) }
        ensures again { IfOk result (λ is_new. IsFalse is_new → (names : NameMap)
            → KnowsSeen self.old names → is_some (names name.now) ≡ true) }
    {
        if let Some(set) = &mut self.set {
            return Seen::insert(self.alloc, set, name);
        }
        if self.rising.precedes(name) {
            self.rising.push(name)?;
            return Ok(true);
        }
        let mut set = self.rising.to_set(self.alloc)?;
        let is_new = Seen::insert(self.alloc, &mut set, name)?;
        self.set = Some(set);
        Ok(is_new)
    }
}

impl Seen {
    ghost use Rattle.checker.specs.Seen.{AddsName, KnowsSet};

    /// Adds a name to a set. It tells whether it is new.
    fn insert(alloc: Global, set: &mut BTreeSet<Vec<u8>>, name: &[u8]) -> Result<bool, AllocError>
        ensures new { IfOk result (λ is_new. IsTrue is_new → (names more : NameMap)
            → KnowsSet set.old names → AddsName name.now names more
            → (names name.now ≡ None) × KnowsSet set.new more) }
        ensures again { IfOk result (λ is_new. IsFalse is_new → (names : NameMap)
            → KnowsSet set.old names → is_some (names name.now) ≡ true) }
    {
        Ok(set.insert(Vec::from_slice(alloc, name)?)?)
    }
}
