//! The faults that a check found so far.

ghost use Rattle.std.specs.Prelude.{◌≡◌, List, Option, Some, None};
ghost use Rattle.checker.specs.Findings.{AddsTold, first_fault, first_of};
ghost use Rattle.checker.specs.declared.fault.Finding.{Finding};

use crate::{Fault, Finding, TreeName};

/// Who is told how far a check is, and each fault that it finds.
pub trait Watch {
    /// What it was told so far, in order; None where nobody knows.
    ghost told: { Self → Option (List Finding) } = { λ _. None };

    /// So many of the check's parts are done.
    fn goes_on(&mut self, done: u32, of: u32)
        ensures { told self.new ≡ told self.old };

    /// A tree, or the image itself, has this fault.
    fn finds(&mut self, finding: &Finding)
        ensures { AddsTold finding.now (told self.old) (told self.new) };
}

/// The first fault so far, in the order of their numbers. Each is told to a watch as it is found.
#[derive(Drop)]
pub(crate) struct Findings<'w, W> {
    pub(crate) watch: &'w mut W,
    pub(crate) first: Option<Finding>,
}

/// The first of two faults of a tree; of equal ones that which was there.
pub(crate) fn earlier_fault(before: Option<Fault>, fault: Fault) -> Fault
    ensures { result ≡ first_fault before fault }
{
    let Some(first) = before else {
        return fault;
    };
    if first.number() <= fault.number() {
        first
    } else {
        fault
    }
}

/// The first of two findings; of equal ones that which was there.
fn earlier_finding(before: Option<Finding>, finding: Finding) -> Finding
    ensures { result ≡ first_of before finding }
{
    let Some(first) = before else {
        return finding;
    };
    if first.fault.number() <= finding.fault.number() {
        first
    } else {
        finding
    }
}

impl<'w, W: Watch> Findings<'w, W> {
    ghost use Rattle.checker.specs.Watches.{KeepsTelling};

    pub(crate) fn new(watch: &'w mut W) -> Findings<'w, W>
        ensures first { result.first ≡ None }
        ensures watch { result.watch.ghost_name ≡ watch.entry.ghost_name }
        ensures same { result.watch.now ≡ watch.old }
    {
        Findings { watch, first: None }
    }

    /// A fault is found.
    pub(crate) fn find(&mut self, tree: TreeName, fault: Fault)
        ensures tells { KeepsTelling W.Watch self.old self.new }
        ensures first { self.new.first ≡ Some (first_of self.old.first (record { tree = tree; fault = fault })) }
    {
        let finding = Finding { tree, fault };
        self.watch.finds(&finding);
        let before = self.first;
        self.first = Some(earlier_finding(before, finding));
    }

    /// So many of the check's parts are done.
    pub(crate) fn goes_on(&mut self, done: u32, of: u32)
        ensures tells { KeepsTelling W.Watch self.old self.new }
        ensures first { self.new.first ≡ self.old.first }
    {
        self.watch.goes_on(done, of);
    }
}
