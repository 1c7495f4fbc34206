//! The part of a directory's names that a call tells.

ghost use Rattle.std.specs.Prelude.{◌≡◌, ◌≤◌, IfOk, map};
ghost use Rattle.std.specs.Ordering.{nat_cmp, ordering_then};
ghost use Rattle.std.specs.Cmp.Lexicographic.{slice_cmp};
ghost use Rattle.dirs.specs.Listings.{AreInOrder};
ghost use Rattle.calls.specs.Parts.{AreBehind, EndsPart, IsToldPart};

use dirs::NumberedName;
use model::cookie_of;
use std::alloc::{AllocError, Global};
use std::cmp::Ordering;

/// A name that a part tells, with its cookie.
#[derive(Debug, Drop)]
pub(crate) struct ToldName {
    pub(crate) cookie: u64,
    pub(crate) numbered: NumberedName,
}

/// Of these names those of a part of so many behind a cookie, in the order of their cookies.
pub(crate) fn part_of(
    alloc: Global,
    names: Vec<NumberedName>,
    after: u64,
    count: usize,
) -> Result<Vec<ToldName>, AllocError>
    requires ordered { AreInOrder names.items }
    requires some { 1 ≤ count }
    ensures { IfOk result (λ told. IsToldPart names.items after count told.items) }
{
    let mut told = names_behind(alloc, names, after)?;
    told.sort_unstable_by(compare);
    let end = end_of_part(&told, count);
    told.truncate(end);
    Ok(told)
}

// The names behind a cookie, each with its own.
fn names_behind(
    alloc: Global,
    names: Vec<NumberedName>,
    after: u64,
) -> Result<Vec<ToldName>, AllocError>
    ensures { IfOk result (λ told. AreBehind names.items after told.items) }
{
    let mut behind = Vec::new(alloc);
    for numbered in names {
        let cookie = cookie_of(&numbered.name);
        if cookie > after {
            behind.push(ToldName { cookie, numbered })?;
        }
    }
    Ok(behind)
}

// The order of the cookies, and of names of one cookie that of their bytes.
fn compare(a: &ToldName, b: &ToldName) -> Ordering
    ensures { result ≡ ordering_then (nat_cmp a.now.cookie b.now.cookie)
        (slice_cmp nat_cmp a.now.numbered.name.items b.now.numbered.name.items) }
{
    a.cookie
        .cmp(&b.cookie)
        .then(a.numbered.name.cmp(&b.numbered.name))
}

// How many of these names, in their order, a part of so many has: with one of a cookie it has all.
fn end_of_part(told: &[ToldName], count: usize) -> usize
    requires { 1 ≤ count }
    ensures { EndsPart (map (λ t. t.cookie) told.now) count result }
{
    if told.len() <= count {
        return told.len();
    }
    let last = told[count - 1].cookie;
    let mut end = count;
    while end < told.len() && told[end].cookie == last {
        end += 1;
    }
    end
}
