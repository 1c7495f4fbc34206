//! Where the nodes at one height of a file lie.

ghost use Rattle.std.specs.Prelude.{◌≡◌, ◌≢◌, ℕ, ◌+◌, ◌*◌, ◌/◌, ◌<◌, ◌≤◌, IfNone, IfOk, IfSome, None, OnOk, Some, length, slice_index_or, nat_lt, if◌then◌else◌};
ghost use Rattle.std.specs.BTreeMap as tree;
ghost use Rattle.std.specs.Ordering.{nat_cmp};
ghost use Rattle.layout.specs.Maps.{indirect_pointer};
ghost use Rattle.layout.specs.Trees.{fan_out};
ghost use Rattle.layout.specs.declared.TheConstants.{BLOCK_POINTERS};
ghost use Rattle.layout.specs.declared.pointer.Pointer.TheVariants.{Hole, Block};
ghost use Rattle.blocktree.specs.PlaceMaps.{place_at};

use crate::group::Group;
use layout::{BLOCK_BYTES, BLOCK_POINTERS, BlockNumber, Layout, Pointer};
use std::alloc::{AllocError, Global};
use std::collections::BTreeMap;

/// The places of those nodes at one height of a file that are stored, by index. They are held by
/// groups, those under one indirect block, of which one is stored. So it is as large as what is
/// stored, however large the file is.
#[derive(Debug, Drop)]
pub struct PlaceMap {
    alloc: Global,
    layout: Layout,
    groups: BTreeMap<u32, Group>,
}

/// A node that is stored: its index and its place.
#[derive(Clone, Copy, Debug)]
pub struct StoredNode {
    pub index: u32,
    pub place: BlockNumber,
}

/// The entry of the least key of a map from one on and below another.
pub(crate) fn next_entry<V>(map: &BTreeMap<u32, V>, from: u32, to: u32) -> Option<(u32, &V)>
    ensures found { IfSome result (λ e. (from ≤ e.0) × (e.0 < to)
        × (tree.get nat_cmp map.now e.0 ≡ Some e.1.now)) }
    ensures before { IfSome result (λ e. (i : ℕ) → from ≤ i → i < e.0
        → tree.get nat_cmp map.now i ≡ None) }
    ensures none { IfNone result ((i : ℕ) → from ≤ i → i < to
        → tree.get nat_cmp map.now i ≡ None) }
{
    // A range without an end is found by one search less.
    match map.range(from..).next() {
        Some((key, value)) if *key < to => Some((*key, value)),
        _ => None,
    }
}

impl PlaceMap {
    /// No node is stored.
    #[tactic(auto, unfolding(crate::specs::PlaceMaps::place_at))]
    pub fn new(alloc: Global, layout: Layout) -> PlaceMap
        ensures holes { (i : ℕ) → place_at result i ≡ Hole }
        ensures layout { result.layout ≡ layout }
    {
        PlaceMap {
            alloc,
            layout,
            groups: BTreeMap::new(alloc),
        }
    }

    /// The pointer to node `i`: a hole where none is stored.
    #[tactic(auto, unfolding(crate::specs::PlaceMaps::place_at))]
    pub fn at(&self, i: u32) -> Pointer
        ensures { result ≡ place_at self.now i }
    {
        let fan = self.layout.fan_out();
        let j = i / fan;
        match self.groups.get(&j) {
            Some(group) => group.at(i % fan),
            None => Pointer::Hole,
        }
    }

    /// Has this pointer as that to node `i`.
    pub fn set(&mut self, i: u32, pointer: Pointer) -> Result<(), AllocError>
        ensures there { OnOk result (place_at self.new i ≡ pointer) }
        ensures others { OnOk result ((j : ℕ) → j ≢ i
            → place_at self.new j ≡ place_at self.old j) }
        ensures layout { self.new.layout ≡ self.old.layout }
    {
        let fan = self.layout.fan_out();
        let j = i / fan;
        match self.groups.get_mut(&j) {
            Some(group) => {
                group.set(i % fan, pointer);
                Ok(())
            }
            None => self.add(i, pointer),
        }
    }

    /// The same of a node of whose group none is held.
    fn add(&mut self, i: u32, pointer: Pointer) -> Result<(), AllocError>
        requires { tree.get nat_cmp self.old.groups (i / fan_out self.old.layout) ≡ None }
        ensures there { OnOk result (place_at self.new i ≡ pointer) }
        ensures others { OnOk result ((j : ℕ) → j ≢ i
            → place_at self.new j ≡ place_at self.old j) }
        ensures layout { self.new.layout ≡ self.old.layout }
    {
        match pointer {
            Pointer::Hole => Ok(()),
            Pointer::Block(place) => {
                let fan = self.layout.fan_out();
                let group = Group::with(self.alloc, i % fan, Pointer::Block(place))?;
                self.put(i / fan, group)?;
                Ok(())
            }
        }
    }

    /// Holds these pointers as those of group `j`.
    fn put(&mut self, j: u32, group: Group) -> Result<(), AllocError>
        ensures updates { OnOk result
            (tree.Updates nat_cmp self.old.groups self.new.groups j (Some group)) }
        ensures layout { self.new.layout ≡ self.old.layout }
    {
        match self.groups.insert(j, group) {
            Ok(_) => Ok(()),
            Err(_) => Err(AllocError),
        }
    }

    /// Holds the pointers that an indirect block spells as those of group `j`.
    pub(crate) fn put_spelled(
        &mut self,
        j: u32,
        bytes: &[u8; BLOCK_BYTES],
    ) -> Result<(), AllocError>
        ensures group { OnOk result ((r : ℕ) → r < fan_out self.old.layout
            → place_at self.new (fan_out self.old.layout * j + r) ≡ indirect_pointer bytes.now r) }
        ensures others { OnOk result ((i : ℕ) → i / fan_out self.old.layout ≢ j
            → place_at self.new i ≡ place_at self.old i) }
        ensures layout { self.new.layout ≡ self.old.layout }
    {
        let group = Group::spelled(self.alloc, self.layout, bytes)?;
        self.put(j, group)?;
        Ok(())
    }

    /// The pointers to the nodes of group `j`, and holes behind them.
    #[tactic(auto, unfolding(crate::specs::PlaceMaps::place_at))]
    pub fn group(&self, j: u32) -> [Pointer; BLOCK_POINTERS]
        ensures count { length result ≡ BLOCK_POINTERS }
        ensures nodes { (r : ℕ) → r < fan_out self.now.layout
            → slice_index_or result r Hole ≡ place_at self.now (fan_out self.now.layout * j + r) }
        ensures behind { (r : ℕ) → fan_out self.now.layout ≤ r
            → slice_index_or result r Hole ≡ Hole }
    {
        let fan = self.layout.fan_out();
        match self.groups.get(&j) {
            Some(group) => group.copy(fan as usize),
            None => [Pointer::Hole; BLOCK_POINTERS],
        }
    }

    /// The places of the first `count` nodes.
    pub fn first(&self, alloc: Global, count: u32) -> Result<PlaceMap, AllocError>
        ensures places { IfOk result (λ first. (i : ℕ)
            → place_at first i ≡ (if nat_lt i count then place_at self.now i else Hole)) }
        ensures layout { IfOk result (λ first. first.layout ≡ self.now.layout) }
    {
        let fan = self.layout.fan_out();
        let mut first = PlaceMap::new(alloc, self.layout);
        let mut from = 0;
        while let Some((j, group)) = next_entry(&self.groups, from, count.div_ceil(fan)) {
            let part = group.first(alloc, count - fan * j)?;
            first.put(j, part)?;
            from = j + 1;
        }
        Ok(first)
    }

    /// The first node that is stored from one index on and before another.
    pub fn next(&self, from: u32, to: u32) -> Option<StoredNode>
        ensures found { IfSome result (λ n. (from ≤ n.index) × (n.index < to)
            × (place_at self.now n.index ≡ Block n.place)) }
        ensures before { IfSome result (λ n. (i : ℕ) → from ≤ i → i < n.index
            → place_at self.now i ≡ Hole) }
        ensures none { IfNone result ((i : ℕ) → from ≤ i → i < to
            → place_at self.now i ≡ Hole) }
    {
        let fan = self.layout.fan_out();
        let mut from = from;
        while let Some((j, group)) = next_entry(&self.groups, from / fan, to.div_ceil(fan)) {
            let first = fan * j;
            let end = to - first;
            if let Some((r, place)) = group.next(from.saturating_sub(first), end.min(fan)) {
                return Some(StoredNode {
                    index: first + r,
                    place,
                });
            }
            if end <= fan {
                return None;
            }
            from = first + fan;
        }
        None
    }
}
