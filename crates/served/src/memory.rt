//! What the server knows beside the file system, as long as the folder is mounted.

ghost use Rattle.std.specs.Prelude.{◌≡◌, ◌≤◌, IfOk, OnErr, OnOk};

use crate::marks::Marks;
use crate::node::GREATEST_TOLD;
use file_system::Handle;
use model::{Stat, Text};
use std::alloc::{AllocError, Global};
use std::collections::BTreeMap;

/// The marks that an object with this generation of its number has.
#[derive(Clone, Copy, Debug)]
struct Marked {
    generation: u32,
    marks: Marks,
}

/// An object whose last name went while the kernel knew it: what it was, and its marks.
#[derive(Clone, Copy, Debug)]
pub(crate) struct Removed {
    pub(crate) stat: Stat,
    pub(crate) marks: Marks,
    /// A file is open by this descriptor, if one was free.
    pub(crate) held: Option<u32>,
    /// So often the kernel has it open by that.
    pub(crate) opens: u32,
}

/// A snapshot: no other one since the mount has its id.
#[derive(Debug, Drop)]
pub(crate) struct Snapshot {
    pub(crate) id: u32,
    pub(crate) name: Vec<u8>,
    ghost low: { id ≤ 2147483647 },
}

/// What the server knows.
#[derive(Drop)]
pub(crate) struct Memory {
    /// The marks of what wasn't touched since the mount.
    first: Marks,
    /// By number.
    marked: Vec<Marked>,
    /// By node.
    removed: BTreeMap<u64, Removed>,
    /// The texts of removed links, by node.
    texts: BTreeMap<u64, Text>,
    /// The snapshots that there are, in the order of their ids.
    pub(crate) snapshots: Vec<Snapshot>,
    /// The id of the next snapshot.
    next_id: u32,
}

impl Memory {
    ghost use Rattle.std.specs.Option.{option_map};
    ghost use Rattle.served.specs.Known.{FindsId, FindsName, known_of, marks_at, nothing_known, seen_of, with_gone, with_marks, with_removed, with_snapshot, without_removed, without_snapshot};

    /// Of a file system of so many numbers, of which nothing was touched.
    pub(crate) fn new(alloc: Global, numbers: u32, first: Marks) -> Result<Memory, AllocError>
        ensures { IfOk result (λ m. known_of m ≡ nothing_known numbers first) }
    {
        let untouched = Marked {
            generation: 0,
            marks: first,
        };
        let marked = vec![in alloc; untouched; numbers as usize]?;
        Ok(Memory {
            first,
            marked,
            removed: BTreeMap::new(alloc),
            texts: BTreeMap::new(alloc),
            snapshots: Vec::new(alloc),
            next_id: 0,
        })
    }

    /// The marks of what wasn't touched.
    pub(crate) fn first(&self) -> Marks
        ensures { result ≡ (known_of self.now).first }
    {
        self.first
    }

    /// The marks of an object.
    pub(crate) fn marks_of(&self, handle: Handle) -> Marks
        ensures { result ≡ marks_at (known_of self.now) handle }
    {
        match self.marked.get(handle.number as usize) {
            Some(marked) if marked.generation == handle.generation => marked.marks,
            _ => self.first,
        }
    }

    /// An object gets these marks.
    pub(crate) fn mark(&mut self, handle: Handle, marks: Marks)
        ensures { known_of self.new ≡ with_marks handle marks (known_of self.old) }
    {
        if let Some(marked) = self.marked.get_mut(handle.number as usize) {
            *marked = Marked {
                generation: handle.generation,
                marks,
            };
        }
    }

    /// What was removed of this node.
    pub(crate) fn removed(&self, node: u64) -> Option<Removed>
        ensures { result ≡ (known_of self.now).removed node }
    {
        self.removed.get(&node).copied()
    }

    /// The text of the link that was removed of this node.
    pub(crate) fn text(&self, node: u64) -> Option<&Text>
        ensures { option_map (λ t. t.now) result ≡ (known_of self.now).texts node }
    {
        self.texts.get(&node)
    }

    /// The object of this node is removed, and has this text if it is a link. Where there is no
    /// memory for it, nothing is known of the node.
    pub(crate) fn note_removed(
        &mut self,
        node: u64,
        removed: Removed,
        text: Option<Text>,
    ) -> Result<(), AllocError>
        ensures ok { OnOk result
            (known_of self.new ≡ with_gone node removed text (known_of self.old)) }
        ensures err { OnErr result (known_of self.new ≡ without_removed node (known_of self.old)) }
    {
        let Ok(_) = self.removed.insert(node, removed) else {
            self.forget(node);
            return Err(AllocError);
        };
        let Some(text) = text else {
            let _ = self.texts.remove(&node);
            return Ok(());
        };
        let Ok(_) = self.texts.insert(node, text) else {
            self.forget(node);
            return Err(AllocError);
        };
        Ok(())
    }

    /// What is known of a removed object is now this. Of another node nothing is.
    pub(crate) fn change_removed(&mut self, node: u64, removed: Removed)
        ensures { known_of self.new ≡ with_removed node removed (known_of self.old) }
    {
        if self.removed.contains_key(&node) {
            let _ = self.removed.insert(node, removed);
        }
    }

    /// It isn't, or the kernel no longer knows it.
    pub(crate) fn forget(&mut self, node: u64)
        ensures { known_of self.new ≡ without_removed node (known_of self.old) }
    {
        let _ = self.removed.remove(&node);
        let _ = self.texts.remove(&node);
    }

    /// The snapshot with an id, if there is one.
    pub(crate) fn snapshot_by_id(&self, id: u32) -> Option<&Snapshot>
        ensures { FindsId (known_of self.now) id (option_map (λ s. seen_of s.now) result) }
    {
        for snapshot in self.snapshots.iter() {
            if snapshot.id == id {
                return Some(snapshot);
            }
        }
        None
    }

    /// The snapshot with a name, if there is one.
    pub(crate) fn snapshot_by_name(&self, name: &[u8]) -> Option<&Snapshot>
        ensures { FindsName (known_of self.now) name.now (option_map (λ s. seen_of s.now) result) }
    {
        for snapshot in self.snapshots.iter() {
            if snapshot.name.as_slice() == name {
                return Some(snapshot);
            }
        }
        None
    }

    /// There is a snapshot more, of this name, with the next id. None is added where there is no
    /// memory, or ids have come to their end.
    pub(crate) fn add_snapshot(&mut self, name: Vec<u8>) -> Result<(), AllocError>
        ensures ok { OnOk result
            (known_of self.new ≡ with_snapshot name.items (known_of self.old)) }
        ensures err { OnErr result (known_of self.new ≡ known_of self.old) }
    {
        let id = self.next_id;
        if id > GREATEST_TOLD {
            return Err(AllocError);
        }
        match self.snapshots.push(Snapshot { id, name }) {
            Ok(()) => {}
            Err(_) => return Err(AllocError),
        }
        self.next_id = id + 1;
        Ok(())
    }

    /// There is no snapshot of this name any more.
    pub(crate) fn drop_snapshot(&mut self, name: &[u8])
        ensures { known_of self.new ≡ without_snapshot name.now (known_of self.old) }
    {
        self.snapshots
            .retain(|snapshot| snapshot.name.as_slice() != name);
    }
}
