//! What the kernel's nodes lead to.

ghost use Rattle.served.specs.Finding.{finds};
ghost use Rattle.served.specs.Turns.{Came};

use crate::node::{Node, read_node, told_generation};
use file_system::{FileSystem, Handle};
use model::ROOT_NUMBER;

/// What a node leads to.
#[derive(Clone, Copy, Debug, PartialEq, Eq)]
pub(crate) enum Found {
    /// An object of the running tree, as far as its number is in use.
    Running(Handle),
    /// The folder of snapshots.
    Snapshots,
    /// What has a number in the snapshot with an id, if there is one.
    Within { snapshot: u32, number: u32 },
    /// Nothing any more: the number has another generation.
    Nothing,
}

/// What a node leads to.
pub(crate) fn find<F: FileSystem>(files: &F, node: u64) -> Found
    ensures { Came F.FileSystem files.now files.now (finds node) result }
{
    match read_node(node) {
        Node::Snapshots => Found::Snapshots,
        Node::Within { snapshot, number } => Found::Within { snapshot, number },
        Node::Running(told) => {
            let handle = files.handle_of(told.number);
            let is_root = told.number == ROOT_NUMBER;
            if is_root || told_generation(handle.generation) == told.generation {
                Found::Running(handle)
            } else {
                Found::Nothing
            }
        }
    }
}
