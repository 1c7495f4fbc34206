//! The kernel's numbers of objects, its nodes.

ghost use Rattle.std.specs.Prelude.{◌≡◌, ◌≤◌};
ghost use Rattle.served.specs.Nodes.{node_of, node_within, read_node, told_generation};

use file_system::Handle;
use model::ROOT_NUMBER;

/// The root of the folder.
pub(crate) const ROOT_NODE: u64 = 1;

/// The folder of snapshots, which isn't listed.
pub(crate) const SNAPSHOTS_NODE: u64 = 2;

/// Nodes go by this step from one generation of a number to the next.
const GENERATION_STEP: u64 = 4_294_967_296;

/// The least node of what stands in a snapshot. Below it are the generations of the running tree,
/// which a node tells up to the greatest of these.
const FIRST_WITHIN: u64 = 9_223_372_036_854_775_808;

pub(crate) const GREATEST_TOLD: u32 = 2_147_483_647;

/// What a node is a number of.
#[derive(Clone, Copy, Debug, PartialEq, Eq)]
pub(crate) enum Node {
    /// The folder of snapshots.
    Snapshots,
    /// What has this number, in this generation as far as a node tells it, in the running tree.
    Running(Handle),
    /// What has this number in the snapshot that the server knows by this id.
    Within { snapshot: u32, number: u32 },
}

/// A generation as far as a node tells it.
pub(crate) fn told_generation(generation: u32) -> u32
    ensures { result ≡ told_generation generation }
{
    generation.min(GREATEST_TOLD)
}

/// The node of an object of the running tree.
pub(crate) fn node_of(handle: Handle) -> u64
    ensures { result ≡ node_of handle }
{
    if handle.number == ROOT_NUMBER {
        return ROOT_NODE;
    }
    u64::from(told_generation(handle.generation)) * GENERATION_STEP + u64::from(handle.number)
}

/// The node of what has a number in a snapshot.
pub(crate) fn node_within(snapshot: u32, number: u32) -> u64
    requires { snapshot ≤ GREATEST_TOLD }
    ensures { result ≡ node_within snapshot number }
{
    FIRST_WITHIN + u64::from(snapshot) * GENERATION_STEP + u64::from(number)
}

/// What a node is a number of.
pub(crate) fn read_node(node: u64) -> Node
    ensures { result ≡ read_node node }
{
    if node == ROOT_NODE {
        return Node::Running(Handle {
            number: ROOT_NUMBER,
            generation: 0,
        });
    }
    if node == SNAPSHOTS_NODE {
        return Node::Snapshots;
    }
    let number = (node % GENERATION_STEP) as u32;
    if node < FIRST_WITHIN {
        return Node::Running(Handle {
            number,
            generation: (node / GENERATION_STEP) as u32,
        });
    }
    Node::Within {
        snapshot: ((node - FIRST_WITHIN) / GENERATION_STEP) as u32,
        number,
    }
}
