//! The trees that a check looks at: the newest root's, and those of its snapshots.

ghost use Rattle.std.specs.Prelude.{◌≡◌, ◌≤◌, ◌<◌, ℕ, List, None, IfOk, OnOk, length, slice_index, vec_len};
ghost use Rattle.layout.specs.Root.{IsRoot};
ghost use Rattle.layout.specs.declared.root.Root.{Root};
ghost use Rattle.layout.specs.Inode.{IsInode};
ghost use Rattle.layout.specs.declared.kind.Kind.TheVariants.{InodeFile};
ghost use Rattle.layout.specs.declared.version.TheConstants.{SNAPSHOT_SLOTS};
ghost use Rattle.images.specs.BlockMap.{HasBit};
ghost use Rattle.images.specs.Roots.{whole};
ghost use Rattle.images.specs.Snapshots.{AreSnapshots};
ghost use Rattle.checker.specs.Errors.{IsFault, ReadsForFaults};
ghost use Rattle.checker.specs.Findings.{HasTree, IsNamedTree, tree_in};
ghost use Rattle.checker.specs.Nodes.{SharesNone, StaysFor};
ghost use Rattle.std.specs.Prelude.{Some};
ghost use Rattle.checker.specs.Checks.{Passes};
ghost use Rattle.checker.specs.Errors.{IsCheckEndFault};
ghost use Rattle.checker.specs.Findings.{IsTreeFinding};
ghost use Rattle.checker.specs.Trees.{AreTrees, IsOpened, IsOut, IsSeenTo, IsTreeOf};

use crate::error::{CheckEnd, fault_of, or_fault};
use crate::marks::Marks;
use crate::nodes::{SharedBlocks, mark_file};
use crate::snapshots::snapshot_at;
use crate::tree::Tree;
use crate::{CheckError, Fault, TreeFault, TreeName, UncachedReads};
use images::inodes_are_what_their_bytes_spell;
use inode::{File, based_trees_are_sound, nodes_are_where_pointers_lead};
use layout::{Geometry, Inode, Kind, Root, SNAPSHOT_SLOTS};
use loading::{
    files_without_holes_are_stored, load_numbers, map_file, own_inode, readable_files_are_whole,
    sound_files_have_sound_paths, sound_files_read_as_held,
};
use std::alloc::Global;

/// The trees of a root and of its snapshots, with what they name of their inode files marked.
pub(crate) fn open_trees<B: UncachedReads>(
    alloc: Global,
    blocks: &mut B,
    root: &Root,
    marks: &mut Marks,
    shared: &mut SharedBlocks,
) -> Result<Vec<Tree>, CheckError>
    requires root { IsRoot root.now }
    requires size { B.count blocks.old ≡ root.now.geometry.blocks }
    requires table { length marks.old ≡ root.now.geometry.blocks }
    ensures reads { ReadsForFaults B.Blocks IsFault blocks.old blocks.new result }
    ensures length { length marks.new ≡ length marks.old }
    ensures some { IfOk result (λ trees. 1 ≤ vec_len trees) }
    ensures trees { (disk : ℕ → List ℕ) → B.Shows blocks.old disk
        → AreSnapshots root.now (whole disk root.now)
        → ((k b : ℕ) → HasBit k (slice_index marks.old b) → ⊥)
        → ((k : ℕ) → SharesNone shared.old.of k)
        → IfOk result (λ trees. AreTrees root.now trees.items
        (IsSeenTo disk root.now 0 0 marks.new shared.new.of)) }
    ensures clean { ((k b : ℕ) → HasBit k (slice_index marks.old b) → ⊥)
        → OnOk result ((k b : ℕ) → (HasTree root.now k → ⊥) → HasBit k (slice_index marks.new b) → ⊥) }
{
    let mut trees = Vec::new(alloc);
    let newest = open_tree(
        alloc,
        blocks,
        root.geometry,
        TreeName::Newest,
        0,
        &root.inode_file,
        marks,
        shared,
    )?;
    trees.push(newest)?;
    for k in 0..SNAPSHOT_SLOTS {
        let pointer = root.snapshots[k];
        let Some((name, inode_file)) = snapshot_at(blocks, pointer, root.geometry)? else {
            continue;
        };
        if !inode_file.fits(root.geometry) {
            continue;
        }
        let slot = k as u32 + 1;
        let tree = open_tree(
            alloc,
            blocks,
            root.geometry,
            TreeName::Snapshot { slot, name },
            slot,
            &inode_file,
            marks,
            shared,
        )?;
        trees.push(tree)?;
    }
    Ok(trees)
}

/// The tree under the inode of an inode file.
fn open_tree<B: UncachedReads>(
    alloc: Global,
    blocks: &mut B,
    geometry: Geometry,
    name: TreeName,
    plane: u32,
    top: &Inode,
    marks: &mut Marks,
    shared: &mut SharedBlocks,
) -> Result<Tree, CheckError>
    requires plane { plane ≤ SNAPSHOT_SLOTS }
    requires top { IsInode geometry top.now }
    requires size { B.count blocks.old ≡ geometry.blocks }
    requires table { length marks.old ≡ geometry.blocks }
    ensures reads { ReadsForFaults B.Blocks IsFault blocks.old blocks.new result }
    ensures length { length marks.new ≡ length marks.old }
    ensures others { (k : ℕ) → (k ≡ plane → ⊥)
        → StaysFor k marks.old marks.new shared.old.of shared.new.of }
    ensures plane { IfOk result (λ t. t.plane ≡ plane) }
    ensures tree { (disk : ℕ → List ℕ) (r : Root) → B.Shows blocks.old disk → IsRoot r
        → r.geometry ≡ geometry → HasTree r plane → IsNamedTree r (whole disk r) name plane
        → (tree_in (whole disk r) plane 0).inode ≡ top.now → top.now.kind ≡ InodeFile
        → ((b : ℕ) → HasBit plane (slice_index marks.old b) → ⊥) → SharesNone shared.old.of plane
        → IfOk result (IsSeenTo disk r 0 0 marks.new shared.new.of) }
{
    let file = File::load(alloc, *top)?;
    let mut tree = Tree {
        name,
        plane,
        top: *top,
        file,
        numbers: Vec::new(alloc),
        fault: None,
    };
    let opened = open_files(alloc, blocks, geometry, &mut tree, marks, shared);
    if let Some(fault) = fault_of(opened)? {
        tree.add(fault);
    }
    Ok(tree)
}

/// Marks the blocks of the inode file, reads the inode map, and tests which blocks of the block map
/// are stored.
fn open_files<B: UncachedReads>(
    alloc: Global,
    blocks: &mut B,
    geometry: Geometry,
    tree: &mut Tree,
    marks: &mut Marks,
    shared: &mut SharedBlocks,
) -> Result<(), CheckEnd>
    requires top { IsInode geometry tree.old.top }
    requires size { B.count blocks.old ≡ geometry.blocks }
    requires table { length marks.old ≡ geometry.blocks }
    ensures reads { ReadsForFaults B.Blocks IsCheckEndFault blocks.old blocks.new result }
    ensures length { length marks.new ≡ length marks.old }
    ensures same { tree.new ≡ record tree.old { numbers = tree.new.numbers } }
    ensures others { (k : ℕ) → (k ≡ tree.old.plane → ⊥)
        → StaysFor k marks.old marks.new shared.old.of shared.new.of }
    ensures opened { (disk : ℕ → List ℕ) (r : Root) → B.Shows blocks.old disk → IsRoot r
        → r.geometry ≡ geometry → IsTreeOf disk r tree.old
        → ((b : ℕ) → HasBit tree.old.plane (slice_index marks.old b) → ⊥)
        → SharesNone shared.old.of tree.old.plane
        → Passes (λ _. IsOpened disk r marks.new shared.new.of tree.new)
        (λ fault. IsOut (Some fault) × IsTreeFinding r (tree_in (whole disk r) tree.old.plane) fault) result }
{
    sound_files_read_as_held();
    sound_files_have_sound_paths();
    based_trees_are_sound();
    readable_files_are_whole();
    files_without_holes_are_stored();
    inodes_are_what_their_bytes_spell();
    nodes_are_where_pointers_lead();
    mark_file(blocks, &tree.top, 0, tree.bit(), marks, shared)?;
    let map = Fault::Tree(TreeFault::InodeMap);
    let inode = or_fault(
        own_inode(blocks, &tree.file, 1, Kind::InodeMap, geometry),
        Fault::Tree(TreeFault::Inode(1)),
    )?;
    tree.numbers = or_fault(load_numbers(alloc, blocks, inode, geometry), map)?;
    let inode = or_fault(
        own_inode(blocks, &tree.file, 2, Kind::BlockMap, geometry),
        Fault::Tree(TreeFault::Inode(2)),
    )?;
    let _map = or_fault(
        map_file(alloc, blocks, inode),
        Fault::Tree(TreeFault::BlockMap),
    )?;
    Ok(())
}
