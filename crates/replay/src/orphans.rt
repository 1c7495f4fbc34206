//! Orphans.

ghost use Rattle.std.specs.Prelude.{◌≡◌, ◌<◌, ◌≤◌, List, ℕ, Option, IfOk, false};
ghost use Rattle.layout.specs.declared.inode.Inode.{Inode};
ghost use Rattle.layout.specs.declared.geometry.TheConstants.{MOST_INODES};
ghost use Rattle.model.specs.declared.limits.TheConstants.{FIRST_NUMBER};
ghost use Rattle.model.specs.Records.{count_orphans, without_orphans};
ghost use Rattle.model.specs.Volumes.{Node, Volume, is_orphan, swept_node, with_node};
ghost use Rattle.buffers.specs.Reads.{ReadsBlocks};
ghost use Rattle.buffers.specs.Errors.{IsFault};
ghost use Rattle.images.specs.Soundness.{Detail};
ghost use Rattle.images.specs.Sizes.{StandsForIn};
ghost use Rattle.inofile.specs.Room.{memory_room};
ghost use Rattle.inofile.specs.Settled.{held_content};
ghost use Rattle.inofile.specs.Volumes.{IsVolumeIn};
ghost use Rattle.replay.specs.Volumes.{ComesTo, HasVolumeIn};

use buffers::{BlockError, Blocks};
use inofile::InodeFile;
use layout::{FIRST_NUMBER, Inode, InodeNumber, Kind};
use model::mounts_find_volumes;
use records::is_orphan;
use std::alloc::Global;

/// How many files have no name. `Damaged` where an inode isn't in its grammar. No inode comes into
/// memory by it.
pub fn count_orphans<B: Blocks>(inodes: &InodeFile, blocks: &mut B) -> Result<u32, BlockError>
    ensures reads { ReadsBlocks B.Blocks IsFault blocks.old blocks.new result }
    ensures few { IfOk result (λ count. count ≤ MOST_INODES) }
    ensures counts { (detail : Detail) (disk : ℕ → List ℕ) (settled : ℕ → Inode) (v : Volume)
        → B.Shows blocks.old disk
        → HasVolumeIn detail (B.count blocks.old) disk settled inodes.now v
        → ComesTo result (λ count. count ≡ count_orphans inodes.now.geometry.inodes v) }
{
    let mut count = 0;
    for number in FIRST_NUMBER..inodes.geometry().inodes() {
        let is_one = has_orphan(inodes, blocks, number)?;
        count += u32::from(is_one);
    }
    Ok(count)
}

/// Drops the files that have no name, which no descriptor may be open for: none outlives a mount,
/// and a snapshot has none. `Damaged` where an inode isn't in its grammar. After an error it isn't
/// known what memory stands for.
pub fn drop_orphans<B: Blocks>(
    alloc: Global,
    inodes: &mut InodeFile,
    blocks: &mut B,
) -> Result<(), BlockError>
    ensures reads { ReadsBlocks B.Blocks IsFault blocks.old blocks.new result }
    ensures geometry { inodes.new.geometry ≡ inodes.old.geometry }
    ensures drops { (detail : Detail) (disk : ℕ → List ℕ) (settled : ℕ → Inode) (v : Volume)
        → B.Shows blocks.old disk
        → HasVolumeIn detail (B.count blocks.old) disk settled inodes.old v
        → ComesTo result (λ _. HasVolumeIn detail (B.count blocks.old) disk settled inodes.new
        (without_orphans v)) }
    ensures room { (detail : Detail) (base : Volume) (disk : ℕ → List ℕ) (settled : ℕ → Inode) (v : Volume)
        → B.Shows blocks.old disk
        → HasVolumeIn detail (B.count blocks.old) disk settled inodes.old v
        → IfOk result (λ _. memory_room base inodes.new (without_orphans v)
        ≤ memory_room base inodes.old v) }
{
    mounts_find_volumes();
    for number in FIRST_NUMBER..inodes.geometry().inodes() {
        drop_if_orphan(alloc, inodes, blocks, number)?;
    }
    Ok(())
}

/// Drops the file with this number, where it has no name. Nothing else comes into memory by it.
fn drop_if_orphan<B: Blocks>(
    alloc: Global,
    inodes: &mut InodeFile,
    blocks: &mut B,
    number: u32,
) -> Result<(), BlockError>
    requires low { FIRST_NUMBER ≤ number }
    requires high { number < inodes.old.geometry.inodes }
    ensures reads { ReadsBlocks B.Blocks IsFault blocks.old blocks.new result }
    ensures geometry { inodes.new.geometry ≡ inodes.old.geometry }
    ensures drops { (detail : Detail) (disk : ℕ → List ℕ) (settled : ℕ → Inode) (v : Volume)
        → B.Shows blocks.old disk
        → IsVolumeIn detail (B.count blocks.old) disk settled inodes.old v
        → ComesTo result (λ _. IsVolumeIn detail (B.count blocks.old) disk settled inodes.new
        (with_node number (swept_node false (v number)) v)) }
    ensures room { (detail : Detail) (base : Volume) (disk : ℕ → List ℕ) (settled : ℕ → Inode) (v : Volume)
        → B.Shows blocks.old disk
        → IsVolumeIn detail (B.count blocks.old) disk settled inodes.old v
        → IfOk result (λ _. memory_room base inodes.new
        (with_node number (swept_node false (v number)) v) ≤ memory_room base inodes.old v) }
{
    let is_one = has_orphan(inodes, blocks, number)?;
    if !is_one {
        return Ok(());
    }
    inodes.load(alloc, blocks, number)?;
    inodes.prepare_set(number)?;
    records::drop_orphan(inodes, InodeNumber::new(number));
    Ok(())
}

/// Whether an orphan has this number. What isn't in memory stays out of it; where nothing has the
/// number, no block is read.
fn has_orphan<B: Blocks>(
    inodes: &InodeFile,
    blocks: &mut B,
    number: u32,
) -> Result<bool, BlockError>
    requires low { FIRST_NUMBER ≤ number }
    requires high { number < inodes.now.geometry.inodes }
    ensures reads { ReadsBlocks B.Blocks IsFault blocks.old blocks.new result }
    ensures tells { (detail : Detail) (disk : ℕ → List ℕ) (settled : ℕ → Inode) (v : Volume)
        → B.Shows blocks.old disk
        → IsVolumeIn detail (B.count blocks.old) disk settled inodes.now v
        → ComesTo result (λ is_one. is_one ≡ is_orphan (v number)) }
{
    if !inodes.is_taken(number) {
        return Ok(false);
    }
    if inodes.is_known(number) {
        return Ok(is_orphan(inodes, InodeNumber::new(number)));
    }
    let inode = inodes.settled_inode(blocks, number)?;
    Ok(is_orphan_inode(&inode))
}

/// Whether a settled inode is that of an orphan.
fn is_orphan_inode(inode: &Inode) -> bool
    ensures { (detail : Detail) (disk : ℕ → List ℕ) (inodes : ℕ) (found : Option Node)
        → StandsForIn detail inodes (held_content disk inode.now) found → result ≡ is_orphan found }
{
    match inode.kind {
        Kind::File => inode.links == 0,
        _ => false,
    }
}
