//! Closing a descriptor, by which a file that has no name may go.

ghost use Rattle.std.specs.Prelude.{ℕ, ◌≡◌, ◌≤◌, List};
ghost use Rattle.layout.specs.declared.inode.Inode.{Inode};
ghost use Rattle.model.specs.Volumes.{Volume};
ghost use Rattle.inofile.specs.Room.{memory_room};
ghost use Rattle.inofile.specs.Volumes.{IsVolumeOf};
ghost use Rattle.records.specs.Opened.{HasNumbers};
ghost use Rattle.records.specs.Steps.{IsAtHand};
ghost use Rattle.descriptors.specs.Fits.{IsFileOf};
ghost use Rattle.descriptors.specs.Tables.{table_of};
ghost use Rattle.files.specs.Closing.{Closes, ClosesReady, PreparesClose, swept_at};

use buffers::{BlockError, Blocks};
use descriptors::{Descriptors, OpenFile, tables_follow_volumes};
use inofile::InodeFile;
use layout::InodeNumber;
use model::Errno;
use records::{drop_orphan, load_to_change};
use std::alloc::Global;

/// Takes what a close needs: where the descriptor is open for a file that has no name, this file
/// into memory, with room to drop it. NoMemory; Device where a read failed; Damaged where a block
/// on the way is outside its format; none of them but for such a file.
pub fn prepare_close<B: Blocks>(
    alloc: Global,
    inodes: &mut InodeFile,
    blocks: &mut B,
    table: &Descriptors,
    fd: u32,
) -> Result<(), BlockError>
    requires { HasNumbers inodes.old.geometry.inodes table.now }
    ensures { PreparesClose B.Blocks blocks.old blocks.new inodes.old inodes.new table.now fd
        result }
{
    match table.get(fd) {
        Some(file) => {
            if file.links > 0 {
                return Ok(());
            }
            load_to_change(alloc, inodes, blocks, InodeNumber::new(file.number))
        }
        None => Ok(()),
    }
}

/// Frees a descriptor; EBADF where it isn't open, and then nothing has changed. It takes no memory
/// and calls no device. Where the file has neither name nor another descriptor, it is gone; no
/// other file goes.
pub fn close(inodes: &mut InodeFile, table: &mut Descriptors, fd: u32) -> Result<(), Errno>
    requires { ClosesReady inodes.old table.old fd }
    ensures { Closes inodes.old inodes.new table.old table.new fd result }
{
    tables_follow_volumes(table);
    let Some(file) = table.get(fd) else {
        return Err(Errno::EBADF);
    };
    let _ = table.close(fd);
    tables_follow_volumes(table);
    drop_unused(inodes, table, &file);
    Ok(())
}

// Drops a file that has neither name nor descriptor; any other stays.
fn drop_unused(inodes: &mut InodeFile, table: &Descriptors, file: &OpenFile)
    requires { file.now.links ≡ 0 → IsAtHand inodes.old file.now.number }
    ensures geometry { inodes.new.geometry ≡ inodes.old.geometry }
    ensures volume { (count : ℕ) (disk : ℕ → List ℕ) (settled : ℕ → Inode) (v : Volume)
        → IsVolumeOf count disk settled inodes.old v → IsFileOf v file.now
        → IsVolumeOf count disk settled inodes.new
        (swept_at (table_of table.now) file.now.number v) }
    ensures room { (base : Volume) (count : ℕ) (disk : ℕ → List ℕ) (settled : ℕ → Inode) (v : Volume)
        → IsVolumeOf count disk settled inodes.old v → IsFileOf v file.now
        → memory_room base inodes.new (swept_at (table_of table.now) file.now.number v)
        ≤ memory_room base inodes.old v }
{
    if file.links == 0 && !table.is_open(file.number) {
        drop_orphan(inodes, InodeNumber::new(file.number));
    }
}
