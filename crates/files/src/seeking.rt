//! Calls that look at no file: they take no memory, and call no device.

ghost use Rattle.std.specs.Prelude.{◌≡◌, ◌≤◌, ◌+ℤ◌, IfErr, IfOk, IsTrue, pos};
ghost use Rattle.model.specs.Descriptors.{base_of, seeks, syncs_open};
ghost use Rattle.model.specs.Room.{nothing};
ghost use Rattle.model.specs.Volumes.{Volume};
ghost use Rattle.model.specs.declared.limits.TheConstants.{GREATEST_OFFSET};
ghost use Rattle.calls.specs.Refusals.{is_path_refusal};
ghost use Rattle.descriptors.specs.Files.{KeepsBounds, description_of};
ghost use Rattle.descriptors.specs.Fits.{IsFileOf};
ghost use Rattle.descriptors.specs.declared.table.Descriptors.{Descriptors};
ghost use Rattle.files.specs.Opened.{tree_with};
ghost use Rattle.files.specs.Replies.{done_reply, place_reply};
ghost use Rattle.files.specs.Seeking.{AnswersFromTable, IsPlace};

use descriptors::{Descriptors, OpenFile};
use model::{Errno, GREATEST_OFFSET, Whence};

/// Moves a descriptor's offset to a place that counts from the file's start, from the offset, or
/// from the file's end, and gives the place in bytes; or tells why the call is refused: EBADF where
/// the descriptor isn't open, EINVAL where the place is before the start, EOVERFLOW where it is
/// past the greatest offset. After a refusal nothing has changed.
pub fn lseek(table: &mut Descriptors, fd: u32, whence: Whence, offset: i64) -> Result<u64, Errno>
    ensures { AnswersFromTable table.old table.new (λ t. seeks t fd whence offset) place_reply
        result }
{
    let Some(file) = table.get(fd) else {
        return Err(Errno::EBADF);
    };
    let base = base_of(&file, whence);
    let place = place_from(base, offset)?;
    table.set_offset(fd, place);
    Ok(place)
}

// From where an offset counts, in bytes.
fn base_of(file: &OpenFile, whence: Whence) -> u64
    requires { KeepsBounds file.now }
    ensures within { result ≤ GREATEST_OFFSET }
    ensures base { (table : Descriptors) (v : Volume) → IsFileOf v file.now
        → result ≡ base_of (tree_with table v) (description_of file.now) whence }
{
    match whence {
        Whence::Set => 0,
        Whence::Cur => file.offset,
        Whence::End => file.size,
    }
}

// The place so far from another one; EINVAL where it is negative, EOVERFLOW where it is past the
// greatest offset.
fn place_from(base: u64, offset: i64) -> Result<u64, Errno>
    requires { base ≤ GREATEST_OFFSET }
    ensures place { IsPlace (pos base +ℤ offset) result }
    ensures within { IfOk result (λ n. n ≤ GREATEST_OFFSET) }
    ensures own { IfErr result (λ e. IsTrue (is_path_refusal e)) }
{
    let distance = offset.unsigned_abs();
    if offset < 0 {
        if distance > base {
            return Err(Errno::EINVAL);
        }
        return Ok(base - distance);
    }
    if distance > GREATEST_OFFSET - base {
        return Err(Errno::EOVERFLOW);
    }
    Ok(base + distance)
}

/// Keeps what was written through a descriptor, which every answered call does already; EBADF where
/// the descriptor isn't open.
pub fn fsync(table: &Descriptors, fd: u32) -> Result<(), Errno>
    ensures answers { (v : Volume) → syncs_open (tree_with table.now v) fd (done_reply result)
        (tree_with table.now v) nothing }
    ensures own { IfErr result (λ e. IsTrue (is_path_refusal e)) }
{
    match table.get(fd) {
        Some(_) => Ok(()),
        None => Err(Errno::EBADF),
    }
}
