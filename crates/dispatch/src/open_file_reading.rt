//! Calls on descriptors that log nothing.

ghost use Rattle.std.specs.Prelude.{ℕ, IfOk, IsTrue};
ghost use Rattle.layout.specs.StateLimits.{limits_of};
ghost use Rattle.model.specs.declared.limits.Limits.{Limits};
ghost use Rattle.model.specs.declared.session.Session.{Session};
ghost use Rattle.model.specs.Replies.{IsReplyTo};
ghost use Rattle.model.specs.Room.{nothing};
ghost use Rattle.model.specs.Volumes.{IsMounted, Volume};
ghost use Rattle.records.specs.Opened.{HasNumbers};
ghost use Rattle.descriptors.specs.Fits.{FitsVolume};
ghost use Rattle.descriptors.specs.Tables.{table_of};
ghost use Rattle.files.specs.Reading.{AnswersMoving};
ghost use Rattle.dispatch.specs.Answering.{answered_reply};
ghost use Rattle.dispatch.specs.OpenFiles.{WouldLead, is_looking_call, is_table_call};
ghost use Rattle.dispatch.specs.Serving.{TellsNoFault, TellsNoWant};

use buffers::Blocks;
use descriptors::Descriptors;
use files::{fattr, fstat, fsync, lseek, pread, read};
use inofile::InodeFile;
use model::{Command, Reply};
use records::Failure;
use std::alloc::Global;

/// The answer of a call that looks at the table of open files alone; an offset may move by it.
pub(crate) fn answer_from_table(files: &mut Descriptors, call: &Command<'_>) -> Reply
    requires { IsTrue (is_table_call call.now) }
    ensures no_fault { TellsNoFault result }
    ensures kind { IsReplyTo call.now result }
    ensures no_want { TellsNoWant result }
    ensures answers { (limits : Limits) (said : Session) (v : Volume) → FitsVolume files.old v
        → WouldLead limits said v (table_of files.old) call.now result v (table_of files.new) nothing }
    ensures fits { (v : Volume) → FitsVolume files.old v → FitsVolume files.new v }
    ensures mounted { (v : Volume) → IsMounted v (table_of files.old)
        → IsMounted v (table_of files.new) }
    ensures numbers { (n : ℕ) → HasNumbers n files.old → HasNumbers n files.new }
{
    match call {
        Command::Lseek { fd, whence, offset } => {
            match lseek(files, *fd, *whence, *offset) {
                Ok(place) => Reply::At(place),
                Err(errno) => Reply::Refused(errno),
            }
        }
        Command::Fsync { fd } => match fsync(files, *fd) {
            Ok(()) => Reply::Done,
            Err(errno) => Reply::Refused(errno),
        },
        _ => unreachable!(),
    }
}

/// What a call that only reads a file is answered on the image in memory; an offset may move by it,
/// but for one that is refused. NoMemory; Device where a read failed; Damaged where a block on the
/// way is outside its format. Then no offset has moved.
pub(crate) fn read_open_file<B: Blocks>(
    alloc: Global,
    inodes: &mut InodeFile,
    blocks: &mut B,
    files: &mut Descriptors,
    call: &Command<'_>,
) -> Result<Reply, Failure>
    requires looks { IsTrue (is_looking_call call.now) }
    requires numbers { HasNumbers inodes.old.geometry.inodes files.old }
    ensures no_fault { IfOk result TellsNoFault }
    ensures kind { IfOk result (IsReplyTo call.now) }
    ensures tells { AnswersMoving B.Blocks blocks.old blocks.new inodes.old inodes.new files.old
        files.new (λ v r. (said : Session)
        → WouldLead (limits_of inodes.old.geometry) said v (table_of files.old) call.now
        (answered_reply r) v (table_of files.new) nothing) result }
{
    match call {
        Command::Read { fd, count } => {
            let bytes = read(alloc, inodes, blocks, files, *fd, *count)?;
            Ok(Reply::Data(bytes))
        }
        Command::Pread { fd, offset, count } => {
            let bytes = pread(alloc, inodes, blocks, files, *fd, *offset, *count)?;
            Ok(Reply::Data(bytes))
        }
        Command::Fstat { fd } => {
            let stat = fstat(alloc, inodes, blocks, files, *fd)?;
            Ok(Reply::Stat(stat))
        }
        Command::Fattr { fd } => {
            let told = fattr(alloc, inodes, blocks, files, *fd)?;
            let (stat, attributes) = told;
            Ok(Reply::Attributes { stat, attributes })
        }
        _ => unreachable!(),
    }
}
