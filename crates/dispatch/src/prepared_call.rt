//! Calls that are prepared: what they are to do, of which nothing is seen yet.

ghost use Rattle.std.specs.Prelude.{◌≡◌, ◌≤◌, ◌+◌, Bool, is_some, length};
ghost use Rattle.layout.specs.StateLimits.{limits_of};
ghost use Rattle.model.specs.Attributes.{FitAttributes, KeepsTime, new_attributes};
ghost use Rattle.model.specs.Sessions.{call_time, new_permissions};
ghost use Rattle.layout.specs.Record.{body_of, change_of, FitsAttributes, FitsTime, IsChange, KeepsLimits, stamped, write};
ghost use Rattle.model.specs.declared.limits.TheConstants.{TRANSFER_BYTES};
ghost use Rattle.dispatch.specs.Preparing.{KeepsRecord, recorded, said_change};

use crate::table_move::TableMove;
use calls::{Changing, OwnedChange};
use inofile::InodeFile;
use layout::{Edit, InodeNumber, Record};
use model::{Mode, Permissions, Reply, Session, Time};
use records::Prepared;

/// The record of a call.
#[derive(Drop)]
pub(crate) enum CallRecord<'a> {
    /// It says this.
    Says(OwnedChange),
    /// The bytes go to the file with this number, from the offset on.
    Writes {
        number: InodeNumber,
        offset: u64,
        bytes: &'a [u8],
    },
}

/// What a call changes: what its record says, and when, where objects have times; and its prepared
/// change.
#[derive(Drop)]
pub(crate) struct PreparedChange<'a> {
    pub(crate) time: Option<Time>,
    pub(crate) record: CallRecord<'a>,
    pub(crate) prepared: Prepared,
}

/// An accepted call, as far as nothing of it is seen yet: its reply, its change of the file system,
/// if it has one, and what it does to the table of open files.
#[derive(Drop)]
pub(crate) struct PreparedCall<'a> {
    pub(crate) reply: Reply,
    pub(crate) change: Option<PreparedChange<'a>>,
    pub(crate) table: TableMove,
}

impl CallRecord<'_> {
    /// The record at this time, as the log takes it.
    pub(crate) fn record(&self, time: Option<Time>) -> Record<'_>
        requires { KeepsRecord self.now }
        ensures says { change_of result ≡ stamped time (recorded self.now) }
        ensures limits { KeepsLimits (change_of result) }
        ensures is { (has_attributes : Bool) → FitsTime has_attributes time
            → FitsAttributes has_attributes (recorded self.now)
            → IsChange has_attributes (change_of result) }
        ensures short { length (body_of result) ≤ 29 + TRANSFER_BYTES }
    {
        match self {
            CallRecord::Says(change) => change.record(time),
            CallRecord::Writes {
                number,
                offset,
                bytes,
            } => write_record(time, *number, *offset, bytes),
        }
    }
}

/// The record of a write at this time, as the log takes it.
fn write_record(time: Option<Time>, number: InodeNumber, offset: u64, bytes: &[u8]) -> Record<'_>
    requires some { 1 ≤ length bytes.now }
    requires most { length bytes.now ≤ TRANSFER_BYTES }
    ensures says { change_of result ≡ stamped time (write number offset bytes.now) }
    ensures is { (has_attributes : Bool) → FitsTime has_attributes time
        → IsChange has_attributes (change_of result) }
{
    // Its type holds the number to what its field has room for.
    let _ = number.get();
    Record {
        time,
        edit: Edit::Write {
            number,
            offset,
            bytes,
        },
    }
}

/// The time of a session's calls, where these objects have times.
pub(crate) fn time_of(session: &Session, inodes: &InodeFile) -> Option<Time>
    ensures is { result ≡ call_time (limits_of inodes.now.geometry) session.now }
    ensures keeps { KeepsTime (limits_of inodes.now.geometry).has_attributes result }
{
    let time = session.time;
    time.fits();
    let session = *session;
    session.now(&inodes.limits())
}

/// The permissions of what a session's calls make with a mode, among these objects.
pub(crate) fn permissions_of(session: &Session, inodes: &InodeFile, mode: Mode) -> Permissions
    ensures is { result ≡ new_permissions (limits_of inodes.now.geometry) session.now mode }
    ensures kept { FitAttributes (is_some (call_time (limits_of inodes.now.geometry) session.now))
        (new_attributes result) }
{
    let session = *session;
    session.permissions(&inodes.limits(), mode)
}

/// A change whose record says what it does, if there is one.
pub(crate) fn said<'a>(changing: Option<Changing>) -> Option<PreparedChange<'a>>
    ensures { result ≡ said_change changing }
{
    match changing {
        Some(
            Changing {
                time,
                change,
                prepared,
            },
        ) => {
            let record = CallRecord::Says(change);
            Some(PreparedChange {
                time,
                record,
                prepared,
            })
        }
        None => None,
    }
}
