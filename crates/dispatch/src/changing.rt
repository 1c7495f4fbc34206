//! Calls that change something, served on a mounted system: each is prepared, and then done.

ghost use Rattle.std.specs.Prelude.{◌≡◌, IsFalse, None};
ghost use Rattle.layout.specs.Places.{blocks_of};
ghost use Rattle.model.specs.declared.command.Command.{Command};
ghost use Rattle.model.specs.Replies.{IsReplyTo};
ghost use Rattle.model.specs.States.{State};
ghost use Rattle.dispatch.specs.Preparing.{CanCarryOut, IsPreparedAt, PreparesOn, only_looks};
ghost use Rattle.system.specs.Serving.{ServesState};
ghost use Rattle.dispatch.specs.Serving.{Handles, HandlesAt, IsAccepted};
ghost use Rattle.dispatch.specs.Fulfilling.{Fulfils};
ghost use Rattle.system.specs.Systems.{disk_of, system_parts};

use crate::prepared_call::{PreparedCall, PreparedChange};
use crate::preparing::prepare_call;
use crate::serving::{answer, called};
use buffers::BlockError;
use model::{Command, Reply};
use records::Failure;
use station::Station;
use system::{CallError, System, cuts_open, served_states_open};

/// Serves a call that may log a record: prepares it, does the step of a consistency point that
/// comes before its record, and then the call. What is prepared stays so behind a slice, which
/// leaves memory and what blocks read as.
pub(crate) fn change<S: Station>(
    system: &mut System<S>,
    call: &Command<'_>,
) -> Result<Reply, CallError>
    requires { IsFalse (only_looks call.now) }
    ensures { Fulfils system.old system.new call.now result }
{
    cuts_open();
    match prepare(system, call) {
        Ok(prepared) => {
            if prepared.change.is_none() {
                return carry_out(system, prepared);
            }
            if system.blocks.is_under_way() {
                return match system.advance() {
                    Ok(()) => carry_out(system, prepared),
                    Err(_) => Err(CallError::NotWritten),
                };
            }
            if !system.is_plan_due() {
                return carry_out(system, prepared);
            }
            // Memory goes over to another root, so the call is prepared for that.
            system.plan();
            match prepare(system, call) {
                Ok(prepared) => carry_out(system, prepared),
                Err(failure) => called(answer(Err(failure))),
            }
        }
        Err(failure) => called(answer(Err(failure))),
    }
}

// Prepares a call, with room for what it opens.
pub(crate) fn prepare<'a, S: Station>(
    system: &mut System<S>,
    call: &'a Command<'_>,
) -> Result<PreparedCall<'a>, Failure>
    requires { IsFalse (only_looks call.now) }
    ensures { PreparesOn system.old system.new call.now result }
{
    let session = system.session;
    session.fits();
    let prepared = prepare_call(
        system.alloc,
        &mut system.inodes,
        &mut system.blocks,
        &system.session,
        &system.files,
        call,
    )?;
    match prepared.table.make_room(&mut system.files) {
        Ok(()) => Ok(prepared),
        Err(_) => Err(Failure::Read(BlockError::NoMemory)),
    }
}

// Does what is prepared for a call: logs its record, if it has one, and puts it in force; and
// then moves the table of open files.
fn carry_out<S: Station>(
    system: &mut System<S>,
    prepared: PreparedCall<'_>,
) -> Result<Reply, CallError>
    requires { CanCarryOut (system_parts system.old) prepared }
    ensures frame { (call : Command) → IsReplyTo call prepared.entry.reply
        → IsAccepted prepared.entry.reply
        → Handles system.old system.new call result }
    ensures told { (call : Command) (s : State) (served : ServesState system.old s)
        → IsPreparedAt (system_parts system.old) (blocks_of (disk_of system.old)) served.running call
        prepared.entry → HandlesAt system.old system.new s served call result }
    ensures quiet { prepared.entry.change ≡ None → system.new.log ≡ system.old.log }
{
    served_states_open(system);
    let PreparedCall {
        reply,
        change,
        table,
    } = prepared;
    match change {
        Some(
            PreparedChange {
                time,
                record,
                prepared,
            },
        ) => {
            match system.log(&record.record(time), prepared) {
                Ok(()) => {
                    table.put_into(&mut system.files);
                    Ok(reply)
                }
                Err(error) => Err(error),
            }
        }
        None => {
            table.put_into(&mut system.files);
            Ok(reply)
        }
    }
}
