//! Calls that change something in memory, while their records wait.

ghost use Rattle.std.specs.Prelude.{IsFalse};
ghost use Rattle.dispatch.specs.Preparing.{CanCarryOut, only_looks};
ghost use Rattle.dispatch.specs.Waiting.{CarriesBehind, WaitsBehind};
ghost use Rattle.system.specs.Systems.{system_parts};

use crate::changing::prepare;
use crate::prepared_call::{PreparedCall, PreparedChange};
use crate::serving::{answer, waited};
use model::{Command, Reply};
use station::Station;
use system::{System, WaitError, WaitingRecords};

/// Serves a call that may log a record, on a system whose records wait: answers it where nothing
/// changes by it, or else puts it in force in memory, and its record waits behind those that do.
/// Nothing is written. Where it can't wait, and after any other error, nothing has changed.
pub(crate) fn change_waiting<S: Station>(
    system: &mut System<S>,
    waiting: &mut WaitingRecords,
    call: &Command<'_>,
) -> Result<Reply, WaitError>
    requires { IsFalse (only_looks call.now) }
    ensures { WaitsBehind system.old system.new waiting.old waiting.new call.now result }
{
    match prepare(system, call) {
        Ok(prepared) => carry_out_waiting(system, waiting, prepared),
        Err(failure) => waited(answer(Err(failure))),
    }
}

// Does what is prepared for a call: puts its change in force, if it has one, whose record waits; and
// then moves the table of open files.
fn carry_out_waiting<S: Station>(
    system: &mut System<S>,
    waiting: &mut WaitingRecords,
    prepared: PreparedCall<'_>,
) -> Result<Reply, WaitError>
    requires { CanCarryOut (system_parts system.old) prepared }
    ensures { CarriesBehind system.old system.new waiting.old waiting.new prepared.entry result }
{
    let PreparedCall {
        reply,
        change,
        table,
    } = prepared;
    match change {
        Some(
            PreparedChange {
                time,
                record,
                prepared,
            },
        ) => {
            match system.wait(waiting, &record.record(time), prepared) {
                Ok(()) => {
                    table.put_into(&mut system.files);
                    Ok(reply)
                }
                Err(error) => Err(error),
            }
        }
        None => {
            table.put_into(&mut system.files);
            Ok(reply)
        }
    }
}
