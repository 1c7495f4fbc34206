//! A session over a script: it is read and tested whole, and then run.

ghost use Rattle.std.specs.Fn.{FnReturnsAt};
ghost use Rattle.std.specs.Prelude.{◌≡◌, ◌⊎◌, ◌&&◌, IsTrue};
ghost use Rattle.session.specs.Answers.{is_refusal};
ghost use Rattle.session.specs.Scripts.{HasBadLine};
ghost use Rattle.session.specs.Sessions.{EndsRun, EndsRunning, EndsWith, FaultHasCause, written_out};
ghost use Rattle.session.specs.Statuses.{status_number, status_of};

use crate::answering::{answer, is_refusal, show_cut};
use crate::lines::read_script;
use crate::telling::tell;
use crate::{Ending, Fault, Sink, Status};
use model::{Command, Reply};
use mount::{Fs, mount};
use station::Station;
use std::alloc::Global;
use std::io::Write;

/// Mounts the station, runs the script's commands, and writes one line to `out` for each reply:
/// when all that its command did is durable, and before the next command begins.
///
/// Where the power was cut, the line `cut` stands in place of the reply to the command under way,
/// and ends them. `was_cut` says of the station whether its power was cut. `stops` has the first
/// reply that is a refusal end the run behind its line. A fault goes to `err`. How it ended:
/// - `Ran` with `Done`, `Cut` or `Refused`: all that is to be shown is in `out`, and nothing in
///   `err`;
/// - `Ran` with `FileFault` or `NoMemory`: `out` can't be written, or there is no memory for a
///   reply's line. No command
///   ran behind the first one whose reply isn't shown whole;
/// - `Unrun` with `NotMounted` or `NotACommand`: nothing was run, and `err` has the fault's line;
/// - `Unrun` with `FileFault` or `NoMemory`: nothing was run, and `err` can't be written or there
///   is no memory for the
///   script or for what tells the fault. Nothing counts the growths that were refused, so no clause can say that one
///   was: `NoMemory` may stand for want of memory that never came.
pub fn session<S: Station, C: Fn(&S) -> bool, O: Write, E: Write>(
    alloc: Global,
    station: S,
    script: &[u8],
    stops: bool,
    was_cut: C,
    out: &mut Sink<O>,
    err: &mut Sink<E>,
) -> (Ending, S)
    requires { C.IsAlwaysCallable was_cut }
    // A script with a bad line isn't run, and the station is as it was.
    ensures bad_line { HasBadLine script.now → (result.1 ≡ station)
        × ((status_number (status_of result.0) ≡ 5) ⊎ (status_number (status_of result.0) ≡ 2)
        ⊎ (status_number (status_of result.0) ≡ 7)) }
    ensures ends { EndsWith S.Station script.now stops (FnReturnsAt C.Fn was_cut result.1)
        station result.1
        (written_out (O.contents out.old.inner) (E.contents err.old.inner))
        (written_out (O.contents out.new.inner) (E.contents err.new.inner)) result.0 }
    // A file's fault is told only where a write failed: of a reply, or of why nothing is run.
    ensures fault { FaultHasCause (IsTrue out.new.has_failed) (IsTrue err.new.has_failed) result.0 }
{
    let commands = match read_script(alloc, script) {
        Ok(commands) => commands,
        Err(fault) => return (Ending::Unrun(fault, tell(alloc, fault, err)), station),
    };
    match mount(alloc, station) {
        Ok(fs) => {
            let (status, station) = run_mounted(
                alloc,
                fs,
                commands.as_slice(),
                stops,
                &was_cut,
                out,
            );
            (Ending::Ran(status), station)
        }
        Err((error, station)) => {
            let fault = Fault::Mount(error);
            (Ending::Unrun(fault, tell(alloc, fault, err)), station)
        }
    }
}

/// Runs commands on a mounted file system, shows the replies, and gives the station back.
fn run_mounted<S: Station, C: Fn(&S) -> bool, O: Write>(
    alloc: Global,
    mut fs: Fs<S>,
    commands: &[Command<'_>],
    stops: bool,
    was_cut: &C,
    out: &mut Sink<O>,
) -> (Status, S)
    requires { C.IsAlwaysCallable was_cut.now }
    ensures ends { EndsRun fs commands.now stops (FnReturnsAt C.Fn was_cut.now result.1) result.1
        (O.contents out.old.inner) (O.contents out.new.inner) result.0 }
    ensures fault { result.0 ≡ Status.FileFault → IsTrue out.new.has_failed }
{
    let status = run_commands(alloc, &mut fs, commands, stops, was_cut, out);
    (status, fs.into_station())
}

/// Runs commands, each one's reply shown before the next begins.
fn run_commands<S: Station, C: Fn(&S) -> bool, O: Write>(
    alloc: Global,
    fs: &mut Fs<S>,
    commands: &[Command<'_>],
    stops: bool,
    was_cut: &C,
    out: &mut Sink<O>,
) -> Status
    requires { C.IsAlwaysCallable was_cut.now }
    ensures ends { EndsRunning fs.old fs.new commands.now stops
        (FnReturnsAt C.Fn was_cut.now fs.new.system.blocks.buffers.station)
        (O.contents out.old.inner) (O.contents out.new.inner) result }
    ensures fault { result ≡ Status.FileFault → IsTrue out.new.has_failed }
{
    fs.begins();
    if was_cut(fs.station()) {
        return show_cut(out);
    }
    for command in commands {
        let reply = match answer(alloc, fs, command, was_cut, out) {
            Ok(reply) => reply,
            Err(status) => return status,
        };
        if ends_run(stops, &reply) {
            return Status::Refused;
        }
    }
    Status::Done
}

/// Whether a run ends behind this reply.
fn ends_run(stops: bool, reply: &Reply) -> bool
    ensures { result ≡ (stops && is_refusal reply.now) }
{
    stops && is_refusal(reply)
}
