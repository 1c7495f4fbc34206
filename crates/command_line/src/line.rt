//! The program's command line, which `clap` reads.

ghost use Rattle.std.specs.Prelude.{◌≡◌, ◌⊎◌, IfOk, IfErr, [], map};
ghost use Rattle.clap.specs.Words.{IsAmong, kind_of, subcommand_rows_of};
ghost use Rattle.clap.specs.declared.error.kind.ErrorKind.TheVariants as kind;
ghost use Rattle.command_line.specs.Lines.{AskForHelp, IsMisunderstood, Refuses, ShowsHelp, asked_by, asked_of, asked_value};
ghost use Rattle.command_line.specs.Lines.{command_of, faults_of, help, line_value, options_at, Yields};
ghost use Rattle.command_line.specs.Values.{rows_in};
ghost use Rattle.command_line.specs.declared.line.LineError.TheVariants.{NoMemory};

use crate::arguments::wafl_command;
use crate::commands::line_of_command;
use crate::durability::{Durability, durability_of};
use crate::values::is_set;
use crate::waiting::{Wait, take_wait};
use clap::ArgMatches;
use clap::error::ErrorKind;
use std::alloc::{AllocError, AllocFailed, Global};
use std::convert::AsStr;
use thiserror::Error;

/// What a command line asks for, and how it is done and told.
#[derive(Debug, Drop)]
pub struct Asked<'a> {
    pub line: Line<'a>,
    pub options: Options,
}

/// How what a command line asks for is done and told: the flags and options, each of the commands
/// that have it.
#[derive(Clone, Copy, Debug)]
pub struct Options {
    /// `--explain`: what is wrong with a script or an image is told in a second line, on no
    /// terminal too.
    pub explains: bool,
    /// `--encoded`: paths, names and words are spelled as in a script.
    pub is_encoded: bool,
    /// `--human`: the room is told for people, too.
    pub is_human: bool,
    /// `--salvage`: of an image that can't be mounted what can be read is read.
    pub salvages: bool,
    /// `--force`: what is replaced isn't asked about.
    pub forces: bool,
    /// `--together` or `--deferred`: when what is answered is durable.
    pub durability: Durability,
    pub wait: Wait,
}

/// What a command line asks for.
#[derive(Debug, Drop)]
pub enum Line<'a> {
    /// `wafl make DISK NVRAM --blocks N --inodes N --half N [--new] [--force]`: makes both files
    /// and an empty image on them.
    Make {
        disk: &'a str,
        nvram: &'a str,
        blocks: u32,
        inodes: u32,
        /// Bytes of each half of the NVRAM.
        half: u32,
        /// Files that are there and not empty aren't replaced.
        is_new: bool,
    },
    /// `wafl run DISK NVRAM SCRIPT [--stop] [--cut N] [--keep none|all|BITS] [--bytes K]
    /// [--fail-sync N] [--deferred[=MILLISECONDS]]`: mounts the image and runs a script.
    Run {
        disk: &'a str,
        nvram: &'a str,
        /// The script's file; `-` is standard input.
        script: &'a str,
        /// The first command that is refused ends the run.
        stops: bool,
        faults: RunFaults<'a>,
    },
    /// `wafl shell DISK NVRAM [--together | --deferred[=MILLISECONDS]]`: mounts the image and answers
    /// each line of standard input at once.
    Shell {
        disk: &'a str,
        nvram: &'a str,
    },
    /// `wafl do DISK NVRAM WORDS..`: mounts the image and does one command.
    Do {
        disk: &'a str,
        nvram: &'a str,
        /// The command's words, as a user types them, or with `--encoded` as a script spells them.
        words: Vec<&'a str>,
    },
    /// `wafl df DISK NVRAM`: mounts the image and tells the room of its disk.
    Df {
        disk: &'a str,
        nvram: &'a str,
    },
    /// `wafl check DISK NVRAM`: looks for faults in the image.
    Check {
        disk: &'a str,
        nvram: &'a str,
    },
    /// `wafl put DISK NVRAM FILE PATH`: stores a file of the host's in one of the image.
    Put {
        disk: &'a str,
        nvram: &'a str,
        /// The host's file; `-` is standard input.
        file: &'a str,
        /// The path of the file in the image.
        path: &'a str,
    },
    /// `wafl get DISK NVRAM PATH FILE [--in SNAPSHOT]`: brings a file of the image back.
    Get {
        disk: &'a str,
        nvram: &'a str,
        /// The path of the file in the image.
        path: &'a str,
        /// The host's file; `-` is standard output.
        file: &'a str,
        /// The snapshot that it is read from, in place of the running tree.
        snapshot: Option<&'a str>,
    },
    /// `wafl restore DISK NVRAM SNAPSHOT PATH [NEWPATH]`: brings a file or a link of a snapshot
    /// into the running tree.
    Restore {
        disk: &'a str,
        nvram: &'a str,
        snapshot: &'a str,
        /// The path of the file in the snapshot.
        path: &'a str,
        /// The path that it gets in the running tree, in place of the same one.
        new_path: Option<&'a str>,
    },
    /// `wafl serve DISK NVRAM [--uid N] [--gid N] [--deferred[=MILLISECONDS]]`: mounts the image and
    /// answers the kernel's requests for a folder, which come by standard input and are answered on
    /// standard output.
    Serve {
        disk: &'a str,
        nvram: &'a str,
        /// Whose the files are until that is set.
        uid: u32,
        gid: u32,
    },
    /// `--help`, `--version` and the like: this text is asked for.
    Help(String),
}

/// What is to go wrong in a run.
#[derive(Clone, Copy, Debug)]
pub struct RunFaults<'a> {
    /// The device write of this run, counted from 1, within which the power is cut.
    pub cut: Option<u32>,
    pub keep: Kept<'a>,
    /// How many bytes an NVRAM write that is cut keeps.
    pub bytes: u32,
    /// The sync of this run, counted from 1, that fails. Mounting makes the first one.
    pub fail_sync: Option<u32>,
}

/// Which of the sector writes since the last sync a power cut keeps.
#[derive(Clone, Copy, Debug)]
pub enum Kept<'a> {
    /// `none`.
    Nothing,
    /// `all`.
    Everything,
    /// A nonempty text of 0, 1 and 2, used again from its start: write i is dropped where its
    /// character is 0 and kept where it is 1, and where it is 2 the sector can't be read then.
    Bits(&'a str),
}

/// Why a command line isn't obeyed.
#[derive(Debug, Drop, Error)]
pub enum LineError {
    /// No memory was left.
    #[error("wafl: no memory\n")]
    NoMemory,
    /// The words aren't understood. The text says which, and ends its last line.
    #[error("{0}")]
    NotUnderstood(String),
    /// A number of `make` is one that no image has. The text says which and why, and ends its line.
    #[error("{0}")]
    OutOfRange(String),
}

impl From<AllocError> for LineError {
    ghost from_gives = { λ _ e. e ≡ NoMemory };

    fn from(_error: AllocError) -> LineError {
        LineError::NoMemory
    }
}

/// What the words ask for. The first is the program's name, as in `env::args`. The words that clap
/// reads come into `others`.
pub fn read_line<'w, 'a, S: AsStr>(
    alloc: Global,
    words: &'w [S],
    others: &'a mut Vec<&'w str>,
) -> Result<Asked<'a>, LineError>
    ensures line { IfOk result (λ asked. (asked_of (map S.text words.entry.now)
        ≡ Ok (asked_value asked)) ⊎ (line_value asked.line ≡ help)) }
    ensures help { IfOk result (λ asked. line_value asked.line ≡ help
        → AskForHelp (map S.text words.entry.now)) }
    ensures refusal { IfErr result (Refuses (asked_of (map S.text words.entry.now))) }
{
    let wait = take_wait(alloc, words, others)?;
    read_others(alloc, others.as_slice(), wait)
}

/// What words ask for among which none says how long is waited, where so long is waited.
fn read_others<'a>(alloc: Global, words: &'a [&'a str], wait: Wait) -> Result<Asked<'a>, LineError>
    ensures line { IfOk result (λ asked. (asked_by (map (λ w. w.now) words.entry.now) wait
        ≡ Ok (asked_value asked)) ⊎ (line_value asked.line ≡ help)) }
    ensures help { IfOk result (λ asked. line_value asked.line ≡ help
        → ShowsHelp (map (λ w. w.now) words.entry.now)) }
    ensures refusal { IfErr result (Refuses (asked_by (map (λ w. w.now) words.entry.now) wait)) }
{
    let matches = match matches_of(alloc, words) {
        Ok(matches) => matches,
        Err(error) => return answer_without_matches(alloc, &error, wait),
    };
    let Some((name, matches)) = matches.subcommand() else {
        return Err(not_understood(alloc, "error: no command\n"));
    };
    Ok(Asked {
        line: line_of_command(alloc, name, matches)?,
        options: options_of(alloc, matches, wait)?,
    })
}

/// The flags and options that clap found, and how long is waited.
#[tactic(auto, unfolding(crate::specs::Lines::options_at))]
fn options_of(alloc: Global, matches: &ArgMatches<'_>, wait: Wait) -> Result<Options, LineError>
    ensures { Yields (λ o. o) (options_at (rows_in matches.now) wait) result }
{
    Ok(Options {
        explains: is_set(matches, "explain"),
        is_encoded: is_set(matches, "encoded"),
        is_human: is_set(matches, "human"),
        salvages: is_set(matches, "salvage"),
        forces: is_set(matches, "force"),
        durability: durability_of(alloc, matches)?,
        wait,
    })
}

/// What clap finds in the words.
fn matches_of<'a>(alloc: Global, words: &'a [&'a str]) -> Result<ArgMatches<'a>, clap::Error>
    ensures fit { IfOk result (λ m. (faults_of (map (λ w. w.now) words.entry.now) ≡ [])
        × (subcommand_rows_of m ≡ command_of (map (λ w. w.now) words.entry.now))) }
    ensures fault { IfErr result (λ e. (kind_of e ≡ kind.OutOfMemory)
        ⊎ IsAmong (kind_of e) (faults_of (map (λ w. w.now) words.entry.now))) }
{
    wafl_command(alloc)?.try_get_matches_from(words)
}

/// Help where it was asked for, and else why the words aren't understood.
fn answer_without_matches<'a>(
    alloc: Global,
    error: &clap::Error,
    wait: Wait,
) -> Result<Asked<'a>, LineError>
    ensures help { IfOk result (λ asked. (line_value asked.line ≡ help)
        × ((kind_of error.now ≡ kind.DisplayHelp) ⊎ (kind_of error.now ≡ kind.DisplayVersion))) }
    ensures memory { kind_of error.now ≡ kind.OutOfMemory
        → IfErr result (λ e. e ≡ NoMemory) }
    ensures refusal { IfErr result IsMisunderstood }
{
    match error.kind() {
        ErrorKind::OutOfMemory => Err(LineError::NoMemory),
        ErrorKind::DisplayHelp | ErrorKind::DisplayVersion => Ok(Asked {
            line: Line::Help(error.to_string(alloc)?),
            options: Options {
                explains: false,
                is_encoded: false,
                is_human: false,
                salvages: false,
                forces: false,
                durability: Durability::Usual,
                wait,
            },
        }),
        _ => Err(LineError::NotUnderstood(error.to_string(alloc)?)),
    }
}

/// That words aren't understood, for this reason.
pub fn not_understood(alloc: Global, text: &str) -> LineError
    ensures { IsMisunderstood result }
{
    match String::from_str(alloc, text) {
        Ok(text) => LineError::NotUnderstood(text),
        Err(AllocError) => LineError::NoMemory,
    }
}
