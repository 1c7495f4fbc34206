//! The whole program but for its real streams: what its words ask for is done.

mod checking;
mod faults;
mod new_image;
mod reading;
mod room;
mod serving;
mod sessions;
mod shells;
mod transfers;

use crate::salvaging::{SalvageError, open_salvaged};
use crate::statuses::{status_of_file, status_of_line};
use crate::warnings::{warn_of_image, warn_of_list};
use checking::check_files;
pub(crate) use checking::find_faults;
use command_line::{Asked, Line, Options, Wait, read_line};
use host_files::{
    FileError, Image, ImageStation, Patience, list_name, open_shared, open_to_read, tell_fault,
};
use new_image::make_files;
use reading::run_one;
use room::show_room;
use served::Owner;
use serving::serve_folder;
use session::Status;
use sessions::run_script;
use shells::run_shell;
use std::io::{Read, Write};
use transfers::{get, put, restore};

/// What the standard streams are.
#[derive(Clone, Copy, Debug)]
pub struct Terminals {
    pub input: bool,
    pub out: bool,
    pub err: bool,
    /// Standard input is a pipe, which another program writes.
    pub is_pipe: bool,
}

/// The standard streams, and what is told on them.
#[derive(Drop)]
pub(crate) struct Streams<I, O, E> {
    pub(crate) input: I,
    pub(crate) out: O,
    pub(crate) err: E,
    pub(crate) terminals: Terminals,
    pub(crate) options: Options,
    /// What is wrong with a script or an image is told in a second line.
    pub(crate) explains: bool,
    pub(crate) patience: Patience,
}

/// Does what the program's words ask for, and gives its exit status. The first word is the
/// program's name. What it reads and shows goes over these streams; `terminals` says what they are.
pub fn obey<I: Read, O: Write, E: Write>(
    rt: &HostRuntime,
    words: &[String],
    terminals: Terminals,
    input: &mut I,
    out: &mut O,
    err: &mut E,
) -> u8 {
    let mut others = Vec::new(rt.alloc());
    let status = match read_line(rt.alloc(), words, &mut others) {
        Ok(asked) => {
            let mut streams = Streams {
                input,
                out,
                err,
                terminals,
                options: asked.options,
                explains: explains(&asked, terminals),
                patience: patience_of(asked.options.wait),
            };
            obey_line(rt, &asked.line, &mut streams)
        }
        Err(error) => {
            let _ = write!(err, "{error}");
            status_of_line(&error)
        }
    };
    status.number()
}

/// Whether a second line is told: on a terminal, or where the words ask for it, and always where
/// one command is done.
fn explains(asked: &Asked<'_>, terminals: Terminals) -> bool {
    asked.options.explains || terminals.err || matches!(asked.line, Line::Do { .. })
}

fn patience_of(wait: Wait) -> Patience {
    match wait {
        Wait::No => Patience::None,
        Wait::Seconds(seconds) => Patience::Seconds(seconds),
        Wait::Forever => Patience::Forever,
    }
}

/// Does what a line asks for.
fn obey_line<I: Read, O: Write, E: Write>(
    rt: &HostRuntime,
    line: &Line<'_>,
    streams: &mut Streams<I, O, E>,
) -> Status {
    let (disk, nvram) = match line {
        Line::Help(text) => return show_text(text.as_str(), &mut streams.out),
        Line::Make { disk, nvram, .. } => (*disk, *nvram),
        Line::Run { disk, nvram, .. } => (*disk, *nvram),
        Line::Shell { disk, nvram } => (*disk, *nvram),
        Line::Do { disk, nvram, .. } => (*disk, *nvram),
        Line::Df { disk, nvram } => (*disk, *nvram),
        Line::Check { disk, nvram } => (*disk, *nvram),
        Line::Put { disk, nvram, .. } => (*disk, *nvram),
        Line::Get { disk, nvram, .. } => (*disk, *nvram),
        Line::Restore { disk, nvram, .. } => (*disk, *nvram),
        Line::Serve { disk, nvram, .. } => (*disk, *nvram),
    };
    let Ok(bad) = list_name(rt.alloc(), disk) else {
        return tell(&FileError::NoMemory, &mut streams.err);
    };
    let image = Image {
        disk,
        nvram,
        bad: bad.as_str(),
    };
    let mut warnings = Vec::new(rt.alloc());
    if speaks_of_image(line, streams) {
        warn(rt, image, streams.patience, &mut warnings);
    }
    if let Line::Shell { .. } | Line::Serve { .. } = line {
        // Whoever types lines is told before the first one, and whoever mounts a folder before it
        // is there.
        let _ = streams.err.write_all(warnings.as_slice());
        warnings.clear();
    }
    let status = obey_on(rt, image, line, streams);
    let _ = streams.err.write_all(warnings.as_slice());
    status
}

/// Whether what a look at the image's files shows is told: not where one is made, and of a script's
/// run only where it is explained, since programs read its standard error.
fn speaks_of_image<I, O, E>(line: &Line<'_>, streams: &Streams<I, O, E>) -> bool {
    match line {
        Line::Help(_) | Line::Make { .. } => false,
        Line::Run { .. } => streams.explains,
        _ => true,
    }
}

/// Tells what a look at an image's files shows that the command won't. It looks before the command,
/// which may write over what shows it. An image that can't be opened says nothing here.
fn warn<E: Write>(rt: &HostRuntime, image: Image<'_>, patience: Patience, err: &mut E) {
    if let Ok(_held) = open_shared(rt, image, patience) {
        warn_of_list(rt, image, err);
        warn_of_image(rt, image, err);
    }
}

/// Does what a line asks for on these files.
fn obey_on<I: Read, O: Write, E: Write>(
    rt: &HostRuntime,
    image: Image<'_>,
    line: &Line<'_>,
    streams: &mut Streams<I, O, E>,
) -> Status {
    match line {
        Line::Help(_) => Status::Done,
        Line::Make {
            blocks,
            inodes,
            half,
            is_new,
            ..
        } => make_files(rt, image, (*blocks, *inodes, *half), *is_new, streams),
        Line::Run {
            script,
            stops,
            faults,
            ..
        } => run_script(rt, image, script, *stops, *faults, streams),
        Line::Shell { .. } => run_shell(rt, image, streams),
        Line::Do { words, .. } => run_one(rt, image, words.as_slice(), streams),
        Line::Df { .. } => show_room(rt, image, streams),
        Line::Check { .. } => check_files(rt, image, streams),
        Line::Put { file, path, .. } => put(rt, image, file, path, streams),
        Line::Get {
            path,
            file,
            snapshot,
            ..
        } => get(rt, image, path, file, *snapshot, streams),
        Line::Restore {
            snapshot,
            path,
            new_path,
            ..
        } => restore(rt, image, snapshot, path, *new_path, streams),
        Line::Serve { uid, gid, .. } => serve_folder(
            rt,
            image,
            Owner {
                uid: *uid,
                gid: *gid,
            },
            streams,
        ),
    }
}

fn show_text<O: Write>(text: &str, out: &mut O) -> Status {
    match out.write_all(text.as_bytes()) {
        Ok(()) => Status::Done,
        Err(_) => Status::FileFault,
    }
}

/// Opens an image for one who reads, or as much of it as can be read where that is asked for.
fn open_as_asked<'a, I, O, E: Write>(
    rt: &HostRuntime,
    image: Image<'a>,
    snapshot: Option<&[u8]>,
    streams: &mut Streams<I, O, E>,
) -> Result<ImageStation, SalvageError<'a>> {
    if streams.options.salvages {
        return open_salvaged(rt, image, snapshot, streams.patience, &mut streams.err);
    }
    Ok(open_to_read(rt, image, streams.patience)?)
}

/// Lets go of an image, which is stored where that is asked for, and tells which call of the host
/// failed, if one did.
fn close<'a, E: Write>(
    rt: &HostRuntime,
    image: Image<'a>,
    station: ImageStation,
    stores: bool,
    err: &mut E,
) -> Result<(), FileError<'a>> {
    let fault = station.close(rt, image, stores)?;
    tell_fault(image, fault.as_ref(), err);
    Ok(())
}

/// Says on standard error why nothing of an image can be read.
fn tell_salvage<E: Write>(error: &SalvageError<'_>, err: &mut E) -> Status {
    match error {
        SalvageError::File(error) => tell(error, err),
        SalvageError::Mount(error) => {
            let _ = writeln!(err, "wafl: mount {error}");
            Status::NotMounted
        }
    }
}

/// Says on standard error what is wrong with a file. Where that can't be written, the status alone
/// says what it can.
fn tell<E: Write>(error: &FileError<'_>, err: &mut E) -> Status {
    let _ = writeln!(err, "wafl: {error}");
    status_of_file(error)
}
