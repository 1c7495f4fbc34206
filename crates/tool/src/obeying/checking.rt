//! A check of an image.

use super::{Streams, close, tell};
use crate::statuses::{status_of_check, status_of_report};
use checker::{CheckError, Finding, Report, Watch, check};
use host_files::{Image, ImageStation, Patience, open_to_read};
use session::Status;
use std::io::{Read, Write};

/// Tells on standard error what a check finds, and on a terminal how far it is.
#[derive(Drop)]
struct Teller<'a, E> {
    to: &'a mut E,
    has_terminal: bool,
    /// Whether a line that is written anew stands on the terminal.
    is_open: bool,
}

impl<'a, E: Write> Watch for Teller<'a, E> {
    fn goes_on(&mut self, done: u32, of: u32) {
        if self.has_terminal {
            self.is_open = true;
            let _ = write!(self.to, "\rwafl: tree {done} of {of}");
        }
    }

    fn finds(&mut self, finding: &Finding) {
        self.end();
        let _ = writeln!(self.to, "wafl: {finding}");
    }
}

impl<'a, E: Write> Teller<'a, E> {
    /// Ends the line that is written anew.
    fn end(&mut self) {
        if self.is_open {
            self.is_open = false;
            let _ = self.to.write_all(b"\n");
        }
    }
}

/// Looks for faults in an image.
pub(super) fn check_files<I: Read, O: Write, E: Write>(
    rt: &HostRuntime,
    image: Image<'_>,
    streams: &mut Streams<I, O, E>,
) -> Status {
    match open_to_read(rt, image, streams.patience) {
        Ok(station) => {
            let (status, station) = check_on(rt, station, image, streams);
            match close(rt, image, station, true, &mut streams.err) {
                Ok(()) => status,
                Err(error) => tell(&error, &mut streams.err),
            }
        }
        Err(error) => tell(&error, &mut streams.err),
    }
}

/// Looks for faults in an image that is open.
fn check_on<I: Read, O: Write, E: Write>(
    rt: &HostRuntime,
    station: ImageStation,
    image: Image<'_>,
    streams: &mut Streams<I, O, E>,
) -> (Status, ImageStation) {
    let mut teller = Teller {
        to: &mut streams.err,
        has_terminal: streams.terminals.err,
        is_open: false,
    };
    let checked = check(rt.alloc(), station, &mut teller);
    teller.end();
    match checked {
        Ok((report, station)) => {
            tell_reserve(&report, &mut streams.err);
            (show(&report, &mut streams.out), station)
        }
        Err((error, station)) => (refuse(error, image, &mut streams.err), station),
    }
}

/// Tells what a check of an image finds that isn't mounted. It stores nothing, and waits for no
/// lock.
pub(crate) fn find_faults<E: Write>(rt: &HostRuntime, image: Image<'_>, err: &mut E) {
    let Ok(station) = open_to_read(rt, image, Patience::None) else {
        return;
    };
    let mut teller = Teller {
        to: err,
        has_terminal: false,
        is_open: false,
    };
    let _ = check(rt.alloc(), station, &mut teller);
}

/// Tells where an image without a fault has too little room for a consistency point, as one may
/// that another program wrote.
fn tell_reserve<E: Write>(report: &Report, err: &mut E) {
    if let Report::Good(summary) = report {
        if !summary.has_reserve {
            let _ = writeln!(
                err,
                "wafl: fewer blocks are free than a consistency point may need"
            );
        }
    }
}

/// Prints what a check came to.
fn show<O: Write>(report: &Report, out: &mut O) -> Status {
    match writeln!(out, "{report}") {
        Ok(()) => status_of_report(report),
        Err(_) => Status::FileFault,
    }
}

/// Tells why there is no report.
fn refuse<E: Write>(error: CheckError, image: Image<'_>, err: &mut E) -> Status {
    let Image { disk, nvram, .. } = image;
    let _ = writeln!(err, "wafl: {disk}, {nvram}: {error}");
    status_of_check(error)
}
