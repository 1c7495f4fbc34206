//! What the program ends with.

/// The program's exit statuses.
#[derive(Clone, Copy, Debug, PartialEq, Eq)]
pub enum Status {
    /// Done, whatever the replies.
    Done = 0,
    /// The command line isn't understood.
    NotUnderstood = 1,
    /// A file can't be read or written or has a size that no station has, or no image was made.
    FileFault = 2,
    /// The power was cut.
    Cut = 3,
    /// The image wasn't mounted.
    NotMounted = 4,
    /// A line of the script isn't a command, and nothing was run.
    NotACommand = 5,
    /// A fault stands in the image.
    Faulty = 6,
    /// No memory was left for the line, the script, the loaded images or a reply.
    NoMemory = 7,
    /// A command was refused, where that ends the run.
    Refused = 8,
}

impl Status {
    ghost use Rattle.std.specs.Prelude.{◌≡◌};
    ghost use Rattle.session.specs.Statuses.{status_number};

    /// Its number.
    pub fn number(self) -> u8
        ensures { result ≡ status_number self }
    {
        self as u8
    }
}
