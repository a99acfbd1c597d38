//! How a call ends.
ghost use Rattle.std.specs.Prelude.{◌≡◌};
ghost use Rattle.snapshot_run.specs.Exits.{number_of};

use stream_run::Status;

const BAD_SNAPSHOT: u8 = 8;

/// How a call ends. Its number is the exit status of the program.
#[derive(Clone, Copy, Debug, PartialEq, Eq)]
pub enum Exit {
    /// As a call of any command may.
    Plain(Status),
    /// A snapshot is bad, and its flaw was written.
    BadSnapshot,
}

impl Exit {
    /// The exit status of the program.
    pub fn number(self) -> u8
        ensures { result ≡ number_of self }
    {
        match self {
            Exit::Plain(status) => status.number(),
            Exit::BadSnapshot => BAD_SNAPSHOT,
        }
    }
}
