//! How a call ends.
ghost use Rattle.std.specs.Prelude.{◌≡◌};
ghost use Rattle.beside_run.specs.Exits.{number_of};

use stream_run::Status;

const OTHER_STREAM: u8 = 11;

/// How a call ends. Its number is the exit status of the program.
#[derive(Clone, Copy, Debug, PartialEq, Eq)]
pub enum Exit {
    /// As a call of any command may.
    Plain(Status),
    /// A query has another stream than the first one, and its number was written.
    OtherStream,
}

impl Exit {
    /// The exit status of the program.
    pub fn number(self) -> u8
        ensures { result ≡ number_of self }
    {
        match self {
            Exit::Plain(status) => status.number(),
            Exit::OtherStream => OTHER_STREAM,
        }
    }
}
