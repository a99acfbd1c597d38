//! How a run ended.
ghost use Rattle.std.specs.Prelude.{◌≡◌};
ghost use Rattle.stream_run.specs.Statuses.{number_of};

/// How a run ended. Its number is the exit status of the program.
#[derive(Clone, Copy, Debug, PartialEq, Eq)]
pub enum Status {
    /// All items were answered, or the one line of a command was written.
    Done = 0,
    /// The query was refused, and its refusal was written.
    Refused = 1,
    /// The words do not ask for any command.
    Usage = 2,
    /// The query source failed.
    QueryFault = 3,
    /// The item source failed.
    ItemFault = 4,
    /// The sink failed.
    SinkFault = 5,
    /// Out of memory.
    Memory = 6,
    /// 2^63-1 item bytes were taken, and no end was found.
    Limit = 7,
}

impl Status {
    /// The exit status of the program.
    pub fn number(self) -> u8
        ensures { result ≡ number_of self }
    {
        self as u8
    }
}
