//! How a call ended.
ghost use Rattle.std.specs.Prelude.{◌≡◌};
ghost use Rattle.expand_run.specs.Statuses.{number_of};

/// How a call ended.
#[derive(Clone, Copy, Debug, PartialEq, Eq)]
pub enum Status {
    /// What was asked for was written.
    Done = 0,
    /// The query is refused, and it was written why.
    Refused = 1,
    /// The words ask for nothing that there is.
    Usage = 2,
    /// The query source failed.
    QueryFault = 3,
    /// The sink failed.
    SinkFault = 5,
    /// Out of memory.
    Memory = 6,
}

impl Status {
    /// The exit status of the program.
    pub fn number(self) -> u8
        ensures { result ≡ number_of self }
    {
        self as u8
    }
}
