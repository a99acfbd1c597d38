//! How an explanation ended.
ghost use Rattle.std.specs.Prelude.{◌≡◌};
ghost use Rattle.explain_run.specs.Statuses.{number_of};

/// How an explanation ended. Its number is the one with which a run of the query would end.
#[derive(Clone, Copy, Debug, PartialEq, Eq)]
pub enum Status {
    /// The query is accepted, and nothing was written.
    Accepted = 0,
    /// The query is refused, and the explanation was written.
    Explained = 1,
    /// The query source failed.
    QueryFault = 3,
    /// The sink failed.
    SinkFault = 5,
    /// Out of memory.
    Memory = 6,
}

impl Status {
    /// The exit status of the program.
    pub fn number(self) -> u8
        ensures { result ≡ number_of self }
    {
        self as u8
    }
}
