//! For whom values are written.
ghost use Rattle.std.specs.Prelude.{◌≡◌};
ghost use Rattle.view_texts.specs.Values.{none_text, record_end, record_start};

/// How values are written.
#[derive(Clone, Copy, Debug, PartialEq, Eq)]
pub enum Notation {
    /// As a run writes them.
    Plain,
    /// As JSON.
    Json,
}

impl Notation {
    pub(crate) fn record_start(self) -> u8
        ensures { result ≡ record_start self }
    {
        match self {
            Notation::Plain => b'(',
            Notation::Json => b'[',
        }
    }

    pub(crate) fn record_end(self) -> u8
        ensures { result ≡ record_end self }
    {
        match self {
            Notation::Plain => b')',
            Notation::Json => b']',
        }
    }

    // What is written where there is no value.
    pub(crate) fn none_text(self) -> &'static str
        ensures { result.now ≡ none_text self }
    {
        match self {
            Notation::Plain => "undefined",
            Notation::Json => "null",
        }
    }
}
