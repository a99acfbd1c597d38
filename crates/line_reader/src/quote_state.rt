//! Where the bytes of a field stand.
ghost use Rattle.std.specs.Prelude.{◌≡◌};
ghost use Rattle.line_reader.specs.CutLines.{ends_field, place_after};

/// A place between two bytes of a line.
#[derive(Clone, Copy, Debug, PartialEq, Eq)]
pub(crate) enum QuoteState {
    /// At the front of a field.
    Front,
    /// In a field, and not between quotes.
    Plain,
    /// Between quotes.
    Quoted,
    /// After a quote that ends them, or is the first of two.
    Closed,
}

impl QuoteState {
    /// Whether the byte ends the field.
    pub(crate) fn ends_field(self, byte: u8) -> bool
        ensures { result ≡ ends_field self byte }
    {
        match self {
            QuoteState::Quoted => false,
            QuoteState::Front | QuoteState::Plain | QuoteState::Closed => byte == b',',
        }
    }

    /// The place after the byte.
    pub(crate) fn after(self, byte: u8) -> QuoteState
        ensures { result ≡ place_after self byte }
    {
        match (self, byte) {
            (QuoteState::Quoted, b'"') => QuoteState::Closed,
            (QuoteState::Quoted, _) => QuoteState::Quoted,
            (_, b',') => QuoteState::Front,
            (QuoteState::Front | QuoteState::Closed, b'"') => QuoteState::Quoted,
            _ => QuoteState::Plain,
        }
    }
}
