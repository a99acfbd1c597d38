//! What stands between the cells of a table.
ghost use Rattle.std.specs.Prelude.{◌≡◌};
ghost use Rattle.view_texts.specs.Cells.{separator};

/// What stands between two cells of a row.
#[derive(Clone, Copy, Debug, PartialEq, Eq)]
pub enum Delimiter {
    Comma,
    Tab,
}

impl Delimiter {
    /// Its byte.
    pub fn byte(self) -> u8
        ensures { result ≡ separator self }
    {
        match self {
            Delimiter::Comma => b',',
            Delimiter::Tab => b'\t',
        }
    }
}
