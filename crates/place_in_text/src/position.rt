//! The line and the column of a place.
ghost use Rattle.std.specs.Prelude.{◌≡◌, ◌≤◌, length};
ghost use Rattle.std.specs.List.{count_by};
ghost use Rattle.place_in_text.specs.Places.{column_of, is_lf, line_of};

use crate::line::before_place;
use crate::part::head;

/// A line and a column, each from 1. A column counts bytes.
#[derive(Clone, Copy, Debug, PartialEq, Eq)]
pub struct Position {
    pub line: usize,
    pub column: usize,
}

/// The line and the column of a place. A place past the end counts as the end of the text.
pub fn locate(text: &[u8], place: usize) -> Position
    ensures line { result.line ≡ line_of text.now place }
    ensures column { result.column ≡ column_of text.now place }
{
    Position {
        line: count_line_ends(head(text, place)) + 1,
        column: before_place(text, place).len() + 1,
    }
}

fn count_line_ends(text: &[u8]) -> usize
    ensures within { result ≤ length text.now }
    ensures count { result ≡ count_by is_lf text.now }
{
    text.iter().filter(|byte| **byte == b'\n').count()
}
