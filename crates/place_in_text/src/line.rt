//! The line of a place.
ghost use Rattle.std.specs.Prelude.{◌≡◌, ◌≤◌, ◌+◌, length, not};
ghost use Rattle.std.specs.Io.BufRead.{strip_last};
ghost use Rattle.std.specs.List.{before_first, position_or_len, suffix_len};
ghost use Rattle.place_in_text.specs.Places.{before_place, from_place, is_lf};

use crate::part::{head, tail};

/// The part of the line before the place.
pub(crate) fn before_place(text: &[u8], place: usize) -> &[u8]
    ensures { result.now ≡ before_place text.now place }
{
    let head = head(text, place);
    &head[last_line_start(head)..]
}

// Where the last line of a text begins.
fn last_line_start(text: &[u8]) -> usize
    ensures within { result ≤ length text.now }
    ensures start { result + suffix_len (λ byte. not (is_lf byte)) text.now ≡ length text.now }
{
    let mut start = text.len();
    'bytes: while start > 0 && text[start - 1] != b'\n' {
        start -= 1;
    }
    start
}

/// The part of the line from the place on.
pub(crate) fn from_place(text: &[u8], place: usize) -> &[u8]
    ensures { result.now ≡ from_place text.now place }
{
    without_cr(first_line(tail(text, place)))
}

fn first_line(text: &[u8]) -> &[u8]
    ensures { result.now ≡ before_first is_lf text.now }
{
    &text[..first_line_len(text)]
}

fn first_line_len(text: &[u8]) -> usize
    ensures within { result ≤ length text.now }
    ensures len { result ≡ position_or_len is_lf text.now }
{
    text.iter().take_while(|byte| **byte != b'\n').count()
}

fn without_cr(line: &[u8]) -> &[u8]
    ensures { result.now ≡ strip_last 13 line.now }
{
    if line.last() == Some(&b'\r') {
        return &line[..line.len() - 1];
    }
    line
}
