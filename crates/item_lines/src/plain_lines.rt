//! Lines that are shown as they are.
ghost use Rattle.std.specs.Prelude.{◌≡◌};
ghost use Rattle.std.specs.Char.{is_control};
ghost use Rattle.std.specs.List.{list_any};
ghost use Rattle.std.specs.Str.{chars};
ghost use Rattle.item_lines.specs.Lines.{is_plain, is_shown};

/// The most bytes of a line that is shown.
const LONGEST: usize = 96;

/// Whether the line is short, and can be shown as it is.
pub fn is_shown(line: &[u8]) -> bool
    ensures { result ≡ is_shown line.now }
{
    line.len() <= LONGEST && is_plain(line)
}

fn is_plain(line: &[u8]) -> bool
    ensures { result ≡ is_plain line.now }
{
    match str::from_utf8(line) {
        Ok(text) => !has_control(text),
        Err(_) => false,
    }
}

fn has_control(text: &str) -> bool
    ensures { result ≡ list_any is_control (chars text.now) }
{
    text.chars().any(|character| character.is_control())
}
