//! Where characters stand in bytes.
ghost use Rattle.std.specs.Prelude.{◌≡◌};
ghost use Rattle.view_texts.specs.Utf8.{are_two, begin_four, begin_three, following, goes_on};
ghost use Rattle.view_texts.specs.Utf8.{more_after, one_goes_on, two_go_on};

/// How many bytes the character has after its first one, where these bytes come after that; none if
/// the byte begins no character.
pub(crate) fn following(first: u8, bytes: &[u8]) -> Option<usize>
    ensures { result ≡ following first bytes.now }
{
    if first < 0x80 {
        return Some(0);
    }
    more_after(first, bytes)
}

fn more_after(first: u8, bytes: &[u8]) -> Option<usize>
    ensures { result ≡ more_after first bytes.now }
{
    let [second, bytes @ ..] = bytes else {
        return None;
    };
    if are_two(first, *second) {
        Some(1)
    } else if begin_three(first, *second) && one_goes_on(bytes) {
        Some(2)
    } else if begin_four(first, *second) && two_go_on(bytes) {
        Some(3)
    } else {
        None
    }
}

fn are_two(first: u8, second: u8) -> bool
    ensures { result ≡ are_two first second }
{
    matches!(first, 0xC2..=0xDF) && goes_on(second)
}

fn begin_three(first: u8, second: u8) -> bool
    ensures { result ≡ begin_three first second }
{
    (first == 0xE0 && matches!(second, 0xA0..=0xBF))
        || (matches!(first, 0xE1..=0xEC) && goes_on(second))
        || (first == 0xED && matches!(second, 0x80..=0x9F))
        || (matches!(first, 0xEE..=0xEF) && goes_on(second))
}

fn begin_four(first: u8, second: u8) -> bool
    ensures { result ≡ begin_four first second }
{
    (first == 0xF0 && matches!(second, 0x90..=0xBF))
        || (matches!(first, 0xF1..=0xF3) && goes_on(second))
        || (first == 0xF4 && matches!(second, 0x80..=0x8F))
}

/// Whether a byte goes on with a character that has begun.
pub fn goes_on(byte: u8) -> bool
    ensures { result ≡ goes_on byte }
{
    matches!(byte, 0x80..=0xBF)
}

fn one_goes_on(bytes: &[u8]) -> bool
    ensures { result ≡ one_goes_on bytes.now }
{
    match bytes {
        [byte, ..] => goes_on(*byte),
        [] => false,
    }
}

fn two_go_on(bytes: &[u8]) -> bool
    ensures { result ≡ two_go_on bytes.now }
{
    match bytes {
        [byte, bytes @ ..] => goes_on(*byte) && one_goes_on(bytes),
        [] => false,
    }
}
