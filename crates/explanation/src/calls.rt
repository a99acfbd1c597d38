//! The calls that are open at the end of a text.
ghost use Rattle.std.specs.Prelude.{◌≡◌, ◌≤◌, ◌<◌, ◌+◌, length};
ghost use Rattle.query_tokens.specs.Raw.{is_word_byte};
ghost use Rattle.explanation.specs.Calls.{call_at, in_part, level_of, opened, part_after, parted};
ghost use Rattle.explanation.specs.Calls.{scan_of, scanned, token_byte, worded};

use crate::recognizers::is_word_byte;

/// What a byte is part of.
#[derive(Clone, Copy, Debug, PartialEq, Eq)]
pub(crate) enum Part {
    /// Between or in tokens.
    Plain,
    /// In a string.
    Text,
    /// After a backslash in a string.
    Escape,
    /// In a comment.
    Comment,
}

/// A word of the text, as the places where it begins and ends.
#[derive(Clone, Copy)]
pub(crate) struct Word {
    pub(crate) from: usize,
    pub(crate) to: usize,
}

/// A call: its head, and how many arguments come before the current one.
#[derive(Clone, Copy)]
pub(crate) struct Call {
    pub(crate) head: Word,
    pub(crate) argument: usize,
}

/// What is known after the bytes so far.
#[derive(Clone, Copy)]
pub(crate) struct Scan {
    pub(crate) part: Part,
    pub(crate) at: usize,
    /// The latest word.
    pub(crate) word: Word,
    /// The number of calls that are open.
    pub(crate) level: usize,
    /// The call that was opened last at the level that is asked for.
    pub(crate) call: Call,
}

/// How many calls are open at the end of the text.
pub(crate) fn level_of(text: &[u8]) -> usize
    ensures is { result ≡ level_of text.now }
    ensures within { result ≤ length text.now }
{
    scan_of(text, 0).level
}

/// The call that was opened last at this level.
pub(crate) fn call_at(text: &[u8], level: usize) -> Call
    ensures { result ≡ call_at text.now level }
{
    scan_of(text, level).call
}

fn scan_of(text: &[u8], level: usize) -> Scan
    ensures is { result ≡ scan_of level text.now }
    ensures within { result.level ≤ length text.now }
{
    let none = Word { from: 0, to: 0 };
    let mut scan = Scan {
        part: Part::Plain,
        at: 0,
        word: none,
        level: 0,
        call: Call {
            head: none,
            argument: 0,
        },
    };
    'bytes: for &byte in text {
        scan = scanned(level, scan, byte);
    }
    scan
}

fn scanned(level: usize, scan: Scan, byte: u8) -> Scan
    requires room { scan.at < usize.MAX }
    requires level { scan.level ≤ scan.at }
    requires commas { scan.call.argument ≤ scan.at }
    ensures is { result ≡ scanned level scan byte }
    ensures at { result.at ≡ scan.at + 1 }
    ensures level { result.level ≤ result.at }
    ensures commas { result.call.argument ≤ result.at }
{
    Scan {
        part: part_after(scan.part, byte),
        at: scan.at + 1,
        ..in_part(level, scan, byte)
    }
}

fn part_after(part: Part, byte: u8) -> Part
    ensures { result ≡ part_after part byte }
{
    match (part, byte) {
        (Part::Plain, b'"') | (Part::Escape, _) => Part::Text,
        (Part::Plain, b'#') => Part::Comment,
        (Part::Text, b'"') | (Part::Comment, b'\n') => Part::Plain,
        (Part::Text, b'\\') => Part::Escape,
        _ => part,
    }
}

fn in_part(level: usize, scan: Scan, byte: u8) -> Scan
    requires room { scan.at < usize.MAX }
    requires level { scan.level ≤ scan.at }
    requires commas { scan.call.argument ≤ scan.at }
    ensures is { result ≡ in_part scan.part level scan byte }
    ensures level { result.level ≤ scan.at + 1 }
    ensures commas { result.call.argument ≤ scan.at + 1 }
{
    match scan.part {
        Part::Plain => token_byte(level, scan, byte),
        Part::Text | Part::Escape | Part::Comment => scan,
    }
}

fn token_byte(level: usize, scan: Scan, byte: u8) -> Scan
    requires room { scan.at < usize.MAX }
    requires level { scan.level ≤ scan.at }
    requires commas { scan.call.argument ≤ scan.at }
    ensures is { result ≡ token_byte level scan byte }
    ensures level { result.level ≤ scan.at + 1 }
    ensures commas { result.call.argument ≤ scan.at + 1 }
{
    match byte {
        b'(' => opened(level, scan),
        b')' => Scan {
            level: scan.level.saturating_sub(1),
            ..scan
        },
        b',' => parted(level, scan),
        _ => worded(scan, byte),
    }
}

fn opened(level: usize, scan: Scan) -> Scan
    requires room { scan.at < usize.MAX }
    requires level { scan.level ≤ scan.at }
    requires commas { scan.call.argument ≤ scan.at }
    ensures is { result ≡ opened level scan }
    ensures level { result.level ≤ scan.at + 1 }
    ensures commas { result.call.argument ≤ scan.at + 1 }
{
    let begun = Call {
        head: scan.word,
        argument: 0,
    };
    Scan {
        level: scan.level + 1,
        call: if scan.level + 1 == level {
            begun
        } else {
            scan.call
        },
        ..scan
    }
}

fn parted(level: usize, scan: Scan) -> Scan
    requires room { scan.at < usize.MAX }
    requires commas { scan.call.argument ≤ scan.at }
    ensures is { result ≡ parted level scan }
    ensures level { result.level ≡ scan.level }
    ensures commas { result.call.argument ≤ scan.at + 1 }
{
    if scan.level != level {
        return scan;
    }
    let Call { head, argument } = scan.call;
    Scan {
        call: Call {
            head,
            argument: argument + 1,
        },
        ..scan
    }
}

fn worded(scan: Scan, byte: u8) -> Scan
    requires { scan.at < usize.MAX }
    ensures is { result ≡ worded scan byte }
    ensures level { result.level ≡ scan.level }
    ensures commas { result.call ≡ scan.call }
{
    if !is_word_byte(byte) {
        return scan;
    }
    let from = if scan.word.to == scan.at {
        scan.word.from
    } else {
        scan.at
    };
    Scan {
        word: Word {
            from,
            to: scan.at + 1,
        },
        ..scan
    }
}
