// What no clause says: how a line and its marks look when they are written out.
use crate::assertions::same_at;
use place_in_text::{Position, bytes_between, locate, push_marked_line};
use std::alloc::{AllocError, Global};
use std::process::Abort;
use std::test::Fail;

#[test]
fn lines_and_columns_are_counted_from_1(rt: HostRuntime) {
    let text = b"a\n\xc3\xa9b\r\n\nc";
    for (place, line, column) in [
        (0, 1, 1),
        (1, 1, 2),
        (2, 2, 1),
        (4, 2, 3),
        (6, 2, 5),
        (7, 3, 1),
        (8, 4, 1),
        (9, 4, 2),
        (usize::MAX, 4, 2),
    ] {
        same_at(&rt, place, locate(text, place), Position { line, column });
    }
}

fn marked(alloc: Global, text: &[u8], from: usize, to: usize) -> Result<Vec<u8>, AllocError> {
    let mut shown = Vec::new(alloc);
    push_marked_line(alloc, text, from, to, &mut shown)?;
    Ok(shown)
}

#[test]
fn marks_stand_under_the_bytes(rt: HostRuntime) -> Result<(), Fail> {
    let text = b"one\n\ttw\xc3\xb6 three\r\nfour";
    let table: [(usize, usize, &[u8]); 6] = [
        (0, 3, b"    one\n    ^^^\n"),
        (10, 15, b"     tw?? three\n          ^^^^^\n"),
        (10, 19, b"     tw?? three\n          ^^^^^\n"),
        (15, 16, b"     tw?? three\n               ^\n"),
        (17, 21, b"    four\n    ^^^^\n"),
        (21, 21, b"    four\n        ^\n"),
    ];
    for (from, to, wanted) in table {
        let shown = marked(rt.alloc(), text, from, to)?;
        same_at(&rt, from, shown.as_slice(), wanted);
    }
    Ok(())
}

// A line of 150 bytes: 50 of each letter.
fn long_line(alloc: Global) -> Result<Vec<u8>, AllocError> {
    let mut line = vec![in alloc; b'a'; 50]?;
    line.extend_from_slice(&[b'b'; 50])?;
    line.extend_from_slice(&[b'c'; 50])?;
    Ok(line)
}

fn count_of(text: &[u8], letter: u8) -> usize {
    text.iter().filter(|byte| **byte == letter).count()
}

// How many of each letter are shown around the place.
fn shows(
    rt: &impl Abort,
    alloc: Global,
    line: &[u8],
    place: usize,
    wanted: (usize, usize, usize),
) -> Result<(), AllocError> {
    let shown = marked(alloc, line, place, place)?;
    let counts = (
        count_of(&shown, b'a'),
        count_of(&shown, b'b'),
        count_of(&shown, b'c'),
    );
    same_at(rt, place, counts, wanted);
    Ok(())
}

#[test]
fn of_a_long_line_100_bytes_around_the_place_are_shown(rt: HostRuntime) -> Result<(), Fail> {
    let line = long_line(rt.alloc())?;
    for (place, wanted) in [
        (0, (50, 50, 0)),
        (60, (40, 50, 10)),
        (100, (0, 50, 50)),
        (140, (0, 50, 50)),
    ] {
        shows(&rt, rt.alloc(), &line, place, wanted)?;
    }
    Ok(())
}

#[test]
fn parts_end_with_the_text(rt: HostRuntime) {
    for (from, to, wanted) in [
        (0, 2, b"ab".as_slice()),
        (2, 9, b"c"),
        (2, 1, b""),
        (9, 12, b""),
    ] {
        same_at(&rt, from, bytes_between(b"abc", from, to), wanted);
    }
}
