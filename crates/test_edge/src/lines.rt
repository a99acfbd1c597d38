// What no clause says: that lines come at all, and when the source is read for them.
use crate::assertions::{same, same_at};
use crate::resumed_source::ResumedSource;
use io_edge::{Line, LineStop, Lines, MemorySource, Source};
use std::alloc::{AllocError, Global};
use std::process::Abort;
use std::test::Fail;

/// Adds what a call answers, with a `|` after a line, and says whether more may come.
fn push_next<S: Source>(
    lines: &mut Lines,
    source: &mut S,
    text: &mut Vec<u8>,
) -> Result<bool, AllocError> {
    let (answer, continues): (&[u8], bool) = match lines.next(source) {
        Ok(Line::Whole(line)) => (line, true),
        Ok(Line::Long) => (b"long", true),
        Ok(Line::End) => (b"", false),
        Err(LineStop::Failed) => (b"failed", true),
        Err(LineStop::Limit) => (b"limit", false),
    };
    text.extend_from_slice(answer)?;
    if continues {
        text.push(b'|')?;
    }
    Ok(continues)
}

/// What the calls answer until the end or the limit.
fn answers<S: Source>(
    alloc: Global,
    lines: &mut Lines,
    source: &mut S,
) -> Result<Vec<u8>, AllocError> {
    let mut text = Vec::new(alloc);
    for _ in 0..10 {
        if !push_next(lines, source, &mut text)? {
            break;
        }
    }
    Ok(text)
}

/// The same for a source of these bytes.
fn answers_of(
    alloc: Global,
    bytes: &[u8],
    cuts: &[usize],
    fail_at: &[u64],
) -> Result<Vec<u8>, AllocError> {
    let mut source = MemorySource::new(alloc, bytes, cuts, fail_at)?;
    answers(alloc, &mut Lines::new(alloc)?, &mut source)
}

// A read that fails shows when it came. No clause says that a call reads no more than it needs.
#[test]
fn a_read_comes_only_for_a_line_and_a_failed_one_loses_no_byte(
    rt: HostRuntime,
) -> Result<(), Fail> {
    let table: [(usize, u64, &[u8]); 6] = [
        (1, 1, b"failed|ab|cd|"),
        (1, 2, b"failed|ab|cd|"),
        (1, 4, b"ab|failed|cd|"),
        (1, 5, b"ab|failed|cd|"),
        (2, 3, b"ab|failed|cd|"),
        (5, 2, b"ab|failed|cd|"),
    ];
    for (cut, fail_at, want) in table {
        let got = answers_of(rt.alloc(), b"ab\ncd", &[cut; 9], &[fail_at])?;
        same_at(&rt, (cut, fail_at), got.as_slice(), want);
    }
    Ok(())
}

// How many bytes there are, what comes after them, and how many bytes the line has if it is not too
// long.
const LENGTHS: &[(usize, &[u8], Option<usize>)] = &[
    (65_535, b"\n", Some(65_535)),
    (65_536, b"\n", Some(65_536)),
    (65_537, b"\n", None),
    (65_535, b"\r\n", Some(65_535)),
    (65_536, b"\r\n", None),
    (65_537, b"\r\n", None),
    (65_536, b"", Some(65_536)),
    (65_537, b"", None),
    (65_535, b"\r", Some(65_536)),
    (65_536, b"\r", None),
];

fn has_length(
    rt: &impl Abort,
    alloc: Global,
    count: usize,
    end: &[u8],
    wanted: usize,
) -> Result<(), AllocError> {
    let mut bytes = vec![in alloc; b'x'; count]?;
    bytes.extend_from_slice(end)?;
    let got = answers_of(alloc, &bytes, &[], &[])?;
    same_at(rt, count, got.len(), wanted);
    Ok(())
}

// A line has at most 65,536 bytes before its LF, where a CR counts as one of them.
#[test]
fn a_line_is_long_from_65_537_bytes(rt: HostRuntime) -> Result<(), Fail> {
    for &(count, end, shown) in LENGTHS {
        let wanted = shown.unwrap_or(b"long".len()).saturating_add(1);
        has_length(&rt, rt.alloc(), count, end, wanted)?;
    }
    Ok(())
}

fn boxed_lines(alloc: Global) -> Result<Box<Lines>, AllocError> {
    Ok(Box::new(alloc, Lines::new(alloc)?)?)
}

// What the calls answer for a source that has met its end once.
fn answer_to_the_end(
    rt: &impl Abort,
    alloc: Global,
    lines: &mut Lines,
    source: &mut ResumedSource,
    wanted: &[u8],
) -> Result<(), AllocError> {
    let got = answers(alloc, lines, source)?;
    same(rt, got.as_slice(), wanted);
    same(rt, source.ends, 1);
    Ok(())
}

fn end_once(rt: &impl Abort, alloc: Global, source: &mut ResumedSource) -> Result<(), AllocError> {
    let mut lines = boxed_lines(alloc)?;
    answer_to_the_end(rt, alloc, &mut lines, source, b"ab|cd|")?;
    answer_to_the_end(rt, alloc, &mut lines, source, b"")
}

#[test]
fn the_first_end_is_the_end(rt: HostRuntime) -> Result<(), Fail> {
    let mut source = ResumedSource::new(rt.alloc(), b"ab\ncd", b"ef\n")?;
    end_once(&rt, rt.alloc(), &mut source)?;
    Ok(())
}

// Bytes, how many a read gives, and whether an answer is ready before the first, the second and the
// third call.
const READY: &[(&[u8], usize, [bool; 3])] = &[
    (b"a\nb\n", 1, [false, false, false]),
    (b"a\nb\n", 2, [false, false, false]),
    (b"a\nb\nc", 3, [false, false, false]),
    (b"a\nb\n", 9, [false, true, false]),
    (b"a\nb", 9, [false, false, true]),
];

fn are_ready<S: Source>(rt: &impl Abort, lines: &mut Lines, source: &mut S, wanted: &[bool]) {
    for want in wanted {
        same(rt, lines.is_ready(), *want);
        let _line = lines.next(source);
    }
}

fn are_ready_in(
    rt: &impl Abort,
    alloc: Global,
    bytes: &[u8],
    cut: usize,
    wanted: &[bool],
) -> Result<(), AllocError> {
    let mut source = MemorySource::new(alloc, bytes, &[cut; 9], &[])?;
    let mut lines = boxed_lines(alloc)?;
    are_ready(rt, &mut lines, &mut source, wanted);
    Ok(())
}

#[test]
fn a_call_reads_where_no_answer_is_ready(rt: HostRuntime) -> Result<(), Fail> {
    for (bytes, cut, wanted) in READY {
        are_ready_in(&rt, rt.alloc(), bytes, *cut, wanted.as_slice())?;
    }
    Ok(())
}
