// The longest texts, and the canonical text. The program `cases_queries` shows the other rules of
// reading at their edges.
use crate::assertions::{same, same_at};
use language_base::Bytes;
use query_parser::{ReadStop, print_file, read_file};
use std::alloc::{AllocError, Global};
use std::process::Abort;
use std::test::Fail;

/// The number of the rule that refuses the text, and its place.
fn refusal_of(alloc: Global, text: &[u8]) -> Option<(u8, u32, u32)> {
    match read_file(alloc, text) {
        Err(ReadStop::Refused(refusal)) => {
            Some((refusal.rule as u8, refusal.span.from, refusal.span.to))
        }
        _ => None,
    }
}

fn push_repeated(text: &mut Vec<u8>, piece: &[u8], count: u32) -> Result<(), AllocError> {
    for _ in 0..count {
        text.extend_from_slice(piece)?;
    }
    Ok(())
}

// A text of two parts with this many pieces between them.
fn filled(
    alloc: Global,
    before: &[u8],
    (count, piece): (u32, &[u8]),
    after: &[u8],
) -> Result<Vec<u8>, AllocError> {
    let mut text = Vec::from_slice(alloc, before)?;
    push_repeated(&mut text, piece, count)?;
    text.extend_from_slice(after)?;
    Ok(text)
}

const COMMENTED: &[u8] = b"stream(plain,col(a,int))main(atom(any,a))#";

// How often a piece stands behind a part, and the rule by which that is refused, with its place.
const TEXTS: &[(&[u8], u32, &[u8], Option<(u8, u32, u32)>)] = &[
    (b"", 0, b"", Some((5, 0, 0))),
    (b"", 65_536, b" ", Some((5, 65_536, 65_536))),
    (b"", 65_537, b" ", Some((1, 65_536, 65_537))),
    (COMMENTED, 65_494, b"x", None),
    (COMMENTED, 65_495, b"x", Some((1, 65_536, 65_537))),
];

#[test]
fn a_text_has_65_536_bytes_at_the_most(rt: HostRuntime) -> Result<(), Fail> {
    for &(before, count, piece, refusal) in TEXTS {
        let text = filled(rt.alloc(), before, (count, piece), b"")?;
        same_at(&rt, count, refusal_of(rt.alloc(), &text), refusal);
    }
    Ok(())
}

// Calls around a word.
fn nested(alloc: Global, levels: u32) -> Result<Vec<u8>, AllocError> {
    let mut text = Vec::new(alloc);
    push_repeated(&mut text, b"a(", levels)?;
    text.push(b'b')?;
    push_repeated(&mut text, b")", levels)?;
    Ok(text)
}

#[test]
fn the_levels_of_a_text_may_be_as_many_as_its_bytes_allow(rt: HostRuntime) -> Result<(), Fail> {
    let text = nested(rt.alloc(), 20_000)?;
    same(&rt, refusal_of(rt.alloc(), &text), Some((4, 128, 59_937)));
    Ok(())
}

/// The canonical text of what the text is read to.
fn canonical(alloc: Global, text: &[u8]) -> Result<Option<Bytes>, AllocError> {
    match read_file(alloc, text) {
        Ok(file) => Ok(Some(print_file(alloc, &file)?)),
        Err(_) => Ok(None),
    }
}

fn is_printed_as(rt: &impl Abort, alloc: Global, text: &[u8], wanted: &[u8]) -> Result<(), Fail> {
    let printed = canonical(alloc, text)?.ok_or("the text is refused")?;
    same(rt, printed.as_slice(), wanted);
    Ok(())
}

const CANONICAL: &[(&[u8], &[u8])] = &[
    (
        b"stream( plain,col(a,int) ) # sums\nmain(iter(atom(any,a),+00,add(x,y)))",
        b"stream(plain, col(a, int))\nmain(iter(atom(any, a), 0, add(x, y)))\n",
    ),
    (
        b"stream(plain,col(a,text))main(atom(eq(a,\"\\x0a\\\"\\\\~\\x7f\xff\"),-05))",
        b"stream(plain, col(a, text))\nmain(atom(eq(a, \"\\x0A\\x22\\x5C~\\x7F\\xFF\"), -5))\n",
    ),
    (
        b"stream(plain,col(a,int))main(apply(atom(any,rec(a,+1)),part(x,02)))",
        b"stream(plain, col(a, int))\nmain(apply(atom(any, rec(a, 1)), part(x, 2)))\n",
    ),
    (
        b"stream(plain,col(k,text))main(collect(key(k,m ,n),any,eps,eps(0)))",
        b"stream(plain, col(k, text))\nmain(collect(key(k, m, n), any, eps, eps(0)))\n",
    ),
];

#[test]
fn prints_the_canonical_text(rt: HostRuntime) -> Result<(), Fail> {
    for &(text, wanted) in CANONICAL {
        is_printed_as(&rt, rt.alloc(), text, wanted)?;
    }
    Ok(())
}

// A text of 65,536 bytes that is its own canonical text.
#[test]
fn the_longest_text_is_read_and_printed(rt: HostRuntime) -> Result<(), Fail> {
    let before = b"stream(plain, col(a, text))\nmain(atom(eq(a, \"";
    let text = filled(rt.alloc(), before, (65_483, b"x"), b"\"), 1))\n")?;
    same(&rt, text.len(), 65_536);
    is_printed_as(&rt, rt.alloc(), &text, &text)
}
