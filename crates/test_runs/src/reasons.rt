// The command `why`. It reads no item: the source of the items fails at once.
use crate::fixtures::{Given, SUM, gives, sum_over};
use std::alloc::{AllocError, Global};
use std::process::Abort;
use std::test::Fail;
use stream_run::Status;

const CHOICE: &[u8] =
    b"stream(plain, col(a, int))\nmain(or(atom(le(a, 5), 1), atom(ge(a, 5), 2)))\n";

const SPLIT: &[u8] =
    b"stream(plain, col(a, int))\nmain(split(iter(atom(eq(a, 1), 0), 0, 0), iter(atom(eq(a, 1), 0), 0, 0), 0))\n";

const ITER: &[u8] =
    b"stream(plain, col(a, int))\nmain(iter(iter(atom(any, a), 0, add(x, y)), 0, add(x, y)))\n";

const COMBINE: &[u8] =
    b"stream(plain, col(a, int))\nmain(combine(iter(atom(any, a), 0, add(x, y)), atom(any, a), x))\n";

// A number in its smallest unit, next to a text.
const FIXED: &[u8] =
    b"stream(plain, col(k, text), col(p, fixed(2)))\nmain(or(atom(and(eq(k, \"a\"), eq(p, 150)), 1), atom(eq(k, \"a\"), 2)))\n";

// A text with a quote, an LF and a comma.
const TEXT: &[u8] =
    b"stream(plain, col(k, text))\nmain(or(atom(eq(k, \"a\\\"\\x0A,\"), 1), atom(any, 2)))\n";

// A value of the left operand of a compose.
const VALUE: &[u8] =
    b"stream(plain, col(a, int))\nmain(compose(iter(atom(any, a), 0, add(x, y)), or(atom(eq(value, 3), 1), atom(any, 2))))\n";

// Whether this is what `why` writes for the query.
fn says(
    rt: &impl Abort,
    alloc: Global,
    query: &[u8],
    wanted: Status,
    written: &[u8],
) -> Result<(), AllocError> {
    let given = Given {
        words: "why q",
        query,
        item_fails: &[1],
        ..sum_over(b"5\n")
    };
    gives(rt, alloc, given, wanted, written)
}

#[test]
fn a_word_with_two_readings_is_shown(rt: HostRuntime) -> Result<(), Fail> {
    for (query, written) in [
        (
            CHOICE,
            b"refused choice 32..72\nitem 5\nfirst 0 1\nsecond 0 1\n".as_slice(),
        ),
        (
            SPLIT,
            b"refused split 32..102\nitem 1\nfirst 0 0 1\nsecond 0 1 1\n".as_slice(),
        ),
        (
            ITER,
            b"refused iter 32..84\nfirst 0\nsecond 0 0\n".as_slice(),
        ),
        (
            FIXED,
            b"refused choice 51..112\nitem \"a\",150\nfirst 0 1\nsecond 0 1\n".as_slice(),
        ),
        (
            TEXT,
            b"refused choice 33..77\nitem \"a\\x22\\x0A,\"\nfirst 0 1\nsecond 0 1\n".as_slice(),
        ),
        (
            VALUE,
            b"refused choice 74..113\nitem 3\nfirst 0 1\nsecond 0 1\n".as_slice(),
        ),
    ] {
        says(&rt, rt.alloc(), query, Status::Refused, written)?;
    }
    Ok(())
}

#[test]
fn no_word_is_shown_where_none_has_two_readings(rt: HostRuntime) -> Result<(), Fail> {
    says(&rt, rt.alloc(), SUM, Status::Done, b"ok\n")?;
    says(
        &rt,
        rt.alloc(),
        COMBINE,
        Status::Refused,
        b"refused rates 32..90\n",
    )?;
    says(
        &rt,
        rt.alloc(),
        b"",
        Status::Refused,
        b"refused form 0..0\n",
    )?;
    Ok(())
}

#[test]
fn a_fault_of_the_sink_ends_a_word(rt: HostRuntime) -> Result<(), Fail> {
    let given = Given {
        words: "why q",
        query: CHOICE,
        room: 30,
        ..sum_over(b"5\n")
    };
    let written = b"refused choice 32..72\nitem 5\nf";
    gives(&rt, rt.alloc(), given, Status::SinkFault, written)?;
    Ok(())
}
