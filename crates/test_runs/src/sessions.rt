// A session with the engine that keeps the whole word: each reply, and the value after it.
use crate::assertions::same;
use crate::compilation::compiled;
use line_reader::{Cause, Skip};
use query_model::Follower;
use slow_eval::Slow;
use std::test::Fail;
use stream_run::{Reply, Session};
use value_ops::{Scalar, Value};

const FIRST: &[u8] = b"stream(header, col(a, int))\nmain(or(eps(7), atom(gt(a, 0), a)))\n";

const THREE_NUMBERS: &[u8] = b"stream(plain, col(a, int))\nmain(atom(any, rec(a, 0, a)))\n";

// The number that is the answer, if one is.
fn number(answer: Option<&Value>) -> Option<i64> {
    match answer {
        Some(Value::Scalar(Scalar::Number(number))) => Some(*number),
        _ => None,
    }
}

#[test]
fn a_session_says_what_each_line_was(rt: HostRuntime) -> Result<(), Fail> {
    let alloc = rt.alloc();
    let checked = compiled(alloc, FIRST)?;
    let slow = Slow::new(alloc, &checked)?;
    let mut session = Session::begin(&checked, slow);
    same(&rt, number(session.answer()), Some(7));
    same(&rt, session.line(alloc, b"5")?, Reply::Silent);
    same(&rt, session.line(alloc, b"")?, Reply::Silent);
    same(&rt, number(session.answer()), Some(7));
    let skip = Skip {
        cause: Cause::Number,
        column: 1,
    };
    same(&rt, session.line(alloc, b"x")?, Reply::Skipped(skip));
    same(&rt, number(session.answer()), Some(7));
    same(&rt, session.line(alloc, b"5")?, Reply::Answered);
    same(&rt, number(session.answer()), Some(5));
    same(&rt, session.follower().stored(), 2);
    let skip = Skip {
        cause: Cause::Long,
        column: 0,
    };
    same(&rt, session.long_line(), Reply::Skipped(skip));
    same(&rt, number(session.answer()), Some(5));
    assert!(rt; !session.follower().failed());
    Ok(())
}

// A header may be too long, and the line after it is an item.
#[test]
fn a_second_header_is_an_item(rt: HostRuntime) -> Result<(), Fail> {
    let alloc = rt.alloc();
    let checked = compiled(alloc, FIRST)?;
    let mut session = Session::begin(&checked, Slow::new(alloc, &checked)?);
    same(&rt, session.long_line(), Reply::Silent);
    same(&rt, session.line(alloc, b"0")?, Reply::Answered);
    assert!(rt; session.answer().is_none());
    Ok(())
}

// The item counts one, and the record three.
#[test]
fn a_kept_record_counts_its_parts(rt: HostRuntime) -> Result<(), Fail> {
    let alloc = rt.alloc();
    let checked = compiled(alloc, THREE_NUMBERS)?;
    let mut session = Session::begin(&checked, Slow::new(alloc, &checked)?);
    same(&rt, session.line(alloc, b"5")?, Reply::Answered);
    same(&rt, session.follower().stored(), 4);
    Ok(())
}
