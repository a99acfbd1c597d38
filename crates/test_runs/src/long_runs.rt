// Runs over many items, whose answers are those of a plain loop, and how much is kept meanwhile.
use crate::assertions::same;
use crate::compilation::compiled;
use crate::fixtures::{Given, SUM, outcome, run_of};
use eval_runner::Runner;
use query_model::Follower;
use std::alloc::{AllocError, Global};
use std::test::Fail;
use stream_run::{Reply, Session, Status};

// The number of lines that each of the three queries below is run on.
const LINES: u64 = 20_000;

// The sum of the items before the first one below zero, less that of the others.
const DIFFERENCE: &[u8] = b"stream(plain, col(a, int))
main(split(
    iter(atom(ge(a, 0), a), 0, add(x, y)),
    iter(atom(lt(a, 0), a), 0, add(x, y)),
    sub(x, y)))
";

// The largest sum so far.
const LARGEST_SUM: &[u8] = b"stream(plain, col(a, int))
main(compose(iter(atom(any, a), 0, add(x, y)), iter(atom(any, value), 0, max(x, y))))
";

// The sum over all keys of the sum for each.
const SUM_OF_KEYS: &[u8] = b"stream(plain, col(k, text), col(a, int))
main(apply(collect(k, not(any), star(item(any)), iter(atom(any, a), 0, add(x, y))), tsum(x)))
";

// The numbers from 1 to this one, each on a line of its own.
fn numbers_to(alloc: Global, last: u64) -> Result<Vec<u8>, AllocError> {
    let mut lines = Vec::new(alloc);
    for number in 1..=last {
        let line = format!(in alloc; "{number}\n")?;
        lines.extend_from_slice(line.as_bytes())?;
    }
    Ok(lines)
}

// Whether a run answers each of the lines by its number. The engine that keeps the whole word would
// take many minutes, since it looks through all pieces of the word after each item.
fn is_counted(alloc: Global, query: &[u8], items: &str) -> Result<bool, AllocError> {
    let given = Given {
        room: 262_144,
        ..run_of(query, items.as_bytes())
    };
    let (status, bytes) = outcome(alloc, given)?;
    let wanted = numbers_to(alloc, LINES)?;
    Ok(status == Status::Done && bytes.as_slice() == wanted.as_slice())
}

#[test]
fn a_split_of_many_items_is_answered_in_time(rt: HostRuntime) -> Result<(), Fail> {
    let mut items = "1\n".repeat(rt.alloc(), 10_000)?;
    let below_zero = "-1\n".repeat(rt.alloc(), 10_000)?;
    items.push_str(below_zero.as_str())?;
    assert!(rt; is_counted(rt.alloc(), DIFFERENCE, items.as_str())?);
    Ok(())
}

#[test]
fn a_compose_of_many_items_is_answered_in_time(rt: HostRuntime) -> Result<(), Fail> {
    let items = "1\n".repeat(rt.alloc(), 20_000)?;
    assert!(rt; is_counted(rt.alloc(), LARGEST_SUM, items.as_str())?);
    Ok(())
}

#[test]
fn a_collect_of_many_items_is_answered_in_time(rt: HostRuntime) -> Result<(), Fail> {
    let items = "a,1\nb,1\n".repeat(rt.alloc(), 10_000)?;
    assert!(rt; is_counted(rt.alloc(), SUM_OF_KEYS, items.as_str())?);
    Ok(())
}

// It keeps as much as the bound of the query says, which is 6 slots.
#[test]
fn a_sum_keeps_as_much_after_each_item(rt: HostRuntime) -> Result<(), Fail> {
    let alloc = rt.alloc();
    let checked = compiled(alloc, SUM)?;
    let mut session = Session::begin(&checked, Runner::new(alloc, &checked)?);
    same(&rt, session.line(alloc, b"5")?, Reply::Answered);
    same(&rt, session.follower().stored(), 6);
    same(&rt, session.line(alloc, b"7")?, Reply::Answered);
    same(&rt, session.follower().stored(), 6);
    same(&rt, session.line(alloc, b"-2")?, Reply::Answered);
    same(&rt, session.follower().stored(), 6);
    Ok(())
}
