// What no clause says: that runs come to an end, and the very bytes that they write. The program
// `cases_queries` shows more lines, queries and refusals.
use crate::assertions::same;
use crate::fixtures::{Given, SUM, gives, run_of, sum_over, words_of};
use io_edge::{MemorySource, SteadySource};
use sqre_run::run_into_room;
use std::alloc::{AllocError, Global};
use std::test::Fail;
use stream_run::Status;

const PRICES: &[u8] = b"stream(header, col(sym, text), col(price, fixed(2)))
main(iter(atom(any, price), 0, add(x, y)))
";

// The words, the query, which reads of it fail, the status, and what is written.
const NOT_BEGUN: &[(&str, &[u8], &[u64], Status, &[u8])] = &[
    ("run q", SUM, &[1], Status::Usage, b""),
    ("run q - x", SUM, &[1], Status::Usage, b""),
    ("check q -", SUM, &[1], Status::Usage, b""),
    ("slow q", SUM, &[1], Status::Usage, b""),
    ("run q -", SUM, &[1], Status::QueryFault, b""),
    ("run q -", b"", &[], Status::Refused, b"refused form 0..0\n"),
    ("slow q -", SUM, &[1], Status::QueryFault, b""),
    (
        "slow q -",
        b"",
        &[],
        Status::Refused,
        b"refused form 0..0\n",
    ),
];

// If it is read at all, the source fails at once.
#[test]
fn a_run_that_is_not_begun_reads_nothing(rt: HostRuntime) -> Result<(), Fail> {
    for &(words, query, query_fails, wanted, written) in NOT_BEGUN {
        let given = Given {
            words,
            query,
            query_fails,
            item_fails: &[1],
            ..sum_over(b"5\n7\n")
        };
        gives(&rt, rt.alloc(), given, wanted, written)?;
    }
    Ok(())
}

#[test]
fn a_fault_ends_the_run_after_the_last_answer(rt: HostRuntime) -> Result<(), Fail> {
    let table: [(&[u64], usize, &[u64], Status, &[u8]); 5] = [
        (&[2], 4_096, &[], Status::ItemFault, b"5\n"),
        (&[], 4_096, &[2], Status::SinkFault, b"5\n"),
        (&[], 1, &[], Status::SinkFault, b"5"),
        (&[2], 4_096, &[1], Status::SinkFault, b""),
        (&[2], 1, &[], Status::SinkFault, b"5"),
    ];
    for (item_fails, room, writes_fail, wanted, written) in table {
        let given = Given {
            item_fails,
            room,
            writes_fail,
            ..sum_over(b"5\n7")
        };
        gives(&rt, rt.alloc(), given, wanted, written)?;
    }
    Ok(())
}

// The run of the sum over these items into little room, where the second read fails.
fn sum_into_room<const ROOM: usize>(alloc: Global, items: &[u8]) -> Result<Status, AllocError> {
    let words = words_of(alloc, "run q -")?;
    let mut query = SteadySource::new(alloc, SUM)?;
    let mut items = MemorySource::new(alloc, items, &[], &[2])?;
    Ok(run_into_room::<ROOM, SteadySource, MemorySource>(alloc, &words, &mut query, &mut items))
}

#[test]
fn a_read_waits_until_the_lines_before_it_are_answered(rt: HostRuntime) -> Result<(), Fail> {
    same(
        &rt,
        sum_into_room::<2>(rt.alloc(), b"5\n7")?,
        Status::ItemFault,
    );
    same(
        &rt,
        sum_into_room::<1>(rt.alloc(), b"5\n7")?,
        Status::SinkFault,
    );
    same(
        &rt,
        sum_into_room::<0>(rt.alloc(), b"5")?,
        Status::ItemFault,
    );
    Ok(())
}

#[test]
fn long_lines_are_skipped_or_the_header(rt: HostRuntime) -> Result<(), Fail> {
    let mut items = vec![in rt.alloc(); b'0'; 65_535]?;
    items.extend_from_slice(b"5\n")?;
    items.extend_from_slice(&[b'0'; 65_537])?;
    items.extend_from_slice(b"\n7\n")?;
    let written = b"5\nskipped long 0\n12\n";
    gives(&rt, rt.alloc(), sum_over(&items), Status::Done, written)?;
    let mut items = vec![in rt.alloc(); b'0'; 65_537]?;
    items.extend_from_slice(b"\nA,0.07\n")?;
    gives(
        &rt,
        rt.alloc(),
        run_of(PRICES, &items),
        Status::Done,
        b"7\n",
    )?;
    Ok(())
}
