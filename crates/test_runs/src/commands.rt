// The commands that write one line. They read no item: the source of the items fails at once.
use crate::fixtures::{Given, SUM, gives, sum_over};
use std::test::Fail;
use stream_run::Status;

const HEADED: &[u8] = b"stream(header, col(a, int))\nmain(iter(atom(any, a), 0, add(x, y)))\n";

const NONE: &[u8] = b"stream(plain, col(a, int))\nmain(atom(gt(a, 1000), a))\n";

const WORDS: &[(&str, Status)] = &[
    ("run q -", Status::QueryFault),
    ("slow q -", Status::QueryFault),
    ("check q", Status::QueryFault),
    ("bound q", Status::QueryFault),
    ("why q", Status::QueryFault),
    ("drill q 0000002 00000000000000000007", Status::QueryFault),
    ("drill q 1000000 18446744073709551615", Status::QueryFault),
    ("drill q 1000001 0", Status::Usage),
    ("drill q 00000002 0", Status::Usage),
    ("drill q 2 18446744073709551616", Status::Usage),
    ("drill q 2 000000000000000000007", Status::Usage),
    ("drill q +2 0", Status::Usage),
    ("drill q 2 -1", Status::Usage),
    ("drill q  0", Status::Usage),
    ("drill q 2", Status::Usage),
    ("slow q", Status::Usage),
    ("slow q - x", Status::Usage),
    ("checks q", Status::Usage),
    ("run q", Status::Usage),
    ("bound q -", Status::Usage),
    ("why q -", Status::Usage),
];

// If the words ask for a command, the query is read, and that fails.
#[test]
fn words_ask_for_a_command(rt: HostRuntime) -> Result<(), Fail> {
    for &(words, wanted) in WORDS {
        let given = Given {
            words,
            query_fails: &[1],
            ..sum_over(b"5\n")
        };
        gives(&rt, rt.alloc(), given, wanted, b"")?;
    }
    Ok(())
}

// The words, the query, the status, and what is written.
const LINES: &[(&str, &[u8], Status, &[u8])] = &[
    ("check q", SUM, Status::Done, b"ok\n"),
    ("bound q", SUM, Status::Done, b"places 1 slots 6\n"),
    (
        "drill q 2 0",
        SUM,
        Status::Done,
        b"items 2 defined 2 last 309\n",
    ),
    (
        "drill q 2 0",
        HEADED,
        Status::Done,
        b"items 2 defined 2 last 309\n",
    ),
    (
        "drill q 0 0",
        SUM,
        Status::Done,
        b"items 0 defined 0 last none\n",
    ),
    (
        "drill q 0 0",
        HEADED,
        Status::Done,
        b"items 0 defined 0 last none\n",
    ),
    (
        "drill q 2 0",
        NONE,
        Status::Done,
        b"items 2 defined 0 last undefined\n",
    ),
    ("check q", b"", Status::Refused, b"refused form 0..0\n"),
    ("bound q", b"", Status::Refused, b"refused form 0..0\n"),
    ("drill q 2 0", b"", Status::Refused, b"refused form 0..0\n"),
    // The sum by a plain loop over the numbers that the seed 1 draws.
    (
        "drill q 200 1",
        SUM,
        Status::Done,
        b"items 200 defined 200 last 5883\n",
    ),
    // The same for the seeds 7 and 2^64-1.
    (
        "drill q 0000002 00000000000000000007",
        SUM,
        Status::Done,
        b"items 2 defined 2 last 1147\n",
    ),
    (
        "drill q 2 18446744073709551615",
        SUM,
        Status::Done,
        b"items 2 defined 2 last 312\n",
    ),
    (
        "drill q 1000000 0",
        SUM,
        Status::Done,
        b"items 1000000 defined 1000000 last 241852\n",
    ),
];

#[test]
fn each_command_writes_its_line(rt: HostRuntime) -> Result<(), Fail> {
    for &(words, query, wanted, written) in LINES {
        let given = Given {
            words,
            query,
            item_fails: &[1],
            ..sum_over(b"5\n")
        };
        gives(&rt, rt.alloc(), given, wanted, written)?;
    }
    Ok(())
}

// Where there is room for only one byte, the source of the query may fail before.
#[test]
fn a_fault_ends_a_command(rt: HostRuntime) -> Result<(), Fail> {
    let table: [(&str, &[u64], Status, &[u8]); 6] = [
        ("check q", &[], Status::SinkFault, b"o"),
        ("check q", &[1], Status::QueryFault, b""),
        ("bound q", &[], Status::SinkFault, b"p"),
        ("bound q", &[1], Status::QueryFault, b""),
        ("drill q 2 0", &[], Status::SinkFault, b"i"),
        ("drill q 2 0", &[1], Status::QueryFault, b""),
    ];
    for (words, query_fails, wanted, written) in table {
        let given = Given {
            words,
            room: 1,
            query_fails,
            ..sum_over(b"5\n")
        };
        gives(&rt, rt.alloc(), given, wanted, written)?;
    }
    Ok(())
}
