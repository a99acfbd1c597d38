// A read or a write fails, at each place where it may. What is written are the answers to the whole
// lines before it, or the bytes that the sink took. All reads are of one byte.
use crate::assertions::same;
use crate::fixtures::{Given, READS, SUM, gives, run_of, sum_over};
use std::test::Fail;
use stream_run::Status;

const BY_KEY: &[u8] = br#"stream(plain, col(k, text), col(a, int))
main(collect(k, eq(k, "tick"), seq(star(item(any)), item(eq(k, "tick"))), iter(atom(any, a), 0, add(x, y))))
"#;

#[test]
fn each_read_of_the_items_fails(rt: HostRuntime) -> Result<(), Fail> {
    let table: [(u64, &[u8]); 8] = [
        (1, b""),
        (2, b""),
        (3, b"5\n"),
        (4, b"5\n"),
        (5, b"5\n12\n"),
        (6, b"5\n12\n"),
        (7, b"5\n12\n"),
        (8, b"5\n12\n10\n"),
    ];
    for (number, written) in table {
        let given = Given {
            item_fails: &[number],
            cut: 1,
            ..sum_over(b"5\n7\n-2\n")
        };
        gives(&rt, rt.alloc(), given, Status::ItemFault, written)?;
    }
    Ok(())
}

// The query has 66 bytes, and one more read finds its end.
#[test]
fn each_read_of_the_query_fails(rt: HostRuntime) -> Result<(), Fail> {
    for number in 1..68 {
        let given = Given {
            query_fails: &[number],
            cut: 1,
            ..sum_over(b"5\n7\n-2\n")
        };
        gives(&rt, rt.alloc(), given, Status::QueryFault, b"")?;
    }
    same(&rt, SUM.len(), 66);
    Ok(())
}

#[test]
fn each_write_fails(rt: HostRuntime) -> Result<(), Fail> {
    let table: [(u64, &[u8]); 5] = [
        (1, b""),
        (2, b"undefined\n"),
        (3, b"undefined\nundefined\n"),
        (4, b"undefined\nundefined\n{\"A\":1,\"B\":2}\n"),
        (5, b"undefined\nundefined\n{\"A\":1,\"B\":2}\nundefined\n"),
    ];
    for (number, written) in table {
        let given = Given {
            writes_fail: &[number],
            cut: 1,
            ..run_of(BY_KEY, b"A,1\nB,2\ntick,0\nA,5\ntick,0\n")
        };
        gives(&rt, rt.alloc(), given, Status::SinkFault, written)?;
    }
    Ok(())
}

#[test]
fn a_line_is_cut_where_its_second_write_fails(rt: HostRuntime) -> Result<(), Fail> {
    let given = Given {
        write_cuts: &[1],
        writes_fail: &[2],
        ..sum_over(b"5\n7\n-2\n")
    };
    gives(&rt, rt.alloc(), given, Status::SinkFault, b"5")?;
    Ok(())
}

// Writes in pieces of one byte make no difference, however many there are.
#[test]
fn the_cuts_of_the_writes_change_nothing(rt: HostRuntime) -> Result<(), Fail> {
    let given = Given {
        write_cuts: &[1; READS],
        cut: 1,
        ..run_of(BY_KEY, b"A,1\nB,2\ntick,0\nA,5\ntick,0\n")
    };
    let written = b"undefined\nundefined\n{\"A\":1,\"B\":2}\nundefined\n{\"A\":6,\"B\":2}\n";
    gives(&rt, rt.alloc(), given, Status::Done, written)?;
    Ok(())
}
