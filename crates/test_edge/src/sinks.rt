// What sinks take of the bytes that are written to them.
use crate::assertions::{same, same_at};
use io_edge::{Failed, MemorySink, Sink, SteadySink, WriterSink, write_all};
use std::io;
use std::test::Fail;

#[test]
fn writes_are_cut_by_their_numbers(rt: HostRuntime) -> Result<(), Fail> {
    let mut sink = MemorySink::with_cuts(rt.alloc(), 7, &[2, 0, 1, 9], &[3])?;
    for want in [Ok(2), Ok(1), Err(Failed), Ok(3), Ok(1)] {
        same(&rt, sink.write(b""), Ok(0));
        same(&rt, sink.write(b"abc"), want);
    }
    same(&rt, sink.bytes(), b"abaabca".as_slice());
    Ok(())
}

// The room, which writes fail, the result of writing all bytes, and what was then taken.
const WRITES: &[(usize, &[u64], Result<(), Failed>, &[u8])] = &[
    (5, &[], Ok(()), b"12\n34"),
    (9, &[2], Ok(()), b"12\n34"),
    (3, &[2], Err(Failed), b"12\n"),
    (9, &[1], Err(Failed), b""),
];

#[test]
fn all_is_written_or_a_part_from_the_front(rt: HostRuntime) -> Result<(), Fail> {
    for &(room, fail_at, want, taken) in WRITES {
        let mut out = MemorySink::new(rt.alloc(), room, fail_at)?;
        same(&rt, write_all(&mut out, b"12\n34"), want);
        same_at(&rt, room, out.bytes(), taken);
    }
    Ok(())
}

#[test]
fn a_steady_sink_counts_bytes(rt: HostRuntime) {
    let mut sink = SteadySink::new();
    same(&rt, sink.count(), 0);
    same(&rt, sink.write(b""), Ok(0));
    same(&rt, sink.write(b"12\n34"), Ok(5));
    same(&rt, sink.flush(), Ok(()));
    same(&rt, sink.count(), 5);
}

#[test]
fn standard_output_takes_bytes(rt: HostRuntime) -> Result<(), Fail> {
    let mut out = WriterSink::new(io::writer(&rt), rt.alloc())?;
    same(&rt, out.write(b""), Ok(0));
    same(&rt, write_all(&mut out, b"some bytes\n"), Ok(()));
    same(&rt, out.flush(), Ok(()));
    Ok(())
}
