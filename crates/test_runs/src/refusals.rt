// A refusal that is explained, and faults while it is. The program `explain` shows how each looks.
use crate::assertions::same;
use explain_run::{Status, explain};
use io_edge::{MemorySink, MemorySource};
use std::alloc::{AllocError, Global};
use std::test::Fail;

const ACCEPTED: &[u8] = b"stream(plain, col(a, int))\nmain(iter(atom(any, a), 0, add(x, y)))\n";

const REFUSED: &[u8] = b"stream(plain, col(a, int))\nmain(atom(gt(a, 37.5), 1))\n";

const EXPLAINED: &[u8] = b"q:2:19 (the column in bytes): refused token 45..46
    main(atom(gt(a, 37.5), 1))
                      ^
No token begins at this byte, or the string that begins here is not well formed.
Write words, whole numbers, strings between double quotes, round brackets and commas.
A number has no point: in the smallest unit of a fixed(1) column, 37.5 is 375.
";

// The status and the bytes that were written, where the first read or the first write may fail.
fn outcome(
    alloc: Global,
    text: &[u8],
    reads_fail: &[u64],
    writes_fail: &[u64],
) -> Result<(Status, Vec<u8>), AllocError> {
    let mut query = MemorySource::new(alloc, text, &[], reads_fail)?;
    let mut out = MemorySink::new(alloc, 1_000, writes_fail)?;
    let status = explain(alloc, "q", &mut query, &mut out);
    Ok((status, Vec::from_slice(alloc, out.bytes())?))
}

#[test]
fn a_refusal_is_explained(rt: HostRuntime) -> Result<(), Fail> {
    let table: [(&[u8], &[u64], &[u64], Status, &[u8]); 4] = [
        (ACCEPTED, &[], &[1], Status::Accepted, b""),
        (REFUSED, &[], &[], Status::Explained, EXPLAINED),
        (REFUSED, &[1], &[], Status::QueryFault, b""),
        (REFUSED, &[], &[1], Status::SinkFault, b""),
    ];
    for (text, reads_fail, writes_fail, wanted, written) in table {
        let (status, bytes) = outcome(rt.alloc(), text, reads_fail, writes_fail)?;
        same(&rt, status, wanted);
        same(&rt, bytes.as_slice(), written);
    }
    Ok(())
}
