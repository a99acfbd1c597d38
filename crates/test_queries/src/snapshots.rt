// What no clause says: that a snapshot is read, and which flaw bytes have.
use crate::assertions::same;
use runner_snapshot::{Flaw, SnapStop, read_saved};
use std::alloc::{AllocError, Global};
use std::process::Abort;
use std::test::Fail;

const TEXT: &[u8] = b"stream(plain, col(a, int))\nmain(iter(atom(any, a), 0, add(x, y)))\n";

// What comes before the text: the head, and how many bytes the text has.
const BEFORE: &[u8] = b"SQRE0001\x00\x00\x00\x42";

// What comes after it: that lines were taken, three items, the answer 10; an iter over an atom that
// has the start 3, with the value 10 from 0 to 3.
const AFTER: &[u8] = b"\x01\x00\x00\x00\x00\x00\x00\x00\x03\
    \x00\x00\x00\x00\x00\x00\x00\x00\x0A\
    \x05\x01\x01\x00\x00\x00\x00\x00\x00\x00\x03\
    \x00\x00\x00\x01\
    \x00\x00\x00\x00\x00\x00\x00\x03\
    \x00\x00\x00\x00\x00\x00\x00\x00\
    \x00\x00\x00\x00\x00\x00\x00\x00\x0A";

fn joined(alloc: Global, before: &[u8], after: &[u8]) -> Result<Vec<u8>, AllocError> {
    let mut bytes = Vec::from_slice(alloc, before)?;
    bytes.extend_from_slice(TEXT)?;
    bytes.extend_from_slice(after)?;
    Ok(bytes)
}

fn has_flaw(
    rt: &impl Abort,
    alloc: Global,
    before: &[u8],
    after: &[u8],
    wanted: Flaw,
) -> Result<(), AllocError> {
    let bytes = joined(alloc, before, after)?;
    let found = read_saved(alloc, bytes.as_slice()).err();
    same(rt, found, Some(SnapStop::Bad(wanted)));
    Ok(())
}

#[test]
fn a_snapshot_is_read(rt: HostRuntime) -> Result<(), Fail> {
    let alloc = rt.alloc();
    let bytes = joined(alloc, BEFORE, AFTER)?;
    same(&rt, bytes.len(), 136);
    let saved = Box::new(alloc, read_saved(alloc, bytes.as_slice())?)?;
    same(&rt, saved.text(), TEXT);
    same(&rt, saved.began(), true);
    same(&rt, saved.dump().position, 3);
    Ok(())
}

#[test]
fn other_bytes_have_a_flaw(rt: HostRuntime) -> Result<(), Fail> {
    let alloc = rt.alloc();
    has_flaw(&rt, alloc, b"SQRE0002\x00\x00\x00\x42", AFTER, Flaw::Head)?;
    has_flaw(&rt, alloc, BEFORE, &AFTER[1..], Flaw::Form)?;
    has_flaw(&rt, alloc, BEFORE, b"", Flaw::Form)?;
    Ok(())
}
