// The first bytes of a source.
use crate::assertions::{same, same_at};
use crate::resumed_source::ResumedSource;
use io_edge::{MemorySource, TakeStop, read_to_limit};
use std::alloc::Global;
use std::test::Fail;

// The first bytes of a source that gives `cut` bytes at a read.
fn first_bytes(alloc: Global, cut: usize, limit: usize) -> Result<Vec<u8>, Fail> {
    let mut source = MemorySource::new(alloc, b"12345", &[cut; 9], &[])?;
    let bytes = read_to_limit(alloc, &mut source, limit).ok();
    Ok(bytes.ok_or("no bytes")?)
}

const FIRST: &[(usize, &[u8])] = &[
    (0, b""),
    (3, b"123"),
    (4, b"1234"),
    (5, b"12345"),
    (6, b"12345"),
];

#[test]
fn the_first_bytes_are_read_up_to_the_limit(rt: HostRuntime) -> Result<(), Fail> {
    for &(limit, taken) in FIRST {
        for cut in 1..7 {
            let bytes = first_bytes(rt.alloc(), cut, limit)?;
            same_at(&rt, (limit, cut), bytes.as_slice(), taken);
        }
    }
    Ok(())
}

#[test]
fn a_failed_read_is_reported(rt: HostRuntime) -> Result<(), Fail> {
    for fail_at in 1..4 {
        let mut source = MemorySource::new(rt.alloc(), b"12345", &[3], &[fail_at])?;
        let read = read_to_limit(rt.alloc(), &mut source, 6);
        assert!(rt; read == Err(TakeStop::Failed), "at read {fail_at}");
    }
    Ok(())
}

#[test]
fn the_first_end_is_the_end(rt: HostRuntime) -> Result<(), Fail> {
    let mut source = ResumedSource::new(rt.alloc(), b"12", b"345")?;
    let bytes = read_to_limit(rt.alloc(), &mut source, 9)
        .ok()
        .ok_or("no bytes")?;
    same(&rt, bytes.as_slice(), b"12".as_slice());
    same(&rt, source.ends, 1);
    Ok(())
}
