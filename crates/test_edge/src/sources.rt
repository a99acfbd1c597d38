// What sources in memory give at each read.
use crate::assertions::same;
use io_edge::{Failed, MemorySource, Source, SteadySource};
use std::process::Abort;
use std::test::Fail;

// How many bytes reads give at most, which reads fail, and the results of four reads.
const READS: &[(&[usize], &[u64], [Result<usize, Failed>; 4])] = &[
    (&[], &[], [Ok(4), Ok(3), Ok(0), Ok(0)]),
    (&[3, 0], &[], [Ok(3), Ok(1), Ok(3), Ok(0)]),
    (&[9, 2], &[], [Ok(4), Ok(2), Ok(1), Ok(0)]),
    (&[1, 2, 3], &[2], [Ok(1), Err(Failed), Ok(3), Ok(3)]),
    (&[], &[1, 4], [Err(Failed), Ok(4), Ok(3), Err(Failed)]),
];

fn read_as(rt: &impl Abort, source: &mut MemorySource, wanted: &[Result<usize, Failed>]) {
    for want in wanted {
        same(rt, source.read(&mut []), Ok(0));
        same(rt, source.read(&mut [0; 4]), *want);
    }
}

#[test]
fn reads_are_cut_and_fail_by_their_numbers(rt: HostRuntime) -> Result<(), Fail> {
    for (cuts, fail_at, wanted) in READS {
        let mut source = MemorySource::new(rt.alloc(), b"1\n23\n45", cuts, fail_at)?;
        read_as(&rt, &mut source, wanted.as_slice());
    }
    Ok(())
}

#[test]
fn steady_reads_fill_their_room_until_the_end(rt: HostRuntime) -> Result<(), Fail> {
    let mut source = SteadySource::new(rt.alloc(), b"12345")?;
    let mut buf = [0; 3];
    for (want, filled) in [(3, b"123"), (2, b"453"), (0, b"453"), (0, b"453")] {
        same(&rt, source.read(&mut []), Ok(0));
        same(&rt, source.read(&mut buf), Ok(want));
        same(&rt, buf.as_slice(), filled.as_slice());
    }
    Ok(())
}
