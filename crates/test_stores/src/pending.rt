// The list of entries after each call, empty, full and between, with ample memory.
use crate::assertions::same;
use split_eval::{Entry, Pending};
use std::alloc::{AllocError, Global};
use std::process::Abort;
use std::test::Fail;

// Puts the entry if there is room and no other has its inner start, as an engine does.
fn put_new(pending: &mut Pending<u64>, inner: u64, outer: u64, value: u64) {
    if pending.find(inner).is_none() && pending.len() < pending.room() as usize {
        pending.put(inner, outer, value);
    }
}

// Three entries, with room for three.
fn full(alloc: Global) -> Result<Pending<u64>, AllocError> {
    let mut pending = Pending::new(alloc, 3)?;
    put_new(&mut pending, 10, 1, 100);
    put_new(&mut pending, 20, 2, 200);
    put_new(&mut pending, 30, 3, 300);
    put_new(&mut pending, 40, 4, 400);
    Ok(pending)
}

// The outer start and the value of an entry that is there.
pub fn parts_of(entry: Option<&Entry<u64>>) -> Option<(u64, u64)> {
    match entry {
        Some(entry) => Some((entry.outer, entry.value)),
        None => None,
    }
}

fn same_starts(rt: &impl Abort, pending: &Pending<u64>, wanted: &[u64]) {
    same(rt, pending.len(), wanted.len());
    for i in 0..pending.len() {
        same(rt, Some(pending.entry(i).inner), wanted.get(i).copied());
    }
}

#[test]
fn entries_are_found_taken_and_kept_in_their_order(rt: HostRuntime) -> Result<(), Fail> {
    let mut pending = full(rt.alloc())?;
    same_starts(&rt, &pending, &[10, 20, 30]);
    same(&rt, parts_of(pending.find(20)), Some((2, 200)));
    same(&rt, parts_of(pending.find(2)), None);
    let taken = pending.take(10);
    same(&rt, parts_of(taken.as_ref()), Some((1, 100)));
    same(&rt, pending.take(10).is_none(), true);
    same_starts(&rt, &pending, &[20, 30]);
    pending.keep(|start| start != 20);
    same_starts(&rt, &pending, &[30]);
    pending.clear();
    put_new(&mut pending, 50, 5, 500);
    put_new(&mut pending, 40, 4, 400);
    same_starts(&rt, &pending, &[50, 40]);
    Ok(())
}
