// What an iteration does with its values so far, with ample memory.
use crate::assertions::same;
use crate::pending::parts_of;
use iter_eval::Chain;
use split_eval::Pending;
use std::process::Abort;
use std::test::Fail;

// Puts the value if there is room and no other has its inner start, as an engine does.
fn put_new(chain: &mut Chain<u64>, inner: u64, outer: u64, value: u64) {
    if chain.find(inner).is_none() && chain.len() < chain.room() as usize {
        chain.put(inner, outer, value);
    }
}

// A piece from `inner` up to `now` adds its value to the value so far.
fn continue_chain(chain: &mut Chain<u64>, inner: u64, now: u64, value: u64) {
    if let Some((outer, so_far)) = parts_of(chain.find(inner)) {
        put_new(chain, now, outer, so_far.saturating_add(value));
    }
}

fn same_starts(rt: &impl Abort, chain: &Chain<u64>, wanted: &[u64]) {
    same(rt, chain.len(), wanted.len());
    for i in 0..chain.len() {
        same(rt, Some(chain.entry(i).inner), wanted.get(i).copied());
    }
}

#[test]
fn a_sum_continues_piece_by_piece(rt: HostRuntime) -> Result<(), Fail> {
    let mut chain = Chain::new(rt.alloc(), 3)?;
    put_new(&mut chain, 0, 0, 0);
    continue_chain(&mut chain, 0, 1, 5);
    continue_chain(&mut chain, 0, 2, 30);
    continue_chain(&mut chain, 0, 3, 40);
    same_starts(&rt, &chain, &[0, 1, 2]);
    chain.keep(|start| start != 0);
    continue_chain(&mut chain, 1, 3, 7);
    same_starts(&rt, &chain, &[1, 2, 3]);
    let sum = chain.take(3);
    same(&rt, parts_of(sum.as_ref()), Some((0, 12)));
    same_starts(&rt, &chain, &[1, 2]);
    chain.clear();
    same(&rt, (chain.len(), chain.room()), (0, 3));
    Ok(())
}

#[test]
fn left_values_are_values_so_far(rt: HostRuntime) -> Result<(), Fail> {
    let mut left = Pending::new(rt.alloc(), 2)?;
    left.put(10, 1, 100);
    let chain = Chain::from_pending(left);
    same(&rt, parts_of(chain.as_pending().find(10)), Some((1, 100)));
    Ok(())
}
