// The keys and followers after each call, with ample memory. A follower is a number here.
use crate::assertions::same;
use map_collect::Keys;
use std::alloc::{AllocError, Global};
use std::process::Abort;
use std::test::Fail;

// Adds ten to the follower of the key. A new one begins as the default follower.
fn push(keys: &mut Keys<u64>, key: &[u8]) -> Result<(), AllocError> {
    if keys.place(key).is_none() {
        let fresh = *keys.fallback();
        keys.add(key, fresh)?;
    }
    let place = keys.place(key).unwrap_or(0);
    if place < keys.len() {
        let follower = keys.follower_mut(place);
        *follower = follower.saturating_add(10);
    }
    Ok(())
}

// The keys b, a and the empty one, of which a came twice, and then c, whose follower began as 100.
fn push_each(keys: &mut Keys<u64>) -> Result<(), AllocError> {
    push(keys, b"b")?;
    push(keys, b"a")?;
    push(keys, b"")?;
    push(keys, b"a")?;
    *keys.fallback_mut() = 100;
    push(keys, b"c")
}

fn four(alloc: Global) -> Result<Keys<u64>, AllocError> {
    let mut keys = Keys::new(alloc, 1);
    push_each(&mut keys)?;
    Ok(keys)
}

// The keys in their order, each with its follower.
fn same_keys(rt: &impl Abort, keys: &Keys<u64>, wanted: &[(&[u8], u64)]) {
    same(rt, keys.len(), wanted.len());
    for i in 0..keys.len() {
        let found = (keys.key(i), *keys.follower(i));
        same(rt, Some(found), wanted.get(i).copied());
    }
}

#[test]
fn keys_stand_in_the_order_in_which_they_came_first(rt: HostRuntime) -> Result<(), Fail> {
    let keys = four(rt.alloc())?;
    let wanted: [(&[u8], u64); 4] = [(b"b", 11), (b"a", 21), (b"", 11), (b"c", 110)];
    same_keys(&rt, &keys, &wanted);
    same(&rt, (keys.place(b""), keys.place(b"ab")), (Some(2), None));
    Ok(())
}
