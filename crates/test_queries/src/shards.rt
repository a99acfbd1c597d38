// What no clause says: that with ample memory a collect has the query of a shard and a mask. And the
// homes of two keys, which no later release may give another.
use crate::assertions::same;
use crate::compilation::compiled;
use key_routes::shard_of_key;
use key_shards::{mask_of, part_of};
use predicates::Pred;
use query_model::{Query, Shape};
use rate_expr::Rate;
use std::test::Fail;

const BY_KEY: &[u8] = b"stream(plain, col(k, text), col(a, int))\n\
    let(sum, iter(atom(any, a), 0, add(x, y)))\n\
    main(collect(k, lt(a, 0), star(item(ge(a, -1))), sum))\n";

const KEY: &[u8] = b"foobar";

const NO_BYTES: &[u8] = b"";

const SUM: &[u8] = b"stream(plain, col(a, int))\nmain(iter(atom(any, a), 0, add(x, y)))\n";

fn is_on_all_words(query: &Query) -> bool {
    match &query.shape {
        Shape::Collect(_, Pred::Lt(..), Rate::Star(every), _) => {
            matches!(&**every, Rate::One(Pred::Any))
        }
        _ => false,
    }
}

fn is_without_keys(query: &Query) -> bool {
    match &query.shape {
        Shape::Collect(_, Pred::Any, Rate::Star(_), body) => matches!(body.shape, Shape::Eps(0)),
        _ => false,
    }
}

#[test]
fn a_collect_has_a_shard_and_a_mask(rt: HostRuntime) -> Result<(), Fail> {
    let alloc = rt.alloc();
    let checked = compiled(alloc, BY_KEY)?;
    let part = part_of(&checked, alloc)?;
    let is_part = part.as_ref().map(|made| is_on_all_words(made.main()));
    same(&rt, is_part, Some(true));
    let mask = mask_of(&checked, alloc)?;
    let is_mask = mask.as_ref().map(|made| is_without_keys(made.main()));
    same(&rt, is_mask, Some(true));
    Ok(())
}

#[test]
fn another_query_has_neither(rt: HostRuntime) -> Result<(), Fail> {
    let alloc = rt.alloc();
    let checked = compiled(alloc, SUM)?;
    same(&rt, part_of(&checked, alloc)?.is_none(), true);
    same(&rt, mask_of(&checked, alloc)?.is_none(), true);
    Ok(())
}

#[test]
fn keys_have_homes(rt: HostRuntime) -> Result<(), Fail> {
    same(&rt, shard_of_key(KEY, 1000), 233);
    same(&rt, shard_of_key(NO_BYTES, 1000), 641);
    Ok(())
}
