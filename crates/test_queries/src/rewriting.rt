// What no clause says: that a query is rewritten and written at all, with ample memory.
use crate::assertions::same;
use crate::compilation::compiled;
use query_rewrite::rewrite;
use query_text::text_of;
use std::alloc::Global;
use std::process::Abort;
use std::test::Fail;

const APPLIED: &[u8] = b"stream(plain, col(a, int))\n\
    let(sum, iter(atom(any, a), 0, add(x, y)))\n\
    main(apply(apply(sum, add(x, 2)), mul(x, add(1, 2))))\n";

const APPLIED_ONCE: &[u8] = b"stream(plain, col(a, int))\n\
    let(q1, atom(any, a))\n\
    let(q2, iter(q1, 0, add(x, y)))\n\
    let(q3, apply(q2, mul(add(x, 2), 3)))\n\
    main(q3)\n";

const FED: &[u8] = b"stream(plain, col(a, int))\n\
    let(sum, iter(atom(any, a), 0, add(x, y)))\n\
    main(compose(sum, compose(atom(any, value), atom(any, value))))\n";

const FED_FROM_THE_LEFT: &[u8] = b"stream(plain, col(a, int))\n\
    let(q1, atom(any, a))\n\
    let(q2, iter(q1, 0, add(x, y)))\n\
    let(q3, atom(any, value))\n\
    let(q4, compose(q2, q3))\n\
    let(q5, compose(q4, q3))\n\
    main(q5)\n";

// The middle query has a value on no items.
const FED_NOTHING: &[u8] = b"stream(plain, col(a, int))\n\
    let(q1, atom(any, a))\n\
    let(q2, iter(q1, 0, add(x, y)))\n\
    let(q3, atom(any, value))\n\
    let(q4, iter(q3, 0, add(x, y)))\n\
    let(q5, compose(q4, q4))\n\
    let(q6, compose(q2, q5))\n\
    main(q6)\n";

/// What the text is rewritten as is written as wanted.
fn is_rewritten_as(rt: &impl Abort, alloc: Global, text: &[u8], wanted: &[u8]) -> Result<(), Fail> {
    let checked = compiled(alloc, text)?;
    let made = Box::new(alloc, rewrite(&checked, alloc)?)?;
    let text = text_of(&made, alloc)?;
    same(rt, text.as_slice(), wanted);
    Ok(())
}

#[test]
fn a_rewritten_query_is_written(rt: HostRuntime) -> Result<(), Fail> {
    let alloc = rt.alloc();
    is_rewritten_as(&rt, alloc, APPLIED, APPLIED_ONCE)?;
    is_rewritten_as(&rt, alloc, FED, FED_FROM_THE_LEFT)?;
    is_rewritten_as(&rt, alloc, FED_NOTHING, FED_NOTHING)?;
    Ok(())
}
