// Copies of queries. The program cases_rates goes through the rates of queries of every shape.
ghost use Rattle.std.specs.Prelude.{◌<◌};

use crate::assertions::same;
use expressions::{Expr, Var};
use predicates::Pred;
use query_model::{
    Query, Shape, Span, a_word_has_at_most_one_value, each_word_has_a_value_or_none,
    queries_have_values_on_their_rates, values_have_the_types_of_their_queries,
};
use std::alloc::{AllocError, Global};
use std::process::Abort;
use std::test::Fail;

fn query(alloc: Global, shape: Shape, from: u32) -> Result<Box<Query>, AllocError>
    requires { from < 100 }
{
    let span = Span { from, to: from + 1 };
    Ok(Box::new(alloc, Query { shape, span })?)
}

// The last number, from 0 on.
fn last(alloc: Global) -> Result<Box<Query>, AllocError> {
    let item = query(alloc, Shape::Atom(Pred::Any, Expr::Read(Var::Field(1))), 37)?;
    query(alloc, Shape::Iter(item, 0, Expr::Read(Var::Right)), 32)
}

fn copied(alloc: Global, query: &Query) -> Result<Box<Query>, AllocError> {
    let copy = query.try_copy(alloc)?;
    Ok(Box::new(alloc, copy)?)
}

fn has_places(rt: &impl Abort, query: &Query) {
    same(rt, query.span.from, 32);
    let Shape::Iter(item, first, _) = &query.shape else {
        panic!(rt; "no iteration");
    };
    same(rt, (item.span.from, *first), (37, 0));
}

fn call_laws() {
    a_word_has_at_most_one_value();
    each_word_has_a_value_or_none();
    queries_have_values_on_their_rates();
    values_have_the_types_of_their_queries();
}

#[test]
fn a_copy_has_the_places_of_the_query(rt: HostRuntime) -> Result<(), Fail> {
    let query = last(rt.alloc())?;
    let copy = copied(rt.alloc(), &query)?;
    has_places(&rt, &copy);
    call_laws();
    Ok(())
}
