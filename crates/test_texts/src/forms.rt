// What no clause says: that the table of calls holds what users write. The program `cases_queries`
// shows the words, numbers and strings of each place.
use crate::assertions::same;
use query_forms::TermPlace::*;
use query_forms::{TermPlace, places_of};

// The calls of the language with one number of arguments, as its definition lists them.
const CALLS: &[(TermPlace, &[u8], &[TermPlace])] = &[
    (Column, b"col", &[Name, Kind]),
    (Kind, b"fixed", &[Digits]),
    (Query, b"atom", &[Pred, Expr]),
    (Query, b"eps", &[Number]),
    (Query, b"or", &[Query, Query]),
    (Query, b"split", &[Query, Query, Expr]),
    (Query, b"iter", &[Query, Number, Expr]),
    (Query, b"combine", &[Query, Query, Expr]),
    (Query, b"apply", &[Query, Expr]),
    (Query, b"compose", &[Query, Query]),
    (Query, b"collect", &[Key, Pred, Rate, Query]),
    (Rate, b"item", &[Pred]),
    (Rate, b"seq", &[Rate, Rate]),
    (Rate, b"alt", &[Rate, Rate]),
    (Rate, b"star", &[Rate]),
    (Pred, b"eq", &[Name, Literal]),
    (Pred, b"ne", &[Name, Literal]),
    (Pred, b"lt", &[Name, Number]),
    (Pred, b"le", &[Name, Number]),
    (Pred, b"gt", &[Name, Number]),
    (Pred, b"ge", &[Name, Number]),
    (Pred, b"between", &[Name, Number, Number]),
    (Pred, b"isnum", &[Name]),
    (Pred, b"and", &[Pred, Pred]),
    (Pred, b"or", &[Pred, Pred]),
    (Pred, b"not", &[Pred]),
    (Expr, b"neg", &[Expr]),
    (Expr, b"abs", &[Expr]),
    (Expr, b"add", &[Expr, Expr]),
    (Expr, b"sub", &[Expr, Expr]),
    (Expr, b"mul", &[Expr, Expr]),
    (Expr, b"div", &[Expr, Expr]),
    (Expr, b"rem", &[Expr, Expr]),
    (Expr, b"min", &[Expr, Expr]),
    (Expr, b"max", &[Expr, Expr]),
    (Expr, b"if", &[Compare, Expr, Expr]),
    (Expr, b"tsum", &[Name]),
    (Expr, b"tcount", &[Name]),
    (Expr, b"tmax", &[Name, Expr]),
    (Expr, b"tmin", &[Name, Expr]),
    (Expr, b"tget", &[Name, Text, Expr]),
    (Expr, b"part", &[Name, Index]),
    (Compare, b"lt", &[Expr, Expr]),
    (Compare, b"le", &[Expr, Expr]),
    (Compare, b"gt", &[Expr, Expr]),
    (Compare, b"ge", &[Expr, Expr]),
    (Compare, b"eq", &[Expr, Expr]),
    (Compare, b"ne", &[Expr, Expr]),
];

#[test]
fn each_call_has_a_form_at_its_place_alone(rt: HostRuntime) {
    for &(place, head, arguments) in CALLS {
        let count = arguments.len();
        same(&rt, places_of(place, head, count), Some(arguments));
        same(&rt, places_of(place, head, count + 1), None);
        same(&rt, places_of(place, b"stream", count), None);
        same(&rt, places_of(Mode, head, count), None);
    }
}
