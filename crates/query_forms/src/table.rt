//! The table of the calls that may stand at each place.
ghost use Rattle.std.specs.Prelude.{◌≡◌, map};
ghost use Rattle.query_forms.specs.Forms.{forms_at};
ghost use Rattle.query_forms.specs.Shown.{shown};

use crate::form::Form;
use crate::term_place::TermPlace;
use crate::term_place::TermPlace::*;

const COLUMN: &[Form] = &[Form(b"col", &[Name, Kind])];

const KIND: &[Form] = &[Form(b"fixed", &[Digits])];

const QUERY: &[Form] = &[
    Form(b"atom", &[Pred, Expr]),
    Form(b"eps", &[Number]),
    Form(b"or", &[Query, Query]),
    Form(b"split", &[Query, Query, Expr]),
    Form(b"iter", &[Query, Number, Expr]),
    Form(b"combine", &[Query, Query, Expr]),
    Form(b"apply", &[Query, Expr]),
    Form(b"compose", &[Query, Query]),
    Form(b"collect", &[Key, Pred, Rate, Query]),
];

const KEY: &[Form] = &[
    Form(b"key", &[Name; 2]),
    Form(b"key", &[Name; 3]),
    Form(b"key", &[Name; 4]),
];

const RATE: &[Form] = &[
    Form(b"item", &[Pred]),
    Form(b"seq", &[Rate, Rate]),
    Form(b"alt", &[Rate, Rate]),
    Form(b"star", &[Rate]),
];

const PRED: &[Form] = &[
    Form(b"eq", &[Name, Literal]),
    Form(b"ne", &[Name, Literal]),
    Form(b"lt", &[Name, Number]),
    Form(b"le", &[Name, Number]),
    Form(b"gt", &[Name, Number]),
    Form(b"ge", &[Name, Number]),
    Form(b"between", &[Name, Number, Number]),
    Form(b"isnum", &[Name]),
    Form(b"and", &[Pred, Pred]),
    Form(b"or", &[Pred, Pred]),
    Form(b"not", &[Pred]),
];

const EXPR: &[Form] = &[
    Form(b"neg", &[Expr]),
    Form(b"abs", &[Expr]),
    Form(b"add", &[Expr, Expr]),
    Form(b"sub", &[Expr, Expr]),
    Form(b"mul", &[Expr, Expr]),
    Form(b"div", &[Expr, Expr]),
    Form(b"rem", &[Expr, Expr]),
    Form(b"min", &[Expr, Expr]),
    Form(b"max", &[Expr, Expr]),
    Form(b"if", &[Compare, Expr, Expr]),
    Form(b"tsum", &[Name]),
    Form(b"tcount", &[Name]),
    Form(b"tmax", &[Name, Expr]),
    Form(b"tmin", &[Name, Expr]),
    Form(b"tget", &[Name, Text, Expr]),
    Form(b"part", &[Name, Index]),
    Form(b"rec", &[Expr; 2]),
    Form(b"rec", &[Expr; 3]),
    Form(b"rec", &[Expr; 4]),
    Form(b"rec", &[Expr; 5]),
    Form(b"rec", &[Expr; 6]),
    Form(b"rec", &[Expr; 7]),
    Form(b"rec", &[Expr; 8]),
];

const COMPARE: &[Form] = &[
    Form(b"lt", &[Expr, Expr]),
    Form(b"le", &[Expr, Expr]),
    Form(b"gt", &[Expr, Expr]),
    Form(b"ge", &[Expr, Expr]),
    Form(b"eq", &[Expr, Expr]),
    Form(b"ne", &[Expr, Expr]),
];

pub fn forms_at(place: TermPlace) -> &'static [Form]
    ensures { map shown result.now ≡ forms_at place }
{
    match place {
        Column => COLUMN,
        Kind => KIND,
        Query => QUERY,
        Key => KEY,
        Rate => RATE,
        Pred => PRED,
        Expr => EXPR,
        Compare => COMPARE,
        Mode | Literal | Name | Number | Text | Digits | Index => &[],
    }
}
