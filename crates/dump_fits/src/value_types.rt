//! The types of the values of queries.
ghost use Rattle.std.specs.Prelude.{◌≡◌};
ghost use Rattle.expressions.specs.Expressions as expr;
ghost use Rattle.query_model.specs.Queries.{plain_of};
ghost use Rattle.query_model.specs.QueryTypes.{of_columns, of_one, of_two, type_of};
ghost use Rattle.query_model.specs.QueryTypes.{type_of_expression};
ghost use Rattle.dump_fits.specs.Streams.{columns_of};

use crate::stream::Stream;
use expressions::{Expr, Var};
use query_model::{Query, Shape};
use value_ops::ValueType;

/// The type of the query's values on the stream.
pub(crate) fn value_type(query: &Query, stream: &Stream) -> ValueType
    ensures { result ≡ type_of (columns_of stream.now) (plain_of query.now.shape) }
{
    match &query.shape {
        Shape::Atom(_, value) => type_on_item(value, stream),
        Shape::Eps(_) | Shape::Iter(..) => ValueType::Number,
        Shape::Or(left, _) => value_type(left, stream),
        Shape::Split(left, right, value) | Shape::Combine(left, right, value) => {
            type_on_both(value, value_type(left, stream), value_type(right, stream))
        }
        Shape::Apply(inner, value) => type_on_one(value, value_type(inner, stream)),
        Shape::Compose(left, right) => {
            let values = Stream::Values(value_type(left, stream));
            value_type(right, &values)
        }
        Shape::Collect(..) => ValueType::Table,
    }
}

fn type_on_item(value: &Expr, stream: &Stream) -> ValueType
    ensures { result ≡ type_of_expression (of_columns (columns_of stream.now))
        (expr.plain_of value.now) }
{
    match value {
        Expr::Read(Var::Field(column)) => match stream.type_in(*column) {
            Some(ty) => ty,
            None => ValueType::Number,
        },
        Expr::Rec(parts) => ValueType::Rec(parts.as_slice().len() as u32),
        _ => ValueType::Number,
    }
}

fn type_on_one(value: &Expr, left: ValueType) -> ValueType
    ensures { result ≡ type_of_expression (of_one left) (expr.plain_of value.now) }
{
    match value {
        Expr::Read(Var::Left) => left,
        Expr::Rec(parts) => ValueType::Rec(parts.as_slice().len() as u32),
        _ => ValueType::Number,
    }
}

fn type_on_both(value: &Expr, left: ValueType, right: ValueType) -> ValueType
    ensures { result ≡ type_of_expression (of_two left right) (expr.plain_of value.now) }
{
    match value {
        Expr::Read(Var::Left) => left,
        Expr::Read(Var::Right) => right,
        Expr::Rec(parts) => ValueType::Rec(parts.as_slice().len() as u32),
        _ => ValueType::Number,
    }
}
