//! The streams of the values of queries.
ghost use Rattle.std.specs.Prelude.{◌≡◌, IfOk, List};
ghost use Rattle.item_schema.specs.Layout.{derived_layout};
ghost use Rattle.item_schema.specs.declared.column.Column.{Column};
ghost use Rattle.query_model.specs.Queries.{plain_of};
ghost use Rattle.query_model.specs.QueryTypes.{derived_columns, of_columns, type_of};
ghost use Rattle.query_model.specs.QueryTypes.{type_of_expression};
ghost use Rattle.query_resolver.specs.Findings.{KeepsTypes, KeepsTypesOver};
ghost use Rattle.expressions.specs.Expressions as values;
ghost use Rattle.expressions.specs.Shown.{shown_types};
ghost use Rattle.value_ops.specs.Types.{IsType};
ghost use Rattle.expressions.specs.Typing.{type_named};

use crate::query_types::types_of;
use crate::shapes::{of_one, of_two};
use expressions::{Expr, Types, Var};
use item_schema::Schema;
use query_model::{Query, Shape};
use std::alloc::{AllocError, Global};
use value_ops::ValueType;

/// The stream of the values of a query on items of the schema.
pub fn values_of(alloc: Global, schema: &Schema, query: &Query) -> Result<Schema, AllocError>
    requires { KeepsTypes schema.now.columns (plain_of query.now.shape) }
    ensures { IfOk result (λ values. values
        ≡ derived_layout (type_of schema.now.columns (plain_of query.now.shape))) }
{
    let types = types_of(alloc, schema.columns())?;
    Schema::derived(alloc, type_of(&types, query))
}

/// The type of a query's values, where the fields of its items have these types.
fn type_of(fields: &[Option<ValueType>], query: &Query) -> ValueType
    requires { KeepsTypesOver fields.now (plain_of query.now.shape) }
    ensures { (columns : List Column) → fields.now ≡ (of_columns columns).fields
        → result ≡ type_of columns (plain_of query.now.shape) }
{
    match &query.shape {
        Shape::Atom(_, value) => {
            let types = Types {
                fields,
                left: None,
                right: None,
            };
            type_of_expression(&types, value)
        }
        Shape::Eps(_) | Shape::Iter(..) => ValueType::Number,
        Shape::Or(first, _) => type_of(fields, first),
        Shape::Split(first, second, value) | Shape::Combine(first, second, value) => {
            let types = of_two(type_of(fields, first), type_of(fields, second));
            type_of_expression(&types, value)
        }
        Shape::Apply(inner, value) => {
            let types = of_one(type_of(fields, inner));
            type_of_expression(&types, value)
        }
        Shape::Compose(first, second) => {
            type_of(types_of_values(type_of(fields, first)), second)
        }
        Shape::Collect(..) => ValueType::Table,
    }
}

// The types of the parts of the largest record, and of the only field of a table.
const NUMBERS: &[Option<ValueType>] = &[Some(ValueType::Number); 8];

const TABLE: &[Option<ValueType>] = &[Some(ValueType::Table)];

// The types of the fields of an item that is a value of the type.
fn types_of_values(ty: ValueType) -> &'static [Option<ValueType>]
    requires { IsType ty }
    ensures { result.now ≡ (of_columns (derived_columns ty)).fields }
{
    match ty {
        ValueType::Number => &NUMBERS[..1],
        ValueType::Rec(size) => &NUMBERS[..size as usize],
        ValueType::Table => TABLE,
    }
}

// The type of an expression that is well typed.
fn type_of_expression(types: &Types<'_>, value: &Expr) -> ValueType
    ensures { result ≡ type_of_expression (shown_types types.now) (values.plain_of value.now) }
{
    match value {
        Expr::Read(name) => type_named(types, *name).unwrap_or(ValueType::Number),
        Expr::Rec(parts) => ValueType::Rec(parts.as_slice().len() as u32),
        _ => ValueType::Number,
    }
}

// The type of what a name stands for; a text has none.
fn type_named(types: &Types<'_>, name: Var) -> Option<ValueType>
    ensures { result ≡ type_named (shown_types types.now) name }
{
    match name {
        Var::Field(column) => types.fields.get(column as usize).copied().flatten(),
        Var::Left => types.left,
        Var::Right => types.right,
    }
}
