//! A query that is known to mean one thing.
ghost use Rattle.std.specs.Prelude.{◌≡◌, IfOk};
ghost use Rattle.query_model.specs.Checked.{IsChecked, CheckedQuery};
ghost use Rattle.query_model.specs.Queries.{plain_of, spans_of};

use crate::Query;
use item_schema::Schema;
use std::alloc::{AllocError, Global};
use std::marker::Model;

/// A stream and a query on its items that keeps all rules, seen as both.
#[derive(Drop)]
pub struct Checked {
    schema: Schema,
    main: Box<Query>,
}

impl Model for Checked {
    ghost use Rattle.std.specs.Coded.{codes};
    ghost use Rattle.query_model.specs.Checked.{IsChecked, CheckedQuery};
    ghost use Rattle.query_model.specs.contracts.query.Query as coded_query;

    ghost Value = { CheckedQuery };

    ghost coded = { Prim.hlevel (codes, coded_query.the_row.coded) };

    ghost view = { λ c. record { layout = c.schema; main = c.main.value } };

    ghost invariant = { λ c. IsChecked (record { layout = c.schema; main = c.main.value }) };
}

impl Checked {
    /// The rules are for the caller to have asked.
    pub fn new(schema: Schema, main: Box<Query>) -> Checked
        requires { let on : CheckedQuery = record { layout = schema; main = main.value } in
            IsChecked on }
        ensures { result ≡ record { layout = schema; main = main.value } }
    {
        Checked { schema, main }
    }

    /// The stream.
    pub fn schema(&self) -> &Schema
        ensures schema { result.now ≡ self.now.layout }
        ensures checked { IsChecked self.now }
    {
        &self.schema
    }

    /// The query.
    pub fn main(&self) -> &Query
        ensures main { result.now ≡ self.now.main }
        ensures checked { IsChecked self.now }
    {
        &self.main
    }
}
