//! Whether queries have one stream.
ghost use Rattle.std.specs.Prelude.{◌≡◌, ◌↔◌, IsTrue, IfNone, IfSome};
ghost use Rattle.std.specs.List.{AllZip};
ghost use Rattle.beside_run.specs.Call.{streams_of};
ghost use Rattle.beside_run.specs.Compiling.{monitors_of};
ghost use Rattle.beside_run.specs.Streams.{AreOneStream, IsFirstOther};

use item_schema::{Column, Schema};
use query_model::Checked;

/// The number, counted from 1, of the first query that has another stream than the first one.
pub fn first_other(queries: &[Box<Checked>]) -> Option<usize>
    ensures other { IfSome result (IsFirstOther (streams_of (monitors_of queries.now))) }
    ensures none { IfNone result (AreOneStream (streams_of (monitors_of queries.now))) }
{
    let [first, others @ ..] = queries else {
        return None;
    };
    'others: for (at, other) in others.iter().enumerate() {
        if !is_same(first.schema(), other.schema()) {
            return Some(at + 2);
        }
    }
    None
}

fn is_same(one: &Schema, other: &Schema) -> bool
    ensures { IsTrue result ↔ (other.now ≡ one.now) }
{
    one.has_header() == other.has_header() && are_same_columns(one.columns(), other.columns())
}

fn are_same_columns(some: &[Column], others: &[Column]) -> bool
    ensures { IsTrue result ↔ AllZip (λ one other. other ≡ one) some.now others.now }
{
    'columns: for (one, other) in some.iter().zip(others) {
        if !is_same_column(one, other) {
            return false;
        }
    }
    some.len() == others.len()
}

fn is_same_column(one: &Column, other: &Column) -> bool
    ensures { IsTrue result ↔ (other.now ≡ one.now) }
{
    one.kind == other.kind && one.name == other.name
}
