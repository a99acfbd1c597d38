//! The bound of a query on what an engine keeps.

use crate::memory::Bound;
use memory_bound::slots;
use query_model::{Query, Shape};

/// The bound of the query.
pub(crate) fn bound_of(query: &Query) -> Bound {
    Bound {
        slots: slots(query),
        makes_tables: makes_tables(query),
    }
}

fn makes_tables(query: &Query) -> bool {
    match &query.shape {
        Shape::Atom(..) | Shape::Eps(_) => false,
        Shape::Or(first, second) | Shape::Compose(first, second) => {
            makes_tables(first) || makes_tables(second)
        }
        Shape::Split(first, second, _) | Shape::Combine(first, second, _) => {
            makes_tables(first) || makes_tables(second)
        }
        Shape::Apply(inner, _) | Shape::Iter(inner, ..) => makes_tables(inner),
        Shape::Collect(..) => true,
    }
}
