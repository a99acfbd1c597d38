//! Queries in boxes of their own.
ghost use Rattle.std.specs.Prelude.{◌≡◌, IfOk};
ghost use Rattle.query_model.specs.Queries.{plain_of};

use query_model::{Query, Shape, Span};
use std::alloc::{AllocError, Global};

pub(crate) fn boxed(shape: Shape, span: Span, alloc: Global) -> Result<Box<Query>, AllocError>
    ensures { IfOk result (λ made. made.value.shape ≡ shape) }
{
    Ok(Box::new(alloc, Query { shape, span })?)
}

pub(crate) fn boxed_copy(query: &Query, alloc: Global) -> Result<Box<Query>, AllocError>
    ensures { IfOk result (λ made. plain_of made.value.shape ≡ plain_of query.now.shape) }
{
    Ok(Box::new(alloc, query.try_copy(alloc)?)?)
}
