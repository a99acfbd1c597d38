//! The mask of a collect.
ghost use Rattle.std.specs.Prelude.{◌≡◌, pos, IfOk, IfSome};
ghost use Rattle.std.specs.Option.{option_map};
ghost use Rattle.key_shards.specs.Collections.{collection_in, mask_of};
ghost use Rattle.key_shards.specs.Parted.{AreDefinedAlike};
ghost use Rattle.predicates.specs.Predicates.{any};
ghost use Rattle.query_model.specs.Queries.{collect, eps, plain_of};
ghost use Rattle.rate_expr.specs.Plain as rates;

use crate::boxes::boxed;
use predicates::Pred;
use query_model::{Checked, KeyColumns, Query, Shape, Span};
use rate_expr::Rate;
use std::alloc::{AllocError, Global};

/// The mask on the same stream, where the main query is a collect.
pub fn mask_of(checked: &Checked, alloc: Global) -> Result<Option<Checked>, AllocError>
    ensures layout { IfOk result (λ mask. IfSome mask (λ made.
        made.layout ≡ checked.now.layout)) }
    ensures query { IfOk result (λ mask. option_map (λ made. plain_of made.main.shape) mask
        ≡ option_map mask_of (collection_in (plain_of checked.now.main.shape))) }
    ensures defined { IfOk result (λ mask. IfSome mask (λ made.
        AreDefinedAlike checked.now.layout.columns
        (plain_of checked.now.main.shape) (plain_of made.main.shape))) }
{
    let main = checked.main();
    let Shape::Collect(columns, _, rate, _) = &main.shape else {
        return Ok(None);
    };
    let mask = mask_query(columns, rate, main.span, alloc)?;
    let schema = checked.schema().try_copy(alloc)?;
    Ok(Some(Checked::new(schema, mask)))
}

fn mask_query(
    columns: &KeyColumns,
    rate: &Rate,
    span: Span,
    alloc: Global,
) -> Result<Box<Query>, AllocError>
    ensures { IfOk result (λ made. plain_of made.value.shape ≡ collect columns.now
        any (rates.plain_of rate.now) (eps (pos 0))) }
{
    let body = boxed(Shape::Eps(0), span, alloc)?;
    let columns = columns.try_copy(alloc)?;
    let rate = rate.try_copy(alloc)?;
    let shape = Shape::Collect(columns, Pred::Any, rate, body);
    boxed(shape, span, alloc)
}
