//! The query of a shard.
ghost use Rattle.std.specs.Prelude.{◌≡◌, Err, IfOk, IfSome};
ghost use Rattle.std.specs.Option.{option_map};
ghost use Rattle.key_shards.specs.Collections.{all_words, collection_in, shard_of};
ghost use Rattle.key_shards.specs.Parted.{HasItsEntries, IsTooLarge};
ghost use Rattle.key_shards.specs.declared.stop.PartStop.TheVariants.{TooLarge};
ghost use Rattle.predicates.specs.Plain as predicates;
ghost use Rattle.query_model.specs.Queries.{collect, plain_of};

use crate::PartStop;
use crate::boxes::{boxed, boxed_copy};
use memory_bound::slots;
use predicates::Pred;
use query_model::{Checked, KeyColumns, Query, Shape, Span};
use rate_expr::Rate;
use std::alloc::{AllocError, Global};

const MAX_SLOTS: u32 = 1_048_576;

/// The query of a shard on the same stream, where the main query is a collect.
pub fn part_of(checked: &Checked, alloc: Global) -> Result<Option<Checked>, PartStop>
    ensures layout { IfOk result (λ part. IfSome part (λ made.
        made.layout ≡ checked.now.layout)) }
    ensures query { IfOk result (λ part. option_map (λ made. plain_of made.main.shape) part
        ≡ option_map shard_of (collection_in (plain_of checked.now.main.shape))) }
    ensures entries { IfOk result (λ part. IfSome part (λ made.
        HasItsEntries (plain_of checked.now.main.shape) (plain_of made.main.shape))) }
    ensures too_large { result ≡ Err TooLarge → IsTooLarge (plain_of checked.now.main.shape) }
{
    let main = checked.main();
    let Shape::Collect(columns, sync, _, body) = &main.shape else {
        return Ok(None);
    };
    let part = shard_query(columns, sync, body, main.span, alloc)?;
    if slots(&part) > MAX_SLOTS {
        return Err(PartStop::TooLarge);
    }
    let schema = checked.schema().try_copy(alloc)?;
    Ok(Some(Checked::new(schema, part)))
}

fn shard_query(
    columns: &KeyColumns,
    sync: &Pred,
    body: &Query,
    span: Span,
    alloc: Global,
) -> Result<Box<Query>, AllocError>
    ensures { IfOk result (λ made. plain_of made.value.shape ≡ collect columns.now
        (predicates.plain_of sync.now) all_words (plain_of body.now.shape)) }
{
    let body = boxed_copy(body, alloc)?;
    let every = Box::new(alloc, Rate::One(Pred::Any))?;
    let columns = columns.try_copy(alloc)?;
    let sync = sync.try_copy(alloc)?;
    let shape = Shape::Collect(columns, sync, Rate::Star(every), body);
    boxed(shape, span, alloc)
}
