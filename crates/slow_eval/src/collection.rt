//! The search for the tables of a collect.
ghost use Rattle.std.specs.Prelude.{◌≡◌, ℕ, List, IfOk};
ghost use Rattle.std.specs.List.{AllByRecursion};
ghost use Rattle.predicates.specs.Plain as predicates;
ghost use Rattle.rate_expr.specs.Plain as rates;
ghost use Rattle.query_model.specs.Denotation.{projection};
ghost use Rattle.query_model.specs.Queries.{collect, plain_of};
ghost use Rattle.slow_eval.specs.Answers.{AreAnswers, CanBeRead};
ghost use Rattle.slow_eval.specs.Tabled.{IsKeyed, keys_in};

use crate::keyed_answers::{Keyed, tables};
use crate::keys::{keys_of, on_items, projection};
use crate::rates::fronts_in;
use crate::search::answers_on_fronts;
use item_schema::Item;
use predicates::Pred;
use query_model::Query;
use rate_expr::Rate;
use std::alloc::{AllocError, Global};
use value_ops::{Bytes, Value};

#[cycle(search)]
pub(crate) fn collect_answers(
    alloc: Global,
    columns: &[u32],
    sync: &Pred,
    rate: &Rate,
    inner: &Query,
    word: &[Item],
) -> Result<Vec<Option<Value>>, AllocError>
    requires { let query = collect columns.now (predicates.plain_of sync.now)
        (rates.plain_of rate.now) (plain_of inner.now.shape) in CanBeRead query word.now }
    ensures { let query = collect columns.now (predicates.plain_of sync.now)
        (rates.plain_of rate.now) (plain_of inner.now.shape) in
        IfOk result (λ answers. AreAnswers query word.now answers.items) }
{
    let in_rate = fronts_in(alloc, rate, word)?;
    let found = keys_of(alloc, columns, sync, word)?;
    let all = answers_for_keys(alloc, columns, sync, &found.keys, inner, word)?;
    tables(alloc, &in_rate, &found.counts, &all)
}

/// The answers for each key.
#[cycle(search)]
fn answers_for_keys(
    alloc: Global,
    columns: &[u32],
    sync: &Pred,
    keys: &[Bytes],
    inner: &Query,
    word: &[Item],
) -> Result<Vec<Keyed>, AllocError>
    requires { (key : List ℕ) → CanBeRead (plain_of inner.now.shape)
        (projection columns.now (predicates.plain_of sync.now) key word.now) }
    ensures keys { IfOk result (λ all. keys_in all.items ≡ keys.now) }
    ensures answers { IfOk result (λ all. AllByRecursion
        (IsKeyed (plain_of inner.now.shape) columns.now (predicates.plain_of sync.now) word.now)
        all.items) }
{
    let mut all = Vec::new(alloc);
    'keys: for key in keys {
        let one = answers_for_key(alloc, columns, sync, key, inner, word)?;
        all.push(one)?;
    }
    Ok(all)
}

/// The key, with the answers on the items that each front of the word has for it.
#[cycle(search)]
fn answers_for_key(
    alloc: Global,
    columns: &[u32],
    sync: &Pred,
    key: &Bytes,
    inner: &Query,
    word: &[Item],
) -> Result<Keyed, AllocError>
    requires { CanBeRead (plain_of inner.now.shape)
        (projection columns.now (predicates.plain_of sync.now) key.now word.now) }
    ensures key { IfOk result (λ one. one.key ≡ key.now) }
    ensures answers { IfOk result
        (IsKeyed (plain_of inner.now.shape) columns.now (predicates.plain_of sync.now) word.now) }
{
    let items = projection(alloc, columns, sync, key.as_slice(), word)?;
    let values = answers_on_fronts(alloc, inner, &items)?;
    let answers = on_items(alloc, columns, sync, key.as_slice(), word, &values)?;
    let key = key.try_copy(alloc)?;
    Ok(Keyed { key, answers })
}
