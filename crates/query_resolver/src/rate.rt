//! Rates over the columns of a stream.
ghost use Rattle.std.specs.Prelude.{◌≡◌, IfErr, IfOk, Some, option_map};
ghost use Rattle.std.specs.List.{list_all};
ghost use Rattle.language_base.specs.declared.rule.Rule.TheVariants.{Name};
ghost use Rattle.predicates.specs.Fits.{fits};
ghost use Rattle.query_syntax.specs.Plain.{plain_rate};
ghost use Rattle.rate_expr.specs.Plain.{plain_of};
ghost use Rattle.rate_expr.specs.Rates.{preds_of};
ghost use Rattle.query_resolver.specs.Findings.{IsUnresolved};
ghost use Rattle.query_resolver.specs.Rates.{joined_rates, rate_over};
ghost use Rattle.query_resolver.specs.Steps.{found};

use crate::CheckStop;
use crate::predicate::pred_over;
use item_schema::Schema;
use language_base::{Rule, Span};
use query_syntax::Join;
use rate_expr::Rate;
use std::alloc::{AllocError, Global};

/// The rate over the columns of the schema, if each name in it is a column's.
#[cycle(resolve)]
pub fn rate_over(
    alloc: Global,
    schema: &Schema,
    rate: &query_syntax::Rate,
) -> Result<Option<Rate>, AllocError>
    ensures { IfOk result (λ found. option_map plain_of found
        ≡ rate_over schema.now.columns (plain_rate rate.now)) }
{
    match rate {
        query_syntax::Rate::Eps(_) => Ok(Some(Rate::Empty)),
        query_syntax::Rate::Item { predicate, .. } => {
            match pred_over(alloc, schema, predicate)? {
                Some(pred) => Ok(Some(Rate::One(pred))),
                None => Ok(None),
            }
        }
        query_syntax::Rate::Joined {
            join,
            left,
            right,
            ..
        } => {
            let Some(left) = boxed_over(alloc, schema, left)? else {
                return Ok(None);
            };
            let Some(right) = boxed_over(alloc, schema, right)? else {
                return Ok(None);
            };
            Ok(Some(joined(*join, left, right)))
        }
        query_syntax::Rate::Star { operand, .. } => match boxed_over(alloc, schema, operand)? {
            Some(inner) => Ok(Some(Rate::Star(inner))),
            None => Ok(None),
        },
    }
}

/// The same for a node at the place, where an unknown name is refused.
pub fn named_rate(
    alloc: Global,
    schema: &Schema,
    rate: &query_syntax::Rate,
    span: Span,
) -> Result<Rate, CheckStop>
    ensures made { IfOk result (λ made. Some (plain_of made)
        ≡ rate_over schema.now.columns (plain_rate rate.now)) }
    ensures refused { IfErr result (IsUnresolved
        (found Name span (rate_over schema.now.columns (plain_rate rate.now)))) }
{
    let found = rate_over(alloc, schema, rate)?;
    match found {
        Some(rate) => Ok(rate),
        None => Err(CheckStop::refused(Rule::Name, span)),
    }
}

#[cycle(resolve)]
fn boxed_over(
    alloc: Global,
    schema: &Schema,
    rate: &query_syntax::Rate,
) -> Result<Option<Box<Rate>>, AllocError>
    ensures { IfOk result (λ found. option_map (λ made. plain_of made.value) found
        ≡ rate_over schema.now.columns (plain_rate rate.now)) }
{
    match rate_over(alloc, schema, rate)? {
        Some(made) => Ok(Some(Box::new(alloc, made)?)),
        None => Ok(None),
    }
}

fn joined(join: Join, left: Box<Rate>, right: Box<Rate>) -> Rate
    ensures { Some (plain_of result)
        ≡ joined_rates join (Some (plain_of left.value)) (Some (plain_of right.value)) }
{
    match join {
        Join::Seq => Rate::Seq(left, right),
        Join::Alt => Rate::Alt(left, right),
    }
}

/// Whether each test's column in the rate exists and has the test's kind.
pub fn all_fit(schema: &Schema, rate: &Rate) -> bool
    ensures { result ≡ list_all (fits schema.now.columns) (preds_of (plain_of rate.now)) }
{
    match rate {
        Rate::Empty => true,
        Rate::One(pred) => pred.fits(schema),
        Rate::Seq(left, right) | Rate::Alt(left, right) => {
            all_fit(schema, left) && all_fit(schema, right)
        }
        Rate::Star(inner) => all_fit(schema, inner),
    }
}
