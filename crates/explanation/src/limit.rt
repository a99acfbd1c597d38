//! Which limit a query exceeds that breaks the rule `size`.
ghost use Rattle.std.specs.Prelude.{◌≡◌, IfOk};
ghost use Rattle.query_syntax.specs.Plain.{plain_program};
ghost use Rattle.explanation.specs.Limits.{limit_for, limit_of, passed_limit};

use crate::positions::few_positions;
use language_base::{Refusal, Rule};
use query_lets::unfolded_outline;
use query_syntax::Program;
use std::alloc::{AllocError, Global};

const MAX_NODES: u32 = 256;

/// A limit of the rule `size`.
#[derive(Clone, Copy)]
pub(crate) enum Limit {
    Nodes,
    Positions,
    Slots,
}

/// The limit that the program exceeds, if that is why it is refused.
pub(crate) fn limit_of(
    alloc: Global,
    program: &Program,
    refusal: Refusal,
) -> Result<Option<Limit>, AllocError>
    ensures { IfOk result (λ limit. limit ≡ limit_of (plain_program program.now) refusal) }
{
    limit_for(alloc, refusal.rule, program)
}

fn limit_for(alloc: Global, rule: Rule, program: &Program) -> Result<Option<Limit>, AllocError>
    ensures { IfOk result (λ limit. limit ≡ limit_for rule (plain_program program.now)) }
{
    match rule {
        Rule::Size => Ok(Some(passed_limit(alloc, program)?)),
        _ => Ok(None),
    }
}

fn passed_limit(alloc: Global, program: &Program) -> Result<Limit, AllocError>
    ensures { IfOk result (λ limit. limit ≡ passed_limit (plain_program program.now)) }
{
    let outline = unfolded_outline(alloc, program)?;
    if outline.nodes > MAX_NODES {
        return Ok(Limit::Nodes);
    }
    match few_positions(alloc, program)? {
        Some(_) => Ok(Limit::Slots),
        None => Ok(Limit::Positions),
    }
}
