//! The passes over the names of columns and lets, and over the nodes of the main query after lets.
ghost use Rattle.std.specs.Prelude.{IfErr, OnOk};
ghost use Rattle.query_syntax.specs.Plain.{plain_program};
ghost use Rattle.query_resolver.specs.Findings.{IsUnresolved};
ghost use Rattle.query_resolver.specs.Passes.{IsCounted, counted};

use crate::CheckStop;
use language_base::Rule;
use query_lets::{unfolded_outline, wrong_name};
use query_syntax::Program;
use std::alloc::Global;

const MAX_NODES: u32 = 256;

/// Whether all names of columns and lets are right, and the main query after lets has few nodes.
pub fn keep_nodes(alloc: Global, program: &Program) -> Result<(), CheckStop>
    ensures counted { OnOk result (IsCounted (plain_program program.now)) }
    ensures refused { IfErr result (IsUnresolved (counted (plain_program program.now))) }
{
    if let Some(span) = wrong_name(alloc, program)? {
        return Err(CheckStop::refused(Rule::Name, span));
    }
    let outline = unfolded_outline(alloc, program)?;
    if outline.nodes > MAX_NODES {
        return Err(CheckStop::refused(Rule::Size, outline.span));
    }
    Ok(())
}
