//! How large the main query after lets is, without making it.
ghost use Rattle.std.specs.Prelude.{◌≡◌, ◌-◌, ◌^◌, IfOk, List, map, min};
ghost use Rattle.query_syntax.specs.Plain.{plain_let, plain_program, plain_query};
ghost use Rattle.query_syntax.specs.Spans.{query_span};
ghost use Rattle.query_lets.specs.Outlines.{AreOutlines, outline_of};
ghost use Rattle.query_lets.specs.Sizes.{nodes_of};
ghost use Rattle.query_lets.specs.Unfolded.{Binding, bindings_of, replaced, unfolded};

use language_base::Span;
use query_syntax::{Let, Program, Query};
use std::alloc::{AllocError, Global};
use std::collections::HashMap;

/// How many nodes a query has, or 2^32 - 1 where there are more, and where its root stands in the
/// text.
#[derive(Clone, Copy, Debug, PartialEq, Eq)]
pub struct Outline {
    pub nodes: u32,
    pub span: Span,
}

/// The outline of the main query after lets. It takes time for each term of the text, however often
/// a name is replaced.
pub fn unfolded_outline(alloc: Global, program: &Program) -> Result<Outline, AllocError>
    ensures nodes { IfOk result (λ outline.
        outline.nodes ≡ min (nodes_of (unfolded (plain_program program.now))) (2 ^ 32 - 1)) }
    ensures span { IfOk result (λ outline.
        outline.span ≡ query_span (unfolded (plain_program program.now))) }
{
    let outlines = outlines_of(alloc, &program.lets)?;
    Ok(query_outline(&outlines, &program.main.query))
}

// The outlines of lets by their names.
fn outlines_of(alloc: Global, lets: &[Let]) -> Result<HashMap<&[u8], Outline>, AllocError>
    ensures { IfOk result (λ outlines.
        AreOutlines outlines (bindings_of (map plain_let lets.now))) }
{
    let mut outlines = HashMap::new(alloc);
    'lets: for one in lets {
        let outline = query_outline(&outlines, &one.query);
        outlines.insert(one.name.bytes.as_slice(), outline)?;
    }
    Ok(outlines)
}

// The outline of a query after lets that have these.
fn query_outline(outlines: &HashMap<&[u8], Outline>, query: &Query) -> Outline
    ensures { (bindings : List Binding) → AreOutlines outlines.now bindings
        → result ≡ outline_of (replaced bindings (plain_query query.now)) }
{
    match query {
        Query::Name(name) => match outlines.get(name.bytes.as_slice()) {
            Some(outline) => *outline,
            None => Outline {
                nodes: 1,
                span: name.span,
            },
        },
        Query::Atom { span, .. } | Query::Eps { span, .. } => Outline {
            nodes: 1,
            span: *span,
        },
        Query::Or { left, right, span }
        | Query::Split {
            left,
            right,
            span,
            ..
        }
        | Query::Combine {
            left,
            right,
            span,
            ..
        }
        | Query::Compose { left, right, span } => {
            let left = query_outline(outlines, left);
            let right = query_outline(outlines, right);
            Outline {
                nodes: left.nodes.saturating_add(right.nodes).saturating_add(1),
                span: *span,
            }
        }
        Query::Iter { operand, span, .. }
        | Query::Apply { operand, span, .. }
        | Query::Collect {
            body: operand,
            span,
            ..
        } => {
            let operand = query_outline(outlines, operand);
            Outline {
                nodes: operand.nodes.saturating_add(1),
                span: *span,
            }
        }
    }
}
