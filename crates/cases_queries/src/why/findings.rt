//! What is found for a query.
ghost use Rattle.language_base.specs.declared.rule.Rule.{Rule};
ghost use Rattle.query_syntax.specs.Programs as syntax;
ghost use Rattle.std.specs.Prelude.{IfOk};
ghost use Rattle.type_checker.specs.Blames.{IsBlameAt};
ghost use Rattle.type_checker.specs.Judgments.{IsJudgmentOf};
ghost use Rattle.query_resolver.specs.Nodes.{Node};

use crate::why::case::Case;
use crate::why::confirmation::push_confirmed;
use crate::why::stop::Stop;
use ambiguity_example::{Ask, example};
use language_base::Span;
use query_syntax::read_syntax;
use std::alloc::{AllocError, Global};
use type_checker::{Blame, Judgment, judge};

/// Reports how the query is judged. For a word with two readings this is how long it is, and which
/// changes of it are examples too.
pub(crate) fn push_found(alloc: Global, case: &Case<'_>, text: &mut String) -> Result<(), Stop> {
    match judged(alloc, case.query.as_bytes())? {
        Judgment::Accepted(_) => Ok(text.push_str("accepted")?),
        Judgment::Refused(_) => Ok(text.push_str("refused by another rule")?),
        Judgment::Ambiguous(blame) => Ok(push_blame(alloc, case, &blame, text)?),
    }
}

fn judged(alloc: Global, query: &[u8]) -> Result<Judgment, Stop>
    ensures { IfOk result (λ judgment. (program : syntax.Program) × IsJudgmentOf program judgment) }
{
    let program = read_syntax(alloc, query)?;
    Ok(judge(alloc, &program)?)
}

fn push_blame(
    alloc: Global,
    case: &Case<'_>,
    blame: &Blame,
    text: &mut String,
) -> Result<(), AllocError>
    requires { (node : Node) × (broken : Rule) × IsBlameAt node broken blame.now }
{
    let ask = blame.ask();
    match example(alloc, ask)? {
        None => text.push_str("no example"),
        Some(example) => {
            push_verdict(
                alloc,
                case,
                ask,
                blame.refusal().span,
                example.items().len(),
                text,
            )?;
            push_confirmed(alloc, ask, &example, case.readings, text)
        }
    }
}

/// Reports the rule and the length, and what is not as the table says.
fn push_verdict(
    alloc: Global,
    case: &Case<'_>,
    ask: Ask<'_>,
    span: Span,
    items: usize,
    text: &mut String,
) -> Result<(), AllocError> {
    let found = verdict(alloc, ask, items)?;
    push_compared(case, found.as_str(), span, text)
}

fn verdict(alloc: Global, ask: Ask<'_>, items: usize) -> Result<String, AllocError> {
    let rule = match ask {
        Ask::Choice(..) => "choice",
        Ask::Split(..) => "split",
        Ask::Iter(_) => "iter",
    };
    format!(in alloc; "{rule} {items}")
}

fn push_compared(
    case: &Case<'_>,
    found: &str,
    span: Span,
    text: &mut String,
) -> Result<(), AllocError> {
    text.push_str(found)?;
    if found != case.wanted {
        text.push_str(", not as the table says")?;
    }
    if span != case.span {
        text.push_str(", at another place")?;
    }
    Ok(())
}
