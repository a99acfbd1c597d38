//! The text of a refusal.
ghost use Rattle.std.specs.Prelude.{◌≡◌, IfOk};
ghost use Rattle.report_writer.specs.Texts.{refusal_text, rule_name};

use language_base::{Bytes, Refusal, Rule, Span};
use std::alloc::{AllocError, Global};

/// The rule by its name, and where its place begins and ends.
pub fn refusal_text(alloc: Global, refusal: Refusal) -> Result<Bytes, AllocError>
    ensures { IfOk result (λ text. text ≡ refusal_text refusal) }
{
    let mut text = String::from_str(alloc, "refused ")?;
    text.push_str(rule_name(refusal.rule))?;
    let Span { from, to } = refusal.span;
    write!(text, " {from}..{to}\n")?;
    Ok(Bytes::from_vec(text.into_bytes()))
}

fn rule_name(rule: Rule) -> &'static str
    ensures { result.now ≡ rule_name rule }
{
    match rule {
        Rule::Long => "long",
        Rule::Token => "token",
        Rule::Term => "term",
        Rule::Depth => "depth",
        Rule::Form => "form",
        Rule::Name => "name",
        Rule::Nested => "nested",
        Rule::Size => "size",
        Rule::Literal => "literal",
        Rule::Mismatch => "type",
        Rule::Cells => "cells",
        Rule::Empty => "empty",
        Rule::Choice => "choice",
        Rule::Split => "split",
        Rule::Iter => "iter",
        Rule::Reach => "reach",
        Rule::Rates => "rates",
        Rule::Compose => "compose",
    }
}
