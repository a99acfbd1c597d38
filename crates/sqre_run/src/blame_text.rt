//! What is written about a query that is refused for a word with two readings.
ghost use Rattle.std.specs.Prelude.{◌≡◌, ◌++◌, IfOk};
ghost use Rattle.report_writer.specs.Examples.{example_text};
ghost use Rattle.report_writer.specs.Texts.{refusal_text};
ghost use Rattle.query_compiler.specs.Stops.{IsBlamed, IsShownFor};
ghost use Rattle.sqre_run.specs.Blames.{AreLinesOf, IsReasonOf};

use crate::command::Command;
use ambiguity_example::{Example, example};
use language_base::{Bytes, Refusal};
use report_writer::{example_text, refusal_text};
use std::alloc::{AllocError, Global};
use type_checker::Blame;

/// The line of the refusal, and for `why` a shortest word with two readings after it.
pub fn blame_text(alloc: Global, command: Command, blame: &Blame) -> Result<Bytes, AllocError>
    requires { IsBlamed blame.now }
    ensures { IfOk result (AreLinesOf command blame.now) }
{
    match command {
        Command::Why => reason_text(alloc, blame),
        _ => refusal_text(alloc, blame.refusal()),
    }
}

fn reason_text(alloc: Global, blame: &Blame) -> Result<Bytes, AllocError>
    requires { IsBlamed blame.now }
    ensures { IfOk result (IsReasonOf blame.now) }
{
    let shown = shortest_word(alloc, blame)?;
    text_with(alloc, blame.refusal(), &shown)
}

// A shortest word with two readings such as the broken rule forbids.
fn shortest_word(alloc: Global, blame: &Blame) -> Result<Example, AllocError>
    requires { IsBlamed blame.now }
    ensures { IfOk result (IsShownFor blame.now) }
{
    match example(alloc, blame.ask())? {
        Some(shown) => Ok(shown),
        // The rule is broken, so some word has two readings.
        None => unreachable!(),
    }
}

// The line of the refusal, and the word after it.
fn text_with(alloc: Global, refusal: Refusal, shown: &Example) -> Result<Bytes, AllocError>
    ensures { IfOk result (λ lines. lines ≡ refusal_text refusal
        ++ example_text shown.now.items shown.now.first shown.now.second) }
{
    let line = refusal_text(alloc, refusal)?;
    let word = word_text(alloc, shown)?;
    joined(alloc, line.as_slice(), word.as_slice())
}

fn word_text(alloc: Global, shown: &Example) -> Result<Bytes, AllocError>
    ensures { IfOk result (λ text. text
        ≡ example_text shown.now.items shown.now.first shown.now.second) }
{
    let (first, second) = (shown.first().as_slice(), shown.second().as_slice());
    example_text(alloc, shown.items(), first, second)
}

fn joined(alloc: Global, first: &[u8], second: &[u8]) -> Result<Bytes, AllocError>
    ensures { IfOk result (λ text. text ≡ first.now ++ second.now) }
{
    let mut text = Vec::from_slice(alloc, first)?;
    text.extend_from_slice(second)?;
    Ok(Bytes::from_vec(text))
}
