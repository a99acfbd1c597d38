//! The rule, and how a query that breaks it is mended.
ghost use Rattle.std.specs.Prelude.{◌≡◌, ◌++◌, OnOk};
ghost use Rattle.explanation.specs.Advice.{advice, form_lines, hint_line, line, mending};
ghost use Rattle.explanation.specs.Advice.{nearest_line, open_call_line, open_line, repair};
ghost use Rattle.explanation.specs.Nearest.{nearest_to};

use crate::calls::{Word, call_at, level_of};
use crate::culprit_line::push_named;
use crate::expectation::{Standing, standing_at};
use crate::form_sentence::forms_of;
use crate::hint::Hint;
use crate::hint_sentence::hint_sentence;
use crate::limit::Limit;
use crate::recognizers::{hint_of, word_at};
use crate::remedy::mended_by;
use crate::rule_sentence::broken_in;
use crate::suggestion::nearest_to;
use language_base::{Refusal, Rule, Span};
use place_in_text::bytes_between;
use std::alloc::AllocError;

const OPEN_AFTER: &str = "A bracket is still open after this word: ";

#[tactic(auto, unfolding(crate::specs::Advice::advice))]
pub(crate) fn push_advice(
    text: &[u8],
    refusal: Refusal,
    limit: Option<Limit>,
    shown: &mut Vec<u8>,
) -> Result<(), AllocError>
    ensures { OnOk result (shown.new.items ≡ shown.old.items ++ advice text.now refusal limit) }
{
    push_line(broken_in(text, refusal, limit), shown)?;
    push_mending(refusal.rule, text, refusal, shown)
}

fn push_mending(
    rule: Rule,
    text: &[u8],
    refusal: Refusal,
    shown: &mut Vec<u8>,
) -> Result<(), AllocError>
    ensures { OnOk result (shown.new.items ≡ shown.old.items ++ mending rule text.now refusal) }
{
    match rule {
        Rule::Form => push_forms(text, refusal.span, shown),
        _ => push_repair(text, refusal, shown),
    }
}

fn push_repair(text: &[u8], refusal: Refusal, shown: &mut Vec<u8>) -> Result<(), AllocError>
    ensures { OnOk result (shown.new.items ≡ shown.old.items ++ repair text.now refusal) }
{
    push_line(mended_by(refusal.rule), shown)?;
    push_hint(hint_of(text, refusal), shown)?;
    push_open(refusal.rule, text, refusal.span, shown)
}

// At the end of the text, the word of the innermost open call.
fn push_open(rule: Rule, text: &[u8], place: Span, shown: &mut Vec<u8>) -> Result<(), AllocError>
    ensures { OnOk result (shown.new.items ≡ shown.old.items ++ open_line rule text.now place) }
{
    match rule {
        Rule::Term => push_open_call(text, place, shown),
        _ => Ok(()),
    }
}

fn push_open_call(text: &[u8], place: Span, shown: &mut Vec<u8>) -> Result<(), AllocError>
    ensures { OnOk result (shown.new.items ≡ shown.old.items ++ open_call_line text.now place) }
{
    if (place.from as usize) < text.len() {
        return Ok(());
    }
    let Word { from, to } = call_at(text, level_of(text)).head;
    push_named(OPEN_AFTER, bytes_between(text, from, to), shown)
}

// What is often meant by the word at the place, if that is known, and the forms of the place.
fn push_forms(text: &[u8], place: Span, shown: &mut Vec<u8>) -> Result<(), AllocError>
    ensures { OnOk result (shown.new.items ≡ shown.old.items ++ form_lines text.now place) }
{
    let standing = standing_at(text, place.from as usize);
    push_nearest(standing, word_at(text, place), shown)?;
    push_line(forms_of(standing), shown)
}

fn push_nearest(standing: Standing, word: &[u8], shown: &mut Vec<u8>) -> Result<(), AllocError>
    ensures { OnOk result (shown.new.items
        ≡ shown.old.items ++ nearest_line (nearest_to standing word.now)) }
{
    match nearest_to(standing, word) {
        Some(sentence) => push_line(sentence, shown),
        None => Ok(()),
    }
}

fn push_line(sentence: &str, shown: &mut Vec<u8>) -> Result<(), AllocError>
    ensures { OnOk result (shown.new.items ≡ shown.old.items ++ line sentence.now) }
{
    shown.extend_from_slice(sentence.as_bytes())?;
    shown.extend_from_slice(b"\n")
}

fn push_hint(hint: Option<Hint>, shown: &mut Vec<u8>) -> Result<(), AllocError>
    ensures { OnOk result (shown.new.items ≡ shown.old.items ++ hint_line hint) }
{
    match hint {
        Some(hint) => push_line(hint_sentence(hint), shown),
        None => Ok(()),
    }
}
