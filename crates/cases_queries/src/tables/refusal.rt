//! Refusals of queries.

use language_base::{Refusal, Span};
use query_cases::push_spelled;
use report_writer::refusal_text;
use std::alloc::{AllocError, Global};

/// Of longer terms only the places are reported.
const SHORT: usize = 200;

/// The refusal of the query, as the program writes it, and the term that is refused.
pub(crate) fn refused(alloc: Global, query: &[u8], refusal: Refusal) -> Result<String, AllocError> {
    let written = refusal_text(alloc, refusal)?;
    let mut text = String::new(alloc);
    push_spelled(&mut text, written.as_slice().trim_ascii_end())?;
    push_term(&mut text, part_of(query, refusal.span))?;
    Ok(text)
}

fn push_term(text: &mut String, term: &[u8]) -> Result<(), AllocError> {
    if !term.is_empty() && term.len() <= SHORT {
        text.push_str(": ")?;
        push_spelled(text, term)?;
    }
    Ok(())
}

fn part_of(query: &[u8], span: Span) -> &[u8] {
    query
        .get(span.from as usize..span.to as usize)
        .unwrap_or(&[])
}
