//! The lines of refusals.

/// The rules, in the order of a summary.
pub(crate) const RULES: [&str; 18] = [
    "long", "token", "term", "depth", "form", "literal", "name", "size", "nested", "type", "cells",
    "empty", "choice", "split", "iter", "reach", "rates", "compose",
];

/// One byte more than a query may have.
const TOO_LONG: usize = 65_537;

/// The rule by its place in the list, if the text is the line of a refusal at a place in a query of
/// `length` bytes.
pub(crate) fn rule_of(text: &str, length: usize) -> Option<usize> {
    let rest = text.strip_suffix('\n')?.strip_prefix("refused ")?;
    let (name, place) = rest.split_once(' ')?;
    let (from, to) = place.split_once("..")?;
    let (from, to) = (from.parse::<usize>().ok()?, to.parse::<usize>().ok()?);
    if from > to || to > length.min(TOO_LONG) {
        return None;
    }
    RULES.iter().position(|rule| *rule == name)
}
