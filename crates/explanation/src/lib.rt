//! Explains to a person why a query is refused: the place, the rule, how to mend the query, and
//! what is often meant.
#![tactic(auto)]

mod advice;
mod aside;
mod calls;
mod culprit;
mod culprit_line;
mod culprit_search;
mod expectation;
mod form_sentence;
mod hint;
mod hint_sentence;
mod key_names;
mod limit;
mod misfit;
mod nearest_words;
mod node;
mod parts;
mod positions;
mod recognizers;
mod remedy;
mod rule_sentence;
mod scope;
mod spots;
mod suggestion;
mod unknown_names;
mod uses;

pub use parts::{program_explanation, text_explanation};
