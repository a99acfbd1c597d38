//! The result of checking a program.

use crate::blame::Blame;
use language_base::Refusal;
use query_model::Checked;

/// A query that may be run, or the first rule that the program breaks.
#[derive(Drop)]
pub enum Judgment {
    Accepted(Box<Checked>),
    /// By a rule that does not forbid words with two readings.
    Refused(Refusal),
    /// By a rule that forbids a word with two readings.
    Ambiguous(Box<Blame>),
}
