//! A sentence for each rule.
ghost use Rattle.std.specs.Prelude.{◌≡◌, ◌≤◌, length};
ghost use Rattle.explanation.specs.Sentences.{broken_at, broken_in, broken_where, ended_where};
ghost use Rattle.explanation.specs.Sentences.{passed};

use crate::limit::Limit;
use language_base::{Refusal, Rule};

const LONG: &str = "A query text has at most 65,536 bytes.";

const TOKEN: &str =
    "No token begins at this byte, or the string that begins here is not well formed.";

const TERM: &str = "The tokens up to here begin no list of terms.";

const DEPTH: &str =
    "This term stands at level 65; terms stand inside one another at most 64 levels deep.";

const FORM: &str = "This term has none of the forms of its place.";

const NAME: &str =
    "A name is declared twice or stands twice in a key, or is not known where it stands.";

const NESTED: &str = "A collect stands inside another, or inside the right side of a compose.";

const SIZE: &str =
    "The query has over 256 nodes or 1,048,576 slots, or this node over 128 positions.";

const LITERAL: &str = "This number is not from -2^63 to 2^63-1.";

const TYPE: &str =
    "A test, a key, an expression or an operand is not of the kind that its place takes.";

const CELLS: &str =
    "The query's tests tell more than 4,096 cells apart, of items or of a compose's values.";

const EMPTY: &str = "No item meets the predicate of this atom, or one in the rate of this collect.";

const CHOICE: &str = "Some word is a word of both operands of this or.";

const SPLIT: &str =
    "Some word can be parted in two ways into a word of the one operand and one of the other.";

const ITER: &str =
    "Some word can be parted in two ways into words of the operand, as where one is empty.";

const REACH: &str =
    "Words lead the automata of its operands to more than 4,096 states or pairs of states.";

const RATES: &str = "Some word is a word of only one of the two operands of this combine.";

const COMPOSE: &str =
    "Inside another query, a compose's right side has a value on all lists of one value or more.";

const OPEN_BRACKET: &str = "The text ends here, and a bracket is still open.";

const NO_TERM: &str = "The text ends here, and a term is missing.";

const NODES: &str =
    "The query has over 256 nodes: its shapes, with each name replaced by the query of its let.";

const POSITIONS: &str =
    "The rate of this node has over 128 positions: its atoms, or the items of a written rate.";

const SLOTS: &str =
    "The query has over 1,048,576 slots: what an engine keeps for it that keeps no items.";

/// How the rule of the refusal is broken, or which limit is exceeded.
pub(crate) fn broken_in(text: &[u8], refusal: Refusal, limit: Option<Limit>) -> &'static str
    ensures { result.now ≡ broken_in text.now refusal limit }
{
    match limit {
        Some(limit) => passed(limit),
        None => broken_at(text, refusal),
    }
}

#[tactic(auto, unfolding(crate::specs::Sentences::passed))]
fn passed(limit: Limit) -> &'static str
    ensures { result.now ≡ passed limit }
{
    match limit {
        Limit::Nodes => NODES,
        Limit::Positions => POSITIONS,
        Limit::Slots => SLOTS,
    }
}

fn broken_at(text: &[u8], refusal: Refusal) -> &'static str
    ensures { result.now ≡ broken_at text.now refusal }
{
    if (refusal.span.from as usize) < text.len() {
        broken_where(refusal.rule)
    } else {
        ended_where(refusal.rule)
    }
}

#[tactic(auto, unfolding(crate::specs::Sentences::broken_where))]
fn broken_where(rule: Rule) -> &'static str
    ensures { result.now ≡ broken_where rule }
{
    match rule {
        Rule::Long => LONG,
        Rule::Token => TOKEN,
        Rule::Term => TERM,
        Rule::Depth => DEPTH,
        Rule::Form => FORM,
        Rule::Name => NAME,
        Rule::Nested => NESTED,
        Rule::Size => SIZE,
        Rule::Literal => LITERAL,
        Rule::Mismatch => TYPE,
        Rule::Cells => CELLS,
        Rule::Empty => EMPTY,
        Rule::Choice => CHOICE,
        Rule::Split => SPLIT,
        Rule::Iter => ITER,
        Rule::Reach => REACH,
        Rule::Rates => RATES,
        Rule::Compose => COMPOSE,
    }
}

// The same for a place at the end of the text.
#[tactic(auto, unfolding(crate::specs::Sentences::ended_where))]
fn ended_where(rule: Rule) -> &'static str
    ensures { result.now ≡ ended_where rule }
{
    match rule {
        Rule::Term => OPEN_BRACKET,
        Rule::Form => NO_TERM,
        _ => broken_where(rule),
    }
}
