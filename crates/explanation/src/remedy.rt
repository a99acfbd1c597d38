//! How to mend a query that breaks a rule.
ghost use Rattle.std.specs.Prelude.{◌≡◌};
ghost use Rattle.explanation.specs.Sentences.{mended_by};

use language_base::Rule;

const LONG: &str = "Make the text shorter: blanks and comments count too.";

const TOKEN: &str =
    "Write words, whole numbers, strings between double quotes, round brackets and commas.";

const TERM: &str =
    "Terms are words, numbers, strings and calls, as or(TERM, TERM), with commas between.";

const DEPTH: &str = "Nest fewer terms: join operands in pairs of pairs, and not one by one.";

const NAME: &str =
    "An atom's names are those in col; apply has x, and split, iter and combine x and y.";

const NESTED: &str =
    "Several columns make one key by key(NAME, ..); a compose may collect on its left side.";

const SIZE: &str =
    "Repeat a part less often, written out or by the name of a let, and nest fewer queries.";

const LITERAL: &str = "Write a number that is: the greatest of all is 9223372036854775807.";

const TYPE: &str =
    "Texts have eq and ne with a string, and are keys; other tests and arithmetic take numbers.";

const CELLS: &str = "Test in fewer, coarser predicates, or test fewer columns.";

const EMPTY: &str =
    "Drop it, or correct it: its tests contradict each other, or no number is so large or small.";

const CHOICE: &str =
    "Leave out of the tests of one operand what the other takes; two iters share the empty word.";

const SPLIT: &str =
    "Let an item begin the second part that the first can neither end with nor go on over.";

const ITER: &str =
    "Let each piece have an item that ends or begins it, and take the empty word out of it.";

const REACH: &str = "Test in fewer, coarser predicates, or repeat a part less often.";

const RATES: &str =
    "Give both operands the same predicates in the same places; expressions may differ.";

const COMPOSE: &str =
    "Give it one, as by an or; overflow and divzero are values: not(gt(..)) in place of le(..).";

/// For the rule `form`, the forms of the place say it, so nothing is said here.
#[tactic(auto, unfolding(crate::specs::Sentences::mended_by))]
pub(crate) fn mended_by(rule: Rule) -> &'static str
    ensures { result.now ≡ mended_by rule }
{
    match rule {
        Rule::Long => LONG,
        Rule::Token => TOKEN,
        Rule::Term => TERM,
        Rule::Depth => DEPTH,
        Rule::Form => "",
        Rule::Name => NAME,
        Rule::Nested => NESTED,
        Rule::Size => SIZE,
        Rule::Literal => LITERAL,
        Rule::Mismatch => TYPE,
        Rule::Cells => CELLS,
        Rule::Empty => EMPTY,
        Rule::Choice => CHOICE,
        Rule::Split => SPLIT,
        Rule::Iter => ITER,
        Rule::Reach => REACH,
        Rule::Rates => RATES,
        Rule::Compose => COMPOSE,
    }
}
