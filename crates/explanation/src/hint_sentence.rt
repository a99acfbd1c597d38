//! A sentence for each hint.
ghost use Rattle.std.specs.Prelude.{◌≡◌};
ghost use Rattle.explanation.specs.HintSentences.{hint_sentence};

use crate::hint::Hint;

const POINT: &str =
    "A number has no point: in the smallest unit of a fixed(1) column, 37.5 is 375.";

const SINGLE_QUOTE: &str = "A string stands between double quotes.";

const SMART_QUOTE: &str = "A string stands between straight double quotes.";

const BAD_STRING: &str =
    "A string ends in a quote on its line; in it \\x and two digits write any other byte.";

const COMMENT: &str = "A comment begins with #, and ends with its line.";

const COMPARISON: &str =
    "A comparison is a call: gt(a, 5) for a > 5, le(a, 5) for a <= 5, eq(a, 5) for a = 5.";

const ARITHMETIC: &str =
    "Arithmetic is written as calls: add(x, y) for x + y, and sub, mul, div and rem.";

const CONNECTIVE: &str = "Predicates are joined by calls: and(P, Q), or(P, Q), not(P).";

const MARK: &str = "The notation has round brackets and commas, and no other marks.";

const BYTE_ORDER_MARK: &str =
    "A byte order mark stands here, which few editors show: save the text without it.";

const NOT_ASCII: &str =
    "Names have ASCII letters, digits and _; others stand in strings and comments alone.";

const MISSING_COMMA: &str = "A comma or a closing bracket is missing before this.";

const MISSING_TERM: &str = "An argument is missing before this, or no bracket is open here.";

const NO_HEAD: &str = "A bracket opens after a word, and there is none before this one.";

const EMPTY_WORD: &str = "The query of the empty word has its value: eps(0).";

const TWO_TYPES: &str =
    "Both queries give numbers, or both tables, or both records with equally many parts.";

const OTHER_TYPE: &str =
    "tsum, tcount, tmax, tmin and tget take a table, part a record with that part, others numbers.";

const ITERATED: &str =
    "An iter carries a number and takes numbers: two are joined by combine(F, G, rec(x, y)).";

const VALUE_CELLS: &str =
    "The tests on its right side tell too many of the left's values apart; eight parts always do.";

const RATE_ITEM: &str = "A predicate stands in each item(P) of its rate; some item is to meet it.";

#[tactic(auto, unfolding(crate::specs::HintSentences::hint_sentence))]
pub(crate) fn hint_sentence(hint: Hint) -> &'static str
    ensures { result.now ≡ hint_sentence hint }
{
    match hint {
        Hint::Point => POINT,
        Hint::SingleQuote => SINGLE_QUOTE,
        Hint::SmartQuote => SMART_QUOTE,
        Hint::BadString => BAD_STRING,
        Hint::Comment => COMMENT,
        Hint::Comparison => COMPARISON,
        Hint::Arithmetic => ARITHMETIC,
        Hint::Connective => CONNECTIVE,
        Hint::Mark => MARK,
        Hint::ByteOrderMark => BYTE_ORDER_MARK,
        Hint::NotAscii => NOT_ASCII,
        Hint::MissingComma => MISSING_COMMA,
        Hint::MissingTerm => MISSING_TERM,
        Hint::NoHead => NO_HEAD,
        Hint::EmptyWord => EMPTY_WORD,
        Hint::TwoTypes => TWO_TYPES,
        Hint::OtherType => OTHER_TYPE,
        Hint::Iterated => ITERATED,
        Hint::ValueCells => VALUE_CELLS,
        Hint::RateItem => RATE_ITEM,
    }
}
