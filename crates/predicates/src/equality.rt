//! Whether predicates are equal.
ghost use Rattle.std.specs.Prelude.{◌≡◌, ◌↔◌, IsTrue};
ghost use Rattle.predicates.specs.Plain.{plain_of};
ghost use Rattle.predicates.specs.Predicates.{between, comparison, conjunction, disjunction};
ghost use Rattle.predicates.specs.Predicates.{eq_text, is_num, ne_text, negation};

use crate::Pred;
use language_base::Compare;
use value_ops::Bytes;

impl Pred {
    /// Whether both are made of the same tests in the same way. Predicates that only have the same
    /// truth may differ.
    #[cycle(same)]
    pub(crate) fn is_same(&self, other: &Pred) -> bool
        ensures { IsTrue result ↔ (plain_of self.now ≡ plain_of other.now) }
    {
        match self {
            Pred::Any => matches!(other, Pred::Any),
            Pred::Eq(column, number) => other.is_comparison(Compare::Eq, *column, *number),
            Pred::Ne(column, number) => other.is_comparison(Compare::Ne, *column, *number),
            Pred::Lt(column, number) => other.is_comparison(Compare::Lt, *column, *number),
            Pred::Le(column, number) => other.is_comparison(Compare::Le, *column, *number),
            Pred::Gt(column, number) => other.is_comparison(Compare::Gt, *column, *number),
            Pred::Ge(column, number) => other.is_comparison(Compare::Ge, *column, *number),
            Pred::Between(column, low, high) => other.is_between(*column, *low, *high),
            Pred::EqText(column, text) => other.is_eq_text(*column, text),
            Pred::NeText(column, text) => other.is_ne_text(*column, text),
            Pred::IsNum(column) => other.asks_number(*column),
            Pred::And(left, right) => other.is_and(left, right),
            Pred::Or(left, right) => other.is_or(left, right),
            Pred::Not(inner) => other.is_not(inner),
        }
    }

    fn is_comparison(&self, compare: Compare, column: u32, number: i64) -> bool
        ensures { IsTrue result ↔ (comparison compare column number ≡ plain_of self.now) }
    {
        match (compare, self) {
            (Compare::Eq, Pred::Eq(others, second))
            | (Compare::Ne, Pred::Ne(others, second))
            | (Compare::Lt, Pred::Lt(others, second))
            | (Compare::Le, Pred::Le(others, second))
            | (Compare::Gt, Pred::Gt(others, second))
            | (Compare::Ge, Pred::Ge(others, second)) => column == *others && number == *second,
            _ => false,
        }
    }

    fn is_between(&self, column: u32, low: i64, high: i64) -> bool
        ensures { IsTrue result ↔ (between column low high ≡ plain_of self.now) }
    {
        match self {
            Pred::Between(others, least, greatest) => {
                column == *others && low == *least && high == *greatest
            }
            _ => false,
        }
    }

    fn is_eq_text(&self, column: u32, text: &Bytes) -> bool
        ensures { IsTrue result ↔ (eq_text column text.now ≡ plain_of self.now) }
    {
        match self {
            Pred::EqText(others, second) => {
                column == *others && text.as_slice() == second.as_slice()
            }
            _ => false,
        }
    }

    fn is_ne_text(&self, column: u32, text: &Bytes) -> bool
        ensures { IsTrue result ↔ (ne_text column text.now ≡ plain_of self.now) }
    {
        match self {
            Pred::NeText(others, second) => {
                column == *others && text.as_slice() == second.as_slice()
            }
            _ => false,
        }
    }

    fn asks_number(&self, column: u32) -> bool
        ensures { IsTrue result ↔ (is_num column ≡ plain_of self.now) }
    {
        match self {
            Pred::IsNum(others) => column == *others,
            _ => false,
        }
    }

    #[cycle(same)]
    fn is_and(&self, first: &Pred, second: &Pred) -> bool
        ensures { IsTrue result
            ↔ (conjunction (plain_of first.now) (plain_of second.now) ≡ plain_of self.now) }
    {
        match self {
            Pred::And(left, right) => first.is_same(left) && second.is_same(right),
            _ => false,
        }
    }

    #[cycle(same)]
    fn is_or(&self, first: &Pred, second: &Pred) -> bool
        ensures { IsTrue result
            ↔ (disjunction (plain_of first.now) (plain_of second.now) ≡ plain_of self.now) }
    {
        match self {
            Pred::Or(left, right) => first.is_same(left) && second.is_same(right),
            _ => false,
        }
    }

    #[cycle(same)]
    fn is_not(&self, inner: &Pred) -> bool
        ensures { IsTrue result ↔ (negation (plain_of inner.now) ≡ plain_of self.now) }
    {
        match self {
            Pred::Not(others) => inner.is_same(others),
            _ => false,
        }
    }
}
