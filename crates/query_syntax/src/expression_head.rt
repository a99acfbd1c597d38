//! The calls that are expressions and comparisons, by their head words.
ghost use Rattle.std.specs.Prelude.{◌≡◌};
ghost use Rattle.query_forms.specs.declared.term_place.TermPlace.TheVariants as place;
ghost use Rattle.query_syntax.specs.ExpressionHeads.{HasRecordSize, comparisons, compare_places};
ghost use Rattle.query_syntax.specs.ExpressionHeads.{expression_places, expression_word};
ghost use Rattle.query_syntax.specs.ExpressionHeads.{expressions};
ghost use Rattle.query_syntax.specs.Fits.{AllFit, HasForm};
ghost use Rattle.query_syntax.specs.Rows.{head_in};
ghost use Rattle.query_syntax.specs.Words.{compare_word};

use crate::head_table::{Row, head_in};
use crate::{BinaryOp, Compare, Extremum, Summary, UnaryOp};
use query_parser::Term;

/// A call that is an expression.
#[derive(Clone, Copy)]
pub(crate) enum ExpressionHead {
    Unary(UnaryOp),
    Binary(BinaryOp),
    If,
    Summary(Summary),
    Extremum(Extremum),
    Get,
    Part,
    /// A record of this many parts.
    Record(usize),
}

const EXPRESSIONS: &[Row<ExpressionHead>] = &[
    Row(ExpressionHead::Unary(UnaryOp::Neg), b"neg", 1),
    Row(ExpressionHead::Unary(UnaryOp::Abs), b"abs", 1),
    Row(ExpressionHead::Binary(BinaryOp::Add), b"add", 2),
    Row(ExpressionHead::Binary(BinaryOp::Sub), b"sub", 2),
    Row(ExpressionHead::Binary(BinaryOp::Mul), b"mul", 2),
    Row(ExpressionHead::Binary(BinaryOp::Div), b"div", 2),
    Row(ExpressionHead::Binary(BinaryOp::Rem), b"rem", 2),
    Row(ExpressionHead::Binary(BinaryOp::Min), b"min", 2),
    Row(ExpressionHead::Binary(BinaryOp::Max), b"max", 2),
    Row(ExpressionHead::If, b"if", 3),
    Row(ExpressionHead::Summary(Summary::Sum), b"tsum", 1),
    Row(ExpressionHead::Summary(Summary::Count), b"tcount", 1),
    Row(ExpressionHead::Extremum(Extremum::Max), b"tmax", 2),
    Row(ExpressionHead::Extremum(Extremum::Min), b"tmin", 2),
    Row(ExpressionHead::Get, b"tget", 3),
    Row(ExpressionHead::Part, b"part", 2),
    Row(ExpressionHead::Record(2), b"rec", 2),
    Row(ExpressionHead::Record(3), b"rec", 3),
    Row(ExpressionHead::Record(4), b"rec", 4),
    Row(ExpressionHead::Record(5), b"rec", 5),
    Row(ExpressionHead::Record(6), b"rec", 6),
    Row(ExpressionHead::Record(7), b"rec", 7),
    Row(ExpressionHead::Record(8), b"rec", 8),
];

fn expression_named(word: &[u8], count: usize) -> Option<ExpressionHead>
    ensures { result ≡ head_in expressions word.now count }
{
    head_in(EXPRESSIONS, word, count)
}

pub(crate) fn expression_head(word: &[u8], arguments: &[Term]) -> ExpressionHead
    requires { HasForm place.Expr word.now arguments.now }
    ensures word { word.now ≡ expression_word result }
    ensures places { AllFit (expression_places result) arguments.now }
    ensures size { HasRecordSize result }
{
    match expression_named(word, arguments.len()) {
        Some(head) => head,
        None => unreachable!(),
    }
}

const COMPARISONS: &[Row<Compare>] = &[
    Row(Compare::Lt, b"lt", 2),
    Row(Compare::Le, b"le", 2),
    Row(Compare::Gt, b"gt", 2),
    Row(Compare::Ge, b"ge", 2),
    Row(Compare::Eq, b"eq", 2),
    Row(Compare::Ne, b"ne", 2),
];

fn comparison_named(word: &[u8], count: usize) -> Option<Compare>
    ensures { result ≡ head_in comparisons word.now count }
{
    head_in(COMPARISONS, word, count)
}

pub(crate) fn comparison_head(word: &[u8], arguments: &[Term]) -> Compare
    requires { HasForm place.Compare word.now arguments.now }
    ensures word { word.now ≡ compare_word result }
    ensures places { AllFit (compare_places result) arguments.now }
{
    match comparison_named(word, arguments.len()) {
        Some(compare) => compare,
        None => unreachable!(),
    }
}
