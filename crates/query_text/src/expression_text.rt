//! Expressions as texts.
ghost use Rattle.std.specs.Prelude.{◌≡◌, ◌++◌, pos, codes, OnOk};
ghost use Rattle.std.specs.Fmt.{signed_decimal};
ghost use Rattle.query_parser.specs.Printing.{string_text};
ghost use Rattle.query_syntax.specs.Words.{binary_word, compare_word, unary_word};
ghost use Rattle.query_text.specs.Forms.{both, called, expression_text, expressions_text};
ghost use Rattle.query_text.specs.Forms.{rest_text};
ghost use Rattle.query_text.specs.Memory.{HasTextKeys, HaveTextKeys};
ghost use Rattle.query_text.specs.Names.{var_name};
ghost use Rattle.query_text.specs.Namings.{naming_of};
ghost use Rattle.expressions.specs.Expressions.{choice, plain_of, plain_parts};
ghost use Rattle.value_ops.specs.Texts.{IsText};

use crate::naming::Naming;
use crate::pieces::{close, comma, open, write_number, write_string};
use expressions::{Expr, Var};
use language_base::{BinaryOp, Bytes, Compare, UnaryOp};
use std::alloc::AllocError;

/// Appends the expression, in which names are those of the columns.
#[cycle(expression)]
pub(crate) fn write_expression(
    value: &Expr,
    naming: &Naming<'_>,
    text: &mut Vec<u8>,
) -> Result<(), AllocError>
    ensures text { OnOk result (text.new.items
        ≡ text.old.items ++ expression_text (naming_of naming.now) (plain_of value.now)) }
    ensures keys { OnOk result (HasTextKeys (plain_of value.now)) }
{
    match value {
        Expr::Literal(number) => write_number(*number, text),
        Expr::Read(name) => naming.write_var(*name, text),
        Expr::Unary(op, inner) => write_one(unary_word(*op), inner, naming, text),
        Expr::Binary(op, left, right) => write_two(binary_word(*op), left, right, naming, text),
        Expr::If(test, left, right, met, other) => {
            write_choice(*test, left, right, met, other, naming, text)
        }
        Expr::Sum(name) => write_name(b"tsum", *name, naming, text),
        Expr::Count(name) => write_name(b"tcount", *name, naming, text),
        Expr::Most(name, first) => write_over(b"tmax", *name, first, naming, text),
        Expr::Least(name, first) => write_over(b"tmin", *name, first, naming, text),
        Expr::Get(name, key, other) => write_entry(*name, key, other, naming, text),
        Expr::Rec(parts) => write_record(parts.as_slice(), naming, text),
        Expr::Part(name, place) => write_part(*name, *place, naming, text),
    }
}

#[cycle(expression)]
fn write_one(
    word: &[u8],
    inner: &Expr,
    naming: &Naming<'_>,
    text: &mut Vec<u8>,
) -> Result<(), AllocError>
    ensures text { OnOk result (text.new.items ≡ text.old.items
        ++ called word.now (expression_text (naming_of naming.now) (plain_of inner.now))) }
    ensures keys { OnOk result (HasTextKeys (plain_of inner.now)) }
{
    open(word, text)?;
    write_expression(inner, naming, text)?;
    close(text)
}

/// Appends two expressions, one after the other.
#[cycle(expression)]
fn write_pair(
    left: &Expr,
    right: &Expr,
    naming: &Naming<'_>,
    text: &mut Vec<u8>,
) -> Result<(), AllocError>
    ensures text { OnOk result (text.new.items ≡ text.old.items
        ++ both (expression_text (naming_of naming.now) (plain_of left.now))
        (expression_text (naming_of naming.now) (plain_of right.now))) }
    ensures keys { OnOk result (HasTextKeys (plain_of left.now) × HasTextKeys (plain_of right.now)) }
{
    write_expression(left, naming, text)?;
    comma(text)?;
    write_expression(right, naming, text)
}

#[cycle(expression)]
fn write_two(
    word: &[u8],
    left: &Expr,
    right: &Expr,
    naming: &Naming<'_>,
    text: &mut Vec<u8>,
) -> Result<(), AllocError>
    ensures text { OnOk result (text.new.items ≡ text.old.items ++ called word.now
        (both (expression_text (naming_of naming.now) (plain_of left.now))
        (expression_text (naming_of naming.now) (plain_of right.now)))) }
    ensures keys { OnOk result (HasTextKeys (plain_of left.now) × HasTextKeys (plain_of right.now)) }
{
    open(word, text)?;
    write_pair(left, right, naming, text)?;
    close(text)
}

#[cycle(expression)]
fn write_choice(
    test: Compare,
    left: &Expr,
    right: &Expr,
    met: &Expr,
    other: &Expr,
    naming: &Naming<'_>,
    text: &mut Vec<u8>,
) -> Result<(), AllocError>
    ensures text { OnOk result (text.new.items ≡ text.old.items ++ expression_text (naming_of naming.now)
        (choice test (plain_of left.now) (plain_of right.now)
        (plain_of met.now) (plain_of other.now))) }
    ensures keys { OnOk result (HasTextKeys (choice test (plain_of left.now)
        (plain_of right.now) (plain_of met.now) (plain_of other.now))) }
{
    open(b"if", text)?;
    write_two(compare_word(test), left, right, naming, text)?;
    comma(text)?;
    write_pair(met, other, naming, text)?;
    close(text)
}

fn write_name(
    word: &[u8],
    name: Var,
    naming: &Naming<'_>,
    text: &mut Vec<u8>,
) -> Result<(), AllocError>
    ensures { OnOk result (text.new.items
        ≡ text.old.items ++ called word.now (var_name (naming_of naming.now) name)) }
{
    open(word, text)?;
    naming.write_var(name, text)?;
    close(text)
}

#[cycle(expression)]
fn write_over(
    word: &[u8],
    name: Var,
    first: &Expr,
    naming: &Naming<'_>,
    text: &mut Vec<u8>,
) -> Result<(), AllocError>
    ensures text { OnOk result (text.new.items ≡ text.old.items ++ called word.now
        (both (var_name (naming_of naming.now) name)
        (expression_text (naming_of naming.now) (plain_of first.now)))) }
    ensures keys { OnOk result (HasTextKeys (plain_of first.now)) }
{
    open(word, text)?;
    naming.write_var(name, text)?;
    comma(text)?;
    write_expression(first, naming, text)?;
    close(text)
}

#[cycle(expression)]
fn write_entry(
    name: Var,
    key: &Bytes,
    other: &Expr,
    naming: &Naming<'_>,
    text: &mut Vec<u8>,
) -> Result<(), AllocError>
    ensures text { OnOk result (text.new.items ≡ text.old.items ++ called (codes "tget")
        (both (var_name (naming_of naming.now) name)
        (both (string_text key.now)
        (expression_text (naming_of naming.now) (plain_of other.now))))) }
    ensures keys { OnOk result (IsText key.now × HasTextKeys (plain_of other.now)) }
{
    open(b"tget", text)?;
    naming.write_var(name, text)?;
    comma(text)?;
    write_string(key.as_slice(), text)?;
    comma(text)?;
    write_expression(other, naming, text)?;
    close(text)
}

#[cycle(expression)]
fn write_record(parts: &[Expr], naming: &Naming<'_>, text: &mut Vec<u8>) -> Result<(), AllocError>
    ensures text { OnOk result (text.new.items ≡ text.old.items
        ++ called (codes "rec") (expressions_text (naming_of naming.now) (plain_parts parts.now))) }
    ensures keys { OnOk result (HaveTextKeys (plain_parts parts.now)) }
{
    open(b"rec", text)?;
    write_parts(parts, naming, text)?;
    close(text)
}

#[cycle(expression)]
fn write_parts(parts: &[Expr], naming: &Naming<'_>, text: &mut Vec<u8>) -> Result<(), AllocError>
    ensures text { OnOk result (text.new.items
        ≡ text.old.items ++ expressions_text (naming_of naming.now) (plain_parts parts.now)) }
    ensures keys { OnOk result (HaveTextKeys (plain_parts parts.now)) }
{
    match parts {
        [] => Ok(()),
        [first, rest @ ..] => {
            write_expression(first, naming, text)?;
            write_rest(rest, naming, text)
        }
    }
}

/// Appends expressions after another.
#[cycle(expression)]
fn write_rest(parts: &[Expr], naming: &Naming<'_>, text: &mut Vec<u8>) -> Result<(), AllocError>
    ensures text { OnOk result (text.new.items
        ≡ text.old.items ++ rest_text (naming_of naming.now) (plain_parts parts.now)) }
    ensures keys { OnOk result (HaveTextKeys (plain_parts parts.now)) }
{
    match parts {
        [] => Ok(()),
        [first, rest @ ..] => {
            comma(text)?;
            write_expression(first, naming, text)?;
            write_rest(rest, naming, text)
        }
    }
}

fn write_part(
    name: Var,
    place: u32,
    naming: &Naming<'_>,
    text: &mut Vec<u8>,
) -> Result<(), AllocError>
    ensures { OnOk result (text.new.items ≡ text.old.items ++ called (codes "part")
        (both (var_name (naming_of naming.now) name) (signed_decimal (pos place)))) }
{
    open(b"part", text)?;
    naming.write_var(name, text)?;
    comma(text)?;
    write_number(i64::from(place), text)?;
    close(text)
}

fn unary_word(op: UnaryOp) -> &'static [u8]
    ensures { result.now ≡ unary_word op }
{
    match op {
        UnaryOp::Neg => b"neg",
        UnaryOp::Abs => b"abs",
    }
}

fn binary_word(op: BinaryOp) -> &'static [u8]
    ensures { result.now ≡ binary_word op }
{
    match op {
        BinaryOp::Add => b"add",
        BinaryOp::Sub => b"sub",
        BinaryOp::Mul => b"mul",
        BinaryOp::Div => b"div",
        BinaryOp::Rem => b"rem",
        BinaryOp::Min => b"min",
        BinaryOp::Max => b"max",
    }
}

fn compare_word(test: Compare) -> &'static [u8]
    ensures { result.now ≡ compare_word test }
{
    match test {
        Compare::Lt => b"lt",
        Compare::Le => b"le",
        Compare::Gt => b"gt",
        Compare::Ge => b"ge",
        Compare::Eq => b"eq",
        Compare::Ne => b"ne",
    }
}
