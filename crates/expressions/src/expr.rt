//! Expressions over the fields of an item, or over two values.
use few_parts::Few;
use language_base::{BinaryOp, Bytes, Compare, UnaryOp};

/// What a name stands for.
#[derive(Clone, Copy, Debug, PartialEq, Eq)]
pub enum Var {
    /// The field of a column, counted from 0.
    Field(u32),
    /// The left value, or the only one.
    Left,
    /// The right value.
    Right,
}

/// An expression of a scalar, a record of such expressions, or the name of a record or a table.
#[derive(Drop)]
pub enum Expr {
    Literal(i64),
    Read(Var),
    Unary(UnaryOp, Box<Expr>),
    Binary(BinaryOp, Box<Expr>, Box<Expr>),
    /// The third where the first two compare so, and else the fourth.
    If(Compare, Box<Expr>, Box<Expr>, Box<Expr>, Box<Expr>),
    /// The sum of a table's scalars.
    Sum(Var),
    /// How many entries a table has.
    Count(Var),
    /// The greatest of the expression and a table's scalars.
    Most(Var, Box<Expr>),
    /// The least of them.
    Least(Var, Box<Expr>),
    /// The scalar under a key of a table, or the expression where there is none.
    Get(Var, Bytes, Box<Expr>),
    /// The record of what the expressions give.
    Rec(Exprs),
    /// The part at a place of a record, counted from 1.
    Part(Var, u32),
}

/// Two to eight expressions.
pub type Exprs = Few<Expr>;
