//! Predicates on items.
use value_ops::Bytes;

/// A test of the field in a column, or tests that are joined. Columns are counted from 0.
#[derive(Drop)]
pub enum Pred {
    Any,
    Eq(u32, i64),
    Ne(u32, i64),
    Lt(u32, i64),
    Le(u32, i64),
    Gt(u32, i64),
    Ge(u32, i64),
    /// From the first number to the second, both included.
    Between(u32, i64, i64),
    EqText(u32, Bytes),
    NeText(u32, Bytes),
    /// The field is a number, and neither `overflow` nor `divzero`.
    IsNum(u32),
    And(Box<Pred>, Box<Pred>),
    Or(Box<Pred>, Box<Pred>),
    Not(Box<Pred>),
}
