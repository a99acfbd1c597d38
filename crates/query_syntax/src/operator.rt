//! The operators of table forms, predicates and rates.

/// What is made of all values of a table.
#[derive(Clone, Copy, Debug)]
pub enum Summary {
    Sum,
    Count,
}

/// Which of a table's values and one more is taken.
#[derive(Clone, Copy, Debug)]
pub enum Extremum {
    Max,
    Min,
}

/// Whether a field is to be a literal, or is not.
#[derive(Clone, Copy, Debug)]
pub enum Equality {
    Eq,
    Ne,
}

/// How a field is to lie to a number.
#[derive(Clone, Copy, Debug)]
pub enum Order {
    Lt,
    Le,
    Gt,
    Ge,
}

/// How two predicates are joined.
#[derive(Clone, Copy, Debug)]
pub enum Connective {
    And,
    Or,
}

/// How two rates are joined.
#[derive(Clone, Copy, Debug)]
pub enum Join {
    /// One word after another.
    Seq,
    /// A word of either.
    Alt,
}
