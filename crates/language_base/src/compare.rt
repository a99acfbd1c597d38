//! The comparisons of two numbers.
ghost use Rattle.std.specs.Prelude.{◌≡◌};
ghost use Rattle.language_base.specs.Comparisons.{compares};

/// A comparison of two numbers.
#[derive(Clone, Copy, Debug, PartialEq, Eq)]
pub enum Compare {
    Lt,
    Le,
    Gt,
    Ge,
    Eq,
    Ne,
}

impl Compare {
    pub fn holds(self, first: i64, second: i64) -> bool
        ensures { result ≡ compares self first second }
    {
        match self {
            Compare::Lt => first < second,
            Compare::Le => first <= second,
            Compare::Gt => first > second,
            Compare::Ge => first >= second,
            Compare::Eq => first == second,
            Compare::Ne => first != second,
        }
    }
}
