//! How many digits after the point a number has.
ghost use Rattle.std.specs.Prelude.{◌≡◌, ◌+◌};
ghost use Rattle.answer_units.specs.ExpressionScales.{scale_at};
ghost use Rattle.answer_units.specs.Scales.{alike, changed, column_scale, few_digits};
ghost use Rattle.answer_units.specs.Scales.{literal_scale, product_scale, quotient_scale, scale_by};

use item_schema::Kind;
use language_base::BinaryOp;

/// The most digits after the point that a column may have.
const MAX_DIGITS: u8 = 9;

/// How many digits after the point a number has, which is counted in its smallest unit.
#[derive(Clone, Copy, Debug, PartialEq, Eq)]
pub enum Scale {
    /// As many as are wanted: it is made of constants alone.
    Any,
    /// The same, where a constant is a multiple of ten. As a factor or a divisor it may change the
    /// unit.
    Round,
    Digits(u8),
    /// It cannot be told.
    Unknown,
}

impl Scale {
    fn of_digits(digits: u8) -> Scale
        ensures { result ≡ few_digits digits }
    {
        if digits <= MAX_DIGITS {
            Scale::Digits(digits)
        } else {
            Scale::Unknown
        }
    }

    // That of a number with so many digits whose unit may be changed.
    fn changed(digits: u8) -> Scale
        ensures { result ≡ changed digits }
    {
        if digits == 0 {
            Scale::Digits(0)
        } else {
            Scale::Unknown
        }
    }

    /// That of a constant.
    pub fn of_literal(number: i64) -> Scale
        ensures { result ≡ literal_scale number }
    {
        if number != 0 && number % 10 == 0 {
            Scale::Round
        } else {
            Scale::Any
        }
    }

    /// That of what stands in a column.
    pub fn of_column(kind: Kind) -> Scale
        ensures { result ≡ column_scale kind }
    {
        match kind {
            Kind::Int => Scale::Digits(0),
            Kind::Fixed(digits) => Scale::of_digits(digits),
            Kind::Text | Kind::Number | Kind::Table => Scale::Unknown,
        }
    }

    /// That at a place, counted from 0.
    pub fn at(scales: &[Scale], place: usize) -> Scale
        ensures { result ≡ scale_at scales.now place }
    {
        match scales.get(place) {
            Some(scale) => *scale,
            None => Scale::Unknown,
        }
    }

    /// That of a number that is one of two, or their sum or difference.
    pub fn alike(self, other: Scale) -> Scale
        ensures { result ≡ alike self other }
    {
        match (self, other) {
            (Scale::Any, other) => other,
            (scale, Scale::Any) => scale,
            (Scale::Round, other) => other,
            (Scale::Digits(digits), Scale::Round) => Scale::Digits(digits),
            (Scale::Digits(first), Scale::Digits(second)) if first == second => self,
            _ => Scale::Unknown,
        }
    }

    fn times(self, other: Scale) -> Scale
        ensures { result ≡ product_scale self other }
    {
        match (self, other) {
            (Scale::Any, other) => other,
            (scale, Scale::Any) => scale,
            (Scale::Round, Scale::Round) => Scale::Round,
            (Scale::Round, Scale::Digits(digits)) => Scale::changed(digits),
            (Scale::Digits(digits), Scale::Round) => Scale::changed(digits),
            (Scale::Digits(first), Scale::Digits(second)) => digits_together(first, second),
            _ => Scale::Unknown,
        }
    }

    fn over(self, other: Scale) -> Scale
        ensures { result ≡ quotient_scale self other }
    {
        match (self, other) {
            (scale, Scale::Any) => scale,
            (Scale::Any | Scale::Round, Scale::Round) => Scale::Round,
            (Scale::Any | Scale::Round, Scale::Digits(digits)) => Scale::changed(digits),
            (Scale::Digits(digits), Scale::Round) => Scale::changed(digits),
            (Scale::Digits(first), Scale::Digits(second)) if second <= first => {
                Scale::Digits(first - second)
            }
            _ => Scale::Unknown,
        }
    }

    /// That of what an operator gives on two numbers.
    pub fn by(self, op: BinaryOp, other: Scale) -> Scale
        ensures { result ≡ scale_by op self other }
    {
        match op {
            BinaryOp::Add | BinaryOp::Sub | BinaryOp::Rem | BinaryOp::Min | BinaryOp::Max => {
                self.alike(other)
            }
            BinaryOp::Mul => self.times(other),
            BinaryOp::Div => self.over(other),
        }
    }
}

fn digits_together(first: u8, second: u8) -> Scale
    ensures { result ≡ few_digits (first + second) }
{
    match first.checked_add(second) {
        Some(digits) => Scale::of_digits(digits),
        None => Scale::Unknown,
    }
}
