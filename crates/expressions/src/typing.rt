//! The types of expressions.
ghost use Rattle.std.specs.Prelude.{◌≡◌, ◌↔◌, IsTrue, IfSome, IfNone, Some, length};
ghost use Rattle.expressions.specs.Expressions.{plain_of, plain_parts, rec};
ghost use Rattle.expressions.specs.Shown.{shown_types};
ghost use Rattle.few_parts.specs.Sizes.{IsRecordSize};
ghost use Rattle.expressions.specs.Typing.{AreNumbers, HasPart, HasType, IsNumber, type_named};
ghost use Rattle.value_ops.specs.declared.value.ValueType.{ValueType};

use crate::{Expr, Var};
use value_ops::ValueType;

/// The types of what names stand for; a text has none.
#[derive(Drop)]
pub struct Types<'a> {
    pub fields: &'a [Option<ValueType>],
    pub left: Option<ValueType>,
    pub right: Option<ValueType>,
}

impl Types<'_> {
    fn named(&self, name: Var) -> Option<ValueType>
        ensures { result ≡ type_named (shown_types self.now) name }
    {
        match name {
            Var::Field(column) => self.fields.get(column as usize).copied().flatten(),
            Var::Left => self.left,
            Var::Right => self.right,
        }
    }

    fn has(&self, name: Var, wanted: ValueType) -> bool
        ensures { IsTrue result ↔ (type_named (shown_types self.now) name ≡ Some wanted) }
    {
        match (self.named(name), wanted) {
            (Some(ValueType::Number), ValueType::Number) => true,
            (Some(ValueType::Rec(size)), ValueType::Rec(wanted)) => size == wanted,
            (Some(ValueType::Table), ValueType::Table) => true,
            _ => false,
        }
    }

    fn has_part(&self, name: Var, place: u32) -> bool
        ensures { IsTrue result ↔ HasPart (type_named (shown_types self.now) name) place }
    {
        match self.named(name) {
            Some(ValueType::Rec(size)) => 1 <= place && place <= size,
            Some(ValueType::Number | ValueType::Table) | None => false,
        }
    }
}

impl Expr {
    /// The type of the expression, where it is well typed.
    pub fn type_in(&self, types: &Types) -> Option<ValueType>
        ensures some { IfSome result (HasType (shown_types types.now) (plain_of self.now)) }
        ensures none { IfNone result
            ((type : ValueType) → HasType (shown_types types.now) (plain_of self.now) type → ⊥) }
    {
        match self {
            Expr::Read(name) => types.named(*name),
            Expr::Rec(parts) => type_of_record(parts.as_slice(), types),
            _ => self.is_number(types).then_some(ValueType::Number),
        }
    }

    fn is_number(&self, types: &Types) -> bool
        ensures { IsTrue result ↔ IsNumber (shown_types types.now) (plain_of self.now) }
    {
        match self {
            // Naming the number reads it, and what is read is one of 64 bits.
            &Expr::Literal(_number) => true,
            Expr::Read(name) => types.has(*name, ValueType::Number),
            Expr::Unary(_, inner) => inner.is_number(types),
            Expr::Binary(_, left, right) => left.is_number(types) && right.is_number(types),
            Expr::If(_, left, right, met, other) => {
                left.is_number(types)
                    && right.is_number(types)
                    && met.is_number(types)
                    && other.is_number(types)
            }
            Expr::Sum(name) | Expr::Count(name) => types.has(*name, ValueType::Table),
            Expr::Most(name, inner) | Expr::Least(name, inner) | Expr::Get(name, _, inner) => {
                types.has(*name, ValueType::Table) && inner.is_number(types)
            }
            Expr::Rec(_) => false,
            Expr::Part(name, place) => types.has_part(*name, *place),
        }
    }
}

// The type of the record of the expressions, where each is a number.
fn type_of_record(parts: &[Expr], types: &Types) -> Option<ValueType>
    requires { IsRecordSize (length parts.now) }
    ensures some { IfSome result (HasType (shown_types types.now) (rec (plain_parts parts.now))) }
    ensures none { IfNone result ((type : ValueType)
        → HasType (shown_types types.now) (rec (plain_parts parts.now)) type → ⊥) }
{
    if are_numbers(parts, types) {
        Some(ValueType::Rec(parts.len() as u32))
    } else {
        None
    }
}

fn are_numbers(parts: &[Expr], types: &Types) -> bool
    ensures { IsTrue result ↔ AreNumbers (shown_types types.now) (plain_parts parts.now) }
{
    'parts: for part in parts {
        if !part.is_number(types) {
            return false;
        }
    }
    true
}
