//! What expressions give.
ghost use Rattle.std.specs.Prelude.{◌≡◌, ◌≢◌, Some, IsOk, IfOk, IfSome, fold, length, pos};
ghost use Rattle.std.specs.Option.{option_copied};
ghost use Rattle.value_ops.specs.declared.value.Value.TheVariants as value;
ghost use Rattle.value_ops.specs.declared.value.ValueType.{ValueType};
ghost use Rattle.value_ops.specs.declared.value.ValueType.TheVariants as type;
ghost use Rattle.value_ops.specs.Entries.{values_of};
ghost use Rattle.expressions.specs.Evaluation.{given, of_both, scalar_at, scalar_of, scalars_of};
ghost use Rattle.expressions.specs.Evaluation.{table_in, value_named, value_of};
ghost use Rattle.expressions.specs.Expressions.{binary, choice, plain_of, plain_parts};
ghost use Rattle.value_ops.specs.Operators.{binary_of};
ghost use Rattle.value_ops.specs.Scalar.{in_range};
ghost use Rattle.expressions.specs.Shown.{inputs_of};
ghost use Rattle.few_parts.specs.Sizes.{IsRecordSize};
ghost use Rattle.expressions.specs.Typing.{AreNumbers, HasType, IsNumber, type_named, types_of};

use crate::inputs::Inputs;
use crate::{Expr, Var};
use language_base::{BinaryOp, Bytes, Compare};
use std::alloc::{AllocError, Global};
use value_ops::{Field, MAX_PARTS, Rec, Scalar, Table, Value};

impl Expr {
    /// The scalar that a number expression gives.
    pub fn eval_number(
        &self,
        fields: &[Field],
        left: Option<&Value>,
        right: Option<&Value>,
    ) -> Scalar
        requires { let inputs = given fields.now (option_copied left) (option_copied right) in
            IsNumber (types_of inputs) (plain_of self.now) }
        ensures { let inputs = given fields.now (option_copied left.entry)
            (option_copied right.entry)
            in scalar_of inputs (plain_of self.now) ≡ Some result }
    {
        scalar(
            self,
            &Inputs {
                fields,
                left,
                right,
            },
        )
    }

    /// The scalar that the expression gives, if it gives one. It comes in registers, where a value
    /// would be moved through memory.
    #[inline(always)]
    pub fn eval_scalar(
        &self,
        fields: &[Field],
        left: Option<&Value>,
        right: Option<&Value>,
    ) -> Option<Scalar>
        requires { let inputs = given fields.now (option_copied left) (option_copied right) in
            (type : ValueType) × HasType (types_of inputs) (plain_of self.now) type }
        ensures { let inputs = given fields.now (option_copied left.entry)
            (option_copied right.entry) in IfSome result (λ found.
            value_of inputs (plain_of self.now) ≡ Some (value.Scalar found)) }
    {
        let inputs = Inputs {
            fields,
            left,
            right,
        };
        match self {
            Expr::Read(name) => inputs.scalar(*name),
            Expr::Rec(_) => None,
            _ => Some(scalar(self, &inputs)),
        }
    }

    /// The value that an expression gives. Only a table takes memory.
    #[inline(always)]
    pub fn eval(
        &self,
        alloc: Global,
        fields: &[Field],
        left: Option<&Value>,
        right: Option<&Value>,
    ) -> Result<Value, AllocError>
        requires { let inputs = given fields.now (option_copied left) (option_copied right) in
            (type : ValueType) × HasType (types_of inputs) (plain_of self.now) type }
        ensures value { let inputs = given fields.now (option_copied left.entry)
            (option_copied right.entry) in
            IfOk result (λ value. value_of inputs (plain_of self.now) ≡ Some value) }
        ensures no_memory { let inputs = given fields.now (option_copied left.entry)
            (option_copied right.entry) in
            (ty : ValueType) → ty ≢ type.Table
            → HasType (types_of inputs) (plain_of self.now) ty → IsOk result }
    {
        let inputs = Inputs {
            fields,
            left,
            right,
        };
        match self {
            Expr::Read(name) => inputs.copy_of(alloc, *name),
            Expr::Rec(parts) => Ok(Value::Rec(record(parts.as_slice(), &inputs))),
            _ => Ok(Value::Scalar(scalar(self, &inputs))),
        }
    }
}

// The scalar that the expression gives.
#[cycle(scalar)]
fn scalar(expr: &Expr, inputs: &Inputs) -> Scalar
    requires { IsNumber (types_of (inputs_of inputs.now)) (plain_of expr.now) }
    ensures { scalar_of (inputs_of inputs.now) (plain_of expr.now) ≡ Some result }
{
    match expr {
        Expr::Literal(number) => Scalar::Number(*number),
        Expr::Read(name) => inputs.known_scalar(*name),
        Expr::Unary(op, inner) => scalar(inner, inputs).unary(*op),
        Expr::Binary(op, left, right) => joined(*op, left, right, inputs),
        Expr::If(test, left, right, met, other) => {
            chosen(*test, left, right, met, other, inputs)
        }
        Expr::Sum(name) => folded(BinaryOp::Add, Scalar::Number(0), inputs.known_table(*name)),
        Expr::Count(name) => count(inputs.known_table(*name)),
        Expr::Most(name, left) => extremum(BinaryOp::Max, *name, left, inputs),
        Expr::Least(name, left) => extremum(BinaryOp::Min, *name, left, inputs),
        Expr::Get(name, key, other) => scalar_under(inputs.known_table(*name), key, other, inputs),
        Expr::Rec(_) => unreachable!(),
        Expr::Part(name, place) => inputs.known_part(*name, *place),
    }
}

// What the operator gives on two scalars.
#[cycle(scalar)]
#[inline(always)]
fn joined(op: BinaryOp, left: &Expr, right: &Expr, inputs: &Inputs) -> Scalar
    requires { IsNumber (types_of (inputs_of inputs.now))
        (binary op (plain_of left.now) (plain_of right.now)) }
    ensures { scalar_of (inputs_of inputs.now)
        (binary op (plain_of left.now) (plain_of right.now)) ≡ Some result }
{
    let left = scalar(left, inputs);
    left.binary(op, scalar(right, inputs))
}

// The scalar of what the comparison chooses. The other branch is not looked at.
#[cycle(scalar)]
#[inline(always)]
fn chosen(
    test: Compare,
    left: &Expr,
    right: &Expr,
    met: &Expr,
    other: &Expr,
    inputs: &Inputs,
) -> Scalar
    requires { IsNumber (types_of (inputs_of inputs.now)) (choice test
        (plain_of left.now) (plain_of right.now) (plain_of met.now) (plain_of other.now)) }
    ensures { scalar_of (inputs_of inputs.now) (choice test (plain_of left.now)
        (plain_of right.now) (plain_of met.now) (plain_of other.now)) ≡ Some result }
{
    match (scalar(left, inputs), scalar(right, inputs)) {
        (Scalar::Number(left), Scalar::Number(right)) => {
            if test.holds(left, right) {
                scalar(met, inputs)
            } else {
                scalar(other, inputs)
            }
        }
        (Scalar::Number(_), failed) => failed,
        (failed, _) => failed,
    }
}

// A first scalar, and then each of those of a table by an operator.
#[cycle(scalar)]
#[inline(always)]
fn extremum(op: BinaryOp, name: Var, first: &Expr, inputs: &Inputs) -> Scalar
    requires table { type_named (types_of (inputs_of inputs.now)) name ≡ Some type.Table }
    requires first { IsNumber (types_of (inputs_of inputs.now)) (plain_of first.now) }
    ensures { of_both (λ so_far entries. fold (binary_of op) so_far (values_of entries))
        (scalar_of (inputs_of inputs.now) (plain_of first.now))
        (table_in (value_named (inputs_of inputs.now) name)) ≡ Some result }
{
    let first = scalar(first, inputs);
    folded(op, first, inputs.known_table(name))
}

// The scalar under the key of the table, or else that of the other expression.
#[cycle(scalar)]
#[inline(always)]
fn scalar_under(table: &Table, key: &Bytes, other: &Expr, inputs: &Inputs) -> Scalar
    requires { IsNumber (types_of (inputs_of inputs.now)) (plain_of other.now) }
    ensures { scalar_at key.now (scalar_of (inputs_of inputs.now) (plain_of other.now))
        (Some table.now) ≡ Some result }
{
    match table.get(key.as_slice()) {
        Some(found) => found,
        None => scalar(other, inputs),
    }
}

// How many entries the table has.
#[inline(always)]
fn count(table: &Table) -> Scalar
    ensures { result ≡ in_range (pos (length table.now)) }
{
    i64::try_from(table.len()).map_or(Scalar::Overflow, Scalar::Number)
}

// A first scalar, and then each of the table's by an operator.
fn folded(op: BinaryOp, first: Scalar, table: &Table) -> Scalar
    ensures { result ≡ fold (binary_of op) first (values_of table.now) }
{
    let mut so_far = first;
    for i in 0..table.len() {
        so_far = so_far.binary(op, table.value(i));
    }
    so_far
}

// The record of what the expressions give.
fn record(parts: &[Expr], inputs: &Inputs) -> Rec
    requires size { IsRecordSize (length parts.now) }
    requires numbers { AreNumbers (types_of (inputs_of inputs.now)) (plain_parts parts.now) }
    ensures { scalars_of (inputs_of inputs.now) (plain_parts parts.now) ≡ Some result }
{
    let mut scalars = [Scalar::DivZero; MAX_PARTS];
    'parts: for (place, part) in parts.iter().enumerate() {
        scalars[place] = scalar(part, inputs);
    }
    Rec::new(&scalars[..parts.len()])
}
