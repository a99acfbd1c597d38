//! What holds of every expression.
ghost use Rattle.std.specs.Prelude.{◌≡◌, Some};
ghost use Rattle.value_ops.specs.declared.value.Value.{Value};
ghost use Rattle.value_ops.specs.declared.value.ValueType.{ValueType};
ghost use Rattle.expressions.specs.Evaluation.{Inputs, value_of};
ghost use Rattle.expressions.specs.Expressions.{Expression};
ghost use Rattle.value_ops.specs.Types.{IsValueOf, type_of};
ghost use Rattle.expressions.specs.Typing.{AreValues, HasType, types_of};

/// A well-typed expression gives a value, and one of its type where what its names stand
/// for is in range.
pub fn typed_expressions_have_values()
    ensures value { (inputs : Inputs) (expression : Expression) (type : ValueType)
        → HasType (types_of inputs) expression type
        → (value : Value) × (value_of inputs expression ≡ Some value) × (type_of value ≡ type) }
    ensures range { (inputs : Inputs) (expression : Expression) (type : ValueType) (value : Value)
        → AreValues inputs → HasType (types_of inputs) expression type
        → value_of inputs expression ≡ Some value → IsValueOf type value }
{}
