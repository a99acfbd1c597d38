//! The totals of numbers that come one after the other.
ghost use Rattle.std.specs.Prelude.{◌≡◌, ℤ, List, [], ◌∷◌, ◌++◌};
ghost use Rattle.value_ops.specs.Scalar.{add, total};
ghost use Rattle.value_ops.specs.declared.scalar.Scalar.{Scalar};

/// A total begins with its first value, and each number that follows is added to what was before.
pub fn totals_continue()
    ensures begins { (first : Scalar) → total first [] ≡ first }
    ensures continues { (first : Scalar) (numbers : List ℤ) (number : ℤ) →
        total first (numbers ++ number ∷ []) ≡ add (total first numbers) (Scalar.Number number) }
{}
