//! What holds of every text.
ghost use Rattle.std.specs.Prelude.{◌<◌, ℕ, List};
ghost use Rattle.std.specs.List.{AllByRecursion};
ghost use Rattle.value_ops.specs.Texts.{IsText};

/// Each number of a text is a byte, and numbers that are bytes are a text.
pub fn texts_are_bytes()
    ensures each { (numbers : List ℕ) → IsText numbers → AllByRecursion (λ n. n < 256) numbers }
    ensures all { (numbers : List ℕ) → AllByRecursion (λ n. n < 256) numbers → IsText numbers }
{}
