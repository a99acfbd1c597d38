//! What holds of every query text.
ghost use Rattle.std.specs.Prelude.{◌≡◌, ℕ, List};
ghost use Rattle.type_checker.specs.Judged.{Verdict};
ghost use Rattle.query_compiler.specs.Compiled.{Compiles};

/// A query text is compiled to one query, or has one refusal.
pub fn one_query_per_text()
    ensures only { (text : List ℕ) (one other : Verdict) → Compiles text one → Compiles text other
        → other ≡ one }
{}
