//! What holds of the output for each query and all item bytes.
ghost use Rattle.std.specs.Prelude.{◌≡◌, ℕ, List, ◌++◌};
ghost use Rattle.value_ops.specs.Texts.{IsText};
ghost use Rattle.query_model.specs.Monitors.{Monitor};
ghost use Rattle.stream_run.specs.Meanings.{IsMeaning, Meaning};
ghost use Rattle.query_compiler.specs.Compiled.{KeepsRules};
ghost use Rattle.sqre_run.specs.Spoken.{Spoken, answering, output, whole_output};

/// What is written for the lines that an LF ends is a front of what is written for all lines.
pub fn whole_lines_come_first()
    ensures { (query : Spoken) (bytes : List ℕ) → (rest : List ℕ)
        × (output query bytes ≡ whole_output query bytes ++ rest) }
{}

/// For each query that keeps the rules some function gives its values; whichever does, the same is
/// written for the same bytes.
pub fn queries_have_meanings()
    ensures some { (monitor : Monitor) → KeepsRules monitor
        → (meaning : Meaning) × IsMeaning monitor meaning }
    ensures same { (monitor : Monitor) (one other : Meaning) (bytes : List ℕ) → KeepsRules monitor
        → IsMeaning monitor one → IsMeaning monitor other → IsText bytes
        → (output (answering one) bytes ≡ output (answering other) bytes)
        × (whole_output (answering one) bytes ≡ whole_output (answering other) bytes) }
{}
