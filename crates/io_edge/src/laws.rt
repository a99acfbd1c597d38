//! What holds of the lines of every byte list.
ghost use Rattle.std.specs.Prelude.{◌≡◌, ℕ, Bool, List};
ghost use Rattle.io_edge.specs.Lines.{Shown, AreLines, lines};

/// Each byte list has exactly one list of lines, and `lines` computes it.
pub fn one_list_of_lines()
    ensures some { (bytes : List ℕ) (ended : Bool) → AreLines bytes ended (lines bytes ended) }
    ensures only { (bytes : List ℕ) (ended : Bool) (shown : List Shown)
        → AreLines bytes ended shown → shown ≡ lines bytes ended }
{}
