//! Each file has one syntax tree, within the limits of the language.
ghost use Rattle.std.specs.Prelude.{◌≡◌, ℕ, None};
ghost use Rattle.query_forms.specs.File.{unfit_file};
ghost use Rattle.query_forms.specs.Terms.{Terms};
ghost use Rattle.query_syntax.specs.Files.{program_terms};
ghost use Rattle.query_syntax.specs.Limits.{IsWithin};
ghost use Rattle.query_syntax.specs.Programs.{Program};

/// Terms that have the form of a file write a program, and no other.
pub fn one_program()
    ensures some { (end : ℕ) (terms : Terms) → unfit_file end terms ≡ None
        → (program : Program) × (terms ≡ program_terms program) }
    ensures only { (program other : Program) → program_terms program ≡ program_terms other
        → program ≡ other }
{}

/// The stream of a file has at least one column and no more than a stream may have, and the numbers
/// of digits are those that the language has.
pub fn streams_are_within_the_limits()
    ensures { (end : ℕ) (program : Program) → unfit_file end (program_terms program) ≡ None
        → IsWithin program.stream }
{}
