//! What right names give.
ghost use Rattle.std.specs.Prelude.{◌≡◌, [], None};
ghost use Rattle.query_syntax.specs.Programs.{Program};
ghost use Rattle.query_lets.specs.Unfolded.{unfolded};
ghost use Rattle.query_lets.specs.Words.{names_in, wrong_name};

/// Where no name is wrong, the main query after lets has no name of a let.
pub fn right_names_are_replaced()
    ensures { (program : Program) → wrong_name program ≡ None → names_in (unfolded program) ≡ [] }
{}
