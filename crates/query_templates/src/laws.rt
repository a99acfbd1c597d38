//! What a file without templates is.
ghost use Rattle.std.specs.Prelude.{◌≡◌, ℕ, List, None};
ghost use Rattle.query_trees.specs.Trees.{Trees};
ghost use Rattle.query_templates.specs.File.{first_refusal, plain_terms};
ghost use Rattle.query_templates.specs.Fronts.{IsOtherFirst};

/// A file whose first term is no definition comes out as it is.
pub fn a_file_without_definitions_is_plain()
    ensures plain { (text : List ℕ) (terms : Trees) → IsOtherFirst text terms
        → plain_terms text terms ≡ terms }
    ensures right { (text : List ℕ) (terms : Trees) → IsOtherFirst text terms
        → first_refusal text terms ≡ None }
{}
