//! What the nodes of a plain file come from.
ghost use Rattle.std.specs.Prelude.{◌≡◌, ℕ, List, None};
ghost use Rattle.query_trees.specs.Trees.{Trees};
ghost use Rattle.query_templates.specs.File.{plain_terms};
ghost use Rattle.query_templates.specs.Fronts.{IsOtherFirst};
ghost use Rattle.query_templates.specs.Origins.{came_of, node_places, origins, places_of};

/// Each node of the plain file has an origin, and it is written at its place.
pub fn origins_are_of_the_plain_nodes()
    ensures { (text : List ℕ) (terms : Trees)
        → places_of (origins text terms) ≡ node_places (plain_terms text terms) }
{}

/// In a file whose first term is no definition, nothing came of a use.
pub fn a_plain_file_came_of_no_use()
    ensures { (text : List ℕ) (terms : Trees) → IsOtherFirst text terms
        → origins text terms ≡ came_of None (node_places terms) }
{}
