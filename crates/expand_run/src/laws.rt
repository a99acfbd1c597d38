//! What holds of every text.
ghost use Rattle.std.specs.Prelude.{◌≡◌, ◌<◌, ℕ, List, All, length};
ghost use Rattle.query_parser.specs.TreeReading.{AreShallow};
ghost use Rattle.query_templates.specs.Origins.{node_places, origins};
ghost use Rattle.query_trees.specs.Trees.{Trees};
ghost use Rattle.template_expansion.specs.Meaning.{IsExpansionOf};

use query_templates::origins_are_of_the_plain_nodes;

/// The plain query has as many nodes as there are origins, so that each of them has its line.
pub fn each_node_has_an_origin()
    ensures { (text plain : List ℕ) (trees again : Trees) → All (λ byte. byte < 256) text
        → AreShallow text trees → IsExpansionOf text plain → AreShallow plain again
        → length (origins text trees) ≡ length (node_places again) }
{
    origins_are_of_the_plain_nodes();
}
