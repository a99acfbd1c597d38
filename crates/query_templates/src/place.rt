//! The place of a term.
ghost use Rattle.std.specs.Prelude.{◌≡◌};
ghost use Rattle.query_templates.specs.Fronts.{place_of};

use language_base::Span;
use query_trees::Tree;

pub(crate) fn place_of(tree: &Tree) -> Span
    ensures { result ≡ place_of tree.now }
{
    match tree {
        Tree::Leaf(token) => token.span,
        Tree::Call(_, _, place) => *place,
    }
}
