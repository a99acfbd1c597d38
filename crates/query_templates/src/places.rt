//! The places of the nodes of terms.
ghost use Rattle.std.specs.Prelude.{◌≡◌, ◌++◌, IfOk, OnOk};
ghost use Rattle.query_trees.specs.Trees.{none, tree_before, trees_of};
ghost use Rattle.query_templates.specs.Origins.{node_places};

use language_base::Span;
use query_trees::Tree;
use std::alloc::{AllocError, Global};

/// The places of the nodes of terms, in the order of the text: of a word by itself its own; of a
/// call its own, that of its word, and those of its arguments.
pub fn node_places(alloc: Global, trees: &[Tree]) -> Result<Vec<Span>, AllocError>
    ensures { IfOk result (λ places. places.items ≡ node_places (trees_of trees.now)) }
{
    let mut places = Vec::new(alloc);
    add_all(trees, &mut places)?;
    Ok(places)
}

/// The same of one term.
pub(crate) fn places_in(alloc: Global, tree: &Tree) -> Result<Vec<Span>, AllocError>
    ensures { IfOk result (λ places. places.items ≡ node_places (tree_before tree.now none)) }
{
    let mut places = Vec::new(alloc);
    add_each(tree, &mut places)?;
    Ok(places)
}

// Appends the places of the nodes of terms.
#[cycle(places)]
fn add_all(trees: &[Tree], places: &mut Vec<Span>) -> Result<(), AllocError>
    ensures { OnOk result (places.new.items
        ≡ places.old.items ++ node_places (trees_of trees.now)) }
{
    'trees: for tree in trees {
        add_each(tree, places)?;
    }
    Ok(())
}

// Appends those of the nodes of one term.
#[cycle(places)]
fn add_each(tree: &Tree, places: &mut Vec<Span>) -> Result<(), AllocError>
    ensures { OnOk result (places.new.items
        ≡ places.old.items ++ node_places (tree_before tree.now none)) }
{
    match tree {
        Tree::Leaf(token) => {
            places.push(token.span)?;
            Ok(())
        }
        Tree::Call(head, arguments, span) => {
            places.push(*span)?;
            places.push(head.span)?;
            add_all(arguments, places)
        }
    }
}
