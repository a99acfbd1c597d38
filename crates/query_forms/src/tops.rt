//! The top terms of a file, each by itself.
ghost use Rattle.std.specs.Prelude.{◌≡◌, ℕ, List, Some};
ghost use Rattle.query_trees.specs.Trees.{none, tree_before, trees_of};
ghost use Rattle.query_forms.specs.File.{first_place};
ghost use Rattle.query_forms.specs.Terms.{AreOf, Say, Terms};
ghost use Rattle.query_forms.specs.Tops.{arguments_in, is_call, unfit_call, unfit_stream};

use crate::part::bytes_at;
use crate::term_place::TermPlace;
use crate::term_place::TermPlace::{Column, Mode};
use crate::unfit_terms::first_unfit;
use language_base::Span;
use query_trees::Tree;

const STREAM: [TermPlace; 33] = [
    Mode, Column, Column, Column, Column, Column, Column, Column, Column, Column, Column, Column,
    Column, Column, Column, Column, Column, Column, Column, Column, Column, Column, Column, Column,
    Column, Column, Column, Column, Column, Column, Column, Column, Column,
];

fn place_of(tree: &Tree) -> Span
    ensures { (text : List ℕ) (terms : Terms) → Say text (tree_before tree.now none) terms →
        first_place terms ≡ Some result }
{
    match tree {
        Tree::Leaf(token) => token.span,
        Tree::Call(_, _, span) => *span,
    }
}

pub fn first_place(trees: &[Tree]) -> Option<Span>
    ensures { (text : List ℕ) (terms : Terms) → Say text (trees_of trees.now) terms →
        result ≡ first_place terms }
{
    let [tree, ..] = trees else {
        return None;
    };
    Some(place_of(tree))
}

fn arguments_of(tree: &Tree) -> &[Tree]
    ensures of_text { (text : List ℕ) → AreOf text (tree_before tree.now none) →
        AreOf text (trees_of result.now) }
    ensures said { (text : List ℕ) (terms : Terms) → Say text (tree_before tree.now none) terms →
        Say text (trees_of result.now) (arguments_in terms) }
{
    match tree {
        Tree::Leaf(_) => &[],
        Tree::Call(_, arguments, _) => arguments,
    }
}

// Whether the tree is a call of this word with this many arguments.
pub fn is_call(text: &[u8], name: &[u8], count: usize, tree: &Tree) -> bool
    requires { AreOf text.now (tree_before tree.now none) }
    ensures { (terms : Terms) → Say text.now (tree_before tree.now none) terms →
        result ≡ is_call name.now count terms }
{
    match tree {
        Tree::Leaf(_) => false,
        Tree::Call(head, arguments, _) => {
            bytes_at(text, head.span) == name && arguments.len() == count
        }
    }
}

// The first unfit term in the tree, which is to be such a call, with arguments at these places.
pub fn unfit_call(text: &[u8], name: &[u8], places: &[TermPlace], tree: &Tree) -> Option<Span>
    requires { AreOf text.now (tree_before tree.now none) }
    ensures { (terms : Terms) → Say text.now (tree_before tree.now none) terms →
        result ≡ unfit_call name.now places.now terms }
{
    if is_call(text, name, places.len(), tree) {
        first_unfit(text, places, arguments_of(tree))
    } else {
        Some(place_of(tree))
    }
}

// The first unfit term in the tree, which is to be a stream.
pub fn unfit_stream(text: &[u8], tree: &Tree) -> Option<Span>
    requires { AreOf text.now (tree_before tree.now none) }
    ensures { (terms : Terms) → Say text.now (tree_before tree.now none) terms →
        result ≡ unfit_stream terms }
{
    let count = arguments_of(tree).len();
    if 2 <= count && count <= STREAM.len() {
        unfit_call(text, b"stream", &STREAM[..count], tree)
    } else {
        Some(place_of(tree))
    }
}
