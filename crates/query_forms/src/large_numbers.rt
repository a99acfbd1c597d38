//! The first number that 64 bits do not hold.
ghost use Rattle.std.specs.Prelude.{◌≡◌};
ghost use Rattle.query_trees.specs.Trees.{leaf, none, tree_before, trees_of};
ghost use Rattle.query_forms.specs.File.{first_large};
ghost use Rattle.query_forms.specs.Terms.{AreOf, IsTokenOf, Say, Terms};

use crate::part::bytes_at;
use language_base::Span;
use query_tokens::{Token, TokenKind, number_value};
use query_trees::Tree;

/// The first number, in the order of the text, that is not from -2^63 to 2^63-1.
#[cycle(large)]
pub fn first_large(text: &[u8], trees: &[Tree]) -> Option<Span>
    requires { AreOf text.now (trees_of trees.now) }
    ensures { (terms : Terms) → Say text.now (trees_of trees.now) terms →
        result ≡ first_large terms }
{
    'trees: for tree in trees {
        if let Some(span) = large_in(text, tree) {
            return Some(span);
        }
    }
    None
}

// The same in one tree.
#[cycle(large)]
fn large_in(text: &[u8], tree: &Tree) -> Option<Span>
    requires { AreOf text.now (tree_before tree.now none) }
    ensures { (terms : Terms) → Say text.now (tree_before tree.now none) terms →
        result ≡ first_large terms }
{
    match tree {
        Tree::Leaf(token) => large_leaf(text, *token),
        Tree::Call(_, arguments, _) => first_large(text, arguments),
    }
}

fn large_leaf(text: &[u8], token: Token) -> Option<Span>
    requires { IsTokenOf text.now token }
    ensures { (terms : Terms) → Say text.now (leaf token none) terms → result ≡ first_large terms }
{
    if token.kind != TokenKind::Number {
        return None;
    }
    match number_value(bytes_at(text, token.span)) {
        Some(_) => None,
        None => Some(token.span),
    }
}
