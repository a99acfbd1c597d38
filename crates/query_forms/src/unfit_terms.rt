//! The first term that has none of the forms of its place.
ghost use Rattle.std.specs.Prelude.{◌≡◌, [], ◌∷◌};
ghost use Rattle.query_trees.specs.Trees.{leaf, none, tree_before, trees_of};
ghost use Rattle.query_forms.specs.Forms.{first_unfit};
ghost use Rattle.query_forms.specs.Terms.{AreOf, IsTokenOf, Say, Terms};

use crate::forms::places_of;
use crate::leaf_forms::{fits_number, fits_text, fits_word};
use crate::part::bytes_at;
use crate::term_place::TermPlace;
use language_base::Span;
use query_tokens::{Token, TokenKind};
use query_trees::Tree;

fn unfit_leaf(text: &[u8], place: TermPlace, token: Token) -> Option<Span>
    requires { IsTokenOf text.now token }
    ensures { (terms : Terms) → Say text.now (leaf token none) terms →
        result ≡ first_unfit (place ∷ []) terms }
{
    let raw = bytes_at(text, token.span);
    let fits = match token.kind {
        TokenKind::Word => fits_word(place, raw),
        TokenKind::Number => fits_number(place, raw),
        TokenKind::Text => fits_text(place),
        TokenKind::Open | TokenKind::Close | TokenKind::Comma => false,
    };
    if fits { None } else { Some(token.span) }
}

// The same of one term.
#[cycle(unfit)]
pub fn unfit(text: &[u8], place: TermPlace, tree: &Tree) -> Option<Span>
    requires { AreOf text.now (tree_before tree.now none) }
    ensures { (terms : Terms) → Say text.now (tree_before tree.now none) terms →
        result ≡ first_unfit (place ∷ []) terms }
{
    match tree {
        Tree::Leaf(token) => unfit_leaf(text, place, *token),
        Tree::Call(head, arguments, span) => {
            match places_of(place, bytes_at(text, head.span), arguments.len()) {
                Some(places) => first_unfit(text, places, arguments),
                None => Some(*span),
            }
        }
    }
}

// The first of the terms that has none of the forms of its place.
#[cycle(unfit)]
pub fn first_unfit(text: &[u8], places: &[TermPlace], trees: &[Tree]) -> Option<Span>
    requires { AreOf text.now (trees_of trees.now) }
    ensures { (terms : Terms) → Say text.now (trees_of trees.now) terms →
        result ≡ first_unfit places.now terms }
{
    'terms: for (&place, tree) in places.iter().zip(trees) {
        if let Some(span) = unfit(text, place, tree) {
            return Some(span);
        }
    }
    None
}
