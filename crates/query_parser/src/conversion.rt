//! Terms from the trees that say them.
ghost use Rattle.std.specs.Prelude.{◌≡◌, IfOk};
ghost use Rattle.query_trees.specs.Trees.{leaf, none, tree_before, trees_of};
ghost use Rattle.query_forms.specs.Terms as plain;
ghost use Rattle.query_forms.specs.Terms.{AreOf, IsTokenOf, Say};
ghost use Rattle.query_parser.specs.Sayable.{AreSayable, IsSayable};
ghost use Rattle.query_parser.specs.Plain.{term_before, terms_of};

use crate::{Term, Terms};
use language_base::Bytes;
use query_forms::bytes_at;
use query_tokens::{Token, TokenKind, number_value, text_bytes};
use query_trees::Tree;
use std::alloc::{AllocError, Global};

/// The terms that the trees say.
#[cycle(convert)]
pub(crate) fn terms_of(alloc: Global, text: &[u8], trees: &[Tree]) -> Result<Vec<Term>, AllocError>
    requires tokens { AreOf text.now (trees_of trees.now) }
    requires sayable { AreSayable text.now (trees_of trees.now) }
    ensures { IfOk result (λ terms. Say text.now (trees_of trees.now) (terms_of terms.items)) }
{
    let mut terms = Vec::new(alloc);
    'trees: for tree in trees {
        terms.push(term_of(alloc, text, tree)?)?;
    }
    Ok(terms)
}

#[cycle(convert)]
fn term_of(alloc: Global, text: &[u8], tree: &Tree) -> Result<Term, AllocError>
    requires tokens { AreOf text.now (tree_before tree.now none) }
    requires sayable { AreSayable text.now (tree_before tree.now none) }
    ensures { IfOk result (λ term.
        Say text.now (tree_before tree.now none) (term_before term plain.none)) }
{
    match tree {
        Tree::Leaf(token) => leaf_of(alloc, text, *token),
        Tree::Call(head, arguments, span) => {
            let head = Bytes::from_slice(alloc, bytes_at(text, head.span))?;
            let arguments = Terms::new(terms_of(alloc, text, arguments)?);
            Ok(Term::Call(head, arguments, *span))
        }
    }
}

fn leaf_of(alloc: Global, text: &[u8], token: Token) -> Result<Term, AllocError>
    requires token { IsTokenOf text.now token }
    requires sayable { IsSayable text.now token }
    ensures { IfOk result (λ term. Say text.now (leaf token none) (term_before term plain.none)) }
{
    let raw = bytes_at(text, token.span);
    match token.kind {
        TokenKind::Word => Ok(Term::Word(Bytes::from_slice(alloc, raw)?, token.span)),
        TokenKind::Number => match number_value(raw) {
            Some(value) => Ok(Term::Number(value, token.span)),
            None => unreachable!(),
        },
        TokenKind::Text => Ok(Term::Text(text_bytes(alloc, raw)?, token.span)),
        TokenKind::Open | TokenKind::Close | TokenKind::Comma => unreachable!(),
    }
}
