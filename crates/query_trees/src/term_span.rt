//! The place of a term, found from its tokens alone.
ghost use Rattle.std.specs.Prelude.{◌≡◌, List};
ghost use Rattle.query_tokens.specs.declared.token.Token.{Token};
ghost use Rattle.query_trees.specs.Ends.{closing};
ghost use Rattle.query_trees.specs.Reads.{IsBefore, place_of_first};
ghost use Rattle.query_trees.specs.Trees.{Trees};

use language_base::Span;
use query_tokens::{Token, TokenKind};

/// The `)` of a call, where the tokens are those after its `(`.
fn closing(tokens: &[Token]) -> Option<Token>
    ensures { result ≡ closing tokens.now 0 }
{
    let mut calls: usize = 0;
    'tokens: for token in tokens {
        match token.kind {
            TokenKind::Open => calls += 1,
            TokenKind::Close => {
                if calls == 0 {
                    return Some(*token);
                }
                calls -= 1;
            }
            TokenKind::Word | TokenKind::Number | TokenKind::Text | TokenKind::Comma => {}
        }
    }
    None
}

/// The place of the term at the front of the tokens.
pub(crate) fn place_of_first(tokens: &[Token]) -> Option<Span>
    ensures { (trees : Trees) (others : List Token) → IsBefore trees tokens.now others
        → result ≡ place_of_first trees }
{
    match tokens {
        [] => None,
        [head] => Some(head.span),
        [head, next, inner @ ..] => match next.kind {
            TokenKind::Open => {
                let close = closing(inner)?;
                Some(Span {
                    from: head.span.from,
                    to: close.span.to,
                })
            }
            TokenKind::Word
            | TokenKind::Number
            | TokenKind::Text
            | TokenKind::Close
            | TokenKind::Comma => Some(head.span),
        },
    }
}
