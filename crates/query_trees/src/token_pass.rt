//! Whether tokens are a list of terms, decided in one pass.
ghost use Rattle.std.specs.Prelude.{IfOk, IfErr};
ghost use Rattle.query_trees.specs.Terms.{AreTerms, IsNoList};
ghost use Rattle.query_trees.specs.Trees.{Trees};

use crate::reader_state::{ReaderState, may_end, step};
use language_base::Span;
use query_tokens::Token;

/// The text ends at `end`, which is the place to name if the last term is not finished.
pub(crate) fn check(tokens: &[Token], end: u32) -> Result<(), Span>
    ensures terms { IfOk result (λ _. (trees : Trees) × AreTerms trees tokens.now) }
    ensures no_list { IfErr result (IsNoList tokens.now end) }
{
    let mut place = ReaderState::AfterTerm(0);
    'tokens: for token in tokens {
        match step(place, token.kind) {
            Some(next) => place = next,
            None => return Err(token.span),
        }
    }
    if may_end(place) {
        Ok(())
    } else {
        Err(Span { from: end, to: end })
    }
}
