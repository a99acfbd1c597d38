//! Reads the terms of a query text.
ghost use Rattle.std.specs.Prelude.{◌≡◌, None, IfOk, IfErr};
ghost use Rattle.query_trees.specs.Stops.{IsStopAt};
ghost use Rattle.query_trees.specs.Terms.{AreTerms};
ghost use Rattle.query_trees.specs.Trees.{trees_of, first_deep};

use crate::reader::Reader;
use crate::stop::TreeStop;
use crate::token_pass::check;
use crate::tree::Tree;
use query_tokens::Token;
use std::alloc::Global;

/// The text of the tokens ends at `end`.
pub fn read_trees(alloc: Global, tokens: &[Token], end: u32) -> Result<Vec<Tree>, TreeStop>
    ensures trees { IfOk result (λ trees. AreTerms (trees_of trees.items) tokens.now
        × (first_deep 1 (trees_of trees.items) ≡ None)) }
    ensures stopped { IfErr result (IsStopAt tokens.now end) }
{
    if let Err(span) = check(tokens, end) {
        return Err(TreeStop::NoList(span));
    }
    let mut reader = Reader { rest: tokens, end };
    reader.terms(alloc)
}
