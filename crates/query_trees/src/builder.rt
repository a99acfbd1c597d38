//! Builds the trees of tokens that are known to be a list of terms.
ghost use Rattle.std.specs.Prelude.{◌≡◌, ◌<◌, [], ◌∷◌, ◌++◌, length, OnOk, IfErr};
ghost use Rattle.query_trees.specs.Reads.{FirstIsDeep, ReadsFirst, ReadsInCall, ReadsAll};
ghost use Rattle.query_trees.specs.declared.stop.TreeStop.TheVariants.{Memory};

use crate::reader::Reader;
use crate::stop::TreeStop;
use crate::term_span::place_of_first;
use crate::tree::Tree;
use language_base::Span;
use query_tokens::TokenKind;
use std::alloc::{AllocError, Global};

/// The most levels of a term.
const MAX_LEVEL: u32 = 64;

fn push(trees: &mut Vec<Tree>, tree: Tree) -> Result<(), TreeStop>
    ensures pushed { OnOk result (trees.new.items ≡ trees.old.items ++ tree ∷ []) }
    ensures full { IfErr result (λ stop. stop ≡ Memory) }
{
    trees.push(tree).map_err(AllocError::from)?;
    Ok(())
}

impl Reader<'_> {
    #[cycle(read)]
    fn term(&mut self, alloc: Global, level: u32) -> Result<Tree, TreeStop>
        ensures first { ReadsFirst level self.old.rest.now self.new.rest.now result }
        ensures shorter { OnOk result (length self.new.rest.now < length self.old.rest.now) }
    {
        if level > MAX_LEVEL {
            return Err(self.too_deep());
        }
        let head = self.next()?;
        if !self.next_is(TokenKind::Open) {
            return Ok(Tree::Leaf(head));
        }
        let _open = self.next()?;
        let arguments = self.arguments(alloc, level + 1)?;
        let close = self.next()?;
        let span = Span {
            from: head.span.from,
            to: close.span.to,
        };
        Ok(Tree::call(head, arguments, span))
    }

    #[cycle(read)]
    fn arguments(&mut self, alloc: Global, level: u32) -> Result<Vec<Tree>, TreeStop>
        ensures all { ReadsInCall level self.old.rest.now self.new.rest.now result }
        ensures shorter { OnOk result (length self.new.rest.now < length self.old.rest.now) }
    {
        let mut trees = Vec::new(alloc);
        'arguments: loop {
            let tree = self.term(alloc, level)?;
            push(&mut trees, tree)?;
            if !self.next_is(TokenKind::Comma) {
                return Ok(trees);
            }
            let _comma = self.next()?;
        }
    }

    /// The refusal of the term at the front, which is too deep.
    fn too_deep(&self) -> TreeStop
        ensures { FirstIsDeep self.now.rest.now result }
    {
        match place_of_first(self.rest) {
            Some(span) => TreeStop::Deep(span),
            None => self.cut_short(),
        }
    }

    pub(crate) fn terms(&mut self, alloc: Global) -> Result<Vec<Tree>, TreeStop>
        ensures { ReadsAll self.old.rest.now self.new.rest.now result }
    {
        let mut trees = Vec::new(alloc);
        'terms: while !self.rest.is_empty() {
            let tree = self.term(alloc, 1)?;
            push(&mut trees, tree)?;
        }
        Ok(trees)
    }
}
