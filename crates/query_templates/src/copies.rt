//! Terms are copied.
ghost use Rattle.std.specs.Prelude.{◌≡◌, IfOk};
ghost use Rattle.query_trees.specs.Trees.{Trees, call, none, tree_before, trees_of};

use language_base::Span;
use query_tokens::Token;
use query_trees::Tree;
use std::alloc::{AllocError, Global};

#[cycle(copy)]
pub(crate) fn copies_of(alloc: Global, trees: &[Tree]) -> Result<Vec<Tree>, AllocError>
    ensures { IfOk result (λ copies. trees_of copies.items ≡ trees_of trees.now) }
{
    let mut copies = Vec::new(alloc);
    'trees: for tree in trees {
        copies.push(copy_of(alloc, tree)?)?;
    }
    Ok(copies)
}

#[cycle(copy)]
pub(crate) fn copy_of(alloc: Global, tree: &Tree) -> Result<Tree, AllocError>
    ensures { IfOk result (λ copy. tree_before copy none ≡ tree_before tree.now none) }
{
    match tree {
        Tree::Leaf(token) => Ok(Tree::Leaf(*token)),
        Tree::Call(head, arguments, span) => {
            let arguments = copies_of(alloc, arguments)?;
            Ok(call(*head, arguments, *span))
        }
    }
}

/// A word with arguments.
pub(crate) fn call(head: Token, arguments: Vec<Tree>, span: Span) -> Tree
    ensures { (rest : Trees) →
        tree_before result rest ≡ call head (trees_of arguments.items) span rest }
{
    Tree::Call(head, arguments, span)
}
