//! Arguments stand in the places of parameters.
ghost use Rattle.std.specs.Prelude.{◌≡◌, IfOk};
ghost use Rattle.query_trees.specs.Trees.{leaf, none, tree_before, trees_of};
ghost use Rattle.query_templates.specs.Expansion.{filled, term_at};
ghost use Rattle.query_templates.specs.Plain.{plain_template};

use crate::copies::{call, copy_of};
use crate::template::{Template, parameter_at};
use query_tokens::Token;
use query_trees::Tree;
use std::alloc::{AllocError, Global};

/// A part of the template's body, with arguments in it.
#[cycle(fill)]
pub(crate) fn filled(
    alloc: Global,
    tree: &Tree,
    text: &[u8],
    template: &Template,
    arguments: &[Tree],
) -> Result<Tree, AllocError>
    ensures { IfOk result (λ made. tree_before made none
        ≡ filled text.now (plain_template template.now) (trees_of arguments.now)
        (tree_before tree.now none)) }
{
    match tree {
        Tree::Leaf(word) => argument_for(alloc, *word, text, template, arguments),
        Tree::Call(head, inner, span) => {
            let inner = filled_all(alloc, inner, text, template, arguments)?;
            Ok(call(*head, inner, *span))
        }
    }
}

#[cycle(fill)]
fn filled_all(
    alloc: Global,
    trees: &[Tree],
    text: &[u8],
    template: &Template,
    arguments: &[Tree],
) -> Result<Vec<Tree>, AllocError>
    ensures { IfOk result (λ made. trees_of made.items
        ≡ filled text.now (plain_template template.now) (trees_of arguments.now)
        (trees_of trees.now)) }
{
    let mut made = Vec::new(alloc);
    'trees: for tree in trees {
        made.push(filled(alloc, tree, text, template, arguments)?)?;
    }
    Ok(made)
}

// What stands for a word.
fn argument_for(
    alloc: Global,
    word: Token,
    text: &[u8],
    template: &Template,
    arguments: &[Tree],
) -> Result<Tree, AllocError>
    ensures { IfOk result (λ made. tree_before made none
        ≡ filled text.now (plain_template template.now) (trees_of arguments.now)
        (leaf word none)) }
{
    match parameter_at(text, template, word.span) {
        Some(at) => term_at(alloc, word, arguments, at),
        None => Ok(Tree::Leaf(word)),
    }
}

fn term_at(alloc: Global, word: Token, trees: &[Tree], at: usize) -> Result<Tree, AllocError>
    ensures { IfOk result (λ made. tree_before made none ≡ term_at (trees_of trees.now) at word) }
{
    match trees.get(at) {
        Some(tree) => copy_of(alloc, tree),
        None => Ok(Tree::Leaf(word)),
    }
}
