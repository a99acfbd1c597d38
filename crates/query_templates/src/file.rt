//! A whole file with templates.
ghost use Rattle.std.specs.Prelude.{◌≡◌, IfErr, IfOk, MatchOption, None};
ghost use Rattle.query_trees.specs.Trees.{none, tree_before, trees_of};
ghost use Rattle.query_templates.specs.Expansion.{expanded};
ghost use Rattle.query_templates.specs.File.{first_refusal, plain_terms, refused_after};
ghost use Rattle.query_templates.specs.File.{refused_top};
ghost use Rattle.query_templates.specs.Fronts.{AreFront, IsDefinitionAt, IsOther, place_of};
ghost use Rattle.query_templates.specs.Plain.{templates_of};
ghost use Rattle.query_templates.specs.Refusals.{IsStopAt};

use crate::TemplateStop;
use crate::copies::copies_of;
use crate::definition::define;
use crate::names::is_named;
use crate::place::place_of;
use crate::template::Template;
use crate::term::make;
use language_base::Span;
use query_trees::Tree;
use std::alloc::{AllocError, Global};

/// The terms of a plain file, from those of a file with templates.
pub fn expanded_file(alloc: Global, text: &[u8], trees: &[Tree]) -> Result<Vec<Tree>, TemplateStop>
    ensures plain { IfOk result (λ plain.
        trees_of plain.items ≡ plain_terms text.now (trees_of trees.now)) }
    ensures right { IfOk result (λ _. first_refusal text.now (trees_of trees.now) ≡ None) }
    ensures stopped { IfErr result (IsStopAt (first_refusal text.now (trees_of trees.now))) }
{
    let front = front_of(alloc, text, trees)?;
    if front.templates.is_empty() {
        return Ok(copies_of(alloc, front.rest)?);
    }
    plain_of(alloc, front.rest, text, &front.templates, front.used)
}

/// The templates of the definitions in front, the bytes that they use, and the other terms.
#[derive(Drop)]
pub(crate) struct Front<'t> {
    pub(crate) templates: Vec<Template>,
    pub(crate) used: u32,
    pub(crate) rest: &'t [Tree],
}

pub(crate) fn front_of<'t>(
    alloc: Global,
    text: &[u8],
    trees: &'t [Tree],
) -> Result<Front<'t>, TemplateStop>
    ensures front { IfOk result (AreFront text.now (trees_of trees.now)) }
    ensures stopped { IfErr result (IsStopAt (first_refusal text.now (trees_of trees.now))) }
{
    let mut templates = Vec::new(alloc);
    let mut used = 0;
    let mut rest = trees;
    'definitions: while let [first, others @ ..] = rest {
        let Some((arguments, place)) = definition_at(text, first) else {
            break;
        };
        let defined = define(alloc, arguments, text, &templates, used, place)?;
        used = defined.used;
        templates.push(defined.template).map_err(AllocError::from)?;
        rest = others;
    }
    Ok(Front {
        templates,
        used,
        rest,
    })
}

// The arguments of a `def`, and its place.
fn definition_at<'t>(text: &[u8], tree: &'t Tree) -> Option<(&'t [Tree], Span)>
    ensures { MatchOption result (IsOther text.now tree.now)
        (λ found. IsDefinitionAt text.now tree.now found.0.now found.1) }
{
    match tree {
        Tree::Leaf(_) => None,
        Tree::Call(head, arguments, place) => {
            if is_named(text, head.span, b"def") {
                Some((arguments, *place))
            } else {
                None
            }
        }
    }
}

// The terms after the definitions.
fn plain_of(
    alloc: Global,
    trees: &[Tree],
    text: &[u8],
    templates: &[Template],
    used: u32,
) -> Result<Vec<Tree>, TemplateStop>
    ensures plain { IfOk result (λ plain. trees_of plain.items
        ≡ expanded text.now (templates_of templates.now) (trees_of trees.now)) }
    ensures right { IfOk result (λ _. refused_top text.now (templates_of templates.now) used
        (trees_of trees.now) ≡ None) }
    ensures stopped { IfErr result (IsStopAt (refused_top text.now (templates_of templates.now)
        used (trees_of trees.now))) }
{
    let mut plain = Vec::new(alloc);
    let mut used = used;
    'trees: for tree in trees {
        let made = make(alloc, tree, text, templates, None, used, place_of(tree))?;
        used = made.used;
        plain.push(made.tree).map_err(AllocError::from)?;
    }
    Ok(plain)
}
