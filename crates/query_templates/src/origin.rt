//! Where the nodes of a plain file come from.
ghost use Rattle.std.specs.Prelude.{◌≡◌, ◌∷◌, ◌++◌, [], IfOk, None, OnOk, Some};
ghost use Rattle.query_trees.specs.Trees.{none, tree_before, trees_of};
ghost use Rattle.query_templates.specs.Appended.{AreAppended, arguments_of};
ghost use Rattle.query_templates.specs.Expansion.{word_use};
ghost use Rattle.query_templates.specs.File.{first_refusal, plain_terms};
ghost use Rattle.query_templates.specs.Origins.{bare_used, came_of, node_places, origins, use_at};
ghost use Rattle.query_templates.specs.Origins.{word_origins, word_used};
ghost use Rattle.query_templates.specs.Plain.{plain_template, templates_of};
ghost use Rattle.query_templates.specs.Templates.{template_at};

use crate::TemplateStop;
use crate::file::front_of;
use crate::places::places_in;
use crate::template::{Template, template_at};
use language_base::Span;
use query_tokens::Token;
use query_trees::Tree;
use std::alloc::{AllocError, Global};

/// Where a node of a plain file comes from.
#[derive(Clone, Copy, Debug, PartialEq, Eq)]
pub struct Origin {
    /// Where it is written.
    pub place: Span,
    /// The outermost use that it came of.
    pub used: Option<Use>,
}

/// A use of a template.
#[derive(Clone, Copy, Debug, PartialEq, Eq)]
pub struct Use {
    /// Of the use, as it is written.
    pub place: Span,
    /// The template's name, where it is defined.
    pub template: Span,
}

/// The origins of the nodes of the plain terms of a file, in the order of `node_places`.
pub fn origins(
    alloc: Global,
    text: &[u8],
    trees: &[Tree],
    plain: &[Tree],
) -> Result<Vec<Origin>, AllocError>
    requires right { first_refusal text.now (trees_of trees.now) ≡ None }
    requires plain { trees_of plain.now ≡ plain_terms text.now (trees_of trees.now) }
    ensures { IfOk result (λ made. made.items ≡ origins text.now (trees_of trees.now)) }
{
    let front = match front_of(alloc, text, trees) {
        Ok(front) => front,
        Err(TemplateStop::Memory) => return Err(AllocError),
        Err(TemplateStop::Refused(_)) => unreachable!(),
    };
    let mut origins = Vec::new(alloc);
    add_all(
        alloc,
        front.rest,
        plain,
        text,
        &front.templates,
        &mut origins,
    )?;
    Ok(origins)
}

// Appends the origins of the nodes of the plain terms that stand for terms.
#[cycle(origins)]
fn add_all(
    alloc: Global,
    trees: &[Tree],
    plain: &[Tree],
    text: &[u8],
    templates: &[Template],
    origins: &mut Vec<Origin>,
) -> Result<(), AllocError>
    ensures { OnOk result (AreAppended text.now (templates_of templates.now)
        (trees_of trees.now) (trees_of plain.now) origins.old.items origins.new.items) }
{
    'terms: for (tree, made) in trees.iter().zip(plain) {
        add_each(alloc, tree, made, text, templates, origins)?;
    }
    Ok(())
}

// Appends those of the nodes of the plain term that stands for one term.
#[cycle(origins)]
fn add_each(
    alloc: Global,
    tree: &Tree,
    made: &Tree,
    text: &[u8],
    templates: &[Template],
    origins: &mut Vec<Origin>,
) -> Result<(), AllocError>
    ensures { OnOk result (AreAppended text.now (templates_of templates.now)
        (tree_before tree.now none) (tree_before made.now none)
        origins.old.items origins.new.items) }
{
    match tree {
        Tree::Leaf(word) => add_word(alloc, *word, made, text, templates, origins),
        Tree::Call(head, arguments, span) => match template_at(text, templates, head.span) {
            Some(template) => add_used(alloc, made, use_at(*span, template), origins),
            None => {
                add_own(*span, origins)?;
                add_own(head.span, origins)?;
                add_all(
                    alloc,
                    arguments,
                    arguments_of(made),
                    text,
                    templates,
                    origins,
                )
            }
        },
    }
}

// Appends those of the nodes of what stands for a word.
fn add_word(
    alloc: Global,
    word: Token,
    made: &Tree,
    text: &[u8],
    templates: &[Template],
    origins: &mut Vec<Origin>,
) -> Result<(), AllocError>
    ensures { tree_before made.now none
        ≡ word_use text.now (template_at text.now (templates_of templates.now) word.span) word
        → OnOk result (origins.new.items ≡ origins.old.items ++ word_origins text.now
        (template_at text.now (templates_of templates.now) word.span) word) }
{
    match word_used(text, templates, word.span) {
        Some(used) => add_used(alloc, made, used, origins),
        None => add_own(word.span, origins),
    }
}

// Appends the origin of a node that came of no use.
fn add_own(place: Span, origins: &mut Vec<Origin>) -> Result<(), AllocError>
    ensures { OnOk result (origins.new.items ≡ origins.old.items ++ came_of None (place ∷ [])) }
{
    origins.push(Origin { place, used: None })?;
    Ok(())
}

// Appends the origins of the nodes of a term that stands for a use.
fn add_used(
    alloc: Global,
    made: &Tree,
    used: Use,
    origins: &mut Vec<Origin>,
) -> Result<(), AllocError>
    ensures { OnOk result (origins.new.items
        ≡ origins.old.items ++ came_of (Some used) (node_places (tree_before made.now none))) }
{
    let places = places_in(alloc, made)?;
    let used = Some(used);
    'places: for &place in &places {
        origins.push(Origin { place, used })?;
    }
    Ok(())
}

// The use that the word at a place is by itself.
fn word_used(text: &[u8], templates: &[Template], place: Span) -> Option<Use>
    ensures { result ≡ word_used (template_at text.now (templates_of templates.now) place) place }
{
    match template_at(text, templates, place) {
        Some(template) => bare_used(template, place),
        None => None,
    }
}

fn bare_used(template: &Template, place: Span) -> Option<Use>
    ensures { result
        ≡ bare_used (plain_template template.now) template.now.parameters.items place }
{
    if template.parameters.is_empty() {
        Some(use_at(place, template))
    } else {
        None
    }
}

fn use_at(place: Span, template: &Template) -> Use
    ensures { result ≡ use_at place (plain_template template.now) }
{
    Use {
        place,
        template: template.name,
    }
}

fn arguments_of(tree: &Tree) -> &[Tree]
    ensures { trees_of result.now ≡ arguments_of (tree_before tree.now none) }
{
    match tree {
        Tree::Leaf(_) => &[],
        Tree::Call(_, arguments, _) => arguments,
    }
}
