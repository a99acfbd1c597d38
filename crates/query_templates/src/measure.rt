//! How much space terms take with their uses replaced, found before these are.
ghost use Rattle.std.specs.Prelude.{◌≡◌, ◌+◌, IfErr, IfOk, None};
ghost use Rattle.query_trees.specs.Trees.{Trees, leaf, none, tree_before, trees_of};
ghost use Rattle.query_templates.specs.declared.extent.Extent.{Extent};
ghost use Rattle.query_templates.specs.Excess.{call_excess, excess, first_excess};
ghost use Rattle.query_templates.specs.Expansion.{bare_use, call_use, filled, term_at};
ghost use Rattle.query_templates.specs.Measured.{AreExtents, AreMeasured, HasExtents, IsExtentOf};
ghost use Rattle.query_templates.specs.Measured.{IsMeasured, capped};
ghost use Rattle.query_templates.specs.Plain.{plain_template, templates_of};
ghost use Rattle.query_templates.specs.Refusals.{IsStopAt};
ghost use Rattle.query_templates.specs.Templates.{template_at};

use crate::extent::Extent;
use crate::stop::refused;
use crate::template::{Template, parameter_at, template_at};
use crate::{TemplateCause, TemplateStop};
use language_base::Span;
use query_tokens::Token;
use query_trees::Tree;
use std::alloc::{AllocError, Global};

/// The most bytes that a text may have.
const MAX_TEXT: u32 = 65_536;

/// The most levels of a term.
const MAX_LEVEL: u32 = 64;

/// The extents of terms, of each by itself and of all.
#[derive(Drop)]
pub(crate) struct Extents {
    pub(crate) each: Vec<Extent>,
    pub(crate) all: Extent,
}

/// The bytes that are used with a term of this extent after others.
pub(crate) fn admitted(used: u32, extent: Extent, place: Span) -> Result<u32, TemplateStop>
    ensures admitted { (exact : Extent) → extent ≡ capped exact → IfOk result (λ bytes.
        (excess used exact place ≡ None) × (bytes ≡ used + exact.bytes)) }
    ensures stopped { (exact : Extent) → extent ≡ capped exact
        → IfErr result (IsStopAt (excess used exact place)) }
{
    let bytes = used.saturating_add(extent.bytes);
    if bytes > MAX_TEXT {
        return Err(refused(TemplateCause::Large, place));
    }
    if extent.levels > MAX_LEVEL {
        return Err(refused(TemplateCause::Deep, place));
    }
    Ok(bytes)
}

// The extent of a part of the template's body, with arguments of these extents in it.
#[cycle(measure_body)]
fn filled_extent(tree: &Tree, text: &[u8], template: &Template, extents: &[Extent]) -> Extent
    ensures { (arguments : Trees) → AreExtents extents.now arguments → IsExtentOf
        (filled text.now (plain_template template.now) arguments (tree_before tree.now none))
        result }
{
    match tree {
        Tree::Leaf(word) => argument_extent(*word, text, template, extents),
        Tree::Call(head, inner, _) => {
            filled_extents(inner, text, template, extents).in_call(*head)
        }
    }
}

#[cycle(measure_body)]
fn filled_extents(trees: &[Tree], text: &[u8], template: &Template, extents: &[Extent]) -> Extent
    ensures { (arguments : Trees) → AreExtents extents.now arguments → IsExtentOf
        (filled text.now (plain_template template.now) arguments (trees_of trees.now)) result }
{
    let mut sum = Extent::nothing();
    'trees: for tree in trees {
        sum = sum.beside(filled_extent(tree, text, template, extents));
    }
    sum
}

// The extent of what stands for a word.
fn argument_extent(word: Token, text: &[u8], template: &Template, extents: &[Extent]) -> Extent
    ensures { (arguments : Trees) → AreExtents extents.now arguments → IsExtentOf
        (filled text.now (plain_template template.now) arguments (leaf word none)) result }
{
    match parameter_at(text, template, word.span) {
        Some(at) => extent_at(word, extents, at),
        None => Extent::of_token(word),
    }
}

fn extent_at(word: Token, extents: &[Extent], at: usize) -> Extent
    ensures { (arguments : Trees) → AreExtents extents.now arguments
        → IsExtentOf (term_at arguments at word) result }
{
    match extents.get(at) {
        Some(extent) => *extent,
        None => Extent::of_token(word),
    }
}

/// The extent of a term with its uses replaced, where no call in it is too large.
#[cycle(measure)]
pub(crate) fn measured(
    alloc: Global,
    tree: &Tree,
    text: &[u8],
    templates: &[Template],
) -> Result<Extent, TemplateStop>
    ensures measured { IfOk result
        (IsMeasured text.now (templates_of templates.now) (tree_before tree.now none)) }
    ensures stopped { IfErr result (IsStopAt
        (first_excess text.now (templates_of templates.now) (tree_before tree.now none))) }
{
    match tree {
        Tree::Leaf(word) => Ok(word_extent(text, templates, *word)),
        Tree::Call(head, arguments, span) => {
            let extents = measured_all(alloc, arguments, text, templates)?;
            call_measured(text, templates, *head, &extents, *span)
        }
    }
}

#[cycle(measure)]
fn measured_all(
    alloc: Global,
    trees: &[Tree],
    text: &[u8],
    templates: &[Template],
) -> Result<Extents, TemplateStop>
    ensures measured { IfOk result
        (AreMeasured text.now (templates_of templates.now) (trees_of trees.now)) }
    ensures stopped { IfErr result (IsStopAt
        (first_excess text.now (templates_of templates.now) (trees_of trees.now))) }
{
    let mut each = Vec::new(alloc);
    let mut all = Extent::nothing();
    'trees: for tree in trees {
        let extent = measured(alloc, tree, text, templates)?;
        each.push(extent).map_err(AllocError::from)?;
        all = all.beside(extent);
    }
    Ok(Extents { each, all })
}

fn word_extent(text: &[u8], templates: &[Template], word: Token) -> Extent
    ensures { IsMeasured text.now (templates_of templates.now) (leaf word none) result }
{
    match template_at(text, templates, word.span) {
        Some(template) => bare_extent(text, template, word),
        None => Extent::of_token(word),
    }
}

fn bare_extent(text: &[u8], template: &Template, word: Token) -> Extent
    ensures { IsExtentOf (bare_use text.now (plain_template template.now)
        template.now.parameters.items word) result }
{
    if template.parameters.is_empty() {
        filled_extent(&template.body, text, template, &[])
    } else {
        Extent::of_token(word)
    }
}

// The extent of what a call stands for whose arguments have these.
fn call_measured(
    text: &[u8],
    templates: &[Template],
    head: Token,
    extents: &Extents,
    span: Span,
) -> Result<Extent, TemplateStop>
    ensures measured { (arguments : Trees) → HasExtents arguments extents.now
        → IfOk result (λ extent. (call_excess text.now
        (template_at text.now (templates_of templates.now) head.span) head arguments span ≡ None)
        × IsExtentOf (call_use text.now
        (template_at text.now (templates_of templates.now) head.span) head arguments span)
        extent) }
    ensures stopped { (arguments : Trees) → HasExtents arguments extents.now
        → IfErr result (IsStopAt (call_excess text.now
        (template_at text.now (templates_of templates.now) head.span) head arguments span)) }
{
    let whole = extents.all.in_call(head);
    admitted(0, whole, span)?;
    let Some(template) = template_at(text, templates, head.span) else {
        return Ok(whole);
    };
    let made = filled_extent(&template.body, text, template, &extents.each);
    admitted(0, made, span)?;
    Ok(made)
}
