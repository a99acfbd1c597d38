//! Uses of templates are replaced.
ghost use Rattle.std.specs.Prelude.{◌≡◌, IfErr, IfOk, None};
ghost use Rattle.std.specs.Option.{option_copied};
ghost use Rattle.query_trees.specs.Trees.{leaf, none, tree_before, trees_of};
ghost use Rattle.query_templates.specs.Expansion.{bare_use, call_use, expanded};
ghost use Rattle.query_templates.specs.Made.{AreExpanded};
ghost use Rattle.query_templates.specs.Misfits.{call_misfit, misfit_in};
ghost use Rattle.query_templates.specs.Plain.{plain_template, templates_of};
ghost use Rattle.query_templates.specs.Refusals.{IsStopAt};
ghost use Rattle.query_templates.specs.Templates.{template_at};

use crate::TemplateStop;
use crate::copies::call;
use crate::filling::filled;
use crate::misfit::{Arguments, use_misfit};
use crate::template::{Template, template_at};
use language_base::Span;
use query_tokens::Token;
use query_trees::Tree;
use std::alloc::{AllocError, Global};

/// A term with its uses replaced, where all arguments may stand where their parameters do: in the
/// definition at a place that has these parameters, or in the file.
#[cycle(expand)]
pub(crate) fn expanded(
    alloc: Global,
    tree: &Tree,
    text: &[u8],
    templates: &[Template],
    parameters: Option<&[Span]>,
    place: Span,
) -> Result<Tree, TemplateStop>
    ensures made { IfOk result (λ made. AreExpanded text.now (templates_of templates.now)
        (option_copied parameters.entry) place (tree_before tree.now none)
        (tree_before made none)) }
    ensures stopped { IfErr result (IsStopAt (misfit_in text.now (templates_of templates.now)
        (option_copied parameters.entry) place (tree_before tree.now none))) }
{
    match tree {
        Tree::Leaf(word) => Ok(word_use(alloc, text, templates, *word)?),
        Tree::Call(head, arguments, span) => {
            let made = expanded_all(alloc, arguments, text, templates, parameters, place)?;
            let both = Arguments {
                written: arguments,
                made: &made,
            };
            fit(alloc, text, templates, parameters, place, *head, both)?;
            Ok(call_use(alloc, text, templates, *head, made, *span)?)
        }
    }
}

#[cycle(expand)]
fn expanded_all(
    alloc: Global,
    trees: &[Tree],
    text: &[u8],
    templates: &[Template],
    parameters: Option<&[Span]>,
    place: Span,
) -> Result<Vec<Tree>, TemplateStop>
    ensures made { IfOk result (λ made. AreExpanded text.now (templates_of templates.now)
        (option_copied parameters.entry) place (trees_of trees.now) (trees_of made.items)) }
    ensures stopped { IfErr result (IsStopAt (misfit_in text.now (templates_of templates.now)
        (option_copied parameters.entry) place (trees_of trees.now))) }
{
    let mut made = Vec::new(alloc);
    'trees: for tree in trees {
        let one = expanded(alloc, tree, text, templates, parameters, place)?;
        made.push(one).map_err(AllocError::from)?;
    }
    Ok(made)
}

// Stops where an argument of a call may not stand where its parameter does, if it is a use.
fn fit(
    alloc: Global,
    text: &[u8],
    templates: &[Template],
    parameters: Option<&[Span]>,
    place: Span,
    head: Token,
    arguments: Arguments<'_>,
) -> Result<(), TemplateStop>
    ensures fit { IfOk result (λ _. call_misfit text.now (option_copied parameters.entry) place
        (template_at text.now (templates_of templates.now) head.span)
        (trees_of arguments.entry.written.now) (trees_of arguments.entry.made.now) ≡ None) }
    ensures stopped { IfErr result (IsStopAt (call_misfit text.now
        (option_copied parameters.entry) place
        (template_at text.now (templates_of templates.now) head.span)
        (trees_of arguments.entry.written.now) (trees_of arguments.entry.made.now))) }
{
    let Some(template) = template_at(text, templates, head.span) else {
        return Ok(());
    };
    match use_misfit(alloc, text, parameters, place, template, arguments)? {
        Some(refusal) => Err(TemplateStop::Refused(refusal)),
        None => Ok(()),
    }
}

fn word_use(
    alloc: Global,
    text: &[u8],
    templates: &[Template],
    word: Token,
) -> Result<Tree, AllocError>
    ensures { IfOk result (λ made. tree_before made none
        ≡ expanded text.now (templates_of templates.now) (leaf word none)) }
{
    match template_at(text, templates, word.span) {
        Some(template) => bare_use(alloc, text, template, word),
        None => Ok(Tree::Leaf(word)),
    }
}

fn bare_use(
    alloc: Global,
    text: &[u8],
    template: &Template,
    word: Token,
) -> Result<Tree, AllocError>
    ensures { IfOk result (λ made. tree_before made none ≡ bare_use text.now
        (plain_template template.now) template.now.parameters.items word) }
{
    if template.parameters.is_empty() {
        filled(alloc, &template.body, text, template, &[])
    } else {
        Ok(Tree::Leaf(word))
    }
}

fn call_use(
    alloc: Global,
    text: &[u8],
    templates: &[Template],
    head: Token,
    arguments: Vec<Tree>,
    span: Span,
) -> Result<Tree, AllocError>
    ensures { IfOk result (λ made. tree_before made none
        ≡ call_use text.now (template_at text.now (templates_of templates.now) head.span)
        head (trees_of arguments.items) span) }
{
    match template_at(text, templates, head.span) {
        Some(template) => filled(alloc, &template.body, text, template, &arguments),
        None => Ok(call(head, arguments, span)),
    }
}
