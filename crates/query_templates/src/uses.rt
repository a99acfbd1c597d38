//! The first wrong use of a template.
ghost use Rattle.std.specs.Prelude.{◌≡◌};
ghost use Rattle.std.specs.Option.{option_copied};
ghost use Rattle.query_trees.specs.Trees.{none, tree_before, trees_of};
ghost use Rattle.query_templates.specs.Plain.{plain_template, templates_of};
ghost use Rattle.query_templates.specs.Templates.{template_at};
ghost use Rattle.query_templates.specs.Uses.{first_wrong_use, taken, taken_first, unknown};
ghost use Rattle.query_templates.specs.Uses.{wrong_call, wrong_count};
ghost use Rattle.query_templates.specs.Uses.{wrong_declaration, wrong_in_body, wrong_in_file};

use crate::language::is_language_name;
use crate::names::{is_among, is_named};
use crate::refusal::refusal;
use crate::template::{Template, template_at};
use crate::{TemplateCause, TemplateRefusal};
use language_base::Span;
use query_tokens::Token;
use query_trees::Tree;

/// The first word with arguments that is wrong, in a body where there are parameters.
#[cycle(uses)]
pub(crate) fn wrong_use(
    tree: &Tree,
    text: &[u8],
    templates: &[Template],
    parameters: Option<&[Span]>,
) -> Option<TemplateRefusal>
    ensures { result ≡ first_wrong_use text.now (templates_of templates.now)
        (option_copied parameters.entry) (tree_before tree.now none) }
{
    match tree {
        Tree::Leaf(_) => None,
        Tree::Call(head, arguments, span) => {
            match wrong_call(text, templates, parameters, *head, arguments, *span) {
                Some(refusal) => Some(refusal),
                None => first_wrong_use(arguments, text, templates, parameters),
            }
        }
    }
}

#[cycle(uses)]
fn first_wrong_use(
    trees: &[Tree],
    text: &[u8],
    templates: &[Template],
    parameters: Option<&[Span]>,
) -> Option<TemplateRefusal>
    ensures { result ≡ first_wrong_use text.now (templates_of templates.now)
        (option_copied parameters.entry) (trees_of trees.now) }
{
    'trees: for tree in trees {
        if let Some(refusal) = wrong_use(tree, text, templates, parameters) {
            return Some(refusal);
        }
    }
    None
}

fn wrong_call(
    text: &[u8],
    templates: &[Template],
    parameters: Option<&[Span]>,
    head: Token,
    arguments: &[Tree],
    span: Span,
) -> Option<TemplateRefusal>
    ensures { result ≡ wrong_call text.now (templates_of templates.now)
        (option_copied parameters.entry) head (trees_of arguments.now) span }
{
    if is_named(text, head.span, b"def") {
        return refusal(TemplateCause::Misplaced, span);
    }
    match parameters {
        Some(parameters) => {
            wrong_in_body(text, templates, parameters, head, arguments.len(), span)
        }
        None => wrong_in_file(text, templates, head, arguments, span),
    }
}

fn wrong_in_body(
    text: &[u8],
    templates: &[Template],
    parameters: &[Span],
    head: Token,
    count: usize,
    span: Span,
) -> Option<TemplateRefusal>
    ensures { result ≡ wrong_in_body text.now parameters.now
        (template_at text.now (templates_of templates.now) head.span) head count span }
{
    if is_among(text, parameters, head.span) {
        return refusal(TemplateCause::Applied, span);
    }
    match template_at(text, templates, head.span) {
        Some(template) => wrong_count(template, count, span),
        None => unknown(text, head, span),
    }
}

fn unknown(text: &[u8], head: Token, span: Span) -> Option<TemplateRefusal>
    ensures { result ≡ unknown text.now head span }
{
    if is_language_name(text, head.span) {
        None
    } else {
        refusal(TemplateCause::Unknown, span)
    }
}

fn wrong_in_file(
    text: &[u8],
    templates: &[Template],
    head: Token,
    arguments: &[Tree],
    span: Span,
) -> Option<TemplateRefusal>
    ensures { result ≡ wrong_in_file text.now (templates_of templates.now)
        (template_at text.now (templates_of templates.now) head.span) head
        (trees_of arguments.now) span }
{
    match template_at(text, templates, head.span) {
        Some(template) => wrong_count(template, arguments.len(), span),
        None => wrong_declaration(text, templates, head, arguments),
    }
}

fn wrong_count(template: &Template, count: usize, span: Span) -> Option<TemplateRefusal>
    ensures { result ≡ wrong_count (plain_template template.now) count span }
{
    if count < template.parameters.len() {
        return refusal(TemplateCause::TooFew, span);
    }
    if template.parameters.len() < count {
        return refusal(TemplateCause::TooMany, span);
    }
    None
}

fn wrong_declaration(
    text: &[u8],
    templates: &[Template],
    head: Token,
    arguments: &[Tree],
) -> Option<TemplateRefusal>
    ensures { result ≡ wrong_declaration text.now (templates_of templates.now) head
        (trees_of arguments.now) }
{
    if is_named(text, head.span, b"col") || is_named(text, head.span, b"let") {
        taken_first(text, templates, arguments)
    } else {
        None
    }
}

fn taken_first(text: &[u8], templates: &[Template], arguments: &[Tree]) -> Option<TemplateRefusal>
    ensures { result ≡ taken_first text.now (templates_of templates.now)
        (trees_of arguments.now) }
{
    let [first, ..] = arguments else {
        return None;
    };
    match first {
        Tree::Leaf(name) => taken(text, templates, name.span),
        Tree::Call(_, _, _) => None,
    }
}

/// That there is a template that is called as the word at a place.
pub(crate) fn taken(text: &[u8], templates: &[Template], place: Span) -> Option<TemplateRefusal>
    ensures { result ≡ taken (template_at text.now (templates_of templates.now) place) place }
{
    match template_at(text, templates, place) {
        Some(_) => refusal(TemplateCause::Twice, place),
        None => None,
    }
}
