//! A definition, judged and made a template.
ghost use Rattle.std.specs.Prelude.{◌≡◌, [], ◌∷◌, IfErr, IfOk, MatchOption, None, Some};
ghost use Rattle.std.specs.Option.{option_map};
ghost use Rattle.query_trees.specs.Trees.{Trees, leaf, none, tree_before, trees_of};
ghost use Rattle.query_templates.specs.Definitions.{definition_before, definition_in};
ghost use Rattle.query_templates.specs.Definitions.{definition_refusal, is_word, words_in};
ghost use Rattle.query_templates.specs.Definitions.{wrong_declared, wrong_name, wrong_names};
ghost use Rattle.query_templates.specs.Made.{IsDefined, definition_of, words_before};
ghost use Rattle.query_templates.specs.Plain.{plain_template, templates_of};
ghost use Rattle.query_templates.specs.Refusals.{IsStopAt};

use crate::language::is_language_name;
use crate::names::{is_among, same_name};
use crate::refusal::refusal;
use crate::stop::refused;
use crate::template::Template;
use crate::term::{Made, make};
use crate::torn::torn;
use crate::uses::taken;
use crate::{TemplateCause, TemplateRefusal, TemplateStop};
use language_base::Span;
use query_tokens::{Token, TokenKind};
use query_trees::Tree;
use std::alloc::{AllocError, Global};

/// A template, and the bytes that are used with its body.
#[derive(Drop)]
pub(crate) struct Defined {
    pub(crate) template: Template,
    pub(crate) used: u32,
}

/// What a definition defines.
#[derive(Drop)]
struct Heading {
    name: Span,
    parameters: Vec<Span>,
}

/// The template of a `def` with these arguments.
pub(crate) fn define(
    alloc: Global,
    arguments: &[Tree],
    text: &[u8],
    templates: &[Template],
    used: u32,
    place: Span,
) -> Result<Defined, TemplateStop>
    ensures defined { IfOk result (IsDefined text.now (templates_of templates.now) used
        (definition_in (trees_of arguments.now)) place) }
    ensures stopped { IfErr result (IsStopAt (definition_refusal text.now
        (templates_of templates.now) used (definition_in (trees_of arguments.now)) place)) }
{
    let [head, body] = arguments else {
        return Err(refused(TemplateCause::Form, place));
    };
    let Some(heading) = heading_of(alloc, head)? else {
        return Err(refused(TemplateCause::Form, place));
    };
    defined_as(alloc, heading, body, text, templates, used, place)
}

fn defined_as(
    alloc: Global,
    heading: Heading,
    body: &Tree,
    text: &[u8],
    templates: &[Template],
    used: u32,
    place: Span,
) -> Result<Defined, TemplateStop>
    ensures defined { IfOk result (IsDefined text.now (templates_of templates.now) used
        (Some (definition_of heading (tree_before body.now none))) place) }
    ensures stopped { IfErr result (IsStopAt (definition_refusal text.now
        (templates_of templates.now) used
        (Some (definition_of heading (tree_before body.now none))) place)) }
{
    if let Some(refusal) = wrong_heading(text, templates, &heading) {
        return Err(TemplateStop::Refused(refusal));
    }
    let parameters = heading.parameters.as_slice();
    let made = make(alloc, body, text, templates, Some(parameters), used, place)?;
    let used = made.used;
    let template = template_of(alloc, heading, made, place)?;
    match torn(alloc, text, &template)? {
        Some(refusal) => Err(TemplateStop::Refused(refusal)),
        None => Ok(Defined { template, used }),
    }
}

fn template_of(
    alloc: Global,
    heading: Heading,
    made: Made,
    place: Span,
) -> Result<Template, AllocError>
    ensures { IfOk result (λ template. plain_template template ≡ record {
      name = heading.name;
      parameters = heading.parameters.items;
      body = tree_before made.tree none;
      place = place;
    }) }
{
    let body = Box::new(alloc, made.tree)?;
    Ok(Template {
        name: heading.name,
        parameters: heading.parameters,
        body,
        place,
    })
}

fn is_word(kind: TokenKind) -> bool
    ensures { result ≡ is_word kind }
{
    match kind {
        TokenKind::Word => true,
        TokenKind::Number
        | TokenKind::Text
        | TokenKind::Open
        | TokenKind::Close
        | TokenKind::Comma => false,
    }
}

// A name, or a name with the names of parameters.
fn heading_of(alloc: Global, tree: &Tree) -> Result<Option<Heading>, AllocError>
    ensures { IfOk result (λ heading. (body : Trees) →
        definition_before (tree_before tree.now body)
        ≡ option_map (λ heading. definition_of heading body) heading) }
{
    match tree {
        Tree::Leaf(name) => Ok(name_alone(alloc, *name)),
        Tree::Call(name, parameters, _) => match words_in(alloc, parameters)? {
            Some(parameters) => Ok(Some(Heading {
                name: name.span,
                parameters,
            })),
            None => Ok(None),
        },
    }
}

fn name_alone(alloc: Global, name: Token) -> Option<Heading>
    ensures { (body : Trees) → definition_before (leaf name body)
        ≡ option_map (λ heading. definition_of heading body) result }
{
    if is_word(name.kind) {
        Some(Heading {
            name: name.span,
            parameters: Vec::new(alloc),
        })
    } else {
        None
    }
}

// The places of terms that are words by themselves.
fn words_in(alloc: Global, trees: &[Tree]) -> Result<Option<Vec<Span>>, AllocError>
    ensures { IfOk result (λ words.
        option_map (λ words. words.items) words ≡ words_in (trees_of trees.now)) }
{
    let mut words = Vec::new(alloc);
    'trees: for tree in trees {
        match word_of(tree) {
            Some(word) => words.push(word)?,
            None => return Ok(None),
        }
    }
    Ok(Some(words))
}

// The place of a word by itself.
fn word_of(tree: &Tree) -> Option<Span>
    ensures { (others : Trees) → words_in (tree_before tree.now others)
        ≡ words_before result (words_in others) }
{
    match tree {
        Tree::Leaf(token) => word_alone(*token),
        Tree::Call(_, _, _) => None,
    }
}

fn word_alone(token: Token) -> Option<Span>
    ensures { (others : Trees) → words_in (leaf token others)
        ≡ words_before result (words_in others) }
{
    if is_word(token.kind) {
        Some(token.span)
    } else {
        None
    }
}

fn wrong_heading(text: &[u8], templates: &[Template], heading: &Heading) -> Option<TemplateRefusal>
    ensures { result ≡ wrong_names text.now (templates_of templates.now) []
        (heading.now.name ∷ heading.now.parameters.items) }
{
    match wrong_name(text, templates, heading.name) {
        Some(refusal) => Some(refusal),
        None => wrong_parameter(text, templates, heading),
    }
}

// The first parameter whose name is wrong.
fn wrong_parameter(
    text: &[u8],
    templates: &[Template],
    heading: &Heading,
) -> Option<TemplateRefusal>
    ensures { result ≡ wrong_names text.now (templates_of templates.now)
        (heading.now.name ∷ []) heading.now.parameters.items }
{
    let parameters = heading.parameters.as_slice();
    'parameters: for (at, &parameter) in parameters.iter().enumerate() {
        let known = &parameters[..at];
        if let Some(refusal) = wrong_after(text, templates, heading.name, known, parameter) {
            return Some(refusal);
        }
    }
    None
}

// What is wrong with the name of a parameter after the template's and those of others.
fn wrong_after(
    text: &[u8],
    templates: &[Template],
    name: Span,
    parameters: &[Span],
    place: Span,
) -> Option<TemplateRefusal>
    ensures { result ≡ wrong_declared text.now (templates_of templates.now)
        (name ∷ parameters.now) place }
{
    if let Some(refusal) = wrong_name(text, templates, place) {
        return Some(refusal);
    }
    if same_name(text, name, place) || is_among(text, parameters, place) {
        return refusal(TemplateCause::Twice, place);
    }
    None
}

fn wrong_name(text: &[u8], templates: &[Template], place: Span) -> Option<TemplateRefusal>
    ensures { result ≡ wrong_name text.now (templates_of templates.now) place }
{
    if is_language_name(text, place) {
        return refusal(TemplateCause::Reserved, place);
    }
    taken(text, templates, place)
}
