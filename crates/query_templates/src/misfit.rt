//! Arguments of another kind than the places of their parameters.
ghost use Rattle.std.specs.Prelude.{◌≡◌, IfOk, map};
ghost use Rattle.std.specs.Option.{option_copied};
ghost use Rattle.query_trees.specs.Trees.{none, tree_before, trees_of};
ghost use Rattle.query_templates.specs.Misfits.{first_misfit, is_open, is_other, misfit, only_at};
ghost use Rattle.query_templates.specs.Misfits.{refused_term, use_misfit};
ghost use Rattle.query_templates.specs.Plain.{plain_standings, plain_template};
ghost use Rattle.query_templates.specs.Standings.{agreed};

use crate::kinds::{places_inside, takes_token};
use crate::names::is_among;
use crate::place::place_of;
use crate::refusal::refusal;
use crate::standing::{Standing, standings};
use crate::template::{Template, is_within};
use crate::{TemplateCause, TemplateRefusal};
use language_base::Span;
use query_trees::Tree;
use std::alloc::{AllocError, Global};

/// The arguments of a use, as they are written and with the uses in them replaced.
#[derive(Clone, Copy)]
pub(crate) struct Arguments<'t> {
    pub(crate) written: &'t [Tree],
    pub(crate) made: &'t [Tree],
}

/// The first argument of a use that may not stand where its parameter does, wherever the body is.
#[tactic(auto, unfolding(crate::specs::Misfits::use_misfit))]
pub(crate) fn use_misfit(
    alloc: Global,
    text: &[u8],
    parameters: Option<&[Span]>,
    place: Span,
    template: &Template,
    arguments: Arguments<'_>,
) -> Result<Option<TemplateRefusal>, AllocError>
    ensures { IfOk result (λ refusal. refusal ≡ use_misfit text.now
        (option_copied parameters.entry) place (plain_template template.now)
        (trees_of arguments.entry.written.now) (trees_of arguments.entry.made.now)) }
{
    let standings = standings(alloc, text, template)?;
    Ok(misfit_in_all(text, parameters, place, arguments, &standings))
}

fn misfit_in_all(
    text: &[u8],
    parameters: Option<&[Span]>,
    place: Span,
    arguments: Arguments<'_>,
    standings: &[Vec<Standing>],
) -> Option<TemplateRefusal>
    ensures { result ≡ agreed (map (first_misfit text.now (option_copied parameters.entry) place
        (trees_of arguments.entry.written.now) (trees_of arguments.entry.made.now))
        (plain_standings standings.now)) }
{
    let [first, others @ ..] = standings else {
        return None;
    };
    let refusal = first_misfit(text, parameters, place, arguments, first);
    'others: for other in others {
        if first_misfit(text, parameters, place, arguments, other).is_none() {
            return None;
        }
    }
    refusal
}

fn first_misfit(
    text: &[u8],
    parameters: Option<&[Span]>,
    place: Span,
    arguments: Arguments<'_>,
    standings: &[Standing],
) -> Option<TemplateRefusal>
    ensures { result ≡ first_misfit text.now (option_copied parameters.entry) place
        (trees_of arguments.entry.written.now) (trees_of arguments.entry.made.now)
        standings.now }
{
    'standings: for &one in standings {
        if let Some(refusal) = misfit(text, parameters, place, arguments, one) {
            return Some(refusal);
        }
    }
    None
}

fn misfit(
    text: &[u8],
    parameters: Option<&[Span]>,
    place: Span,
    arguments: Arguments<'_>,
    one: Standing,
) -> Option<TemplateRefusal>
    ensures { result ≡ misfit text.now (option_copied parameters.entry) place
        (trees_of arguments.entry.written.now) (trees_of arguments.entry.made.now) one }
{
    let Some(made) = arguments.made.get(one.parameter) else {
        return None;
    };
    if is_other(text, parameters, place, one, made) {
        refused_term(
            TemplateCause::OtherKind(one.word),
            arguments.written,
            one.parameter,
        )
    } else {
        None
    }
}

fn is_other(
    text: &[u8],
    parameters: Option<&[Span]>,
    place: Span,
    one: Standing,
    tree: &Tree,
) -> bool
    ensures { result ≡ is_other text.now (option_copied parameters.entry) place one
        (tree_before tree.now none) }
{
    match tree {
        Tree::Leaf(word) => {
            !(takes_token(text, one.at, *word) || is_open(text, parameters, place, word.span))
        }
        Tree::Call(head, arguments, _) => {
            places_inside(text, one.at, head.span, arguments.len()).is_none()
        }
    }
}

fn is_open(text: &[u8], parameters: Option<&[Span]>, place: Span, word: Span) -> bool
    ensures { result ≡ is_open text.now (option_copied parameters.entry) place word }
{
    match parameters {
        Some(parameters) => is_within(word, place) && is_among(text, parameters, word),
        None => false,
    }
}

fn refused_term(cause: TemplateCause, terms: &[Tree], at: usize) -> Option<TemplateRefusal>
    ensures { result ≡ refused_term cause (only_at (trees_of terms.now) at) }
{
    match terms.get(at) {
        Some(term) => refusal(cause, place_of(term)),
        None => None,
    }
}
