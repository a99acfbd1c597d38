//! Where the parameters of a template stand in its body.
ghost use Rattle.std.specs.Prelude.{◌≡◌, ◌∷◌, [], IfOk, None, Some, if◌then◌else◌};
ghost use Rattle.std.specs.Option.{option_map};
ghost use Rattle.query_trees.specs.Trees.{none, tree_before, trees_of};
ghost use Rattle.query_templates.specs.Expansion.{parameter_at};
ghost use Rattle.query_templates.specs.Kinds.{all_places};
ghost use Rattle.query_templates.specs.Plain.{plain_standings, plain_template};
ghost use Rattle.query_templates.specs.Standings.{both, stand, stand_at, stand_word, standings};

use crate::kinds::{all_places, places_inside, takes_token};
use crate::template::{Template, parameter_at};
use language_base::Span;
use query_forms::TermPlace;
use query_tokens::Token;
use query_trees::Tree;
use std::alloc::{AllocError, Global};

/// A word of a body that is a parameter, and the kind of place at which it stands.
#[derive(Clone, Copy)]
pub(crate) struct Standing {
    pub(crate) parameter: usize,
    pub(crate) at: TermPlace,
    pub(crate) word: Span,
}

// Adds what a part of the template's body at a place has, and says whether it may be there.
#[cycle(stand)]
fn stand(
    text: &[u8],
    template: &Template,
    at: TermPlace,
    tree: &Tree,
    known: &mut Vec<Standing>,
) -> Result<bool, AllocError>
    ensures { IfOk result (λ may. both (Some known.old.items)
        (stand text.now (plain_template template.now) (at ∷ []) (tree_before tree.now none))
        ≡ (if may then Some known.new.items else None)) }
{
    match tree {
        Tree::Leaf(word) => stand_word(text, template, at, *word, known),
        Tree::Call(head, arguments, _) => {
            match places_inside(text, at, head.span, arguments.len()) {
                Some(places) => stand_all(text, template, places, arguments, known),
                None => Ok(false),
            }
        }
    }
}

#[cycle(stand)]
fn stand_all(
    text: &[u8],
    template: &Template,
    places: &[TermPlace],
    trees: &[Tree],
    known: &mut Vec<Standing>,
) -> Result<bool, AllocError>
    ensures { IfOk result (λ may. both (Some known.old.items)
        (stand text.now (plain_template template.now) places.now (trees_of trees.now))
        ≡ (if may then Some known.new.items else None)) }
{
    'trees: for (index, tree) in trees.iter().enumerate() {
        let Some(&at) = places.get(index) else {
            return Ok(true);
        };
        if !stand(text, template, at, tree, known)? {
            return Ok(false);
        }
    }
    Ok(true)
}

fn stand_word(
    text: &[u8],
    template: &Template,
    at: TermPlace,
    word: Token,
    known: &mut Vec<Standing>,
) -> Result<bool, AllocError>
    ensures { IfOk result (λ may. both (Some known.old.items) (stand_word text.now at word
        (parameter_at text.now (plain_template template.now) word.span))
        ≡ (if may then Some known.new.items else None)) }
{
    let Some(parameter) = parameter_at(text, template, word.span) else {
        return Ok(takes_token(text, at, word));
    };
    known.push(Standing {
        parameter,
        at,
        word: word.span,
    })?;
    Ok(true)
}

// The parameters in the body, if it is at a place.
#[tactic(auto, unfolding(crate::specs::Standings::stand_at))]
fn stand_at(
    alloc: Global,
    text: &[u8],
    template: &Template,
    at: TermPlace,
) -> Result<Option<Vec<Standing>>, AllocError>
    ensures { IfOk result (λ found. option_map (λ known. known.items) found
        ≡ stand_at text.now (plain_template template.now) at) }
{
    let mut known = Vec::new(alloc);
    if stand(text, template, at, &template.body, &mut known)? {
        Ok(Some(known))
    } else {
        Ok(None)
    }
}

/// The parameters in the body, at each of the places at which it may be.
#[tactic(auto, unfolding(crate::specs::Standings::standings))]
pub(crate) fn standings(
    alloc: Global,
    text: &[u8],
    template: &Template,
) -> Result<Vec<Vec<Standing>>, AllocError>
    ensures { IfOk result (λ found.
        plain_standings found.items ≡ standings text.now (plain_template template.now)) }
{
    let mut found = Vec::new(alloc);
    let places = all_places();
    'places: for &at in places {
        if let Some(known) = stand_at(alloc, text, template, at)? {
            found.push(known)?;
        }
    }
    Ok(found)
}
