//! A term with its uses replaced, where nothing is wrong with it.
ghost use Rattle.std.specs.Prelude.{◌≡◌, IfErr, IfOk};
ghost use Rattle.std.specs.Option.{option_copied};
ghost use Rattle.query_trees.specs.Trees.{none, tree_before};
ghost use Rattle.query_templates.specs.Definitions.{term_refusal};
ghost use Rattle.query_templates.specs.Plain.{templates_of};
ghost use Rattle.query_templates.specs.Refusals.{IsStopAt};
ghost use Rattle.query_templates.specs.Made.{IsMade};

use crate::TemplateStop;
use crate::expansion::expanded;
use crate::measure::{admitted, measured};
use crate::template::Template;
use crate::uses::wrong_use;
use language_base::Span;
use query_trees::Tree;
use std::alloc::Global;

/// A term, and the bytes that are used with it.
#[derive(Drop)]
pub(crate) struct Made {
    pub(crate) tree: Tree,
    pub(crate) used: u32,
}

pub(crate) fn make(
    alloc: Global,
    tree: &Tree,
    text: &[u8],
    templates: &[Template],
    parameters: Option<&[Span]>,
    used: u32,
    place: Span,
) -> Result<Made, TemplateStop>
    ensures made { IfOk result (IsMade text.now (templates_of templates.now)
        (option_copied parameters.entry) used (tree_before tree.now none) place) }
    ensures stopped { IfErr result (IsStopAt (term_refusal text.now (templates_of templates.now)
        (option_copied parameters.entry) used (tree_before tree.now none) place)) }
{
    if let Some(refusal) = wrong_use(tree, text, templates, parameters) {
        return Err(TemplateStop::Refused(refusal));
    }
    let extent = measured(alloc, tree, text, templates)?;
    let used = admitted(used, extent, place)?;
    let tree = expanded(alloc, tree, text, templates, parameters, place)?;
    Ok(Made { tree, used })
}
