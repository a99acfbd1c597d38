//! Templates.
ghost use Rattle.std.specs.Prelude.{◌≡◌, MatchOption, None, Some};
ghost use Rattle.std.specs.List.{position};
ghost use Rattle.query_templates.specs.Expansion.{is_within, parameter_at};
ghost use Rattle.query_templates.specs.Names.{same_name};
ghost use Rattle.query_templates.specs.Plain.{plain_template, templates_of};
ghost use Rattle.query_templates.specs.Templates.{template_at};

use crate::names::same_name;
use language_base::Span;
use query_trees::Tree;

/// A definition, with the uses in its body replaced.
#[derive(Drop)]
pub(crate) struct Template {
    pub(crate) name: Span,
    pub(crate) parameters: Vec<Span>,
    pub(crate) body: Box<Tree>,
    /// Of the definition, as it is written.
    pub(crate) place: Span,
}

/// The template that is called as the word at a place.
pub(crate) fn template_at<'t>(
    text: &[u8],
    templates: &'t [Template],
    place: Span,
) -> Option<&'t Template>
    ensures { MatchOption result
        (template_at text.now (templates_of templates.now) place ≡ None)
        (λ found. template_at text.now (templates_of templates.now) place
        ≡ Some (plain_template found.now)) }
{
    'templates: for template in templates {
        if same_name(text, template.name, place) {
            return Some(template);
        }
    }
    None
}

/// Whether a place lies within another.
pub(crate) fn is_within(inner: Span, outer: Span) -> bool
    ensures { result ≡ is_within inner outer }
{
    outer.from <= inner.from && inner.to <= outer.to
}

/// Which parameter a word in the template's body is.
#[tactic(auto, unfolding(crate::specs::Expansion::parameter_at))]
pub(crate) fn parameter_at(text: &[u8], template: &Template, place: Span) -> Option<usize>
    ensures { result ≡ parameter_at text.now (plain_template template.now) place }
{
    if is_within(place, template.place) {
        parameter_named(text, &template.parameters, place)
    } else {
        None
    }
}

fn parameter_named(text: &[u8], parameters: &[Span], place: Span) -> Option<usize>
    ensures { result ≡ position (λ name. same_name text.now name place) parameters.now }
{
    parameters
        .iter()
        .position(|name| same_name(text, *name, place))
}
