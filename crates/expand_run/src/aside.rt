//! A second place that helps to understand a refusal for a template.
ghost use Rattle.std.specs.Prelude.{◌≡◌};
ghost use Rattle.expand_run.specs.Asides.{aside_of, place_of};

use language_base::Span;
use query_templates::TemplateCause;

#[derive(Clone, Copy, Debug, PartialEq, Eq)]
pub(crate) enum Aside {
    /// A place of another kind at which a parameter stands.
    Kind(Span),
    /// A place at which the parameter of an argument stands.
    Parameter(Span),
}

/// The second place, if there is one.
pub(crate) fn aside_of(cause: TemplateCause) -> Option<Aside>
    ensures { result ≡ aside_of cause }
{
    match cause {
        TemplateCause::Form
        | TemplateCause::Misplaced
        | TemplateCause::Reserved
        | TemplateCause::Twice
        | TemplateCause::Applied
        | TemplateCause::Unknown
        | TemplateCause::TooFew
        | TemplateCause::TooMany
        | TemplateCause::Large
        | TemplateCause::Deep => None,
        TemplateCause::TwoKinds(place) => Some(Aside::Kind(place)),
        TemplateCause::OtherKind(place) => Some(Aside::Parameter(place)),
    }
}

pub(crate) fn place_of(aside: Aside) -> Span
    ensures { result ≡ place_of aside }
{
    match aside {
        Aside::Kind(place) | Aside::Parameter(place) => place,
    }
}
