//! Why a text with templates has no plain one.
ghost use Rattle.std.specs.Prelude.{◌≡◌};
ghost use Rattle.query_templates.specs.Refusals.{refused};

use language_base::Span;

#[derive(Clone, Copy, Debug, PartialEq, Eq)]
pub enum TemplateCause {
    /// A definition is neither `def(NAME, BODY)` nor `def(NAME(PARAMETER, ..), BODY)`.
    Form,
    /// A definition does not stand in front of all other terms.
    Misplaced,
    /// A template or a parameter is called like something that the language has.
    Reserved,
    /// A name is that of a template or of another parameter.
    Twice,
    /// A parameter has arguments.
    Applied,
    /// A word with arguments in a body is neither of the language nor an earlier template.
    Unknown,
    /// A use has fewer arguments than its template has parameters.
    TooFew,
    /// A use has more arguments than its template has parameters.
    TooMany,
    /// With uses replaced there would be too many bytes.
    Large,
    /// With uses replaced there would be too many levels.
    Deep,
    /// A parameter stands where no one argument may stand for it and at this place.
    TwoKinds(Span),
    /// An argument may not stand at this place of its parameter.
    OtherKind(Span),
}

/// The first cause, and the place of the term or the word that it is about.
#[derive(Clone, Copy, Debug, PartialEq, Eq)]
pub struct TemplateRefusal {
    pub cause: TemplateCause,
    pub place: Span,
}

/// That there is a refusal of this cause at this place.
pub(crate) fn refusal(cause: TemplateCause, place: Span) -> Option<TemplateRefusal>
    ensures { result ≡ refused cause place }
{
    Some(TemplateRefusal { cause, place })
}
