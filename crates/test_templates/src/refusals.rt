// What no clause says: that refusals are told where memory suffices, one of each kind.
use crate::assertions::same_at;
use crate::terms::terms_of;
use language_base::Span;
use query_templates::{TemplateCause, TemplateRefusal, TemplateStop, expanded_file};
use std::alloc::Global;

fn refusal_in(alloc: Global, text: &[u8]) -> Option<TemplateRefusal> {
    let trees = terms_of(alloc, text)?;
    match expanded_file(alloc, text, &trees) {
        Err(TemplateStop::Refused(refusal)) => Some(refusal),
        _ => None,
    }
}

// A text, why it is refused, and where.
const REFUSED: &[(&str, TemplateCause, u32, u32)] = &[
    ("def(d)b", TemplateCause::Form, 0, 6),
    ("def(d,b)a(1)def(e,b)", TemplateCause::Misplaced, 12, 20),
    ("def(or,b)", TemplateCause::Reserved, 4, 6),
    ("def(d(P,P),P)", TemplateCause::Twice, 8, 9),
    ("def(d(P),P(1))", TemplateCause::Applied, 9, 13),
    ("def(d(P),d(P))d(1)", TemplateCause::Unknown, 9, 13),
    ("def(d(P,Q),P)d(1)", TemplateCause::TooFew, 13, 17),
    ("def(d(P),P)d(1,2)", TemplateCause::TooMany, 11, 17),
];

#[test]
fn texts_are_refused_where_they_are_wrong(rt: HostRuntime) {
    for &(text, cause, from, to) in REFUSED {
        let place = Span { from, to };
        let wanted = Some(TemplateRefusal { cause, place });
        same_at(&rt, text, refusal_in(rt.alloc(), text.as_bytes()), wanted);
    }
}
