//! The form of a whole file.
ghost use Rattle.std.specs.Prelude.{◌≡◌};
ghost use Rattle.query_trees.specs.Trees.{trees_of};
ghost use Rattle.query_forms.specs.File.{at_end, unfit_body, unfit_file};
ghost use Rattle.query_forms.specs.Terms.{AreOf, Say, Terms};

use crate::term_place::TermPlace;
use crate::tops::{first_place, is_call, unfit_call, unfit_stream};
use language_base::Span;
use query_trees::Tree;

/// The first term, in the order of the text, that keeps the trees from being a file: a stream, any
/// number of lets, and the main query. A missing one is missed at the end of the text.
pub fn unfit_file(text: &[u8], trees: &[Tree], end: u32) -> Option<Span>
    requires { AreOf text.now (trees_of trees.now) }
    ensures { (terms : Terms) → Say text.now (trees_of trees.now) terms →
        result ≡ unfit_file end terms }
{
    let mut tops = trees.iter();
    let Some(stream) = tops.next() else {
        return Some(at_end(end));
    };
    if let Some(span) = unfit_stream(text, stream) {
        return Some(span);
    }
    unfit_body(text, tops.as_slice(), end)
}

// The same of the trees after the stream.
fn unfit_body(text: &[u8], trees: &[Tree], end: u32) -> Option<Span>
    requires { AreOf text.now (trees_of trees.now) }
    ensures { (terms : Terms) → Say text.now (trees_of trees.now) terms →
        result ≡ unfit_body end terms }
{
    let mut tops = trees.iter();
    'tops: while let Some(top) = tops.next() {
        if is_call(text, b"main", 1, top) {
            let unfit = unfit_call(text, b"main", &[TermPlace::Query], top);
            return unfit.or(first_place(tops.as_slice()));
        }
        if let Some(span) = unfit_call(text, b"let", &[TermPlace::Name, TermPlace::Query], top) {
            return Some(span);
        }
    }
    Some(at_end(end))
}

fn at_end(end: u32) -> Span
    ensures { result ≡ at_end end }
{
    Span { from: end, to: end }
}
