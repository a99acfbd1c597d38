//! The bytes of a part of a text.
ghost use Rattle.std.specs.Prelude.{◌≡◌, ◌≤◌, length};
ghost use Rattle.query_forms.specs.Terms.{bytes_at};

use language_base::Span;

pub fn bytes_at(text: &[u8], span: Span) -> &[u8]
    requires order { span.from ≤ span.to }
    requires within { span.to ≤ length text.now }
    ensures { result.now ≡ bytes_at text.now span }
{
    &text[span.from as usize..span.to as usize]
}
