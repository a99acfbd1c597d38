//! Tables of calls.
ghost use Rattle.std.specs.Prelude.{◌≡◌, map};
ghost use Rattle.query_syntax.specs.Rows.{head_in};
ghost use Rattle.query_syntax.specs.ShownRows.{shown};

/// What a call is, its head word and how many arguments it has.
pub(crate) struct Row<H>(pub(crate) H, pub(crate) &'static [u8], pub(crate) usize);

/// What a call with this head word and this many arguments is, by the first row that has them.
pub(crate) fn head_in<H: Copy>(rows: &[Row<H>], word: &[u8], count: usize) -> Option<H>
    ensures { result ≡ head_in (map shown rows.now) word.now count }
{
    'rows: for &Row(head, written, arguments) in rows {
        if written == word && arguments == count {
            return Some(head);
        }
    }
    None
}
