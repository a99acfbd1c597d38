//! What may stand between tokens: spaces and comments.
ghost use Rattle.std.specs.Prelude.{◌≡◌};
ghost use Rattle.query_tokens.specs.Raw.{is_space};
ghost use Rattle.query_tokens.specs.Front.{IsBlankLength};

fn is_space(byte: u8) -> bool
    ensures { result ≡ is_space byte }
{
    byte == b' ' || byte == b'\t' || byte == b'\r' || byte == b'\n'
}

pub(crate) fn blank_len(text: &[u8]) -> usize
    ensures { IsBlankLength text.now result }
{
    let mut in_comment = false;
    'bytes: for (at, &byte) in text.iter().enumerate() {
        if in_comment {
            in_comment = byte != b'\n';
        } else if byte == b'#' {
            in_comment = true;
        } else if !is_space(byte) {
            return at;
        }
    }
    text.len()
}
