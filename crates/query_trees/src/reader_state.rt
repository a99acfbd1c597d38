//! What a reader of terms remembers between two tokens. A pass over the tokens needs no more than
//! this to know which token may come next:
//!
//!     f ( 1 , g ( x ) )
//!      1 2 3 4 5 6 7 8 9
//!
//!     1: AfterWord(0)   2: Argument(0)   3: AfterTerm(1)   6: Argument(1)   9: AfterTerm(0)
ghost use Rattle.std.specs.Prelude.{◌≡◌, ◌+◌, ◌<◌, ◌≤◌, ◌^◌, IfSome};
ghost use Rattle.query_trees.specs.Steps.{begin, continue_inside, continue_calls, call_or_continue};
ghost use Rattle.query_trees.specs.Steps.{step, may_end, calls_of};

use query_tokens::TokenKind;

/// What comes before this point, with the number of open calls.
#[derive(Clone, Copy)]
pub(crate) enum ReaderState {
    /// At the start, or after a term.
    AfterTerm(usize),
    /// After a word, which may have arguments.
    AfterWord(usize),
    /// After a `(` or a comma, so that an argument has to come. One more call is open than the
    /// number says.
    Argument(usize),
}

/// The place after a token with which a term begins.
fn begin(calls: usize, kind: TokenKind) -> Option<ReaderState>
    ensures next { result ≡ begin calls kind }
    ensures few { IfSome result (λ next. calls_of next ≤ calls) }
{
    match kind {
        TokenKind::Word => Some(ReaderState::AfterWord(calls)),
        TokenKind::Number | TokenKind::Text => Some(ReaderState::AfterTerm(calls)),
        TokenKind::Open | TokenKind::Close | TokenKind::Comma => None,
    }
}

/// The place after a token that comes after an argument. One more call is open than the number
/// says.
fn continue_inside(calls: usize, kind: TokenKind) -> Option<ReaderState>
    ensures next { result ≡ continue_inside calls kind }
    ensures few { IfSome result (λ next. calls_of next ≤ calls) }
{
    match kind {
        TokenKind::Comma => Some(ReaderState::Argument(calls)),
        TokenKind::Close => Some(ReaderState::AfterTerm(calls)),
        TokenKind::Word | TokenKind::Number | TokenKind::Text | TokenKind::Open => None,
    }
}

/// The place after a token that comes after a term.
fn continue_calls(calls: usize, kind: TokenKind) -> Option<ReaderState>
    ensures next { result ≡ continue_calls calls kind }
    ensures few { IfSome result (λ next. calls_of next ≤ calls + 1) }
{
    if calls == 0 {
        begin(0, kind)
    } else {
        continue_inside(calls - 1, kind)
    }
}

/// The place after a token that comes after a word.
fn call_or_continue(calls: usize, kind: TokenKind) -> Option<ReaderState>
    ensures next { result ≡ call_or_continue calls kind }
    ensures few { IfSome result (λ next. calls_of next ≤ calls + 1) }
{
    match kind {
        TokenKind::Open => Some(ReaderState::Argument(calls)),
        TokenKind::Word
        | TokenKind::Number
        | TokenKind::Text
        | TokenKind::Close
        | TokenKind::Comma => continue_calls(calls, kind),
    }
}

/// The place after a token of this kind, if it may come.
pub(crate) fn step(place: ReaderState, kind: TokenKind) -> Option<ReaderState>
    requires few { calls_of place < 2 ^ 63 }
    ensures next { result ≡ step place kind }
    ensures few { IfSome result (λ next. calls_of next ≤ calls_of place + 1) }
{
    match place {
        ReaderState::AfterTerm(calls) => continue_calls(calls, kind),
        ReaderState::AfterWord(calls) => call_or_continue(calls, kind),
        ReaderState::Argument(calls) => begin(calls + 1, kind),
    }
}

/// Whether the text may end there.
pub(crate) fn may_end(place: ReaderState) -> bool
    ensures { result ≡ may_end place }
{
    match place {
        ReaderState::AfterTerm(calls) => calls == 0,
        ReaderState::AfterWord(calls) => calls == 0,
        ReaderState::Argument(_) => false,
    }
}
