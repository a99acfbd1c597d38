//! The tokens of a text, or the place where no token begins.
ghost use Rattle.std.specs.Prelude.{◌≡◌, ◌<◌, ◌≤◌, ◌^◌, length, drop, IfOk, IfErr};
ghost use Rattle.query_tokens.specs.Tokens.{AreTokens};
ghost use Rattle.query_tokens.specs.Next.{IsNext};
ghost use Rattle.query_tokens.specs.Stop.{IsStopAt};

use crate::blank::blank_len;
use crate::length::token_at;
use crate::stop::TokenStop;
use crate::token::Token;
use language_base::Span;
use std::alloc::{AllocError, Global};

/// What comes after the blank at a place.
pub(crate) enum Next {
    Token(Token),
    End,
    Fault(u32),
}

fn next_token(text: &[u8], place: usize) -> Next
    requires small { length text.now < 2 ^ 32 }
    requires within { place ≤ length text.now }
    ensures { IsNext place (drop place text.now) result }
{
    let from = place + blank_len(&text[place..]);
    if from == text.len() {
        return Next::End;
    }
    let Some((kind, len)) = token_at(&text[from..]) else {
        return Next::Fault(from as u32);
    };
    let span = Span {
        from: from as u32,
        to: (from + len) as u32,
    };
    Next::Token(Token { kind, span })
}

/// Reads the tokens of a query text, each as long as possible.
pub fn read_tokens(alloc: Global, text: &[u8]) -> Result<Vec<Token>, TokenStop>
    requires { length text.now < 2 ^ 32 }
    ensures tokens { IfOk result (λ tokens. AreTokens 0 text.now tokens.items) }
    ensures stopped { IfErr result (IsStopAt text.now) }
{
    let mut tokens = Vec::new(alloc);
    let mut place = 0;
    'tokens: loop {
        match next_token(text, place) {
            Next::End => return Ok(tokens),
            Next::Fault(place) => return Err(TokenStop::Fault(place)),
            Next::Token(token) => {
                tokens.push(token).map_err(AllocError::from)?;
                place = token.span.to as usize;
            }
        }
    }
}
