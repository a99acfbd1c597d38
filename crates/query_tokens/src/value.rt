//! The values for which tokens stand.
ghost use Rattle.std.specs.Prelude.{◌≡◌, ℕ, List, IfOk, FitsSigned};
ghost use Rattle.std.specs.Option.{SomeIff};
ghost use Rattle.std.specs.Int.{w64};
ghost use Rattle.std.specs.Str.Parse.{signed_digits_value};
ghost use Rattle.query_tokens.specs.Raw.{IsRaw, IsString};
ghost use Rattle.query_tokens.specs.declared.token.TokenKind.TheVariants.{Number};

use crate::part::part_at;
use language_base::Bytes;
use std::alloc::{AllocError, Global};

/// The bytes for which a string stands.
pub fn text_bytes(alloc: Global, raw: &[u8]) -> Result<Bytes, AllocError>
    requires { (bytes : List ℕ) × IsString raw.now bytes }
    ensures { IfOk result (λ bytes. IsString raw.now bytes) }
{
    let mut bytes = Vec::new(alloc);
    let mut at = 1;
    'parts: while let Some((byte, len)) = part_at(&raw[at..]) {
        bytes.push(byte)?;
        at += len;
    }
    Ok(Bytes::from_vec(bytes))
}

/// The number for which a token stands, if it fits into 64 bits.
pub fn number_value(raw: &[u8]) -> Option<i64>
    requires { IsRaw Number raw.now }
    ensures { SomeIff result (FitsSigned w64 (signed_digits_value 10 raw.now))
        (signed_digits_value 10 raw.now) }
{
    let Ok(text) = str::from_utf8(raw) else {
        return None;
    };
    text.parse().ok()
}
