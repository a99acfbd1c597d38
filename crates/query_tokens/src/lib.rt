//! The tokens of a query text: words, numbers, strings and marks.
#![tactic(auto)]

mod blank;
mod laws;
mod length;
mod part;
mod stop;
mod token;
mod token_reader;
mod value;

pub use laws::{one_fault, one_list_of_tokens, one_text, tokens_or_fault};
pub use stop::TokenStop;
pub use token::{Token, TokenKind};
pub use token_reader::read_tokens;
pub use value::{number_value, text_bytes};
