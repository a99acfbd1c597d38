//! The texts of fields and values, for people and for programs: with decimals, as JSON, as cells.
#![tactic(auto)]

mod decimal;
mod delimited;
mod delimiter;
mod field_text;
mod hex;
mod json_string;
mod key_text;
mod laws;
mod notation;
mod reason;
mod record_text;
mod scalar_text;
mod separator;
mod spelling;
mod table_text;
mod utf8;
mod value_text;

pub use decimal::push_decimal;
pub use delimited::push_cell;
pub use delimiter::Delimiter;
pub use field_text::push_field;
pub use json_string::push_json_string;
pub use laws::whole_numbers_are_written_as_a_run_writes_them;
pub use notation::Notation;
pub use reason::push_reason;
pub use spelling::{Spelling, push_spelled};
pub use utf8::goes_on;
pub use value_text::push_answer;
