//! The line of an item, as a person would type it.
#![tactic(auto)]

mod field_text;
mod laws;
mod line;
mod number_text;
mod plain_lines;
mod quotes;

pub use laws::shown_lines_are_read_to_their_items;
pub use line::shown_line;
pub use plain_lines::is_shown;
