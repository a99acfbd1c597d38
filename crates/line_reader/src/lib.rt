//! The items that lines of text write.
#![tactic(auto)]

mod cut;
mod cut_line;
mod field;
mod item_reader;
mod laws;
mod number;
mod number_line;
mod parts;
mod plain_line;
mod quote_state;
mod row;
mod stop;
mod text;

pub use item_reader::read_item;
pub use laws::{
    lines_are_cut_outside_quotes, lines_are_skipped_for_their_texts,
    lines_have_items_of_their_columns, lines_write_their_items,
};
pub use stop::{Cause, ItemStop, Skip};
