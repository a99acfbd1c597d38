//! The lines of a stream with the answers of its query, for people and for programs.
#![tactic(auto)]

mod cell_rows;
mod column_rows;
mod form;
mod item_again;
mod json_rows;
mod laws;
mod reply_row;
mod ruler;
mod sheet;
mod shown_cell;
mod view;
mod widths;

pub use form::Form;
pub use laws::the_answer_of_a_view_is_that_of_a_run;
pub use view::View;
