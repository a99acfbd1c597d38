//! The forms of a query file: which term may stand where.
#![tactic(auto)]

mod file;
mod form;
mod forms;
mod large_numbers;
mod laws;
mod leaf_forms;
mod part;
mod table;
mod term_place;
mod tops;
mod unfit_terms;

pub use file::unfit_file;
pub use forms::places_of;
pub use large_numbers::first_large;
pub use laws::one_list_of_terms;
pub use leaf_forms::{fits_number, fits_text, fits_word};
pub use part::bytes_at;
pub use term_place::TermPlace;
