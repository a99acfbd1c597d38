//! A query text read to its terms, or refused by its first broken rule; and a file printed.
#![tactic(auto)]

mod conversion;
mod file;
mod laws;
mod printer;
mod reader;
mod stop;
mod string_text;
mod term;
mod term_text;

pub use file::File;
pub use laws::one_reading;
pub use printer::print_file;
pub use reader::{file_of, read_file, shallow_trees};
pub use stop::ReadStop;
pub use term::{Term, Terms};
