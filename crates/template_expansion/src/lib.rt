//! The canonical text of the plain file that a text with templates stands for.
#![tactic(auto)]

mod expansion;
mod laws;
mod stop;

pub use expansion::{Expansion, expand, expand_trees};
pub use laws::{a_plain_file_stands_for_itself, an_expansion_reads_back, one_meaning};
pub use stop::ExpandStop;
