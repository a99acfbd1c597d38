//! What is written of a stream's lines beside them, and of all of its lines in the end.
#![tactic(auto)]

mod beside;
mod laws;
mod line_columns;
mod quiet;

pub use beside::Beside;
pub use laws::{a_column_is_what_its_query_writes, the_last_answer_is_the_one_on_all_items};
pub use quiet::Quiet;
