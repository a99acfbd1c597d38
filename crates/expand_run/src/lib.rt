//! One call of the program for queries with templates: from its words and a query to a status and
//! what was written.
#![tactic(auto)]

mod aside;
mod call;
mod command;
mod explained;
mod laws;
mod mark;
mod origin_lines;
mod refusal_text;
mod reply;
mod status;

pub use call::expand;
pub use laws::each_node_has_an_origin;
pub use status::Status;
