//! Lines of items that are drawn from a seed. The same seed gives the same lines.
#![tactic(auto)]

mod draws;
mod drill;
mod field;
mod laws;

pub use drill::Drill;
pub use laws::{drilled_bytes_have_lines, drilled_lines_have_items};
