//! A place in a text, shown to a person: its line and column, and the line with marks under the
//! place.
#![tactic(auto)]

mod laws;
mod line;
mod marked_line;
mod part;
mod position;
mod shown_bytes;
mod window;

pub use laws::windows_hold_their_places;
pub use marked_line::push_marked_line;
pub use part::bytes_between;
pub use position::{Position, locate};
