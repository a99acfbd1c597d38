//! The lets of a query file: its first wrong name, how large its main query is with names replaced,
//! and which query a name stands for.
#![tactic(auto)]

mod laws;
mod names;
mod outline;
mod scope;

pub use laws::right_names_are_replaced;
pub use names::wrong_name;
pub use outline::{Outline, unfolded_outline};
pub use scope::{Scope, places_of};
