//! The columns of a stream, and its items.
#![tactic(auto)]

mod column;
mod derived;
mod item;
mod layout;
mod room;
mod schema;

pub use column::{Column, Kind};
pub use item::Item;
pub use layout::are_columns;
pub use room::Room;
pub use schema::Schema;
