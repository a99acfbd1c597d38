//! The finitely many cells into which predicates part all items.
#![tactic(auto)]

mod cell_set;
mod cells;
mod class_row;
mod classes;
mod columns;
mod laws;
mod mask;
mod masks;
mod starts;
mod stop;
mod texts;
mod truths;

pub use cell_set::CellSet;
pub use cells::Cells;
pub use laws::{cells_part_items, predicates_are_met_or_not};
pub use stop::CellStop;
