//! Calls of `predicate_cells`, `plain_items`, `item_lines` and `line_reader` with ample memory,
//! where a run of a program shows less. They stand here because a crate with tests is proved twice.
#![tactic(auto)]

#[cfg(test)]
mod assertions;
#[cfg(test)]
mod cells;
#[cfg(test)]
mod fixtures;
#[cfg(test)]
mod shown_lines;
