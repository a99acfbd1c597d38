//! Calls of `place_in_text`, `io_edge` and `item_drill` with ample memory, and what they give at
//! their edges, where a run of a program shows less. They stand here because a crate with tests is
//! proved twice.
#![tactic(auto)]

#[cfg(test)]
mod assertions;
#[cfg(test)]
mod drills;
#[cfg(test)]
mod files;
#[cfg(test)]
mod held_output;
#[cfg(test)]
mod lines;
#[cfg(test)]
mod places;
#[cfg(test)]
mod prefixes;
#[cfg(test)]
mod resumed_source;
#[cfg(test)]
mod sinks;
#[cfg(test)]
mod sources;
