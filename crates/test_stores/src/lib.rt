//! Calls of `split_eval`, `iter_eval`, `compose_eval` and `map_collect` with ample memory, where a
//! run of a program shows less. They stand here because a crate with tests is proved twice.
#![tactic(auto)]

#[cfg(test)]
mod assertions;
#[cfg(test)]
mod chain;
#[cfg(test)]
mod instances;
#[cfg(test)]
mod keys;
#[cfg(test)]
mod pending;
