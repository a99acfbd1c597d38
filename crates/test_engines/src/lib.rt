//! Calls of `query_model` and `eval_runner` with ample memory, where a run of a program shows less.
//! They stand here because a crate with tests is proved twice.
#![tactic(auto)]

#[cfg(test)]
mod assertions;
#[cfg(test)]
mod fixtures;
#[cfg(test)]
mod queries;
#[cfg(test)]
mod runner;
